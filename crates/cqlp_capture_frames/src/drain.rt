//! The decoder of a frame.

ghost use Rattle.std.specs.Prelude.{◌≡◌, ◌≤◌, List, ℕ, None};
ghost use Rattle.cqlp_decode.specs.Streams.{state};
ghost use Rattle.cqlp_capture_frames.specs.Frames.{behind, nodes_of};
ghost use Rattle.cqlp_capture_frames.specs.Reading.{Drains, IsNew, IsReading};

use crate::transcript::Transcript;
use cqlp_decode::{Decoder, Step};
use cqlp_note::Refusal;
use cqlp_text::{Pen, TextWriter};
use cqlp_type::TypeTable;
use std::alloc::Allocator;

/// The offset after this many bytes; the greatest number, if more.
pub(crate) fn behind(at: u64, used: u64) -> u64
    ensures { result ≡ behind at used }
{
    at.saturating_add(used)
}

/// Begins a frame, and gives these types, if there are some.
pub(crate) fn begin_frame<A: Allocator>(decoder: &mut Decoder<A>, types: Option<TypeTable<A>>)
    ensures new { IsNew (nodes_of types) (state decoder.new) }
    ensures rules { (state decoder.new).rules ≡ (state decoder.old).rules }
{
    let _ = decoder.restart();
    if let Some(table) = types {
        let _ = decoder.give(table);
    }
}

/// Reports the events that more bytes say of the frame that begins there. Answers why it is refused, if it is.
pub(crate) fn drain<T: Transcript<A>, P: Pen, A: Allocator>(
    decoder: &mut Decoder<A>,
    input: &[u8],
    at: u64,
    transcript: &mut T,
    writer: &mut TextWriter<P>,
) -> Result<Option<Refusal>, T::Fault>
    requires some { 1 ≤ (state decoder.old).rules.part }
    ensures drains { (bytes : List ℕ) → IsReading (state decoder.old) bytes →
        Drains T.Transcript.refuses T.Transcript.manner at bytes input.now (state decoder.old) (T.Transcript.state transcript.old)
        result (state decoder.new) (T.Transcript.state transcript.new) writer.old writer.new }
    ensures rules { (state decoder.new).rules ≡ (state decoder.old).rules }
    ensures given { (state decoder.new).given ≡ (state decoder.old).given }
{
    let mut used = 0;
    'events: loop {
        match decoder.next(&input[used..]) {
            Step::More { .. } => return Ok(None),
            Step::Refused(refusal) => return Ok(Some(refusal)),
            Step::Event {
                at: behind_frame,
                used: taken,
                event,
            } => {
                transcript.event(behind(at, behind_frame), &event, writer)?;
                used += taken;
            }
        }
    }
}
