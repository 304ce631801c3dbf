//! A reader's capture, split into the streams of its connections.

ghost use Rattle.std.specs.Prelude.{◌≡◌, IfOk, IsSome, Ok, OnOk, List, ℕ, None, Some, false, length};
ghost use Rattle.cqlp_capture.specs.Progress.{ending, new_state};
ghost use Rattle.cqlp_capture_streams.specs.Packets.{SplitState};
ghost use Rattle.cqlp_capture_streams.specs.Captures.{AreCounted, BeginsNext, DrainsTo, EndsTo, Has, IsAtEndOf, ReadsMade, SplitsTo};
ghost use Rattle.cqlp_capture_streams.specs.Captures.{is_cut, most_read, read_counts};

use crate::fault::StreamsFault;
use crate::input::CaptureInput;
use crate::listener::Listener;
use crate::splitter::Splitter;
use cqlp_capture::{CaptureEnd, CaptureReader, CaptureStep};
use cqlp_note::IoFault;
use std::alloc::Allocator;

/// How the events of a piece end.
#[derive(Clone, Copy)]
enum Drained {
    More,
    Refused,
}

/// Reports all events of a reader's capture, of one file or of several, from at most `turns` reads into the buffer, none of which is tried again.
/// No read is made before the listener has got all events of the bytes read so far. At the end of the file, or where it is refused, all
/// connections leave.
pub(crate) fn split<R: CaptureInput, L: Listener, A: Allocator, B: Allocator + Clone>(
    reader: &mut CaptureReader<A>,
    splitter: &mut Splitter<B>,
    input: &mut R,
    buffer: &mut [u8],
    listener: &mut L,
    turns: u64,
) -> Result<CaptureEnd, StreamsFault>
    requires room { length buffer.old ≡ most_read }
    requires reader { reader.old ≡ new_state reader.old.limits }
    ensures reports { L.reports listener.old → OnOk result (L.reports listener.new) }
    ensures splits { (xs : List ℕ) → R.left input.old ≡ Some xs → L.reports listener.old →
        (m : ReadsMade) × AreCounted m (read_counts R.Source input.old) (read_counts R.Source input.new)
        × SplitsTo L.after L.faulted reader.old.limits splitter.old turns m (L.view listener.old) xs result
        (R.left input.new) splitter.new (L.view listener.new) }
{
    for turn in 0..turns {
        let count = match input.read(buffer) {
            Ok(count) => count,
            Err(IoFault) => return Err(StreamsFault::Read),
        };
        let drained = drain(reader, splitter, &buffer[..count], listener)?;
        match drained {
            Drained::Refused => return end_all(reader, splitter, listener),
            Drained::More => {
                if count == 0 {
                    if begin_next(reader, splitter, input)? {
                        continue;
                    }
                    return end_all(reader, splitter, listener);
                }
            }
        }
    }
    Err(StreamsFault::TooManyTurns)
}

/// Begins the next file, if there is one; a file that ends within a packet or a block is counted as cut.
fn begin_next<R: CaptureInput, A: Allocator, B: Allocator>(
    reader: &mut CaptureReader<A>,
    splitter: &mut Splitter<B>,
    input: &mut R,
) -> Result<bool, StreamsFault>
    ensures one { IsSome (R.left input.old) →
        (result ≡ Ok false) × (input.new ≡ input.old) × (reader.new ≡ reader.old) × (splitter.new ≡ splitter.old) }
    ensures begun { IfOk result (λ is_begun. BeginsNext is_begun reader.old splitter.old reader.new splitter.new) }
    ensures reads { R.reads input.new ≡ R.reads input.old }
    ensures failures { R.failures input.new ≡ R.failures input.old }
    ensures asked { R.asked input.new ≡ R.asked input.old }
{
    match input.next_file() {
        Ok(false) => Ok(false),
        Ok(true) => {
            splitter.count_file(is_cut(&reader.finish()));
            reader.restart();
            Ok(true)
        }
        Err(IoFault) => Err(StreamsFault::Read),
    }
}

/// Whether a file ends within what began last.
fn is_cut(end: &CaptureEnd) -> bool
    ensures { result ≡ is_cut end.now }
{
    matches!(end, CaptureEnd::Cut { .. })
}

/// Reports what the events of a piece hold.
fn drain<L: Listener, A: Allocator, B: Allocator + Clone>(
    reader: &mut CaptureReader<A>,
    splitter: &mut Splitter<B>,
    piece: &[u8],
    listener: &mut L,
) -> Result<Drained, StreamsFault>
    ensures reports { L.reports listener.old → OnOk result (L.reports listener.new) }
    ensures drains { (t : SplitState) (before : L.View) (s : List ℕ) → L.reports listener.old →
        Has L.after t before s reader.old splitter.old (L.view listener.old) → reader.old.refusal ≡ None →
        DrainsTo L.after L.faulted reader.old.limits t before s piece.now result reader.new splitter.new (L.view listener.new) }
{
    let mut used = 0;
    for turn in 0..u64::MAX {
        match reader.next(&piece[used..]) {
            CaptureStep::More { .. } => return Ok(Drained::More),
            CaptureStep::Refused(_) => return Ok(Drained::Refused),
            CaptureStep::Event {
                used: taken,
                event,
                ..
            } => {
                used += taken;
                splitter.take(&event, listener)?;
            }
        }
    }
    Err(StreamsFault::TooManyTurns)
}

/// At the end of the file, or where it is refused: has all connections leave. Says how the file ends.
fn end_all<L: Listener, A: Allocator, B: Allocator + Clone>(
    reader: &CaptureReader<A>,
    splitter: &mut Splitter<B>,
    listener: &mut L,
) -> Result<CaptureEnd, StreamsFault>
    ensures reports { L.reports listener.old → OnOk result (L.reports listener.new) }
    ensures ends { (t : SplitState) (turns : ℕ) (m : ReadsMade) (before : L.View) (s : List ℕ) (read : List ℕ) → L.reports listener.old →
        (h : Has L.after t before s reader.now splitter.old (L.view listener.old)) → IsAtEndOf reader.now read s h.events →
        EndsTo L.after L.faulted reader.now.limits t turns m before read result splitter.new (L.view listener.new) }
    ensures end { IfOk result (λ e. e ≡ ending reader.now) }
{
    let end = reader.finish();
    splitter.finish(listener)?;
    Ok(end)
}
