//! A frame, written and read back.

ghost use Rattle.std.specs.Prelude.{◌≡◌, ◌<◌, ◌^◌, ◌-◌, IfErr, IfOk, MatchResult, Ok, length};
ghost use Rattle.cqlp_note.specs.Limits.{first_bad, rules_of};
ghost use Rattle.cqlp_message.specs.Frames.{frame_bytes, frame_size};
ghost use Rattle.cqlp_message.specs.Owned.{frame_of};
ghost use Rattle.cqlp_laws.specs.OneAnswer.{IsNew};
ghost use Rattle.cqlp_round_trip.specs.RoundTrip.{CanTravel, ComesBack, Explains, FailsReading, FailsWithin};
ghost use Rattle.cqlp_round_trip.specs.RoundTrip.{KeepsDecoder, LeavesSink, ReadsAll, StopsReading};
ghost use Rattle.cqlp_note.specs.declared.limits.Limits.{Limits as Given};

use crate::memory::SliceSource;
use cqlp_decode::{Decoder, NewError, Outcome, run};
use cqlp_encode::encode;
use cqlp_grammar::{Finish, Sink, SinkFault};
use cqlp_message::{Frame, Unfit};
use cqlp_note::{BadLimits, Limits, NoMemory, OfStd};
use std::alloc::Allocator;
use thiserror::Error;

/// Why a frame did not come back.
#[derive(Clone, Copy, Debug, PartialEq, Eq, Error)]
pub enum RoundTripError {
    /// No bytes spell the frame.
    #[error("{0}")]
    Unfit(Unfit),
    /// A limit is out of its range.
    #[error("{0}")]
    BadLimits(BadLimits),
    /// Memory was refused, to the decoder or for the bytes of the frame.
    #[error("no memory")]
    NoMemory,
    /// The sink failed at an event.
    #[error("the sink gave up")]
    SinkFault,
}

/// Writes a frame into memory, reads it back with these limits, and hands its events to the sink. Answers the bytes that
/// were written, 9 to 268,435,465 of them, and how they end as a stream. Section 2 of `native_protocol_v4.spec`.
///
/// A frame within the limits, where cells are read by their types, comes back: the sink gets the frame's own events, just
/// them, and the end is [`Finish::Whole`]. Of any other the sink gets what its bytes say under these limits, and the end is
/// theirs.
///
/// Memory is asked for as [`Decoder::new`] does, and once more for the bytes.
///
/// # Errors
///
/// [`RoundTripError::Unfit`] where [`Frame::unfit`] says why no bytes spell the frame, and else
/// [`RoundTripError::BadLimits`] with the first limit that is out of its range. [`RoundTripError::NoMemory`] where memory
/// is refused. In all three nothing was handed to the sink. [`RoundTripError::SinkFault`] at the first event that the sink
/// does not take; it got all those before.
pub fn write_and_read<A: Allocator + Clone, S: Sink>(
    alloc: A,
    frame: &Frame,
    limits: Limits,
    sink: &mut S,
) -> Result<(Vec<u8, A>, Finish), RoundTripError>
    ensures written { IfOk result (λ r.
        CanTravel (frame_of frame.now) limits × (r.0.items ≡ frame_bytes (frame_of frame.now))) }
    ensures back { S.reports sink.old → MatchResult result
        (λ r. ComesBack S.after limits (frame_of frame.now) r.1 (S.view sink.old) (S.view sink.new))
        (λ e. FailsWithin S.after S.faulted limits (frame_of frame.now) e (S.view sink.old) (S.view sink.new)) }
    ensures read { S.reports sink.old → MatchResult result
        (λ r. ReadsAll S.after (rules_of limits) (frame_bytes (frame_of frame.now)) r.1 (S.view sink.old) (S.view sink.new))
        (λ e. StopsReading S.after S.faulted (rules_of limits) (frame_bytes (frame_of frame.now)) e
        (S.view sink.old) (S.view sink.new)) }
    ensures refused { IfErr result (λ e. Explains (frame_of frame.now) limits e) }
    ensures left { IfErr result (λ e. LeavesSink e sink.old sink.new) }
{
    let len = match frame.measure() {
        Ok(len) => len,
        Err(why) => return Err(RoundTripError::Unfit(why)),
    };
    let mut decoder = new_decoder(&alloc, limits)?;
    let Ok(bytes) = write(alloc, frame, len) else {
        return Err(RoundTripError::NoMemory);
    };
    match read(&mut decoder, &bytes, sink) {
        Ok(finish) => Ok((bytes, finish)),
        Err(SinkFault) => Err(RoundTripError::SinkFault),
    }
}

/// A decoder at the start of a stream.
fn new_decoder<A: Allocator + Clone>(
    alloc: &A,
    limits: Limits,
) -> Result<Decoder<A>, RoundTripError>
    ensures made { IfOk result (λ d. IsNew limits d) }
    ensures allowed { IfOk result (λ d. first_bad limits ≡ Ok tt) }
    ensures refused { IfErr result (λ e. KeepsDecoder limits e) }
{
    if let Err(bad) = limits.check() {
        return Err(RoundTripError::BadLimits(bad));
    }
    let Ok(alloc) = alloc.clone() else {
        return Err(RoundTripError::NoMemory);
    };
    match Decoder::new(alloc, limits) {
        Ok(decoder) => Ok(decoder),
        Err(NewError::BadLimits(bad)) => Err(RoundTripError::BadLimits(bad)),
        Err(NewError::NoMemory) => Err(RoundTripError::NoMemory),
    }
}

/// The bytes of a frame, in room for this many.
fn write<A: Allocator>(alloc: A, frame: &Frame, len: u32) -> Result<Vec<u8, A>, NoMemory>
    ensures bytes { IfOk result (λ v. v.items ≡ frame_bytes (frame_of frame.now)) }
    ensures size { IfOk result (λ v. length v.items ≡ frame_size (frame_of frame.now) 0) }
{
    let mut target = OfStd::new(Vec::with_capacity(alloc, len as usize)?);
    match encode(frame, &mut target) {
        Ok(_) => Ok(target.into_inner()),
        Err(_) => Err(NoMemory),
    }
}

/// Hands the events of these bytes to the sink, and answers how they end as a stream.
fn read<A: Allocator, S: Sink>(
    decoder: &mut Decoder<A>,
    bytes: &[u8],
    sink: &mut S,
) -> Result<Finish, SinkFault>
    requires { length bytes.now < 2 ^ 64 - 1 }
    ensures { (limits : Given) → IsNew limits decoder.old → S.reports sink.old → MatchResult result
        (λ end. ReadsAll S.after (rules_of limits) bytes.now end (S.view sink.old) (S.view sink.new))
        (λ e. FailsReading S.after S.faulted (rules_of limits) bytes.now (S.view sink.old) (S.view sink.new)) }
{
    let mut source = SliceSource::new(bytes);
    match run(decoder, &mut source, sink, u64::MAX) {
        Outcome::Finished(finish) => Ok(finish),
        Outcome::SinkFault => Err(SinkFault),
        Outcome::Turns => Ok(decoder.finish()),
        Outcome::ReadFault => unreachable!(),
    }
}
