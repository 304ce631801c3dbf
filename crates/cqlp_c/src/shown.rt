//! What calls take from C and give to it, beside events.

ghost use Rattle.std.specs.Prelude.{◌≡◌};
ghost use Rattle.cqlp_c.specs.Numbers.{code_of_error};
ghost use Rattle.cqlp_c.specs.Shown as shown;

use crate::batch::{Batch, Stop};
use crate::numbers::*;
use cqlp_decode::{Finish, Held, NewError};
use cqlp_note::Limits;

/// Limits, as in `Limits`; a flag is set by anything but 0.
#[repr(C)]
#[derive(Clone, Copy)]
pub struct CqlpLimits {
    /// The bytes of one \[string\] or \[long string\]: 32 to 16,777,216.
    pub text: u32,
    /// The bytes of one \[bytes\], \[short bytes\], \[value\] or scalar cell: 32 to 16,777,216.
    pub cell: u32,
    /// The type options of one metadata, nested ones counted: 1 to 65,536.
    pub entries: u32,
    /// The nesting of one type: 1 to 64.
    pub depth: u32,
    /// Whether cells are read by the types of their columns.
    pub types: u8,
    /// Whether a long blob, custom or raw scalar comes in parts.
    pub parts: u8,
}

/// What one call made of the input.
#[repr(C)]
#[derive(Clone, Copy)]
pub struct CqlpBatch {
    /// How many bytes of the input were used.
    pub used: usize,
    /// How many events were put.
    pub events: usize,
    /// The offset of what is refused, else 0.
    pub at: u64,
    /// Why there are no more events: a number `STOP_..`.
    pub stop: u8,
    /// Why the stream is refused, a number `REASON_..`, else 0.
    pub reason: u8,
}

/// How a stream ends.
#[repr(C)]
#[derive(Clone, Copy)]
pub struct CqlpEnd {
    /// The offset of what is refused, or of the frame that is cut, else 0.
    pub at: u64,
    /// How many bytes were used, but 0 where it is refused.
    pub bytes: u64,
    /// How it ends: a number `END_..`.
    pub verdict: u8,
    /// Why the stream is refused, a number `REASON_..`, else 0.
    pub reason: u8,
}

/// What a decoder holds.
#[repr(C)]
#[derive(Clone, Copy)]
pub struct CqlpHeld {
    /// The bytes of a content that came in pieces.
    pub bytes: u32,
    /// The type options of the metadata begun last.
    pub entries: u32,
    /// The types or values around the one that is read.
    pub levels: u32,
}

/// The limits that C gives.
pub fn limits_of(limits: &CqlpLimits) -> Limits
    ensures { result ≡ shown.limits_of limits.now }
{
    Limits {
        text: limits.text,
        cell: limits.cell,
        entries: limits.entries,
        depth: limits.depth,
        types: limits.types != 0,
        parts: limits.parts != 0,
    }
}

/// A batch, as C sees it.
pub fn batch_of(batch: &Batch) -> CqlpBatch
    ensures { result ≡ shown.batch_of batch.now }
{
    let (stop, at, reason) = match batch.stop {
        Stop::More => (STOP_MORE, 0, 0),
        Stop::Full => (STOP_FULL, 0, 0),
        Stop::Refused(refusal) => (STOP_REFUSED, refusal.at, reason_number(refusal.why)),
    };
    CqlpBatch {
        used: batch.used,
        events: batch.events,
        at,
        stop,
        reason,
    }
}

/// An end, as C sees it.
pub fn end_of(finish: &Finish) -> CqlpEnd
    ensures { result ≡ shown.end_of finish.now }
{
    match *finish {
        Finish::Whole { bytes } => CqlpEnd {
            at: 0,
            bytes,
            verdict: END_WHOLE,
            reason: 0,
        },
        Finish::Cut { frame_at, bytes } => CqlpEnd {
            at: frame_at,
            bytes,
            verdict: END_CUT,
            reason: 0,
        },
        Finish::Refused(refusal) => CqlpEnd {
            at: refusal.at,
            bytes: 0,
            verdict: END_REFUSED,
            reason: reason_number(refusal.why),
        },
    }
}

/// What is held, as C sees it.
pub fn held_of(held: &Held) -> CqlpHeld
    ensures { result ≡ shown.held_of held.now }
{
    CqlpHeld {
        bytes: held.bytes,
        entries: held.entries,
        levels: held.levels,
    }
}

/// The code for a decoder that was not made.
pub fn error_code(error: &NewError) -> u32
    ensures { result ≡ code_of_error error.now }
{
    match *error {
        NewError::BadLimits(limit) => limit_code(limit),
        NewError::NoMemory => NO_MEMORY,
    }
}
