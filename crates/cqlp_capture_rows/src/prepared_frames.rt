//! The frames of other connections that may be PREPAREDs, while their bytes come.

ghost use Rattle.std.specs.Prelude.{◌≡◌, IfOk, IsSome, OnErr, OnOk};
ghost use Rattle.cqlp_capture_rows.specs.Frames.{frame_begins, frame_ends, frame_grows, frame_of, may_prepare, no_frames};

use crate::other_limits::{LONGEST_PREPARED, OTHER_FRAMES};
use crate::prepared_frame::PreparedFrame;
use cqlp_capture_prepared::{Latest, NewPreparedError};
use cqlp_note::{Header, Opcode};
use std::alloc::{AllocError, Allocator, Global};
use std::marker::Model;

/// The frame of each connection that may be a PREPARED, at most [`OTHER_FRAMES`]: of too many the one goes of which bytes came longest ago.
#[derive(Drop)]
pub(crate) struct PreparedFrames<A: Allocator = Global> {
    alloc: A,
    frames: Latest<u64, PreparedFrame<A>, A>,
}

impl<A: Allocator> Model for PreparedFrames<A> {
    ghost use Rattle.cqlp_capture_rows.specs.Frames.{PreparedFrames};

    ghost Value = { PreparedFrames };

    ghost view = { λ p. p.frames };
}

impl<A: Allocator + Clone> PreparedFrames<A> {
    /// There are none. Memory for the list is taken here, and not for bytes.
    pub(crate) fn new(alloc: A) -> Result<Self, AllocError>
        ensures { IfOk result (λ p. p ≡ no_frames) }
    {
        match Latest::new(alloc.clone()?, OTHER_FRAMES) {
            Ok(frames) => Ok(PreparedFrames { alloc, frames }),
            Err(NewPreparedError::NoMemory | NewPreparedError::BadLimit) => Err(AllocError),
        }
    }

    /// A frame with this header begins on the connection with this number.
    #[tactic(auto, using(crate::proofs::Frames::is_lawful))]
    pub(crate) fn begin(&mut self, number: u64, header: &Header) -> Result<(), AllocError>
        ensures { OnOk result (self.new ≡ frame_begins number header.now self.old) }
    {
        if may_prepare(header) {
            let frame = PreparedFrame::new(self.alloc.clone()?, header);
            self.frames.put(number, frame);
        } else {
            let _ = self.end(number);
        }
        Ok(())
    }

    /// More bytes come of the body of its frame.
    pub(crate) fn grow(&mut self, number: u64, bytes: &[u8]) -> Result<(), AllocError>
        ensures is { OnOk result (self.new ≡ frame_grows bytes.now number self.old) }
        ensures asks { OnErr result (IsSome (frame_of number self.old)) }
    {
        let Some(frame) = self.end(number) else {
            return Ok(());
        };
        if let Some(frame) = frame.with(bytes)? {
            self.frames.put(number, frame);
        }
        Ok(())
    }

    /// Its frame ends. Answers that, if it may be a PREPARED.
    pub(crate) fn end(&mut self, number: u64) -> Option<PreparedFrame<A>>
        ensures is { result ≡ frame_of number self.old }
        ensures left { self.new ≡ frame_ends number self.old }
    {
        self.frames.take(&number)
    }
}

/// Whether a frame with this header may be a PREPARED.
fn may_prepare(header: &Header) -> bool
    ensures { result ≡ may_prepare header.now }
{
    header.opcode == Opcode::Result
        && header.flags & 0x01 == 0
        && header.response
        && header.length <= LONGEST_PREPARED
}
