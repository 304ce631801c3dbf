//! A frame of which bytes are read.

ghost use Rattle.std.specs.Prelude.{◌≡◌, [], Bool, IfOk, Some, None};
ghost use Rattle.cqlp_note.specs.Limits.{rules_of};
ghost use Rattle.cqlp_observer.specs.declared.heads.Heads.{Heads};
ghost use Rattle.cqlp_capture_frames.specs.Frames.{nodes_of, opened, taken};
ghost use Rattle.cqlp_capture_frames.specs.Readers.{frame_reading};
ghost use Rattle.cqlp_capture_frames.specs.Directions.{IsReported, body, closes, direction, ends};

use crate::drain::{begin_frame, behind, drain};
use crate::noted::Noted;
use crate::transcript::Transcript;
use cqlp_decode::Decoder;
use cqlp_note::Limits;
use cqlp_text::{Pen, TextWriter};
use cqlp_type::TypeTable;
use std::alloc::{AllocError, Allocator, Global};
use std::marker::Model;

/// The decoder of one frame, which has its memory while the frame is read.
#[derive(Drop)]
pub(crate) struct FrameReader<A: Allocator = Global> {
    decoder: Decoder<A>,
    /// Whether more of the frame is read: it was not refused.
    is_open: bool,
    /// Where the frame begins.
    at: u64,
    /// What the decoder was handed of it.
    came: Noted,
}

impl<A: Allocator> Model for FrameReader<A> {
    ghost use Rattle.cqlp_decode.specs.Streams.{state};
    ghost use Rattle.cqlp_capture_frames.specs.Frames.{nodes_of};
    ghost use Rattle.cqlp_capture_frames.specs.Reading.{IsReady, frame_if};
    ghost use Rattle.cqlp_capture_frames.specs.Readers.{FrameReading, frame_reading};

    ghost Value = { FrameReading };

    ghost view = { λ r. frame_reading (state r.decoder).rules (frame_if r.is_open r.at (nodes_of (state r.decoder).given) r.came.bytes) };

    ghost invariant = { λ r. IsReady r.is_open (state r.decoder) r.came.bytes };
}

impl<A: Allocator + Clone> FrameReader<A> {
    /// Begins a frame at an offset, within these limits and with these types, if there are some. All memory is taken here.
    pub(crate) fn new(
        alloc: A,
        limits: Limits,
        at: u64,
        types: Option<TypeTable<A>>,
    ) -> Result<Self, AllocError>
        ensures { IfOk result (λ r. r ≡ frame_reading (rules_of limits) (Some (opened at (taken (rules_of limits) (nodes_of types)) []))) }
    {
        let Ok(mut decoder) = Decoder::new(alloc, limits) else {
            return Err(AllocError);
        };
        begin_frame(&mut decoder, types);
        Ok(FrameReader {
            decoder,
            is_open: true,
            at,
            came: Noted::new(),
        })
    }
}

impl<A: Allocator> FrameReader<A> {
    ghost use Rattle.std.specs.Prelude.{is_some};

    /// Whether more of the frame is read.
    pub(crate) fn is_open(&self) -> bool
        ensures { result ≡ is_some self.now.frame }
    {
        self.is_open
    }

    /// Takes bytes that come next of the frame.
    pub(crate) fn take<T: Transcript<A>, P: Pen>(
        &mut self,
        bytes: &[u8],
        transcript: &mut T,
        writer: &mut TextWriter<P>,
    ) -> Result<(), T::Fault>
        ensures reported { (responses : Bool) (heads : Heads) →
            IsReported T.Transcript.refuses
            (body T.Transcript.manner bytes.now self.old.frame (T.Transcript.state transcript.old) (direction self.old.rules responses heads self.old.frame))
            result writer.old writer.new (direction self.new.rules responses heads self.new.frame) (T.Transcript.state transcript.new) }
        ensures same { self.new.rules ≡ self.old.rules }
    {
        if !self.is_open {
            return Ok(());
        }
        self.is_open = false;
        self.came.note(bytes);
        match drain(&mut self.decoder, bytes, self.at, transcript, writer)? {
            None => {
                self.is_open = true;
                Ok(())
            }
            Some(refusal) => {
                transcript.refusal(behind(self.at, refusal.at), refusal.why, writer)
            }
        }
    }

    /// The frame came whole.
    pub(crate) fn end<T: Transcript<A>, P: Pen>(
        &self,
        transcript: &mut T,
        writer: &mut TextWriter<P>,
    ) -> Result<(), T::Fault>
        ensures { (responses : Bool) (heads : Heads) →
            IsReported T.Transcript.refuses
            (ends T.Transcript.manner self.now.frame (T.Transcript.state transcript.old) (direction self.now.rules responses heads self.now.frame))
            result writer.old writer.new (direction self.now.rules responses heads None) (T.Transcript.state transcript.new) }
    {
        if !self.is_open {
            return Ok(());
        }
        transcript.end(self.decoder.table(), writer)
    }

    /// No more comes of the frame.
    pub(crate) fn close<T: Transcript<A>, P: Pen>(
        &self,
        transcript: &mut T,
        writer: &mut TextWriter<P>,
    ) -> Result<(), T::Fault>
        ensures { (responses : Bool) (heads : Heads) →
            IsReported T.Transcript.refuses
            (closes T.Transcript.manner self.now.frame (T.Transcript.state transcript.old) (direction self.now.rules responses heads self.now.frame))
            result writer.old writer.new (direction self.now.rules responses heads None) (T.Transcript.state transcript.new) }
    {
        if !self.is_open {
            return Ok(());
        }
        transcript.close(writer)
    }
}
