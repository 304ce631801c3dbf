//! A frame in fewer bytes.

ghost use Rattle.std.specs.Prelude.{◌≡◌};
ghost use Rattle.cqlp_observer.specs.Records.{time_of};

use crate::message::{Extent, Frame, Message, is_no_later};
use cqlp_note::Header;
use std::marker::Model;

/// A frame, as it is kept while it waits: 40 bytes in place of 56.
#[derive(Drop)]
pub(crate) struct FrameRecord {
    at: u64,
    begun: u64,
    ended: u64,
    header: Header,
    extent: Extent,
    is_begun_known: bool,
    is_ended_known: bool,
}

impl Model for FrameRecord {
    ghost use Rattle.cqlp_observer.specs.declared.message.Frame.{Frame};
    ghost use Rattle.cqlp_observer.specs.Records.{frame_with, time_of};

    ghost Value = { Frame };

    ghost view = { λ r. frame_with r.header r.at (time_of r.is_begun_known r.begun) (time_of r.is_ended_known r.ended) r.extent };
}

impl FrameRecord {
    #[inline(always)]
    pub(crate) fn new(frame: &Frame) -> Self
        ensures { result ≡ frame.now }
    {
        let (is_begun_known, begun) = parts_of(frame.begun);
        let (is_ended_known, ended) = parts_of(frame.ended);
        FrameRecord {
            header: frame.header,
            at: frame.at,
            begun,
            ended,
            extent: frame.extent,
            is_begun_known,
            is_ended_known,
        }
    }

    #[inline(always)]
    pub(crate) fn frame(&self) -> Frame
        ensures { result ≡ self.now }
    {
        Frame {
            header: self.header,
            at: self.at,
            begun: time_of(self.is_begun_known, self.begun),
            ended: time_of(self.is_ended_known, self.ended),
            extent: self.extent,
        }
    }
}

/// Whether a time is known, and its number, or 0.
#[inline(always)]
pub(crate) fn parts_of(time: Option<u64>) -> (bool, u64)
    ensures { time_of result.0 result.1 ≡ time }
{
    match time {
        Some(time) => (true, time),
        None => (false, 0),
    }
}

/// The time with this number, if it is known.
#[inline(always)]
pub(crate) fn time_of(is_known: bool, time: u64) -> Option<u64>
    ensures { result ≡ time_of is_known time }
{
    if is_known { Some(time) } else { None }
}

/// A message as it waits.
#[derive(Drop)]
pub(crate) struct MessageRecord<T> {
    frame: FrameRecord,
    kept: T,
}

impl<T> Model for MessageRecord<T> {
    ghost use Rattle.cqlp_observer.specs.declared.message.Message.{Message};
    ghost use Rattle.cqlp_observer.specs.Records.{message_with};

    ghost Value = { Message T };

    ghost view = { λ r. message_with r.frame r.kept };
}

impl<T> MessageRecord<T> {
    ghost use Rattle.cqlp_observer.specs.Messages.{id_of, meets};

    #[inline(always)]
    pub(crate) fn new(message: Message<T>) -> Self
        ensures { result ≡ message }
    {
        MessageRecord {
            frame: FrameRecord::new(&message.frame),
            kept: message.kept,
        }
    }

    #[inline(always)]
    pub(crate) fn into_message(self) -> Message<T>
        ensures { result ≡ self }
    {
        Message {
            frame: self.frame.frame(),
            kept: self.kept,
        }
    }

    #[inline(always)]
    pub(crate) fn kept(&self) -> &T
        ensures { result.now ≡ self.now.kept }
    {
        &self.kept
    }

    /// The stream id.
    #[inline(always)]
    pub(crate) fn stream(&self) -> i16
        ensures { result ≡ id_of self.now }
    {
        self.frame.header.stream
    }

    /// Whether it and the next under its stream id are a request and its response, as [`Message::meets`] says.
    #[inline(always)]
    pub(crate) fn meets(&self, next: &Message<T>) -> bool
        ensures { result ≡ meets self.now next.now }
    {
        let frame = self.frame.frame();
        if frame.header.response {
            next.is_request() && is_no_later(next.frame.begun, frame.begun)
        } else {
            !next.is_request()
        }
    }
}
