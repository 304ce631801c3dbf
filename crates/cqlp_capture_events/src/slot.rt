//! One connection that is watched.

ghost use Rattle.std.specs.Prelude.{◌≡◌, ◌||◌, is_some, false, IfOk, OnOk};
ghost use Rattle.cqlp_capture_frames.specs.Faults.{Takes};
ghost use Rattle.cqlp_capture_frames.specs.Reportings.{is_memory};
ghost use Rattle.cqlp_capture_events.specs.Lines.{lines_of, rules};

use crate::limits::LIMITS;
use crate::lines::Lines;
use cqlp_capture_frames::{Direction, LinePlace, ReportFault};
use cqlp_tcp_connections::{Delivery, Way};
use cqlp_text::{Pen, TextWriter};
use std::alloc::{AllocError, Allocator, Global};
use std::marker::Model;

/// The two directions of a connection.
#[derive(Drop)]
pub(crate) struct Slot<A: Allocator = Global> {
    requests: Direction<A>,
    responses: Direction<A>,
}

impl<A: Allocator> Model for Slot<A> {
    ghost use Rattle.cqlp_capture_events.specs.Tables.{IsSlot, Slot, slot};

    ghost Value = { Slot };

    ghost view = { λ s. slot s.requests s.responses };

    ghost invariant = { λ s. IsSlot s.requests s.responses };
}

impl<A: Allocator + Clone> Slot<A> {
    ghost use Rattle.cqlp_capture_events.specs.Tables.{fresh, heard, open_in};

    /// A connection of which nothing came.
    pub(crate) fn new(alloc: A) -> Result<Self, AllocError>
        ensures { IfOk result (λ s. s ≡ fresh) }
    {
        Ok(Slot {
            requests: Direction::new(alloc.clone()?, LIMITS, false),
            responses: Direction::new(alloc, LIMITS, true),
        })
    }

    /// How many of its directions read a frame.
    pub(crate) fn open(&self) -> usize
        ensures { result ≡ open_in self.now }
    {
        usize::from(self.requests.is_open()) + usize::from(self.responses.is_open())
    }

    /// Takes what one of its directions delivers, with its bytes, and counts the frames that are not read. Where there is no room for one
    /// more decoder, only a direction that reads a frame reads others.
    pub(crate) fn hear<P: Pen>(
        &mut self,
        has_room: bool,
        delivered: &Delivery,
        bytes: &[u8],
        unread: &mut u64,
        writer: &mut TextWriter<P>,
    ) -> Result<(), ReportFault>
        ensures text { Takes is_memory writer.old (heard has_room delivered.now bytes.now unread.old self.old).text result writer.new }
        ensures slot { OnOk result (self.new ≡ (heard has_room delivered.now bytes.now unread.old self.old).slot) }
        ensures unread { OnOk result (unread.new ≡ (heard has_room delivered.now bytes.now unread.old self.old).unread) }
    {
        match delivered.way {
            Way::Requests => {
                let mut lines = lines_of(delivered.number, false, *unread);
                hear_in(
                    &mut self.requests,
                    has_room,
                    delivered,
                    bytes,
                    &mut lines,
                    writer,
                )?;
                *unread = lines.unread;
                Ok(())
            }
            Way::Responses => {
                let mut lines = lines_of(delivered.number, true, *unread);
                hear_in(
                    &mut self.responses,
                    has_room,
                    delivered,
                    bytes,
                    &mut lines,
                    writer,
                )?;
                *unread = lines.unread;
                Ok(())
            }
        }
    }
}

ghost use Rattle.cqlp_capture_frames.specs.Directions.{IsSame, IsReported, step_reported};
ghost use Rattle.cqlp_capture_events.specs.Lines.{line_manner};

/// Takes what this direction delivers.
fn hear_in<A: Allocator + Clone, P: Pen>(
    direction: &mut Direction<A>,
    has_room: bool,
    delivered: &Delivery,
    bytes: &[u8],
    lines: &mut Lines,
    writer: &mut TextWriter<P>,
) -> Result<(), ReportFault>
    ensures reported { IsReported is_memory
        (step_reported line_manner (has_room || is_some direction.old.frame) delivered.now.step delivered.now.at bytes.now lines.old direction.old)
        result writer.old writer.new direction.new lines.new }
    ensures same { IsSame direction.old direction.new }
{
    let has_room = has_room || direction.is_open();
    direction.hear(has_room, delivered.step, delivered.at, bytes, lines, writer)
}

/// The lines of a direction of the connection with this number, where so many frames were not read so far.
fn lines_of(number: u64, responses: bool, unread: u64) -> Lines
    ensures { result ≡ lines_of number responses unread }
{
    Lines {
        place: LinePlace { number, responses },
        unread,
    }
}
