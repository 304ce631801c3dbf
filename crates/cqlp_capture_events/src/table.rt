//! The connections that are watched.

ghost use Rattle.std.specs.Prelude.{◌≡◌, nat_lt, IfOk, OnErr, OnOk};
ghost use Rattle.cqlp_capture_frames.specs.Faults.{Takes};
ghost use Rattle.cqlp_capture_frames.specs.Reportings.{is_memory};

use crate::limits::OPEN_FRAMES;
use crate::slot::Slot;
use cqlp_capture_frames::ReportFault;
use cqlp_capture_streams::newest_first;
use cqlp_tcp_connections::Delivery;
use cqlp_text::{Pen, TextWriter};
use std::alloc::{AllocError, Allocator, Global};
use std::collections::BTreeMap;
use std::marker::Model;

/// The connections that are watched, by their numbers, the newest first. Memory is taken for each as it begins, and for the decoder of a frame as that does, and
/// is given back.
#[derive(Drop)]
pub(crate) struct Table<A: Allocator = Global> {
    alloc: A,
    slots: BTreeMap<u64, Slot<A>, A>,
    /// How many directions read a frame.
    reading: usize,
    /// How many frames were not read, as there was no room for their decoders.
    unread: u64,
}

impl<A: Allocator> Model for Table<A> {
    ghost use Rattle.cqlp_capture_events.specs.Tables.{Table, table};

    ghost Value = { Table };

    ghost view = { λ t. table t.slots.entries t.reading t.unread };
}

impl<A: Allocator + Clone> Table<A> {
    ghost use Rattle.cqlp_capture_events.specs.Tables.{begins, leaves, new_table, reports};

    /// No connections.
    pub(crate) fn new(alloc: A) -> Result<Self, AllocError>
        ensures { IfOk result (λ t. t ≡ new_table) }
    {
        let slots = BTreeMap::new(alloc.clone()?);
        Ok(Table {
            alloc,
            slots,
            reading: 0,
            unread: 0,
        })
    }

    /// How many frames were not read.
    pub(crate) fn unread(&self) -> u64
        ensures { result ≡ self.now.unread }
    {
        self.unread
    }

    /// The connection with this number begins. Where memory is refused, nothing changes.
    pub(crate) fn begin(&mut self, number: u64) -> Result<(), AllocError>
        ensures ok { OnOk result (self.new ≡ begins number self.old) }
        ensures err { OnErr result (self.new ≡ self.old) }
    {
        let slot = Slot::new(self.alloc.clone()?)?;
        match self.slots.insert(newest_first(number), slot) {
            Ok(_) => Ok(()),
            Err(_) => Err(AllocError),
        }
    }

    /// Takes what the streams of a connection deliver, with its bytes.
    pub(crate) fn hear<P: Pen>(
        &mut self,
        delivered: &Delivery,
        bytes: &[u8],
        writer: &mut TextWriter<P>,
    ) -> Result<(), ReportFault>
        ensures text { Takes is_memory writer.old (reports delivered.now bytes.now self.old).text result writer.new }
        ensures after { OnOk result (self.new ≡ (reports delivered.now bytes.now self.old).table) }
    {
        match self.slots.get_mut(&newest_first(delivered.number)) {
            Some(slot) => hear_in(
                slot,
                &mut self.reading,
                &mut self.unread,
                delivered,
                bytes,
                writer,
            ),
            None => Ok(()),
        }
    }

    /// The connection with this number leaves.
    pub(crate) fn leave(&mut self, number: u64)
        ensures { self.new ≡ leaves number self.old }
    {
        if let Some(slot) = self.slots.remove(&newest_first(number)) {
            self.reading = reading_after(self.reading, slot.open(), 0);
        }
    }
}

ghost use Rattle.cqlp_capture_events.specs.declared.limits.TheConstants.{OPEN_FRAMES};
ghost use Rattle.cqlp_capture_events.specs.Tables.{heard, open_in, reading_after};

/// Takes what the streams of this connection deliver.
fn hear_in<A: Allocator + Clone, P: Pen>(
    slot: &mut Slot<A>,
    reading: &mut usize,
    unread: &mut u64,
    delivered: &Delivery,
    bytes: &[u8],
    writer: &mut TextWriter<P>,
) -> Result<(), ReportFault>
    ensures text { Takes is_memory writer.old (heard (nat_lt reading.old OPEN_FRAMES) delivered.now bytes.now unread.old slot.old).text result writer.new }
    ensures slot { OnOk result (slot.new ≡ (heard (nat_lt reading.old OPEN_FRAMES) delivered.now bytes.now unread.old slot.old).slot) }
    ensures reading { OnOk result (reading.new ≡ reading_after (open_in slot.old) (open_in slot.new) reading.old) }
    ensures unread { OnOk result (unread.new ≡ (heard (nat_lt reading.old OPEN_FRAMES) delivered.now bytes.now unread.old slot.old).unread) }
{
    let before = slot.open();
    let has_room = *reading < OPEN_FRAMES;
    slot.hear(has_room, delivered, bytes, unread, writer)?;
    *reading = reading_after(*reading, before, slot.open());
    Ok(())
}

/// How many directions read a frame where so many did, of which `before` were those of a connection that are `now` so many.
fn reading_after(reading: usize, before: usize, now: usize) -> usize
    ensures { result ≡ reading_after before now reading }
{
    reading.saturating_sub(before).saturating_add(now)
}
