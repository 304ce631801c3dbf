//! The array of a batch, as a sink.

ghost use Rattle.std.specs.Prelude.{◌≡◌, ◌+◌, ◌-◌, ◌≤◌, length};
ghost use Rattle.std.specs.Ptr.{as_ptr};
ghost use denote.RawPtr.{◌+ₚ◌};
ghost use Rattle.cqlp_grammar.specs.Events.{event_of};
ghost use Rattle.cqlp_decode.specs.Streams.{state};
ghost use Rattle.cqlp_c.specs.Batches.{HasUsed};
ghost use Rattle.cqlp_c.specs.Slots.{PutsWhole, WritesIn};

use crate::course::CqlpBegun;
use crate::event::{CqlpEvent, address_of, before_content, write};
use cqlp_decode::{Decoder, Event, Finish, Sink, SinkFault};
use std::alloc::Global;

/// The input, and at which offset of the stream it begins.
#[derive(Clone, Copy)]
pub struct Origin<'a> {
    pub input: &'a [u8],
    pub offset: u64,
}

impl Origin<'_> {
    /// Where the bytes lie that begin this many after an offset of the stream; `other` where the input has them not.
    #[inline(always)]
    fn address(self, at: u64, before: u64, other: *const u8) -> *const u8
        ensures { self.entry.offset ≤ at + before → at + before ≤ self.entry.offset + length self.entry.input.now
            → result ≡ as_ptr self.entry.input +ₚ ((at + before) - self.entry.offset) }
    {
        let from = at.wrapping_add(before).wrapping_sub(self.offset);
        if from <= self.input.len() as u64 {
            address_of(&self.input[from as usize..])
        } else {
            other
        }
    }
}

/// Puts the event at an offset, with the place of its content in the input.
#[inline(always)]
fn write_in(origin: Origin<'_>, slot: &mut CqlpEvent, at: u64, event: &Event<'_>)
    ensures { WritesIn origin.entry slot.new at (event_of event.now) }
{
    write(slot, at, event);
    if let Some(before) = before_content(event) {
        slot.content = origin.address(at, before, slot.content);
    }
}

/// An array, with how many events are in it, of which the contents lie in this input, and the frame under way. It fails once it is
/// full, at the event that is put last.
#[derive(Drop)]
struct Slots<'a> {
    origin: Origin<'a>,
    events: &'a mut [CqlpEvent],
    count: usize,
    frame: CqlpBegun,
}

impl Sink for Slots<'_> {
    ghost use Rattle.cqlp_c.specs.Slots.{HasRoom, PutsNext};

    ghost View = { Unit {0} };

    ghost view = { λ _. tt };

    ghost reports = { HasRoom };

    ghost after = { λ _ _ _. tt };

    ghost faulted = { λ _ _ _ _. Unit {0} };

    ghost also = { PutsNext };

    #[inline(always)]
    fn take(&mut self, at: u64, event: &Event<'_>) -> Result<(), SinkFault> {
        let events = &mut *self.events;
        if self.count >= events.len() {
            return Err(SinkFault);
        }
        let slot = &mut events[self.count];
        write_in(self.origin, slot, at, event);
        self.frame.note(event, slot);
        self.count += 1;
        if self.count < events.len() {
            Ok(())
        } else {
            Err(SinkFault)
        }
    }
}

/// What was put of the events that lie whole in the input.
#[derive(Clone, Copy)]
pub struct WholePut {
    /// How many bytes of the input they take.
    pub used: usize,
    /// How many events are in the array with them.
    pub count: usize,
}

/// How many bytes of the stream were used, if it is not refused.
fn bytes_used(decoder: &Decoder<Global>) -> u64
    ensures { HasUsed (state decoder.now) result }
{
    match decoder.finish() {
        Finish::Whole { bytes } => bytes,
        Finish::Cut { bytes, .. } => bytes,
        Finish::Refused(_) => 0,
    }
}

/// Puts events that lie whole in the input after the first `count` of the array, while there is room, and goes on to the frame
/// that is under way after them.
pub fn put_whole(
    decoder: &mut Decoder<Global>,
    input: &[u8],
    events: &mut [CqlpEvent],
    count: usize,
    frame: &mut CqlpBegun,
) -> WholePut
    requires { count ≤ length events.old }
    ensures puts { PutsWhole (state decoder.old) (state decoder.new) input.entry count result events.old events.new
        frame.old frame.new }
    ensures within { (result.used ≤ length input.now) × (result.count ≤ length events.old) }
    ensures stays { ((state decoder.new).refusal ≡ (state decoder.old).refusal)
        × ((state decoder.new).rules ≡ (state decoder.old).rules) }
{
    if count == events.len() {
        return WholePut { used: 0, count };
    }
    let origin = Origin {
        input,
        offset: bytes_used(decoder),
    };
    let mut slots = Slots {
        origin,
        events,
        count,
        frame: *frame,
    };
    let used = match decoder.hand_whole(input, &mut slots) {
        Ok(used) => used,
        Err(fault) => fault.used,
    };
    let count = slots.count;
    *frame = slots.frame;
    WholePut { used, count }
}
