//! Batches of events.

ghost use Rattle.std.specs.Prelude.{◌≡◌, ℕ, ◌<◌, ◌≤◌, List, drop, take, length, Some, nat_lt};
ghost use Rattle.std.specs.Ptr.{Ptr, as_ptr};
ghost use Rattle.cqlp_note.specs.declared.refusal.Refusal.{Refusal as Refused};
ghost use Rattle.cqlp_grammar.specs.Events.{event_of};
ghost use Rattle.cqlp_decode.specs.Streams.{state};
ghost use Rattle.cqlp_c.specs.declared.event.CqlpEvent.{CqlpEvent as FromC};
ghost use Rattle.cqlp_c.specs.Events.{content_span};
ghost use Rattle.cqlp_c.specs.Batches.{BeginsAt, Buffer, FillsOn, GoesOn, PutsGathered, RepeatsRefusal, WritesStep, buffer_in, put_of};
ghost use Rattle.cqlp_c.specs.Batches.{stop_without_room};
ghost use Rattle.cqlp_c.specs.Course.{begun_by};

use crate::course::CqlpBegun;
use crate::event::{CqlpEvent, address_of, before_content, write};
use crate::slots::put_whole;
use cqlp_decode::{Decoder, Event, Finish, Step};
use cqlp_note::Refusal;
use std::alloc::Global;

/// Why a batch ends.
#[derive(Clone, Copy)]
pub enum Stop {
    /// All of the input was used, and more is wanted.
    More,
    /// There is no room for another event, or the content of the last lies in the decoder.
    Full,
    /// The stream is refused, here and at every later call.
    Refused(Refusal),
}

/// What one call made of the input.
#[derive(Clone, Copy)]
pub struct Batch {
    /// How many bytes of the input were used.
    pub used: usize,
    /// How many events were put.
    pub events: usize,
    /// Why there are no more.
    pub stop: Stop,
}

/// Bytes that C gives: where there are none, C may give them by a null pointer, which goes no further than this.
pub fn or_none(bytes: &[u8]) -> &[u8]
    ensures bytes { result.now ≡ bytes.now }
    ensures there { BeginsAt bytes.entry (as_ptr result) }
{
    if bytes.is_empty() { &[] } else { bytes }
}

/// Puts the next events of the input into the array, until the input is used up or refused, or there is no room. A
/// content that lies in the decoder is put last, since the next step may overwrite it. A refusal that was made before is
/// said again, also where there is no room. `frame` goes on to the frame that is under way after these events.
pub fn fill(
    decoder: &mut Decoder<Global>,
    input: &[u8],
    events: &mut [CqlpEvent],
    frame: &mut CqlpBegun,
) -> Batch
    ensures fills { FillsOn (state decoder.old) (state decoder.new) input.now (as_ptr input.entry) (buffer_in decoder.new)
        (length events.old) result events.new }
    ensures refused { (r : Refused) → (state decoder.old).refusal ≡ Some r →
        RepeatsRefusal r (state decoder.old) (state decoder.new) result }
    ensures goes_on { GoesOn (state decoder.old) (state decoder.new) (length events.old) result }
    ensures within { (result.used ≤ length input.now) × (result.events ≤ length events.old) }
    ensures others { drop result.events events.new ≡ drop result.events events.old }
    ensures room { length events.new ≡ length events.old }
    ensures rules { (state decoder.new).rules ≡ (state decoder.old).rules }
    ensures frame { frame.new ≡ begun_by frame.old (take result.events events.new) }
{
    if events.is_empty() {
        without_room(decoder)
    } else {
        fill_room(decoder, input, events, frame)
    }
}

/// Why a batch ends that has no room, where the stream would end so.
fn stop_without_room(finish: &Finish) -> Stop
    ensures { result ≡ stop_without_room finish.now }
{
    match *finish {
        Finish::Refused(refusal) => Stop::Refused(refusal),
        Finish::Whole { .. } => Stop::Full,
        Finish::Cut { .. } => Stop::Full,
    }
}

/// A batch that has no room: it says nothing but a refusal that was made before.
#[inline(never)]
fn without_room(decoder: &Decoder<Global>) -> Batch
    ensures fills { (input : List ℕ) (begins : Ptr) (buffer : Buffer) (events : List FromC) →
        FillsOn (state decoder.now) (state decoder.now) input begins buffer 0 result events }
    ensures refused { (r : Refused) → (state decoder.now).refusal ≡ Some r →
        RepeatsRefusal r (state decoder.now) (state decoder.now) result }
    ensures none { (result.used ≡ 0) × (result.events ≡ 0) }
{
    let stop = stop_without_room(&decoder.finish());
    Batch {
        used: 0,
        events: 0,
        stop,
    }
}

/// Puts the event of a step that used the last `taken` of these bytes, and says whether its content lies in the decoder.
/// Else it is the last of the bytes.
#[inline(always)]
fn put_step(slot: &mut CqlpEvent, at: u64, event: &Event<'_>, bytes: &[u8], taken: usize) -> bool
    requires { taken ≤ length bytes.now }
    ensures gathered { result ≡ nat_lt taken (content_span (event_of event.now)) }
    ensures writes { WritesStep (as_ptr bytes.entry) slot.new (put_of at (event_of event.now) (length bytes.now) taken) }
{
    write(slot, at, event);
    let gathered = slot.is_gathered(taken);
    if !gathered && before_content(event).is_some() {
        slot.content = address_of(&bytes[bytes.len() - slot.length..]);
    }
    gathered
}

/// Puts where the content of an event lies in the decoder that holds it.
pub(crate) fn put_gathered(slot: &mut CqlpEvent, decoder: &Decoder<Global>)
    ensures { PutsGathered (buffer_in decoder.now) slot.old slot.new }
{
    slot.content = decoder.held_address(slot.scale_len());
}

/// The input of a call, which has one place for all of the batch.
#[derive(Clone, Copy)]
struct Source<'a> {
    input: &'a [u8],
}

/// The same as `fill`, where there is room.
#[inline(always)]
fn fill_room(
    decoder: &mut Decoder<Global>,
    input: &[u8],
    events: &mut [CqlpEvent],
    frame: &mut CqlpBegun,
) -> Batch
    ensures fills { FillsOn (state decoder.old) (state decoder.new) input.now (as_ptr input.entry) (buffer_in decoder.new)
        (length events.old) result events.new }
    ensures refused { (r : Refused) → (state decoder.old).refusal ≡ Some r → 0 < length events.old →
        RepeatsRefusal r (state decoder.old) (state decoder.new) result }
    ensures goes_on { GoesOn (state decoder.old) (state decoder.new) (length events.old) result }
    ensures within { (result.used ≤ length input.now) × (result.events ≤ length events.old) }
    ensures others { drop result.events events.new ≡ drop result.events events.old }
    ensures room { length events.new ≡ length events.old }
    ensures rules { (state decoder.new).rules ≡ (state decoder.old).rules }
    ensures frame { frame.new ≡ begun_by frame.old (take result.events events.new) }
{
    let source = Source { input };
    let mut used = 0;
    let mut count = 0;
    'slots: while count < events.len() {
        match decoder.next(&source.input[used..]) {
            Step::More { used: taken } => {
                return Batch {
                    used: used + taken,
                    events: count,
                    stop: Stop::More,
                };
            }
            Step::Refused(refusal) => {
                return Batch {
                    used,
                    events: count,
                    stop: Stop::Refused(refusal),
                };
            }
            Step::Event {
                at,
                used: taken,
                event,
            } => {
                used += taken;
                let slot = &mut events[count];
                let gathered = put_step(slot, at, &event, &source.input[..used], taken);
                frame.note(&event, slot);
                count += 1;
                if gathered {
                    put_gathered(slot, decoder);
                    return Batch {
                        used,
                        events: count,
                        stop: Stop::Full,
                    };
                }
            }
        }
        let put = put_whole(decoder, &source.input[used..], events, count, frame);
        used += put.used;
        count = put.count;
    }
    Batch {
        used,
        events: count,
        stop: Stop::Full,
    }
}
