//! Where a handle is in a stream of which frames were passed over.

ghost use Rattle.std.specs.Prelude.{◌≡◌, ℕ, ◌+◌, ◌-◌, ◌<◌, ◌≤◌, ◌^◌, min};
ghost use Rattle.std.specs.Ptr.{Ptr};
ghost use Rattle.cqlp_grammar.specs.Events.{event_of};
ghost use Rattle.cqlp_c.specs.Course as specs;
ghost use Rattle.cqlp_c.specs.Events.{written_at};

use crate::batch::{Batch, Stop};
use crate::event::CqlpEvent;
use crate::numbers::*;
use cqlp_decode::{Event, Finish};
use cqlp_note::Refusal;

/// The event of the frame under way, as much of it as its header says; zeros where none is. Its offset is from where the
/// present stretch begins.
#[repr(C)]
#[derive(Clone, Copy)]
pub struct CqlpBegun {
    pub at: u64,
    pub number: i64,
    pub extra: i32,
    pub opcode: u8,
    pub flags: u8,
    pub mark: u8,
    pub tag: u8,
}

/// Where a handle is in its stream, which is read in stretches: the first begins where the stream does, and each further one after
/// a frame that was passed over.
#[repr(C)]
#[derive(Clone, Copy)]
pub struct CqlpCourse {
    /// Where the present stretch begins in the whole stream.
    pub base: u64,
    /// How many bytes of the whole stream were used.
    pub used: u64,
    /// Where the header is of the frame that was passed over last.
    pub last: u64,
    pub frame: CqlpBegun,
}

/// A frame that was passed over.
#[repr(C)]
#[derive(Clone, Copy)]
pub struct CqlpSkipped {
    /// The event of its header, at its offset in the whole stream.
    pub frame: CqlpEvent,
    /// The offset in the whole stream of what is refused.
    pub at: u64,
    /// How many of its bytes are still to come, and will be used without being looked at.
    pub rest: u64,
    /// Why it is refused: a number `REASON_..`.
    pub reason: u8,
}

/// Why no frame is passed over.
#[derive(Clone, Copy)]
pub enum Unskippable {
    /// Nothing is refused.
    NotRefused,
    /// A header is refused, so that nobody knows where the frame ends.
    InHeader,
    /// The frame would end past the greatest offset.
    TooFar,
}

/// Whether an event begins or ends a frame.
#[inline(always)]
fn is_edge(event: &Event<'_>) -> bool
    ensures { result ≡ specs.is_edge (event_of event.now) }
{
    matches!(event, Event::Frame(_) | Event::End { .. })
}

impl CqlpBegun {
    /// No frame.
    pub fn none() -> CqlpBegun
        ensures { result ≡ specs.no_frame }
    {
        CqlpBegun {
            at: 0,
            number: 0,
            extra: 0,
            opcode: 0,
            flags: 0,
            mark: 0,
            tag: 0,
        }
    }

    /// Goes on to the frame under way after an event, which C gets so.
    #[inline(always)]
    pub fn note(&mut self, event: &Event<'_>, c_event: &CqlpEvent)
        ensures { (at : ℕ) (place : Ptr) → c_event.now ≡ written_at at (event_of event.now) place →
            self.new ≡ specs.begun_after self.old c_event.now }
    {
        if is_edge(event) {
            *self = self.after(c_event);
        }
    }

    /// Goes on to the frame under way after an event that C got.
    pub fn pass_event(&mut self, c_event: &CqlpEvent)
        ensures { self.new ≡ specs.begun_after self.old c_event.now }
    {
        *self = self.after(c_event);
    }

    /// The frame under way after an event.
    fn after(self, event: &CqlpEvent) -> CqlpBegun
        ensures { result ≡ specs.begun_after self event.now }
    {
        if event.tag == TAG_FRAME {
            CqlpBegun {
                at: event.at,
                number: event.number,
                extra: event.extra,
                opcode: event.opcode,
                flags: event.flags,
                mark: event.mark,
                tag: event.tag,
            }
        } else if event.tag == TAG_END {
            CqlpBegun::none()
        } else {
            self
        }
    }

    /// The event of its header, in a stretch that begins at `base`.
    fn event(self, base: u64) -> CqlpEvent
        ensures { result ≡ specs.event_begun base self }
    {
        let mut event = CqlpEvent::blank(base.saturating_add(self.at));
        event.number = self.number;
        event.extra = self.extra;
        event.opcode = self.opcode;
        event.flags = self.flags;
        event.mark = self.mark;
        event.tag = self.tag;
        event
    }

    /// The offset of its end in the whole stream, of which this many bytes were used, in a stretch that begins at `base`. None where the
    /// end is the greatest number or greater, or lies before what was used.
    fn end_within(self, base: u64, used: u64) -> Option<u64>
        ensures { result ≡ specs.end_begun self base used }
    {
        let Ok(length) = u64::try_from(self.number) else {
            return None;
        };
        let end = u128::from(base) + u128::from(self.at) + u128::from(length) + 9;
        if end < u128::from(u64::MAX) && u128::from(used) <= end {
            Some(end as u64)
        } else {
            None
        }
    }
}

impl CqlpCourse {
    /// At the start of a stream.
    pub fn start() -> CqlpCourse
        ensures { result ≡ specs.at_start }
    {
        CqlpCourse {
            base: 0,
            used: 0,
            last: 0,
            frame: CqlpBegun::none(),
        }
    }

    /// How many bytes of a piece of this length are passed over first: those that the frame passed over last still has.
    pub fn passed(&self, len: usize) -> usize
        ensures is { result ≡ min (self.now.base - self.now.used) len }
        ensures within { result ≤ len }
    {
        let left = self.base.saturating_sub(self.used);
        left.min(len as u64) as usize
    }

    /// Goes on by this many bytes.
    #[inline]
    pub fn add_used(&mut self, count: usize)
        ensures { self.new ≡ specs.gone_on self.old count }
    {
        self.used = self.used.saturating_add(count as u64);
    }

    /// A batch, of which the first bytes were passed over, with its refusal at its offset in the whole stream.
    pub fn batch(&self, passed: usize, batch: Batch) -> Batch
        requires further { 0 < self.now.base }
        requires fits { passed + batch.used < 2 ^ 64 }
        ensures { result ≡ specs.batch_from self.now.base passed batch }
    {
        let stop = stop_from(self.base, batch.stop);
        Batch {
            used: passed + batch.used,
            events: batch.events,
            stop,
        }
    }

    /// How the whole stream ends, of which the present stretch ends so.
    pub fn finish(&self, finish: Finish) -> Finish
        ensures { result ≡ specs.finish_on self.now finish }
    {
        if self.used < self.base {
            return Finish::Cut {
                frame_at: self.last,
                bytes: self.used,
            };
        }
        match finish {
            Finish::Whole { bytes } => Finish::Whole {
                bytes: self.base.saturating_add(bytes),
            },
            Finish::Cut { frame_at, bytes } => Finish::Cut {
                frame_at: self.base.saturating_add(frame_at),
                bytes: self.base.saturating_add(bytes),
            },
            Finish::Refused(refusal) => Finish::Refused(refusal_from(self.base, refusal)),
        }
    }

    /// Passes over the frame under way, where its stretch is refused so.
    pub fn skip(&mut self, refusal: Option<Refusal>) -> Result<CqlpSkipped, Unskippable>
        ensures is { result ≡ specs.skip_by refusal self.old }
        ensures course { self.new ≡ specs.skipped_on result self.old }
    {
        let Some(refusal) = refusal else {
            return Err(Unskippable::NotRefused);
        };
        if self.frame.tag != TAG_FRAME {
            return Err(Unskippable::InHeader);
        }
        let Some(end) = self.frame.end_within(self.base, self.used) else {
            return Err(Unskippable::TooFar);
        };
        let refusal = refusal_from(self.base, refusal);
        let skipped = CqlpSkipped {
            frame: self.frame.event(self.base),
            at: refusal.at,
            rest: end - self.used,
            reason: reason_number(refusal.why),
        };
        *self = CqlpCourse {
            base: end,
            used: self.used,
            last: skipped.frame.at,
            frame: CqlpBegun::none(),
        };
        Ok(skipped)
    }
}

/// Puts events at their offsets in the whole stream, in which their stretch begins at `base`.
pub fn place(base: u64, events: &mut [CqlpEvent])
    ensures { events.new ≡ specs.placed_from base events.old }
{
    for event in events.iter_mut() {
        event.at = base.saturating_add(event.at);
    }
}

/// A refusal of a stretch that begins at `base`, at its offset in the whole stream.
fn refusal_from(base: u64, refusal: Refusal) -> Refusal
    ensures { result ≡ specs.refusal_from base refusal }
{
    Refusal {
        at: base.saturating_add(refusal.at),
        why: refusal.why,
    }
}

/// How a batch ends, with its refusal at its offset in the whole stream.
fn stop_from(base: u64, stop: Stop) -> Stop
    ensures { result ≡ specs.stop_from base stop }
{
    match stop {
        Stop::More => Stop::More,
        Stop::Full => Stop::Full,
        Stop::Refused(refusal) => Stop::Refused(refusal_from(base, refusal)),
    }
}
