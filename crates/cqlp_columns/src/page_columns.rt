//! Columns, and a sink beside them.

ghost use Rattle.std.specs.Prelude.{◌≡◌, ◌≤◌, OnErr, OnOk, Some, false, length};
ghost use Rattle.cqlp_note.specs.declared.refusal.Refusal.{Refusal};
ghost use Rattle.cqlp_grammar.specs.Events.{event_of};
ghost use Rattle.cqlp_decode.specs.Sinks.{Fails, Gets};
ghost use Rattle.cqlp_decode.specs.Streams.{state};
ghost use Rattle.cqlp_columns.specs.Batches.{is_full};
ghost use Rattle.cqlp_columns.specs.Findings.{found_in};
ghost use Rattle.cqlp_columns.specs.Filling.{FillsOn, Repeats, refusal_after, stopped_at, went_of};
ghost use Rattle.cqlp_columns.specs.Sorting.{SortsTo, is_whole};

use crate::columns::Columns;
use crate::filled::{Filled, Stop};
use cqlp_decode::{Decoder, Step};
use cqlp_grammar::{Event, Sink, SinkFault};
use std::alloc::{Allocator, Global};

/// Where the last event went.
#[derive(Clone, Copy, Debug, PartialEq, Eq)]
pub enum Went {
    /// Into the columns, which take another.
    Cell,
    /// Into the columns, which are full with it.
    Last,
    /// To the sink beside them.
    Other,
    /// To the sink beside them, which failed.
    Failed,
}

/// The columns of a page, and a sink for the events that they do not take. As a sink it fails at an event that is not taken, and at the cell that fills
/// the columns, and both are used then.
#[derive(Drop)]
pub struct PageColumns<S: Sink, A: Allocator = Global> {
    /// The columns that the cells fill, a batch of rows at a time.
    pub columns: Columns<A>,
    /// What takes all other events: headers, fields, types and the ends of frames.
    pub other: S,
    /// Where the last event went. After a call of [`PageColumns::read`] it is as its answer says: `Last` where the columns are full, and `Cell` where it
    /// stopped at no event.
    pub went: Went,
}

impl<S: Sink, A: Allocator> PageColumns<S, A> {
    /// These columns, with this sink beside them.
    pub fn new(columns: Columns<A>, other: S) -> Self
        ensures { (result.columns ≡ columns) × (result.other ≡ other) × (result.went ≡ Went.Cell) }
    {
        PageColumns {
            columns,
            other,
            went: Went::Cell,
        }
    }

    /// Reads on: the next events of the input are cells that the columns take, up to the one that fills them or the first that they do not take, which
    /// the other sink gets. Columns that are full already use nothing.
    pub fn read<B: Allocator>(&mut self, decoder: &mut Decoder<B>, input: &[u8]) -> Filled
        ensures fills { FillsOn (Gets S.Sink) (Fails S.Sink) (state decoder.old) (state decoder.new) input.now self.old.columns self.new.columns
            self.old.other self.new.other result }
        ensures within { result.used ≤ length input.now }
        ensures went { self.new.went ≡ went_of result.stop }
        ensures refused { (r : Refusal) → (state decoder.old).refusal ≡ Some r
            → Repeats r (state decoder.old) (state decoder.new) self.old.columns self.new.columns self.old.other self.new.other result }
        ensures refusal { (state decoder.new).refusal ≡ refusal_after (state decoder.old).refusal result.stop }
        ensures rules { (state decoder.new).rules ≡ (state decoder.old).rules }
        ensures given { (state decoder.new).given ≡ (state decoder.old).given }
    {
        if self.columns.is_full() {
            self.went = Went::Last;
            return Filled {
                used: 0,
                stop: Stop::Full,
            };
        }
        self.read_on(decoder, input)
    }

    /// The same, of columns that are not full.
    fn read_on<B: Allocator>(&mut self, decoder: &mut Decoder<B>, input: &[u8]) -> Filled
        requires { is_full self.old.columns ≡ false }
        ensures fills { FillsOn (Gets S.Sink) (Fails S.Sink) (state decoder.old) (state decoder.new) input.now self.old.columns self.new.columns
            self.old.other self.new.other result }
        ensures within { result.used ≤ length input.now }
        ensures went { self.new.went ≡ went_of result.stop }
        ensures refused { (r : Refusal) → (state decoder.old).refusal ≡ Some r
            → Repeats r (state decoder.old) (state decoder.new) self.old.columns self.new.columns self.old.other self.new.other result }
        ensures refusal { (state decoder.new).refusal ≡ refusal_after (state decoder.old).refusal result.stop }
        ensures rules { (state decoder.new).rules ≡ (state decoder.old).rules }
        ensures given { (state decoder.new).given ≡ (state decoder.old).given }
    {
        self.went = Went::Cell;
        let mut used = 0;
        'events: loop {
            match decoder.hand_whole(&input[used..], self) {
                Ok(taken) => used += taken,
                Err(fault) => return self.stopped(used + fault.used),
            }
            match decoder.next(&input[used..]) {
                Step::More { used: taken } => {
                    return Filled {
                        used: used + taken,
                        stop: Stop::More,
                    };
                }
                Step::Refused(refusal) => {
                    return Filled {
                        used,
                        stop: Stop::Refused(refusal),
                    };
                }
                Step::Event {
                    at,
                    used: taken,
                    event,
                } => match self.take(at, &event) {
                    Ok(()) => used += taken,
                    Err(SinkFault) => return self.stopped(used + taken),
                },
            }
        }
    }

    /// What a call made that stops at the last event.
    fn stopped(&self, used: usize) -> Filled
        ensures { result ≡ stopped_at self.now.went used }
    {
        let stop = match self.went {
            Went::Cell => Stop::More,
            Went::Last => Stop::Full,
            Went::Other => Stop::Other,
            Went::Failed => Stop::Failed,
        };
        Filled { used, stop }
    }

    /// Puts an event where it belongs.
    #[inline(always)]
    fn sort(&mut self, at: u64, event: &Event<'_>) -> Went
        ensures { SortsTo S.Sink result self.old.columns self.old.other at (event_of event.now) self.new.columns self.new.other }
    {
        if is_whole(event) && self.columns.take(event).is_ok() {
            if self.columns.is_full() {
                Went::Last
            } else {
                Went::Cell
            }
        } else {
            match pass(&mut self.other, at, *event) {
                Ok(()) => Went::Other,
                Err(SinkFault) => Went::Failed,
            }
        }
    }
}

impl<S: Sink, A: Allocator> Sink for PageColumns<S, A> {
    ghost use Rattle.cqlp_columns.specs.Sorting.{IsOver, SortsTo};
    ghost use Rattle.cqlp_columns.specs.declared.page_columns.Went.{Went};

    ghost View = { Went };

    ghost view = { λ s. s.went };

    ghost after = { λ _ _ _. Went.Cell };

    ghost faulted = { λ _ _ _ went. IsOver went };

    ghost also = { λ old at e new. SortsTo S.Sink new.went old.columns old.other at e new.columns new.other };

    #[inline(always)]
    fn take(&mut self, at: u64, event: &Event<'_>) -> Result<(), SinkFault> {
        self.went = self.sort(at, event);
        match self.went {
            Went::Cell => Ok(()),
            Went::Last | Went::Other | Went::Failed => Err(SinkFault),
        }
    }
}

/// Whether an event is a whole cell.
#[inline(always)]
fn is_whole(event: &Event<'_>) -> bool
    ensures { result ≡ is_whole (found_in (event_of event.now)) }
{
    match *event {
        Event::Leaf { level, .. } | Event::Null { level, .. } | Event::Empty { level, .. } => {
            level == 0
        }
        Event::Enter { .. }
        | Event::Leave { .. }
        | Event::Part { .. }
        | Event::Frame(_)
        | Event::Byte { .. }
        | Event::Short { .. }
        | Event::Int { .. }
        | Event::Long { .. }
        | Event::Uuid { .. }
        | Event::Count { .. }
        | Event::Text { .. }
        | Event::Bytes { .. }
        | Event::Bound { .. }
        | Event::Inet { .. }
        | Event::TypeNode(_)
        | Event::End { .. } => false,
    }
}

/// Hands an event to a sink. It is given a copy, so that an event which is not handed on need not lie in memory.
#[cold]
#[inline(never)]
fn pass<S: Sink>(sink: &mut S, at: u64, event: Event<'_>) -> Result<(), SinkFault>
    ensures got { OnOk result (Gets S.Sink sink.old at (event_of event.entry) sink.new) }
    ensures failed { OnErr result (Fails S.Sink sink.old at (event_of event.entry) sink.new) }
{
    match sink.take(at, &event) {
        Ok(()) => Ok(()),
        Err(SinkFault) => Err(SinkFault),
    }
}
