//! The decoder of a stream of frames.

ghost use Rattle.std.specs.Prelude.{◌≡◌, ◌+◌, ◌<◌, ◌≤◌, ◌^◌, ◌*◌, ◌↔◌};
ghost use Rattle.std.specs.Prelude.{[], length, is_err, IfOk, IsErrOf, IsTrue, Err, Ok, max, min, None, Some, true};
ghost use denote.RawPtr.{◌+ₚ◌};
ghost use Rattle.std.specs.Borrow.{sem};
ghost use Rattle.cqlp_note.specs.Limits.{first_bad, rules_asked, rules_of, with_lenient};
ghost use Rattle.cqlp_note.specs.Head.{value_of};
ghost use Rattle.cqlp_note.specs.Streams.{ReadsPiece, counted, counted_up};
ghost use Rattle.cqlp_cell.specs.Items as cell;
ghost use Rattle.cqlp_grammar.specs.Events.{event_of};
ghost use Rattle.cqlp_decode.specs.Reading as reading;
ghost use Rattle.cqlp_decode.specs.Reading.{cell_event};
ghost use Rattle.cqlp_decode.specs.Progress.{levels_of};
ghost use Rattle.cqlp_note.specs.declared.limits.BadLimits.{BadLimits as Bad};
ghost use Rattle.cqlp_note.specs.declared.refusal.Refusal.{Refusal};

use crate::advance::{EventAdvance, EventOutline, ScalarCell};
use crate::field_loop::take_fields;
use crate::given::{GiveError, GiveReason, GivenUse};
use crate::item_loop::take_items;
use crate::list_loop::take_lists;
use crate::page_loop::take_cells;
use crate::parts::Parts;
use crate::progress::{StreamProgress, StreamStage};
use crate::step::{Capacity, FaultAfter, Held, Step};
use cqlp_cell::{CellItem, CellReader};
use cqlp_grammar::{Event, Finish, Sink};
use cqlp_note::{Asked, BadLimits, Field, IoFault, Limits, NoMemory, Partial, Prim, Source};
use cqlp_type::{TypeItem, TypeReader, TypeTable};
use std::alloc::{Allocator, Global};
use std::marker::Model;
use thiserror::Error;

/// Why a decoder could not be made.
#[derive(Clone, Copy, Debug, PartialEq, Eq, Error)]
pub enum NewError {
    /// A limit is out of its range.
    #[error(transparent)]
    BadLimits(BadLimits),
    /// One of the four requests for memory was refused; what the others gave is free again.
    #[error("no memory")]
    NoMemory,
}

/// Reads a stream of frames, one event per call, from pieces of any size. All its memory is taken when it is made, and is
/// as large as its limits say for as long as it lives.
#[derive(Drop)]
pub struct Decoder<A: Allocator = Global> {
    progress: StreamProgress,
    parts: Parts<A>,
}

impl<A: Allocator> Model for Decoder<A> {
    ghost use Rattle.cqlp_decode.specs.Progress.{IsLawful, parts_state};
    ghost use Rattle.cqlp_decode.specs.Streams.{Decoding};

    ghost Value = { Decoding };

    ghost view = { λ d. record { progress = d.progress; parts = parts_state d.parts } };

    ghost invariant = { λ d. IsLawful d.progress d.parts };
}

impl<A: Allocator + Clone> Decoder<A> {
    ghost use Rattle.cqlp_decode.specs.Streams.{After, HoldsNothing, state};

    /// A decoder at the start of a stream, with room for one content of the greatest length that the limits allow, for
    /// the types of one metadata, for their nesting, and for that of a cell's values: four requests for memory, and the
    /// only ones.
    ///
    /// # Errors
    ///
    /// Limits out of their ranges, and memory that is refused.
    pub fn new(alloc: A, limits: Limits) -> Result<Self, NewError>
        ensures bad { (b : Bad) → IsErrOf result (NewError.BadLimits b) ↔ (first_bad limits ≡ Err b) }
        ensures fresh { IfOk result (λ d. After (state d) [] []) }
        ensures unrefused { IfOk result (λ d. (state d).refusal ≡ None) }
        ensures rules { IfOk result (λ d. (state d).rules ≡ rules_of limits) }
        ensures nothing_held { IfOk result (λ d. HoldsNothing d) }
        ensures nothing_given { IfOk result (λ d. (state d).given ≡ None) }
    {
        Self::asked(alloc, limits, false)
    }

    /// The same, for a lenient reading, which takes what nodes and drivers send against the standard, and goes on:
    ///
    /// - A content that its type does not have, by its length or by its bytes, is emitted as [`Event::Leaf`] with
    ///   [`Scalar::Raw`](cqlp_kind::Scalar::Raw), all its bytes.
    /// - The bytes that a tuple or a user-defined value has after its last field are emitted as [`Event::Part`] before its
    ///   `Leave`, at the level of its fields, in parts of at most `cell` bytes whose offsets begin at 0.
    /// - A type option of an id that no kind has is emitted as [`Kind::Raw`](cqlp_kind::Kind::Raw), and has no parameters.
    ///
    /// All else is read as by a decoder that `new` makes.
    ///
    /// # Errors
    ///
    /// As [`Decoder::new`].
    pub fn lenient(alloc: A, limits: Limits) -> Result<Self, NewError>
        ensures bad { (b : Bad) → IsErrOf result (NewError.BadLimits b) ↔ (first_bad limits ≡ Err b) }
        ensures fresh { IfOk result (λ d. After (state d) [] []) }
        ensures unrefused { IfOk result (λ d. (state d).refusal ≡ None) }
        ensures rules { IfOk result (λ d. (state d).rules ≡ with_lenient true (rules_of limits)) }
        ensures nothing_held { IfOk result (λ d. HoldsNothing d) }
        ensures nothing_given { IfOk result (λ d. (state d).given ≡ None) }
    {
        Self::asked(alloc, limits, true)
    }

    fn asked(alloc: A, limits: Limits, lenient: bool) -> Result<Self, NewError>
        ensures bad { (b : Bad) → IsErrOf result (NewError.BadLimits b) ↔ (first_bad limits ≡ Err b) }
        ensures fresh { IfOk result (λ d. After (state d) [] []) }
        ensures unrefused { IfOk result (λ d. (state d).refusal ≡ None) }
        ensures rules { IfOk result (λ d. (state d).rules ≡ with_lenient lenient (rules_of limits)) }
        ensures nothing_held { IfOk result (λ d. HoldsNothing d) }
        ensures nothing_given { IfOk result (λ d. (state d).given ≡ None) }
    {
        if let Err(bad) = limits.check() {
            return Err(NewError::BadLimits(bad));
        }
        match Self::with_room(alloc, Asked::new(&limits, lenient)) {
            Ok(decoder) => Ok(decoder),
            Err(NoMemory) => Err(NewError::NoMemory),
        }
    }

    fn with_room(alloc: A, limits: Asked) -> Result<Self, NoMemory>
        requires cell { 1 ≤ limits.cell }
        requires entries { limits.entries < 2 ^ 31 }
        ensures fresh { IfOk result (λ d. After (state d) [] []) }
        ensures unrefused { IfOk result (λ d. (state d).refusal ≡ None) }
        ensures rules { IfOk result (λ d. (state d).rules ≡ rules_asked limits) }
        ensures nothing_held { IfOk result (λ d. HoldsNothing d) }
        ensures nothing_given { IfOk result (λ d. (state d).given ≡ None) }
    {
        let partial = Partial::new(alloc.clone()?, limits.text.max(limits.cell))?;
        let table = TypeTable::new(alloc.clone()?, limits.entries)?;
        let types = TypeReader::asked(alloc.clone()?, &limits)?;
        let cells = CellReader::asked(alloc, &limits)?;
        let progress = StreamProgress::new(limits);
        let parts = Parts {
            partial,
            types,
            cells,
            table,
            given: None,
        };
        Ok(Decoder { progress, parts })
    }
}

impl<A: Allocator> Decoder<A> {
    ghost use Rattle.cqlp_decode.specs.Lending.{LeavesAnswer};
    ghost use Rattle.cqlp_decode.specs.Cells.{DrainsCells, StaysWithin};
    ghost use Rattle.cqlp_decode.specs.Giving.{GivesAlso, GivesBack, TakesAlso, after_taking, free_table, last_types, once_given, reason_against};
    ghost use Rattle.cqlp_decode.specs.Reading.{Gives, is_in_use};
    ghost use Rattle.cqlp_decode.specs.Sinks.{Gets, Fails};
    ghost use Rattle.cqlp_decode.specs.Progress.{Advances, HoldsGiven, LeavesTypes, Takes, WhatThere, event_at};
    ghost use Rattle.cqlp_decode.specs.Gathering.{Gathers};
    ghost use Rattle.cqlp_decode.specs.Streams.{After, Answers, EndsAs, HoldsNothing, IsUnrefused, IsWithin, Uses};
    ghost use Rattle.cqlp_decode.specs.Streams.{buffer_of, capacity_within, given_nodes, state};
    ghost use Rattle.cqlp_decode.specs.declared.given.GiveReason.{GiveReason as Why};
    ghost use Rattle.cqlp_kind.specs.Types.{types_of};

    /// The next event that the input leads to. The caller hands in the bytes after those that were used, and goes on
    /// until more are wanted. A refusal is final: each later call says it again.
    ///
    /// **Call until [`Step::More`], not while bytes are left: the end of a frame, and of an open value, takes one more call
    /// with no bytes.** A loop `while used < n` misses that event, or never ends. This one is right:
    ///
    /// ```text
    /// let mut used = 0;
    /// loop {
    ///     match decoder.next(&input[used..]) {
    ///         Step::Event { at, used: taken, event } => {
    ///             used += taken; // may be 0
    ///             // the event is here
    ///         }
    ///         Step::More { .. } => break, // all bytes are used: read more
    ///         Step::Refused(refusal) => return Err(refusal),
    ///     }
    /// }
    /// ```
    pub fn next<'a>(&'a mut self, input: &'a [u8]) -> Step<'a>
        ensures* next { sem 𝓛 (LeavesAnswer A.row A.Allocator self.entry self.old input.now result) }
        ensures uses { Uses input.now result }
    {
        if let Some(taken) = self.take_scalar(input) {
            return Step::Event {
                at: taken.at,
                used: taken.used,
                event: Event::Leaf {
                    row: taken.row,
                    column: taken.column,
                    level: 0,
                    scalar: taken.scalar,
                },
            };
        }
        match self.advance(input) {
            EventAdvance::More { used } => Step::More { used },
            EventAdvance::Refused(refusal) => Step::Refused(refusal),
            EventAdvance::Event { at, used, what } => Step::Event {
                at,
                used,
                event: self.lend(input, what),
            },
        }
    }

    /// Gives types for a page whose result has the flag No_metadata (0x04, section 4.2.5.2 of
    /// `native_protocol_v4.spec`): they wait for the first page that has it and as many columns as they are, type its
    /// cells, and type no other page unless they are given again. Given once a frame's header came, and taken back at its
    /// end, they type that frame's page or none. The table that was held before comes back. A table that is not taken
    /// comes back with the first reason against it, and nothing changes.
    ///
    /// # Errors
    ///
    /// The first reason against the table, which comes back with it: nothing changes.
    pub fn give(&mut self, table: TypeTable<A>) -> Result<Option<TypeTable<A>>, GiveError<A>>
        ensures refused { (w : Why) → reason_against (state self.old) table.nodes ≡ Some w
            → (result ≡ Err (record { why = w; table = table })) × (self.new ≡ self.old) }
        ensures taken { reason_against (state self.old) table.nodes ≡ None
            → (result ≡ Ok (state self.old).given) × (state self.new ≡ once_given (state self.old) table) }
        ensures after { reason_against (state self.old) table.nodes ≡ None
            → GivesAlso (Gives (types_of table.nodes)) (state self.old) (state self.new) }
        ensures levels { levels_of self.new.parts ≡ levels_of self.old.parts }
    {
        if let Some(why) = self.reason(&table) {
            return Err(GiveError { why, table });
        }
        self.progress.given_use = GivenUse::Waiting;
        Ok(self.parts.given.replace(table))
    }

    /// Takes back the table that was given, if one is held and not in use. After a refusal none is in use.
    pub fn take_given(&mut self) -> Option<TypeTable<A>>
        ensures given { result ≡ free_table (state self.old) }
        ensures left { state self.new ≡ after_taking result (state self.old) }
        ensures after { TakesAlso result (state self.old) (state self.new) }
        ensures refused { GivesBack result (state self.old) }
        ensures levels { levels_of self.new.parts ≡ levels_of self.old.parts }
    {
        if self.is_in_use() {
            return None;
        }
        self.parts.given.take()
    }

    /// Begins another stream with the memory and the limits that it has, whatever became of the one before: it is what
    /// `new` makes of these limits. The table that is held comes back.
    pub fn restart(&mut self) -> Option<TypeTable<A>>
        ensures given { result ≡ (state self.old).given }
        ensures fresh { After (state self.new) [] [] }
        ensures unrefused { (state self.new).refusal ≡ None }
        ensures rules { (state self.new).rules ≡ (state self.old).rules }
        ensures nothing_held { HoldsNothing self.new }
        ensures nothing_given { (state self.new).given ≡ None }
        ensures in_place { buffer_of self.new ≡ buffer_of self.old }
    {
        self.progress = StreamProgress::new(self.progress.limits);
        self.parts.partial.stop();
        self.parts.types.stop();
        self.parts.cells.stop();
        self.parts.table.clear();
        self.parts.given.take()
    }

    /// How the stream ends, if it ends after the bytes that were used.
    pub fn finish(&self) -> Finish
        ensures refused { (r : Refusal) → (state self.now).refusal ≡ Some r → result ≡ Finish.Refused r }
        ensures unrefused { (state self.now).refusal ≡ None → IsUnrefused result }
        ensures ends { EndsAs (state self.now) result }
    {
        self.progress.finish(&self.parts)
    }

    /// What is held of the stream: at most as many bytes as the greater of the limits on a text and on a cell, twice as
    /// many type options as their limit, since two tables are held, and as many levels as the limit on nesting.
    pub fn held(&self) -> Held
        ensures bytes { result.bytes ≡ length (state self.now).held }
        ensures entries { result.entries
            ≡ length (state self.now).place.nodes + length (given_nodes (state self.now).given) }
        ensures levels { result.levels ≡ levels_of self.now.parts }
        ensures bounded { IsWithin result (state self.now).rules }
    {
        Held {
            bytes: self.parts.partial.held(),
            entries: self.parts.table.len() + self.given_len(),
            levels: self.parts.types.held() + self.parts.cells.levels(),
        }
    }

    /// The places that the decoder has memory for. The limits alone say how many, at every moment: no length, count or
    /// type of the stream does.
    pub fn capacity(&self) -> Capacity
        ensures { result ≡ capacity_within (state self.now).rules }
    {
        Capacity {
            bytes: self.parts.partial.capacity(),
            entries: self.parts.table.capacity(),
            open_types: self.parts.types.capacity(),
            open_values: self.parts.cells.capacity(),
        }
    }

    /// Where the content that is held, whose bytes `held` counts, lies from the index `start` on: it stays there until the
    /// next call that reads on.
    pub fn held_address(&self, start: usize) -> *const u8
        ensures { result ≡ buffer_of self.now +ₚ min start (length (state self.now).held) }
    {
        self.parts.partial.address(start)
    }

    /// Whether a content of a field or of a cell is gathered, of which more bytes are missing than one read of a run gives.
    pub(crate) fn gathers(&self) -> bool
        ensures { IsTrue result → Gathers self.now }
    {
        self.progress.refusal.is_none()
            && matches!(
                self.progress.stage,
                StreamStage::Field(_) | StreamStage::InCell(_)
            )
            && self.parts.partial.gathers_more(4096)
    }

    /// Reads the next bytes of the content that is gathered straight into the memory that holds it, by one call of the
    /// reader for up to 4,096 bytes. It does what `next` does of these bytes, which is to want more.
    pub(crate) fn read_content<R: Source>(&mut self, reader: &mut R) -> Result<usize, IoFault>
        requires { Gathers self.old }
        ensures bytes { ReadsPiece 4096 (R.left reader.old) (R.left reader.new) result (self.new ≡ self.old)
            (λ piece. Answers (state self.old) piece (Step.More (length piece)) (state self.new)) }
        ensures failures { R.failures reader.new ≡ counted (is_err result) (R.failures reader.old) }
        ensures reads { R.reads reader.new ≡ counted true (R.reads reader.old) }
        ensures asked { R.asked reader.new ≡ counted_up 4096 (R.asked reader.old) }
    {
        self.parts.partial.read_from(reader, 4096)
    }

    /// The types of the metadata begun last: those handed out since the field MetaFlags was. The table has room for as many as the limit
    /// `entries` allows.
    pub fn table(&self) -> &TypeTable<A>
        ensures { result.now ≡ last_types (state self.now) }
    {
        &self.parts.table
    }

    /// How many type options the table has that the caller gave.
    fn given_len(&self) -> u32
        ensures is { result ≡ length (given_nodes (state self.now).given) }
        ensures bound { result ≤ (state self.now).rules.entries }
    {
        match &self.parts.given {
            Some(table) => table.len(),
            None => 0,
        }
    }

    /// Why a table is not taken now, if so.
    fn reason(&self, table: &TypeTable<A>) -> Option<GiveReason>
        ensures is { result ≡ reason_against (state self.now) table.now.nodes }
        ensures fits { result ≡ None → HoldsGiven self.now.progress.limits (Some table.now) }
    {
        if self.progress.refusal.is_some() {
            Some(GiveReason::Ended)
        } else if !self.progress.limits.types {
            Some(GiveReason::Off)
        } else if self.is_in_use() {
            Some(GiveReason::Busy)
        } else if !table.whole() {
            Some(GiveReason::Open)
        } else if table.len() > self.progress.limits.entries {
            Some(GiveReason::TooMany)
        } else if table.depth() > self.progress.limits.depth {
            Some(GiveReason::TooDeep)
        } else {
            None
        }
    }

    /// Whether a given table types the frame under way.
    fn is_in_use(&self) -> bool
        ensures { result ≡ is_in_use (state self.now).place.given }
    {
        self.parts.given.is_some() && matches!(self.progress.given_use, GivenUse::InUse)
    }

    /// Takes the cell that is due, where it is a scalar and all its bytes lie in the input.
    #[inline]
    fn take_scalar<'a>(&mut self, input: &'a [u8]) -> Option<ScalarCell<'a>>
        ensures { Takes (state self.old) input.now result (state self.new) }
    {
        self.progress.take_scalar(&self.parts, input)
    }

    /// Hands events of the input to the sink that lie whole in it, as far as the loops over fields, over the cells of a page
    /// and over their items take them, and answers how many bytes of the input they take. It may stop before any of them:
    /// the next call is `next`, which decides what is left. At a sink's fault the event at which it failed was taken too.
    /// After a refusal nothing is handed out.
    ///
    /// # Errors
    ///
    /// The fault of the sink, with how many bytes the events before it and its own take.
    #[inline]
    pub fn hand_whole<S: Sink>(&mut self, input: &[u8], sink: &mut S) -> Result<usize, FaultAfter>
        ensures stays { StaysWithin (state self.old) input.now result (state self.new) }
        ensures refused { (r : Refusal) → (state self.old).refusal ≡ Some r
            → (state self.new ≡ state self.old) × (sink.new ≡ sink.old) × (result ≡ Ok 0) }
        ensures drains { DrainsCells (Gets S.Sink) (Fails S.Sink) (state self.old) input.now result (state self.new)
            sink.old sink.new }
    {
        let used = match self.take_fields(input, sink) {
            Ok(used) => used,
            Err(fault) => return Err(fault),
        };
        let more = match self.take_cells(&input[used..], sink) {
            Ok(more) => more,
            Err(fault) => {
                let used = used + fault.used;
                return Err(FaultAfter { used });
            }
        };
        Ok(used + more)
    }

    /// Hands headers, fields and ends of frames to the sink, as far as the loop over them takes them, and answers how
    /// many bytes of the input they take.
    #[inline]
    fn take_fields<S: Sink>(&mut self, input: &[u8], sink: &mut S) -> Result<usize, FaultAfter>
        ensures stays { StaysWithin (state self.old) input.now result (state self.new) }
        ensures refused { (r : Refusal) → (state self.old).refusal ≡ Some r
            → (state self.new ≡ state self.old) × (sink.new ≡ sink.old) × (result ≡ Ok 0) }
        ensures drains { DrainsCells (Gets S.Sink) (Fails S.Sink) (state self.old) input.now result (state self.new)
            sink.old sink.new }
    {
        if self.progress.is_in_page() {
            return Ok(0);
        }
        take_fields(&mut self.progress, &mut self.parts, input, sink)
    }

    /// Hands cells to the sink, as far as the loops over a page and over the items of its cells take them, and answers how
    /// many bytes of the input they take.
    #[inline]
    fn take_cells<S: Sink>(&mut self, input: &[u8], sink: &mut S) -> Result<usize, FaultAfter>
        ensures stays { StaysWithin (state self.old) input.now result (state self.new) }
        ensures refused { (r : Refusal) → (state self.old).refusal ≡ Some r
            → (state self.new ≡ state self.old) × (sink.new ≡ sink.old) × (result ≡ Ok 0) }
        ensures drains { DrainsCells (Gets S.Sink) (Fails S.Sink) (state self.old) input.now result (state self.new)
            sink.old sink.new }
    {
        if !self.progress.is_in_page() {
            return Ok(0);
        }
        let mut used = match self.take_scalars(input, sink) {
            Ok(used) => used,
            Err(fault) => return Err(fault),
        };
        'turns: loop {
            let more = match self.take_turn(&input[used..], sink) {
                Ok(more) => more,
                Err(fault) => {
                    let used = used + fault.used;
                    return Err(FaultAfter { used });
                }
            };
            used += more;
            if more == 0 || !self.progress.is_cell_due() {
                return Ok(used);
            }
        }
    }

    /// Hands cells to the sink that are scalars, null or empty.
    #[inline]
    fn take_scalars<S: Sink>(&mut self, input: &[u8], sink: &mut S) -> Result<usize, FaultAfter>
        ensures stays { StaysWithin (state self.old) input.now result (state self.new) }
        ensures refused { (r : Refusal) → (state self.old).refusal ≡ Some r
            → (state self.new ≡ state self.old) × (sink.new ≡ sink.old) × (result ≡ Ok 0) }
        ensures drains { DrainsCells (Gets S.Sink) (Fails S.Sink) (state self.old) input.now result (state self.new)
            sink.old sink.new }
    {
        take_cells(&mut self.progress, &self.parts, input, sink)
    }

    /// Hands cells to the sink that have items, and the items of the cell under way.
    #[inline]
    fn take_nested<S: Sink>(&mut self, input: &[u8], sink: &mut S) -> Result<usize, FaultAfter>
        ensures stays { StaysWithin (state self.old) input.now result (state self.new) }
        ensures refused { (r : Refusal) → (state self.old).refusal ≡ Some r
            → (state self.new ≡ state self.old) × (sink.new ≡ sink.old) × (result ≡ Ok 0) }
        ensures drains { DrainsCells (Gets S.Sink) (Fails S.Sink) (state self.old) input.now result (state self.new)
            sink.old sink.new }
    {
        let due = self.progress.due_cell();
        let used = match take_lists(&mut self.progress, &mut self.parts, input, sink) {
            Ok(used) => used,
            Err(fault) => return Err(fault),
        };
        // Where the first cell was left unfinished, those after it are likely to be like it: then one loop goes over all.
        let counted = self.progress.is_in(due);
        let rest = &input[used..];
        let more = match take_items(&mut self.progress, &mut self.parts, counted, rest, sink) {
            Ok(more) => more,
            Err(fault) => {
                let used = used + fault.used;
                return Err(FaultAfter { used });
            }
        };
        Ok(used + more)
    }

    /// The same, and then cells that are scalars.
    #[inline]
    fn take_turn<S: Sink>(&mut self, input: &[u8], sink: &mut S) -> Result<usize, FaultAfter>
        ensures stays { StaysWithin (state self.old) input.now result (state self.new) }
        ensures refused { (r : Refusal) → (state self.old).refusal ≡ Some r
            → (state self.new ≡ state self.old) × (sink.new ≡ sink.old) × (result ≡ Ok 0) }
        ensures drains { DrainsCells (Gets S.Sink) (Fails S.Sink) (state self.old) input.now result (state self.new)
            sink.old sink.new }
    {
        let used = match self.take_nested(input, sink) {
            Ok(used) => used,
            Err(fault) => return Err(fault),
        };
        if used == 0 || !self.progress.is_cell_due() {
            return Ok(used);
        }
        let more = match self.take_scalars(&input[used..], sink) {
            Ok(more) => more,
            Err(fault) => {
                let used = used + fault.used;
                return Err(FaultAfter { used });
            }
        };
        Ok(used + more)
    }

    /// The work of a call, with nothing borrowed in its result.
    fn advance(&mut self, input: &[u8]) -> EventAdvance
        ensures advances { Advances (state self.old) input.now result (state self.new) }
        ensures table { LeavesTypes result (state self.old).place.nodes (state self.new).place.nodes }
    {
        self.progress.advance(&mut self.parts, input)
    }

    /// The event that `advance` made of this input.
    fn lend<'a>(&'a self, input: &'a [u8], what: EventOutline) -> Event<'a>
        requires { WhatThere (state self.now).held input.now what }
        ensures { event_of result ≡ event_at (state self.now).held input.now what }
    {
        match what {
            EventOutline::Frame(header) => Event::Frame(header),
            EventOutline::Holds(field, item) => event_with(
                field,
                self.parts.partial.lend(input, item),
            ),
            EventOutline::Option(part) => match part.lend(&self.parts.partial, input) {
                TypeItem::Node(kind) => Event::TypeNode(kind),
                TypeItem::Text(field, text) => Event::Text { field, text },
                TypeItem::Count(count) => Event::Count {
                    field: Field::Fields,
                    count,
                },
            },
            EventOutline::Cell(row, column, part) => event_in(
                row,
                column,
                part.lend(&self.parts.partial, input),
            ),
            EventOutline::End(extra) => Event::End { extra },
        }
    }
}

/// The event that a cell of this row and this column holds this.
fn event_in(row: u32, column: u32, part: CellItem<'_>) -> Event<'_>
    ensures { event_of result ≡ cell_event row column (cell.event_of part.entry) }
{
    match part {
        CellItem::Leaf { level, scalar } => Event::Leaf {
            row,
            column,
            level,
            scalar,
        },
        CellItem::Null { level } => Event::Null { row, column, level },
        CellItem::Empty { level } => Event::Empty { row, column, level },
        CellItem::Enter { level, kind, items } => Event::Enter {
            row,
            column,
            level,
            kind,
            items,
        },
        CellItem::Leave { level, items } => Event::Leave { level, items },
        CellItem::Part {
            level,
            offset,
            bytes,
            last,
        } => Event::Part {
            row,
            column,
            level,
            offset,
            bytes,
            last,
        },
    }
}

/// The event that a field holds a value.
#[inline(always)]
pub(crate) fn event_with(field: Field, value: Prim<'_>) -> Event<'_>
    ensures { event_of result ≡ reading.Holds field (value_of value.entry) }
{
    match value {
        Prim::Byte(value) => Event::Byte { field, value },
        Prim::Short(value) => Event::Short { field, value },
        Prim::Int(value) => Event::Int { field, value },
        Prim::Long(value) => Event::Long { field, value },
        Prim::Uuid(value) => Event::Uuid { field, value },
        Prim::Count(count) => Event::Count { field, count },
        Prim::Text(text) => Event::Text { field, text },
        Prim::Bytes(bytes) => Event::Bytes { field, bytes },
        Prim::Bound(value) => Event::Bound { field, value },
        Prim::Inet(address, port) => Event::Inet {
            field,
            address,
            port,
        },
    }
}
