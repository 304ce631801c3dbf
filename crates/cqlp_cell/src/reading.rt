//! The steps of reading a cell.

ghost use Rattle.std.specs.Prelude.{◌≡◌, ◌≢◌, ◌+◌, ◌-◌, ◌<◌, ◌≤◌, ◌^◌, ◌++◌, List, [], length, drop, true, false, Some};
ghost use Rattle.cqlp_cell.specs.declared.size.Sized.TheVariants as size;
ghost use Rattle.cqlp_cell.specs.declared.progress.CellDue.TheVariants as due;
ghost use Rattle.cqlp_cell.specs.declared.progress.NextInCell.TheVariants as next;
ghost use Rattle.cqlp_cell.specs.declared.progress.Arrived.TheVariants as arrived;
ghost use Rattle.cqlp_cell.specs.Gathering.{IsGathering, seen_before};
ghost use Rattle.cqlp_cell.specs.Numbers.{IsCounting};
ghost use Rattle.cqlp_cell.specs.Sizes.{is_counted};
ghost use Rattle.cqlp_cell.specs.Progress.{Conforms, due_of, due_value, ended, has_further, state_after, state_of};
ghost use Rattle.cqlp_cell.specs.Coming.{room_of};
ghost use Rattle.cqlp_cell.specs.Levels.{level_of};
ghost use Rattle.cqlp_cell.specs.Reading.{Answers, Closes, Decided, Empties, EntersCounted, EntersFields, InnerConforms};
ghost use Rattle.cqlp_cell.specs.Reading.{IsFurtherUnder, IsLengthUnder, IsPartUnder, Joined, Reads, Sizes, Steps};
ghost use Rattle.cqlp_cell.specs.Reading.{inner_order as order_inside, next_after};

use crate::advance::{CellAdvance, CellOutline};
use crate::content::kind_read;
use crate::gather::{empty, gather, lend_bytes};
use crate::level::Level;
use crate::number::{Number, take_number};
use crate::open_values::{OpenValue, Order};
use crate::progress::{Arrived, CellDue, CellProgress, DueValue, NextInCell};
use crate::size::{Sized, size_up};
use cqlp_kind::Kind;
use cqlp_kind::content::fault;
use cqlp_note::{Partial, Reason, Refusal};
use cqlp_type::TypeTable;
use std::alloc::Allocator;

impl<A: Allocator> CellProgress<A> {
    /// Takes the next bytes of the cell. An item without a content, and a refusal, leave the buffer empty.
    #[inline]
    pub(crate) fn advance(
        &mut self,
        partial: &mut Partial<A>,
        table: &TypeTable<A>,
        input: &[u8],
    ) -> CellAdvance
        requires conforms { Conforms table.now.nodes (state_of self.old) }
        requires joined { Joined table.now.nodes (state_of self.old) partial.old }
        requires levels { self.old.open_values.room ≡ self.old.limits.depth }
        requires parts { self.old.limits.parts ≡ true → 0 < self.old.limits.cell }
        ensures moves { Steps table.now self.old partial.old input.now result self.new partial.new }
        ensures answers { Answers (state_of self.old) input.now result }
        ensures empties { Empties result partial.new }
        ensures room { self.new.open_values.room ≡ self.old.open_values.room }
        ensures limits { self.new.limits ≡ self.old.limits }
    {
        let answer = self.step(partial, table, input);
        if answer.is_bare() {
            empty(partial);
        }
        answer
    }

    /// Takes the next bytes of the cell.
    fn step(&mut self, partial: &mut Partial<A>, table: &TypeTable<A>, input: &[u8]) -> CellAdvance
        requires conforms { Conforms table.now.nodes (state_of self.old) }
        requires joined { Joined table.now.nodes (state_of self.old) partial.old }
        requires levels { self.old.open_values.room ≡ self.old.limits.depth }
        requires parts { self.old.limits.parts ≡ true → 0 < self.old.limits.cell }
        ensures moves { Steps table.now self.old partial.old input.now result self.new partial.new }
        ensures answers { Answers (state_of self.old) input.now result }
        ensures room { self.new.open_values.room ≡ self.old.open_values.room }
        ensures limits { self.new.limits ≡ self.old.limits }
    {
        match self.arrived {
            Arrived::Nothing => match self.due() {
                CellDue::Nothing => {
                    self.end();
                    CellAdvance::Done
                }
                CellDue::Close(value) => self.leave(value, partial, table, input),
                CellDue::Value => self.advance_length(false, partial, table, input),
                CellDue::Part { offset, total } => {
                    self.advance_part(false, offset, total, partial, table, input)
                }
            },
            Arrived::Length => self.advance_length(true, partial, table, input),
            Arrived::Scalar(len) => {
                let value = self.value(table);
                self.advance_scalar(true, value, len, 0, partial, table, input)
            }
            Arrived::Counted(len) => {
                let value = self.value(table);
                self.advance_count(true, value, len, 0, partial, table, input)
            }
            Arrived::First(total) => self.advance_first(true, total, 0, partial, table, input),
            Arrived::Later => match self.next {
                NextInCell::Part { offset, total } => {
                    self.advance_part(true, offset, total, partial, table, input)
                }
                NextInCell::Items => {
                    let value = self.open_values.last().unwrap();
                    self.advance_further(true, value, partial, table, input)
                }
                NextInCell::Nothing => unreachable!(),
                NextInCell::Cell(_) => unreachable!(),
            },
        }
    }

    /// Takes the next bytes of a scalar of this many bytes, whose length is read.
    fn advance_scalar(
        &mut self,
        begun: bool,
        value: DueValue,
        len: u32,
        start: usize,
        partial: &mut Partial<A>,
        table: &TypeTable<A>,
        input: &[u8],
    ) -> CellAdvance
        requires conforms { Conforms table.now.nodes (state_of self.old) }
        requires due { due_of (state_of self.old) ≡ due.Value }
        requires value { value ≡ due_value table.now.nodes (state_of self.old) }
        requires decided { Decided table.now.nodes (state_of self.old) len (size.Scalar len) }
        requires under_way { IsGathering begun len (self.old.offset + 4) start partial.old }
        requires longest { self.old.limits.cell ≤ partial.old.room }
        requires within { start ≤ length input.now }
        requires front { start ≤ 4 }
        requires some { length (seen_before begun partial.old) < start + len }
        ensures settles { Sizes table.now begun len start self.old partial.old input.now result self.new partial.new }
        ensures room { self.new.open_values.room ≡ self.old.open_values.room }
        ensures limits { self.new.limits ≡ self.old.limits }
    {
        let Some(found) = gather(partial, begun, len, self.offset + 4, start, input) else {
            self.arrived = Arrived::Scalar(len);
            return CellAdvance::More { used: input.len() };
        };
        let bytes = lend_bytes(partial, input, found.content);
        let Some(kind) = kind_read(self.limits.lenient, value.kind, bytes) else {
            return self.refuse(self.offset, fault(value.kind));
        };
        let at = self.offset;
        let level = self.open_values.len();
        self.pass(4 + u64::from(len), table);
        CellAdvance::Item {
            at,
            used: found.used,
            item: CellOutline::Leaf {
                level,
                kind,
                content: found.content,
            },
        }
    }

    /// Takes the next bytes of a list, a set or a map of this many bytes, whose length is read.
    fn advance_count(
        &mut self,
        begun: bool,
        value: DueValue,
        len: u32,
        start: usize,
        partial: &mut Partial<A>,
        table: &TypeTable<A>,
        input: &[u8],
    ) -> CellAdvance
        requires conforms { Conforms table.now.nodes (state_of self.old) }
        requires due { due_of (state_of self.old) ≡ due.Value }
        requires value { value ≡ due_value table.now.nodes (state_of self.old) }
        requires decided { Decided table.now.nodes (state_of self.old) len (size.Counted len) }
        requires under_way { IsCounting begun (self.old.offset + 4) len start partial.old }
        requires longest { self.old.limits.cell ≤ partial.old.room }
        requires levels { self.old.open_values.room ≡ self.old.limits.depth }
        requires within { start ≤ length input.now }
        requires front { start ≤ 4 }
        requires some { length (seen_before begun partial.old) < start + 4 }
        ensures settles { Sizes table.now begun len start self.old partial.old input.now result self.new partial.new }
        ensures room { self.new.open_values.room ≡ self.old.open_values.room }
        ensures limits { self.new.limits ≡ self.old.limits }
    {
        let at = self.offset + 4;
        match take_number(partial, begun, at, at + u64::from(len), start, input) {
            Number::More => {
                self.arrived = Arrived::Counted(len);
                CellAdvance::More { used: input.len() }
            }
            Number::Overrun => self.refuse(at, Reason::Overrun),
            Number::Got { used, number } => {
                if number > i32::MAX as u32 {
                    return self.refuse(at, Reason::BadCount);
                }
                let at = self.offset;
                let item = self.enter_counted(value, len, number, table);
                CellAdvance::Item { at, used, item }
            }
        }
    }

    /// Goes on inside a list, a set or a map of this many bytes, which has this many elements or pairs.
    pub(crate) fn enter_counted(
        &mut self,
        value: DueValue,
        len: u32,
        count: u32,
        table: &TypeTable<A>,
    ) -> CellOutline
        requires conforms { Conforms table.now.nodes (state_of self.old) }
        requires due { due_of (state_of self.old) ≡ due.Value }
        requires value { value ≡ due_value table.now.nodes (state_of self.old) }
        requires decided { Decided table.now.nodes (state_of self.old) len (size.Counted len) }
        requires levels { self.old.open_values.room ≡ self.old.limits.depth }
        requires count { 4 ≤ len }
        ensures item { result ≡ CellOutline.Enter (length self.old.open_values.open_values) value.kind count }
        ensures enters { EntersCounted table.now.nodes (state_of self.old) len count (state_of self.new) }
        ensures room { self.new.open_values.room ≡ self.old.open_values.room }
        ensures limits { self.new.limits ≡ self.old.limits }
    {
        let level = self.open_values.len();
        self.open_counted(value, len, count, table);
        CellOutline::Enter {
            level,
            kind: value.kind,
            items: count,
        }
    }

    /// The same, and says where it is in it.
    #[inline(always)]
    pub(crate) fn open_counted(
        &mut self,
        value: DueValue,
        len: u32,
        count: u32,
        table: &TypeTable<A>,
    ) -> Level
        requires conforms { Conforms table.now.nodes (state_of self.old) }
        requires due { due_of (state_of self.old) ≡ due.Value }
        requires value { value ≡ due_value table.now.nodes (state_of self.old) }
        requires decided { Decided table.now.nodes (state_of self.old) len (size.Counted len) }
        requires levels { self.old.open_values.room ≡ self.old.limits.depth }
        requires count { 4 ≤ len }
        ensures enters { EntersCounted table.now.nodes (state_of self.old) len count (state_of self.new) }
        ensures level { level_of (state_of self.new) ≡ Some result }
        ensures room { self.new.open_values.room ≡ self.old.open_values.room }
        ensures limits { self.new.limits ≡ self.old.limits }
    {
        let stop = self.offset + 4 + u64::from(len);
        let (order, other) = inner_order(value, table);
        self.pass(8, table);
        let offset = self.offset;
        let value = OpenValue {
            order,
            node: value.inner,
            other,
            left: count,
            items: count,
            stop,
        };
        self.open_values.push(value);
        let level = self.open_values.len();
        Level {
            value,
            level,
            offset,
        }
    }

    /// Goes on inside a tuple or a user-defined type of this many bytes.
    pub(crate) fn enter_fields(
        &mut self,
        value: DueValue,
        len: u32,
        table: &TypeTable<A>,
    ) -> CellOutline
        requires conforms { Conforms table.now.nodes (state_of self.old) }
        requires due { due_of (state_of self.old) ≡ due.Value }
        requires value { value ≡ due_value table.now.nodes (state_of self.old) }
        requires decided { Decided table.now.nodes (state_of self.old) len (size.Fields len) }
        requires levels { self.old.open_values.room ≡ self.old.limits.depth }
        ensures item { result ≡ CellOutline.Enter (length self.old.open_values.open_values) value.kind value.arity }
        ensures enters { EntersFields table.now.nodes (state_of self.old) len (state_of self.new) }
        ensures room { self.new.open_values.room ≡ self.old.open_values.room }
        ensures limits { self.new.limits ≡ self.old.limits }
    {
        let level = self.open_values.len();
        let stop = self.offset + 4 + u64::from(len);
        let arity = u32::from(value.arity);
        self.pass(4, table);
        self.open_values.push(OpenValue {
            order: Order::Fields,
            node: value.inner,
            other: 0,
            left: arity,
            items: 0,
            stop,
        });
        CellOutline::Enter {
            level,
            kind: value.kind,
            items: arity,
        }
    }

    /// Takes the next bytes of the first part of a scalar of this many bytes, whose length is read.
    fn advance_first(
        &mut self,
        begun: bool,
        total: u32,
        start: usize,
        partial: &mut Partial<A>,
        table: &TypeTable<A>,
        input: &[u8],
    ) -> CellAdvance
        requires conforms { Conforms table.now.nodes (state_of self.old) }
        requires due { due_of (state_of self.old) ≡ due.Value }
        requires decided { Decided table.now.nodes (state_of self.old) total (size.Parts total) }
        requires under_way { IsGathering begun self.old.limits.cell (self.old.offset + 4) start partial.old }
        requires longest { self.old.limits.cell ≤ partial.old.room }
        requires parts { 0 < self.old.limits.cell }
        requires within { start ≤ length input.now }
        requires front { start ≤ 4 }
        requires some { length (seen_before begun partial.old) < start + self.old.limits.cell }
        ensures settles { Sizes table.now begun total start self.old partial.old input.now result self.new partial.new }
        ensures room { self.new.open_values.room ≡ self.old.open_values.room }
        ensures limits { self.new.limits ≡ self.old.limits }
    {
        let at = self.offset + 4;
        let size = self.limits.cell;
        let Some(found) = gather(partial, begun, size, at, start, input) else {
            self.arrived = Arrived::First(total);
            return CellAdvance::More { used: input.len() };
        };
        let level = self.open_values.len();
        self.pass(4 + u64::from(size), table);
        self.next = NextInCell::Part {
            offset: size,
            total,
        };
        CellAdvance::Item {
            at,
            used: found.used,
            item: CellOutline::Part {
                level,
                offset: 0,
                content: found.content,
                last: false,
            },
        }
    }

    /// Takes the next bytes of a later part of a scalar of `total` bytes, from this offset in it.
    fn advance_part(
        &mut self,
        begun: bool,
        offset: u32,
        total: u32,
        partial: &mut Partial<A>,
        table: &TypeTable<A>,
        input: &[u8],
    ) -> CellAdvance
        requires conforms { Conforms table.now.nodes (state_of self.old) }
        requires next { self.old.next ≡ next.Part offset total }
        requires under_way { IsPartUnder begun offset total (state_of self.old) partial.old }
        requires longest { self.old.limits.cell ≤ partial.old.room }
        ensures settles { Reads table.now begun self.old partial.old input.now result self.new partial.new }
        ensures room { self.new.open_values.room ≡ self.old.open_values.room }
        ensures limits { self.new.limits ≡ self.old.limits }
    {
        let left = total - offset;
        let size = self.limits.cell.min(left);
        let Some(found) = gather(partial, begun, size, self.offset, 0, input) else {
            self.arrived = Arrived::Later;
            return CellAdvance::More { used: input.len() };
        };
        let at = self.offset;
        let last = left <= self.limits.cell;
        self.offset += u64::from(size);
        self.arrived = Arrived::Nothing;
        self.next = next_part(last, offset + size, total);
        CellAdvance::Item {
            at,
            used: found.used,
            item: CellOutline::Part {
                level: self.open_values.len(),
                offset,
                content: found.content,
                last,
            },
        }
    }

    /// Goes on after the length of a value, which ends after this many bytes of the input.
    fn after_length(
        &mut self,
        value: DueValue,
        len: u32,
        start: usize,
        partial: &mut Partial<A>,
        table: &TypeTable<A>,
        input: &[u8],
    ) -> CellAdvance
        requires conforms { Conforms table.now.nodes (state_of self.old) }
        requires due { due_of (state_of self.old) ≡ due.Value }
        requires value { value ≡ due_value table.now.nodes (state_of self.old) }
        requires room { 4 ≤ room_of table.now.nodes (state_of self.old) }
        requires idle { partial.old.under_way ≡ false }
        requires longest { self.old.limits.cell ≤ partial.old.room }
        requires levels { self.old.open_values.room ≡ self.old.limits.depth }
        requires parts { self.old.limits.parts ≡ true → 0 < self.old.limits.cell }
        requires within { start ≤ length input.now }
        requires front { start ≤ 4 }
        requires some { 0 < start }
        ensures settles { Sizes table.now false len start self.old partial.old input.now result self.new partial.new }
        ensures room { self.new.open_values.room ≡ self.old.open_values.room }
        ensures limits { self.new.limits ≡ self.old.limits }
    {
        let at = self.offset;
        let level = self.open_values.len();
        match size_up(&self.limits, value.kind, value.stop - at, len) {
            Sized::Null => self.pass_length(CellOutline::Null { level }, start, table),
            Sized::Empty => self.pass_length(CellOutline::Empty { level }, start, table),
            Sized::Scalar(len) => {
                self.advance_scalar(false, value, len, start, partial, table, input)
            }
            Sized::Parts(len) => self.advance_first(false, len, start, partial, table, input),
            Sized::Counted(len) => {
                self.advance_count(false, value, len, start, partial, table, input)
            }
            Sized::Fields(len) => {
                let item = self.enter_fields(value, len, table);
                CellAdvance::Item {
                    at,
                    used: start,
                    item,
                }
            }
            Sized::Refused(why) => self.refuse(at, why),
        }
    }

    /// Goes on after a value that has a length alone.
    #[inline]
    fn pass_length(&mut self, item: CellOutline, used: usize, table: &TypeTable<A>) -> CellAdvance
        requires conforms { Conforms table.now.nodes (state_of self.old) }
        requires due { due_of (state_of self.old) ≡ due.Value }
        requires place { self.old.offset + 4 < 2 ^ 64 }
        ensures answer { result ≡ CellAdvance.Item self.old.offset used item }
        ensures state { state_of self.new ≡ state_after table.now.nodes (state_of self.old) 4 }
        ensures room { self.new.open_values.room ≡ self.old.open_values.room }
        ensures limits { self.new.limits ≡ self.old.limits }
    {
        let at = self.offset;
        self.pass(4, table);
        CellAdvance::Item { at, used, item }
    }

    /// Takes the next bytes of a value whose length is not read.
    fn advance_length(
        &mut self,
        begun: bool,
        partial: &mut Partial<A>,
        table: &TypeTable<A>,
        input: &[u8],
    ) -> CellAdvance
        requires conforms { Conforms table.now.nodes (state_of self.old) }
        requires due { due_of (state_of self.old) ≡ due.Value }
        requires under_way { IsLengthUnder table.now.nodes begun (state_of self.old) partial.old }
        requires longest { self.old.limits.cell ≤ partial.old.room }
        requires levels { self.old.open_values.room ≡ self.old.limits.depth }
        requires parts { self.old.limits.parts ≡ true → 0 < self.old.limits.cell }
        ensures settles { Reads table.now begun self.old partial.old input.now result self.new partial.new }
        ensures room { self.new.open_values.room ≡ self.old.open_values.room }
        ensures limits { self.new.limits ≡ self.old.limits }
    {
        let value = self.value(table);
        match take_number(partial, begun, self.offset, value.stop, 0, input) {
            Number::More => {
                self.arrived = Arrived::Length;
                CellAdvance::More { used: input.len() }
            }
            Number::Overrun => self.refuse(self.offset, Reason::Overrun),
            Number::Got { used, number } => {
                self.after_length(value, number, used, partial, table, input)
            }
        }
    }

    /// Ends the innermost value, or goes on behind its last field, where the caller is lenient.
    fn leave(
        &mut self,
        value: OpenValue,
        partial: &mut Partial<A>,
        table: &TypeTable<A>,
        input: &[u8],
    ) -> CellAdvance
        requires conforms { Conforms table.now.nodes (state_of self.old) }
        requires due { due_of (state_of self.old) ≡ due.Close value }
        requires fresh { self.old.arrived ≡ arrived.Nothing }
        requires idle { partial.old.under_way ≡ false }
        requires longest { self.old.limits.cell ≤ partial.old.room }
        ensures settles { Reads table.now false self.old partial.old input.now result self.new partial.new }
        ensures room { self.new.open_values.room ≡ self.old.open_values.room }
        ensures limits { self.new.limits ≡ self.old.limits }
    {
        if value.has_further(&self.limits, self.offset) {
            self.advance_further(false, value, partial, table, input)
        } else {
            self.close(value)
        }
    }

    /// Takes the next bytes behind the last field of the innermost value, which come as the parts of a long scalar do.
    fn advance_further(
        &mut self,
        begun: bool,
        value: OpenValue,
        partial: &mut Partial<A>,
        table: &TypeTable<A>,
        input: &[u8],
    ) -> CellAdvance
        requires conforms { Conforms table.now.nodes (state_of self.old) }
        requires due { due_of (state_of self.old) ≡ due.Close value }
        requires further { has_further (state_of self.old).rules value self.old.offset ≡ true }
        requires under_way { IsFurtherUnder begun value (state_of self.old) partial.old }
        requires longest { self.old.limits.cell ≤ partial.old.room }
        ensures settles { Reads table.now begun self.old partial.old input.now result self.new partial.new }
        ensures room { self.new.open_values.room ≡ self.old.open_values.room }
        ensures limits { self.new.limits ≡ self.old.limits }
    {
        let total = (value.stop - self.offset) as u32;
        self.next = NextInCell::Part { offset: 0, total };
        let answer = self.advance_part(begun, 0, total, partial, table, input);
        if let CellAdvance::More { .. } = answer {
            self.next = NextInCell::Items;
        }
        answer
    }

    /// Ends the innermost value.
    fn close(&mut self, value: OpenValue) -> CellAdvance
        requires due { due_of (state_of self.old) ≡ due.Close value }
        requires over { has_further (state_of self.old).rules value self.old.offset ≡ false }
        requires fresh { self.old.arrived ≡ arrived.Nothing }
        ensures closes { Closes (state_of self.old) result (state_of self.new) }
        ensures room { self.new.open_values.room ≡ self.old.open_values.room }
        ensures limits { self.new.limits ≡ self.old.limits }
    {
        let at = self.offset;
        if at < value.stop {
            return self.refuse(at, Reason::ExtraInValue);
        }
        self.open_values.pop();
        CellAdvance::Item {
            at,
            used: 0,
            item: CellOutline::Leave {
                level: self.open_values.len(),
                items: value.items,
            },
        }
    }

    /// Ends the cell by a refusal of what begins at this offset.
    fn refuse(&mut self, at: u64, why: Reason) -> CellAdvance
        ensures answer { result ≡ CellAdvance.Refused (record { at = at; why = why }) }
        ensures state { state_of self.new ≡ ended (state_of self.old) }
        ensures room { self.new.open_values.room ≡ self.old.open_values.room }
        ensures limits { self.new.limits ≡ self.old.limits }
    {
        self.end();
        CellAdvance::Refused(Refusal { at, why })
    }
}

/// What is read after a part.
fn next_part(last: bool, offset: u32, total: u32) -> NextInCell
    ensures { result ≡ next_after last offset total }
{
    if last {
        NextInCell::Items
    } else {
        NextInCell::Part { offset, total }
    }
}

/// How the items of a list, a set or a map follow one another, and the node of a map's second type.
#[inline(always)]
pub(crate) fn inner_order<A: Allocator>(value: DueValue, table: &TypeTable<A>) -> (Order, u32)
    requires { InnerConforms table.now.nodes value }
    ensures { result ≡ order_inside table.now.nodes value }
{
    match value.kind {
        Kind::Map => (
            Order::Keys,
            value.inner + table.node(value.inner).unwrap().span,
        ),
        _ => (Order::Elements, 0),
    }
}
