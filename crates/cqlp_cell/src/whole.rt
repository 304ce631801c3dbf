//! Items that lie whole at the front of the input.

ghost use Rattle.std.specs.Prelude.{◌≡◌, ◌≤◌, List, None, length, take};
ghost use Rattle.cqlp_kind.specs.declared.node.Node.{Node};
ghost use Rattle.std.specs.Int.{w32, from_be_bytes};
ghost use Rattle.cqlp_cell.specs.declared.size.Sized.TheVariants as size;
ghost use Rattle.cqlp_cell.specs.declared.progress.CellDue.TheVariants as due;
ghost use Rattle.cqlp_cell.specs.declared.progress.Arrived.TheVariants as arrived;
ghost use Rattle.cqlp_cell.specs.Coming.{room_of};
ghost use Rattle.cqlp_cell.specs.Reading.{Decided};
ghost use Rattle.cqlp_cell.specs.Progress.{Conforms, due_of, due_value, state_of};
ghost use Rattle.cqlp_cell.specs.Levels.{IsInLevel, level_of, with_level};
ghost use Rattle.cqlp_cell.specs.Whole.{Enters, EntersNext, TakesBare, next_begun};

use crate::level::Level;
use crate::open_values::OpenValue;
use crate::progress::{Arrived, CellDue, CellProgress, DueValue, NextInCell, value_at};
use crate::reading::inner_order;
use crate::size::{Sized, size_up};
use cqlp_kind::Kind;
use cqlp_kind::content::read_array;
use cqlp_type::TypeTable;
use std::alloc::Allocator;

/// The next item of the innermost value that is open, of which nothing has come.
#[derive(Clone, Copy)]
pub struct DueItem {
    /// Where it begins.
    pub at: u64,
    pub kind: Kind,
    /// How many bytes there are from there to the end of the value around it.
    pub room: u64,
    pub level: u32,
}

/// A part of a cell that has no content, which began at this offset, and how many bytes it takes.
#[derive(Clone, Copy)]
pub struct BareItem {
    pub at: u64,
    pub used: usize,
    pub part: BarePart,
}

/// A part of a cell that has no content.
#[derive(Clone, Copy)]
pub enum BarePart {
    /// A value of a negative length.
    Null { level: u32 },
    /// A value of no bytes.
    Empty { level: u32 },
    /// The beginning of a value with items.
    Enter { level: u32, kind: Kind, items: u32 },
    /// The end of such a value.
    Leave { level: u32, items: u32 },
}

/// The beginning of a list, a set or a map, and where the reading is in it.
#[derive(Clone, Copy)]
pub struct Entered {
    pub item: BareItem,
    pub level: Level,
}

impl<A: Allocator> CellProgress<A> {
    /// The innermost value that is open, where what is read next is in it and nothing of that has come.
    #[inline(always)]
    pub(crate) fn level(&self) -> Option<Level>
        ensures { result ≡ level_of (state_of self.now) }
    {
        let Arrived::Nothing = self.arrived else {
            return None;
        };
        let NextInCell::Items = self.next else {
            return None;
        };
        let Some(value) = self.open_values.last() else {
            return None;
        };
        Some(Level {
            value,
            level: self.open_values.len(),
            offset: self.offset,
        })
    }

    /// Goes on where a level is, which is the innermost value from now on.
    #[inline(always)]
    pub(crate) fn set_level(&mut self, level: Level)
        ensures state { state_of self.new ≡ with_level (state_of self.old) level }
        ensures room { self.new.open_values.room ≡ self.old.open_values.room }
        ensures limits { self.new.limits ≡ self.old.limits }
    {
        self.offset = level.offset;
        self.open_values.set_last(level.value);
    }

    /// Takes what is next, where it has no content and all its bytes lie in the input.
    #[inline(always)]
    pub(crate) fn take_bare(&mut self, table: &TypeTable<A>, input: &[u8]) -> Option<BareItem>
        requires conforms { Conforms table.now.nodes (state_of self.old) }
        requires levels { self.old.open_values.room ≡ self.old.limits.depth }
        ensures takes { TakesBare table.now.nodes (state_of self.old) input.now result (state_of self.new) }
        ensures room { self.new.open_values.room ≡ self.old.open_values.room }
        ensures limits { self.new.limits ≡ self.old.limits }
    {
        let Arrived::Nothing = self.arrived else {
            return None;
        };
        match self.due() {
            CellDue::Nothing | CellDue::Part { .. } => None,
            CellDue::Close(value) => {
                let at = self.offset;
                if at < value.stop {
                    return None;
                }
                self.open_values.pop();
                Some(BareItem {
                    at,
                    used: 0,
                    part: BarePart::Leave {
                        level: self.open_values.len(),
                        items: value.items,
                    },
                })
            }
            CellDue::Value => self.take_front(table, input),
        }
    }

    /// Takes the value that is next, where it has no content, or goes on inside it.
    #[inline(always)]
    fn take_front(&mut self, table: &TypeTable<A>, input: &[u8]) -> Option<BareItem>
        requires conforms { Conforms table.now.nodes (state_of self.old) }
        requires fresh { self.old.arrived ≡ arrived.Nothing }
        requires due { due_of (state_of self.old) ≡ due.Value }
        requires levels { self.old.open_values.room ≡ self.old.limits.depth }
        ensures takes { TakesBare table.now.nodes (state_of self.old) input.now result (state_of self.new) }
        ensures room { self.new.open_values.room ≡ self.old.open_values.room }
        ensures limits { self.new.limits ≡ self.old.limits }
    {
        let value = self.value(table);
        let at = self.offset;
        let level = self.open_values.len();
        if value.stop - at < 4 || input.len() < 4 {
            return None;
        }
        let len = u32::from_be_bytes(read_array(input));
        match size_up(&self.limits, value.kind, value.stop - at, len) {
            Sized::Null => {
                self.pass(4, table);
                Some(BareItem {
                    at,
                    used: 4,
                    part: BarePart::Null { level },
                })
            }
            Sized::Empty => {
                self.pass(4, table);
                Some(BareItem {
                    at,
                    used: 4,
                    part: BarePart::Empty { level },
                })
            }
            Sized::Counted(len) => self.take_counted(value, len, table, input),
            Sized::Fields(len) => {
                self.enter_fields(value, len, table);
                Some(BareItem {
                    at,
                    used: 4,
                    part: BarePart::Enter {
                        level,
                        kind: value.kind,
                        items: u32::from(value.arity),
                    },
                })
            }
            Sized::Scalar(_) | Sized::Parts(_) | Sized::Refused(_) => None,
        }
    }

    /// Goes on inside a list, a set or a map of this many bytes, where its count is lawful and lies in the input.
    #[inline(always)]
    fn take_counted(
        &mut self,
        value: DueValue,
        len: u32,
        table: &TypeTable<A>,
        input: &[u8],
    ) -> Option<BareItem>
        requires conforms { Conforms table.now.nodes (state_of self.old) }
        requires fresh { self.old.arrived ≡ arrived.Nothing }
        requires due { due_of (state_of self.old) ≡ due.Value }
        requires value { value ≡ due_value table.now.nodes (state_of self.old) }
        requires decided { Decided table.now.nodes (state_of self.old) len (size.Counted len) }
        requires room { 4 ≤ room_of table.now.nodes (state_of self.old) }
        requires within { 4 ≤ length input.now }
        requires length { len ≡ from_be_bytes w32 (take 4 input.now) }
        requires levels { self.old.open_values.room ≡ self.old.limits.depth }
        ensures takes { TakesBare table.now.nodes (state_of self.old) input.now result (state_of self.new) }
        ensures room { self.new.open_values.room ≡ self.old.open_values.room }
        ensures limits { self.new.limits ≡ self.old.limits }
    {
        let at = self.offset;
        let level = self.open_values.len();
        if len < 4 || input.len() < 8 {
            return None;
        }
        let count = u32::from_be_bytes(read_array(&input[4..]));
        if count > i32::MAX as u32 {
            return None;
        }
        self.enter_counted(value, len, count, table);
        Some(BareItem {
            at,
            used: 8,
            part: BarePart::Enter {
                level,
                kind: value.kind,
                items: count,
            },
        })
    }

    /// Goes on inside the list, the set or the map that is next, where its length and its count are lawful and lie in the
    /// input.
    #[inline(always)]
    pub(crate) fn enter_value(&mut self, table: &TypeTable<A>, input: &[u8]) -> Option<Entered>
        requires conforms { Conforms table.now.nodes (state_of self.old) }
        requires levels { self.old.open_values.room ≡ self.old.limits.depth }
        ensures enters { Enters table.now.nodes (state_of self.old) input.now result (state_of self.new) }
        ensures room { self.new.open_values.room ≡ self.old.open_values.room }
        ensures limits { self.new.limits ≡ self.old.limits }
    {
        let Arrived::Nothing = self.arrived else {
            return None;
        };
        let CellDue::Value = self.due() else {
            return None;
        };
        let value = self.value(table);
        let room = value.stop - self.offset;
        if room < 4 || input.len() < 8 {
            return None;
        }
        let len = u32::from_be_bytes(read_array(input));
        let Sized::Counted(len) = size_up(&self.limits, value.kind, room, len) else {
            return None;
        };
        self.enter_sized(value, len, table, input)
    }

    /// The same of a list, a set or a map of this many bytes.
    #[inline(always)]
    fn enter_sized(
        &mut self,
        value: DueValue,
        len: u32,
        table: &TypeTable<A>,
        input: &[u8],
    ) -> Option<Entered>
        requires conforms { Conforms table.now.nodes (state_of self.old) }
        requires fresh { self.old.arrived ≡ arrived.Nothing }
        requires due { due_of (state_of self.old) ≡ due.Value }
        requires value { value ≡ due_value table.now.nodes (state_of self.old) }
        requires decided { Decided table.now.nodes (state_of self.old) len (size.Counted len) }
        requires room { 4 ≤ room_of table.now.nodes (state_of self.old) }
        requires within { 8 ≤ length input.now }
        requires length { len ≡ from_be_bytes w32 (take 4 input.now) }
        requires levels { self.old.open_values.room ≡ self.old.limits.depth }
        ensures enters { Enters table.now.nodes (state_of self.old) input.now result (state_of self.new) }
        ensures room { self.new.open_values.room ≡ self.old.open_values.room }
        ensures limits { self.new.limits ≡ self.old.limits }
    {
        let at = self.offset;
        let around = self.open_values.len();
        let count = u32::from_be_bytes(read_array(&input[4..]));
        if len < 4 || count > i32::MAX as u32 {
            return None;
        }
        let level = self.open_counted(value, len, count, table);
        let part = BarePart::Enter {
            level: around,
            kind: value.kind,
            items: count,
        };
        Some(Entered {
            item: BareItem { at, used: 8, part },
            level,
        })
    }

    /// The beginning of the list, the set or the map that the next cell of the container is, of the type at this node, where a
    /// level is at the end of the cell before.
    #[inline(always)]
    pub(crate) fn enter_next(
        &self,
        level: Level,
        node: u32,
        table: &TypeTable<A>,
        input: &[u8],
    ) -> Option<Entered>
        requires inside { IsInLevel (state_of self.now) level }
        requires alone { level.level ≤ 1 }
        requires conforms { Conforms table.now.nodes (next_begun (state_of self.now) level node) }
        ensures { EntersNext table.now.nodes (state_of self.now) level node input.now result }
    {
        let value = value_at(table, node, self.stop);
        let room = value.stop - level.offset;
        if room < 4 || input.len() < 8 {
            return None;
        }
        let len = u32::from_be_bytes(read_array(input));
        let Sized::Counted(len) = size_up(&self.limits, value.kind, room, len) else {
            return None;
        };
        self.enter_beside(level, node, value, len, table, input)
    }

    /// The same of a list, a set or a map of this many bytes.
    #[inline(always)]
    fn enter_beside(
        &self,
        level: Level,
        node: u32,
        value: DueValue,
        len: u32,
        table: &TypeTable<A>,
        input: &[u8],
    ) -> Option<Entered>
        requires inside { IsInLevel (state_of self.now) level }
        requires alone { level.level ≤ 1 }
        requires conforms { Conforms table.now.nodes (next_begun (state_of self.now) level node) }
        requires value { value ≡ due_value table.now.nodes (next_begun (state_of self.now) level node) }
        requires decided { Decided table.now.nodes (next_begun (state_of self.now) level node) len (size.Counted len) }
        requires room { 4 ≤ room_of table.now.nodes (next_begun (state_of self.now) level node) }
        requires within { 8 ≤ length input.now }
        requires length { len ≡ from_be_bytes w32 (take 4 input.now) }
        ensures { EntersNext table.now.nodes (state_of self.now) level node input.now result }
    {
        let at = level.offset;
        let count = u32::from_be_bytes(read_array(&input[4..]));
        if len < 4 || count > i32::MAX as u32 {
            return None;
        }
        let (order, other) = inner_order(value, table);
        let inside = OpenValue {
            order,
            node: value.inner,
            other,
            left: count,
            items: count,
            stop: at + 4 + u64::from(len),
        };
        let level = Level {
            value: inside,
            level: 1,
            offset: at + 8,
        };
        let part = BarePart::Enter {
            level: 0,
            kind: value.kind,
            items: count,
        };
        let item = BareItem { at, used: 8, part };
        Some(Entered { item, level })
    }
}
