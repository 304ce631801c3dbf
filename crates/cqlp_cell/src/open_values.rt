//! The values around the one that is read.

ghost use Rattle.std.specs.Prelude.{◌≡◌, ◌+◌, ◌<◌, ◌≤◌, ◌++◌, ◌∷◌, [], length, IfOk, IfSome};

use cqlp_note::NoMemory;
use cqlp_type::TypeTable;
use std::alloc::Allocator;
use std::marker::Model;

/// What is read next in an open value.
#[derive(Clone, Copy)]
pub(crate) enum Order {
    /// An element of a list or a set.
    Elements,
    /// A key of a map.
    Keys,
    /// A value of a map, whose key was read.
    Values,
    /// An item of a tuple or a user-defined type.
    Fields,
}

/// A value whose items are read.
#[derive(Clone, Copy)]
pub(crate) struct OpenValue {
    pub order: Order,
    /// The node of the next item's type.
    pub node: u32,
    /// The node of the item's type that takes turns with it, in a map.
    pub other: u32,
    /// How many elements, pairs or fields have not begun.
    pub left: u32,
    /// How many elements or pairs there are in all; how many fields were read.
    pub items: u32,
    /// Where the value ends.
    pub stop: u64,
}

/// The open values, the outermost first.
#[derive(Drop)]
pub(crate) struct OpenValues<A: Allocator> {
    values: Vec<OpenValue, A>,
    room: u32,
}

impl<A: Allocator> Model for OpenValues<A> {
    ghost use Rattle.std.specs.Prelude.{◌≡◌, vec_capacity};
    ghost use Rattle.cqlp_cell.specs.OpenValues.{Nest, FitIn};

    ghost Value = { Nest };

    ghost view = { λ t. record { open_values = t.values.items; room = t.room } };

    ghost invariant = { λ t. (vec_capacity t.values ≡ t.room) × FitIn t.room t.values.items };
}

impl<A: Allocator> OpenValues<A> {
    ghost use Rattle.cqlp_cell.specs.OpenValues.{but_last, last_open, with_last};
    ghost use Rattle.cqlp_cell.specs.Progress.{HasNext, after_item_in};

    /// With room for this many.
    pub(crate) fn new(alloc: A, room: u32) -> Result<Self, NoMemory>
        ensures { IfOk result (λ values. values ≡ record { open_values = []; room = room }) }
    {
        Ok(OpenValues {
            values: Vec::with_capacity(alloc, room as usize)?,
            room,
        })
    }

    #[inline]
    pub(crate) fn len(&self) -> u32
        ensures is { result ≡ length self.now.open_values }
        ensures bound { result ≤ self.now.room }
    {
        self.values.len() as u32
    }

    /// How many values its memory has places for: the room, for as long as it lives.
    pub(crate) fn capacity(&self) -> usize
        ensures { result ≡ self.now.room }
    {
        self.values.capacity()
    }

    #[inline]
    pub(crate) fn clear(&mut self)
        ensures { self.new ≡ record { open_values = []; room = self.old.room } }
    {
        self.values.clear();
    }

    /// The innermost value.
    #[tactic(auto, using(crate::proofs::Nesting::last_read))]
    #[inline]
    pub(crate) fn last(&self) -> Option<OpenValue>
        ensures { result ≡ last_open self.now.open_values }
    {
        self.values.last().copied()
    }

    #[inline]
    pub(crate) fn push(&mut self, value: OpenValue)
        requires { length self.old.open_values < self.old.room }
        ensures { self.new ≡ record { open_values = self.old.open_values ++ value ∷ []; room = self.old.room } }
    {
        self.values.push_reserved(value);
    }

    /// Closes the innermost value.
    #[inline]
    pub(crate) fn pop(&mut self)
        ensures { self.new ≡ record { open_values = but_last self.old.open_values; room = self.old.room } }
    {
        self.values.pop();
    }

    /// Puts this in the place of the innermost value, if there is one.
    #[inline(always)]
    pub(crate) fn set_last(&mut self, value: OpenValue)
        ensures { self.new ≡ record { open_values = with_last value self.old.open_values; room = self.old.room } }
    {
        let len = self.values.len();
        if len > 0 {
            self.values[len - 1] = value;
        }
    }

    /// Goes on after the next item of the innermost value.
    #[inline(always)]
    pub(crate) fn pass_item(&mut self, table: &TypeTable<A>)
        requires { IfSome (last_open self.old.open_values) (λ o. HasNext table.now.nodes o o.order) }
        ensures { self.new ≡ record {
          open_values = after_item_in table.now.nodes self.old.open_values (last_open self.old.open_values);
          room = self.old.room;
        } }
    {
        let len = self.values.len();
        if len > 0 {
            self.values[len - 1].pass_item(table);
        }
    }
}
