//! The events that are held of a frame, and what is taken of them.

ghost use Rattle.std.specs.Prelude.{◌≡◌, List, [], ◌∷◌, None, Some, map, option_map, string_bytes, true};
ghost use Rattle.cqlp_note.specs.Field as note;
ghost use Rattle.cqlp_note.specs.Heading.{has};
ghost use Rattle.cqlp_grammar.specs.Events.{Holds};
ghost use Rattle.cqlp_message.specs.Owned.{bound_of, bytes_of};
ghost use Rattle.cqlp_build.specs.FrameEvents.{Builds, HoldsFewer, HoldsNoMore, TakesField, TakesKind, TakesStep, TakesValue, any, first_fault};

use crate::content::FromContent;
use crate::held_events::HeldEvents;
use crate::item::{Content, Item};
use cqlp_build_cells::{CellEvents, Step};
use cqlp_kind::Kind;
use cqlp_message::OwnedBound;
use cqlp_note::{Address, Field};
use std::alloc::Global;

/// Whether some of these bits is set.
pub(crate) fn has_flag(flags: u8, bits: u8) -> bool
    ensures { result ≡ has flags bits }
{
    flags & bits > 0
}

/// Why nothing more is taken.
#[derive(Clone, Copy, Debug, PartialEq, Eq)]
pub(crate) enum Fault {
    /// Another event was due, or none.
    NoFrame,
    /// Memory was refused.
    NoMemory,
}

/// The events after a header, each of which is taken once. What takes one gives a value, and where another event was due some
/// value, and keeps the fault: nothing is taken after it.
#[derive(Drop)]
pub(crate) struct FrameEvents {
    pub alloc: Global,
    pub items: HeldEvents,
    /// The events of the cell that is under way.
    pub cell: CellEvents,
    /// How many bytes the cells of the page have that was taken last, each with its length, where that was counted as they came.
    pub cells_size: Option<u64>,
    pub fault: Option<Fault>,
}

impl FrameEvents {
    /// Takes the next event, if nothing was refused, and gives what it holds if it is this field.
    fn next(&mut self, field: Field) -> Option<Content>
        ensures is { TakesField field result self.old self.new }
        ensures fewer { HoldsNoMore self.old self.new }
    {
        if self.fault.is_some() {
            return None;
        }
        let Some(item) = self.items.pop_front() else {
            return None;
        };
        let Item::Holds(found, content) = item else {
            return None;
        };
        if found == field { Some(content) } else { None }
    }

    /// Takes the next event, if nothing was refused, and gives the kind if it is that of a type option.
    pub fn next_kind(&mut self) -> Option<Kind>
        ensures is { TakesKind result self.old self.new }
        ensures fewer { HoldsFewer result self.old self.new }
    {
        if self.fault.is_some() {
            return None;
        }
        match self.items.pop_front() {
            Some(Item::Kind(kind)) => Some(kind),
            _ => None,
        }
    }

    /// Takes the next event, if nothing was refused, and gives it with its level if it is of the cell of this row and column.
    pub fn next_step(&mut self, row: u32, column: u32) -> Option<(u32, Step)>
        ensures is { TakesStep row column result self.old self.new }
        ensures cell { self.new.cell ≡ self.old.cell }
        ensures fewer { HoldsFewer result self.old self.new }
    {
        if self.fault.is_some() {
            return None;
        }
        let Some(item) = self.items.pop_front() else {
            return None;
        };
        let Item::Cell {
            row: found_row,
            column: found_column,
            level,
            step,
        } = item
        else {
            return None;
        };
        if matches!(step, Step::Leave(_)) || (found_row == row && found_column == column) {
            Some((level, step))
        } else {
            None
        }
    }

    /// Takes the next event, and gives the value that it holds, if it is this field with such a value.
    fn found<T: FromContent>(&mut self, field: Field) -> Option<T>
        ensures is { TakesValue field T.held (option_map T.value result) self.old self.new }
        ensures fewer { HoldsNoMore self.old self.new }
    {
        match self.next(field) {
            Some(content) => T::of(content),
            None => None,
        }
    }

    /// Takes a field that holds such a value.
    fn take<T: FromContent>(&mut self, field: Field) -> T
        ensures is { Builds (λ v. Holds field (T.held v) ∷ []) any (T.value result) self.old self.new }
        ensures fewer { HoldsNoMore self.old self.new }
    {
        match self.found(field) {
            Some(value) => value,
            None => {
                self.refuse(Fault::NoFrame);
                T::none(self.alloc)
            }
        }
    }

    /// Takes nothing more, for this reason if there was none.
    pub fn refuse(&mut self, why: Fault)
        ensures { self.new ≡ record self.old { fault = first_fault self.old.fault why } }
    {
        if self.fault.is_none() {
            self.fault = Some(why);
        }
    }

    /// Refuses what is left, unless this is so.
    pub fn check(&mut self, holds: bool)
        ensures is { Builds {A = Unit {0}} (λ _. []) (λ _. holds ≡ true) tt self.old self.new }
        ensures fewer { HoldsNoMore self.old self.new }
    {
        if holds {
            return;
        }
        self.refuse(Fault::NoFrame);
    }

    /// Takes a \[byte\].
    pub fn byte(&mut self, field: Field) -> u8
        ensures { Builds (λ n. Holds field (note.Byte n) ∷ []) any result self.old self.new }
    {
        self.take(field)
    }

    /// Takes a \[short\].
    pub fn short(&mut self, field: Field) -> u16
        ensures { Builds (λ n. Holds field (note.Short n) ∷ []) any result self.old self.new }
    {
        self.take(field)
    }

    /// Takes an \[int\].
    pub fn int(&mut self, field: Field) -> i32
        ensures { Builds (λ z. Holds field (note.Int z) ∷ []) any result self.old self.new }
    {
        self.take(field)
    }

    /// Takes a \[long\].
    pub fn long(&mut self, field: Field) -> i64
        ensures { Builds (λ z. Holds field (note.Long z) ∷ []) any result self.old self.new }
    {
        self.take(field)
    }

    /// Takes a \[uuid\].
    pub fn uuid(&mut self, field: Field) -> [u8; 16]
        ensures { Builds (λ id. Holds field (note.Uuid id) ∷ []) any result self.old self.new }
    {
        self.take(field)
    }

    /// Takes a count.
    pub fn count(&mut self, field: Field) -> u32
        ensures is { Builds (λ n. Holds field (note.Count n) ∷ []) any result self.old self.new }
        ensures fewer { HoldsNoMore self.old self.new }
    {
        self.take(field)
    }

    /// Takes a text.
    pub fn text(&mut self, field: Field) -> String
        ensures is { Builds (λ t. Holds field (note.Text t) ∷ []) any (string_bytes result) self.old self.new }
        ensures fewer { HoldsNoMore self.old self.new }
    {
        self.take(field)
    }

    /// Takes \[bytes\], which may be null.
    pub fn bytes(&mut self, field: Field) -> Option<Vec<u8>>
        ensures { Builds (λ b. Holds field (note.Bytes b) ∷ []) any (bytes_of result) self.old self.new }
    {
        self.take(field)
    }

    /// Takes the id of a statement, which is not null.
    pub fn statement(&mut self) -> Vec<u8>
        ensures { Builds (λ id. Holds Field.StatementId (note.Bytes (Some id)) ∷ []) any result.items self.old self.new }
    {
        self.take(Field::StatementId)
    }

    /// Takes a \[value\].
    pub fn bound(&mut self) -> OwnedBound
        ensures { Builds (λ v. Holds Field.Value (note.Bound v) ∷ []) any (bound_of result) self.old self.new }
    {
        self.take(Field::Value)
    }

    /// Takes an \[inet\].
    pub fn inet(&mut self) -> (Address, i32)
        ensures { Builds (λ p. Holds Field.Address (note.Inet p.0 p.1) ∷ []) any result self.old self.new }
    {
        self.take(Field::Address)
    }
}
