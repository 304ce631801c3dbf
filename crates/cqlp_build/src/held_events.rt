//! The events of a frame, as they are held: those of the first plain cells of a page as their values.

ghost use Rattle.std.specs.Prelude.{◌≡◌, ◌==◌, ◌+◌, ◌^◌, ◌-◌, ◌++◌, ◌∷◌, if◌then◌else◌};
ghost use Rattle.std.specs.Prelude.{[], IfSome, MatchOption, OnErr, OnOk, is_ok, length, map, min, option_map, option_to_list};
ghost use Rattle.cqlp_grammar.specs.Events.{event_of};
ghost use Rattle.cqlp_kind.specs.Contents.{value_of};
ghost use Rattle.cqlp_message.specs.Owned.{metadata_of};
ghost use Rattle.cqlp_build.specs.CellSizes.{IsSizeOf};
ghost use Rattle.cqlp_build.specs.FrameEvents.{IsHeld, item_event};
ghost use Rattle.cqlp_build.specs.declared.item.Item.TheVariants as item;
ghost use Rattle.cqlp_build.specs.Plain as plain;
ghost use Rattle.cqlp_build.specs.Putting.{PutsEvent, scalar_event};
ghost use Rattle.cqlp_build.specs.WholePage.{TakesPage};

use crate::item::{Content, Item, own};
use crate::misfit::is_impossible;
use crate::plain_cells::{
    is_next, is_of_kind, is_page, kind_at, put, put_scalar, step_of, take_cell,
};
use cqlp_build_cells::own_scalar;
use cqlp_grammar::Event;
use cqlp_kind::{Kind, Scalar};
use cqlp_message::Metadata;
use cqlp_note::Field;
use cqlp_value::Value;
use std::alloc::{AllocError, Global};
use std::collections::VecDeque;
use std::marker::Model;
use std::mem;

/// The events after a header, in their order: those before the cells of a page, a run of its cells, and those after the run.
///
/// The run are the first cells of the page, row by row, while each is null, empty or a scalar of its column's kind: of each it holds the
/// value. Of any other event it holds an [`Item`].
#[derive(Drop)]
pub(crate) struct HeldEvents {
    head: VecDeque<Item>,
    cells: Vec<Value>,
    /// How many bytes the cells of the run have, each with its length; 2^64 - 1 where they have more.
    size: u64,
    /// The kinds of the type options before the run, which are those of its columns where no option has others in it.
    kinds: Vec<Kind>,
    /// How many cells of the run were taken.
    taken: usize,
    /// The number of the last column of a row, by the last count of columns before the run.
    last: u32,
    tail: VecDeque<Item>,
}

impl Model for HeldEvents {
    ghost use Rattle.cqlp_build.specs.Held.{Held};

    ghost Value = { Held };

    ghost use Rattle.cqlp_build.specs.Run.{IsRun, held_items};

    ghost view = { λ h. record { items = held_items h } };

    ghost invariant = { IsRun };
}

impl HeldEvents {
    /// None.
    pub fn new(alloc: Global) -> HeldEvents
        ensures { result.items ≡ [] }
    {
        HeldEvents {
            head: VecDeque::new(alloc),
            cells: Vec::new(alloc),
            size: 0,
            kinds: Vec::new(alloc),
            taken: 0,
            last: 0,
            tail: VecDeque::new(alloc),
        }
    }

    /// Forgets them. The room that it has asked for is kept.
    pub fn clear(&mut self)
        ensures { self.new.items ≡ [] }
    {
        self.head.clear();
        self.cells.clear();
        self.size = 0;
        self.kinds.clear();
        self.taken = 0;
        self.last = 0;
        self.tail.clear();
    }

    /// How many there are, or 2^64 - 1 where there are more.
    #[inline(always)]
    pub fn len(&self) -> usize
        ensures { result ≡ min (length self.now.items) (2 ^ 64 - 1) }
    {
        let run = self.cells.len().saturating_sub(self.taken);
        self.head
            .len()
            .saturating_add(run)
            .saturating_add(self.tail.len())
    }

    /// Whether there is none.
    pub fn is_empty(&self) -> bool
        ensures { result ≡ (length self.now.items == 0) }
    {
        self.len() == 0
    }

    /// Adds an event behind the others.
    #[inline(always)]
    pub fn push(&mut self, alloc: Global, event: &Event<'_>) -> Result<(), AllocError>
        requires { IsHeld (event_of event.now) }
        ensures added { OnOk result (map item_event self.new.items ≡ map item_event self.old.items ++ event_of event.now ∷ []) }
        ensures same { OnErr result (self.new.items ≡ self.old.items) }
    {
        match event {
            Event::Leaf {
                row,
                column,
                level: 0,
                scalar,
            } => {
                if self.put_cell(alloc, *row, *column, scalar)? {
                    return Ok(());
                }
                self.push_scalar(alloc, *row, *column, scalar)
            }
            _ => self.push_other(alloc, event),
        }
    }

    /// Adds the cell of a row and a column behind the others, which is this scalar, if it is the next of the run and the run has room for it, and
    /// says whether it did so.
    #[inline(always)]
    fn put_cell(
        &mut self,
        alloc: Global,
        row: u32,
        column: u32,
        scalar: &Scalar<'_>,
    ) -> Result<bool, AllocError>
        ensures { PutsEvent (scalar_event row column (value_of scalar.now)) result self.old self.new }
    {
        if !is_next(row, column, self.last, &self.cells, self.taken, &self.tail) {
            return Ok(false);
        }
        let kind = kind_at(&self.kinds, column);
        put_scalar(alloc, &mut self.cells, &mut self.size, kind, scalar)
    }

    /// Adds the cell of a row and a column behind the others, which is this scalar: mostly one of the run for which there is no room yet.
    #[cold]
    #[inline(never)]
    fn push_scalar(
        &mut self,
        alloc: Global,
        row: u32,
        column: u32,
        scalar: &Scalar<'_>,
    ) -> Result<(), AllocError>
        ensures added { OnOk result (map item_event self.new.items ≡ map item_event self.old.items ++ scalar_event row column (value_of scalar.now) ∷ []) }
        ensures same { OnErr result (self.new.items ≡ self.old.items) }
    {
        let atom = own_scalar(alloc, scalar)?;
        self.push_cell(row, column, Value::Leaf(atom))
    }

    /// Adds an event behind the others, which is mostly no scalar of the run.
    #[cold]
    #[inline(never)]
    fn push_other(&mut self, alloc: Global, event: &Event<'_>) -> Result<(), AllocError>
        requires { IsHeld (event_of event.now) }
        ensures added { OnOk result (map item_event self.new.items ≡ map item_event self.old.items ++ event_of event.now ∷ []) }
        ensures same { OnErr result (self.new.items ≡ self.old.items) }
    {
        match event {
            Event::Null {
                row,
                column,
                level: 0,
            } => self.push_cell(*row, *column, Value::Null),
            Event::Empty {
                row,
                column,
                level: 0,
            } => self.push_cell(*row, *column, Value::Empty),
            _ => {
                let item = own(alloc, event)?;
                self.push_item(item)
            }
        }
    }

    /// Adds the cell of a row and a column behind the others, which is a plain value.
    fn push_cell(&mut self, row: u32, column: u32, cell: Value) -> Result<(), AllocError>
        ensures { let item = item.Cell row column 0 (plain.step_of cell) in
            self.new.items ≡ (if is_ok result then self.old.items ++ item ∷ [] else self.old.items) }
    {
        if is_next(row, column, self.last, &self.cells, self.taken, &self.tail)
            && is_of_kind(&cell, kind_at(&self.kinds, column))
        {
            self.cells.reserve(1)?;
            put(&mut self.cells, &mut self.size, cell);
            return Ok(());
        }
        self.push_item(Item::Cell {
            row,
            column,
            level: 0,
            step: step_of(cell),
        })
    }

    /// Adds an event behind the others, which is no cell of the run.
    pub fn push_item(&mut self, item: Item) -> Result<(), AllocError>
        ensures { self.new.items ≡ (if is_ok result then self.old.items ++ item ∷ [] else self.old.items) }
    {
        if !self.cells.is_empty() || !self.tail.is_empty() {
            self.tail.push_back(item)?;
            return Ok(());
        }
        match &item {
            Item::Holds(Field::Columns, Content::Count(count)) => {
                self.last = count.saturating_sub(1);
                self.kinds.clear();
            }
            Item::Kind(kind) => self.kinds.push(*kind)?,
            _ => {}
        }
        self.head.push_back(item)?;
        Ok(())
    }

    /// Takes the next.
    pub fn pop_front(&mut self) -> Option<Item>
        ensures items { self.old.items ≡ option_to_list result ++ self.new.items }
        ensures cases { MatchOption result ((length self.old.items ≡ 0) × (length self.new.items ≡ 0))
            (λ _. length self.new.items + 1 ≡ length self.old.items) }
    {
        if let Some(item) = self.head.pop_front() {
            return Some(item);
        }
        if self.taken < self.cells.len() {
            let item = take_cell(&mut self.cells, self.taken, self.last);
            self.taken += 1;
            return Some(item);
        }
        self.tail.pop_front()
    }

    /// Takes the cells of this many rows as they lie there, where they are all that there is, and each is a plain value of its column's type; and
    /// answers how many bytes they have, each with its length.
    pub fn take_page(
        &mut self,
        alloc: Global,
        rows: u32,
        meta: &Metadata,
    ) -> Option<(Vec<Value>, u64)>
        ensures taken { TakesPage (metadata_of meta.now) rows (option_map (λ page. page.0.items) result) self.old self.new }
        ensures sized { IfSome result (λ page. IsSizeOf page.1 page.0.items) }
    {
        if !self.head.is_empty() || !self.tail.is_empty() {
            return None;
        }
        if !is_page(rows, meta, self.last, &self.cells, self.taken, &self.kinds) {
            return None;
        }
        let cells = mem::replace(&mut self.cells, Vec::new(alloc));
        let size = self.size;
        self.size = 0;
        Some((cells, size))
    }

    /// How many come before the first that is in no frame, whatever comes before it.
    pub fn possible(&self) -> usize {
        for (at, item) in self.head.iter().enumerate() {
            if is_impossible(item) {
                return at;
            }
        }
        let before = self.head.len().saturating_add(self.cells.len());
        for (at, item) in self.tail.iter().enumerate() {
            if is_impossible(item) {
                return before.saturating_add(at);
            }
        }
        self.len()
    }
}
