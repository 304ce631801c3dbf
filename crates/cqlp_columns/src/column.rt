//! A column of a batch.

ghost use Rattle.std.specs.Prelude.{◌≡◌, ◌==◌, ◌+◌, ◌<◌, ◌≤◌, ◌++◌, ◌∷◌, [], List, length, nat_le, replicate, vec_capacity};
ghost use Rattle.std.specs.Prelude.{Err, IfOk, IsOk, None, OnErr, OnOk, Some};
ghost use Rattle.std.specs.Vec.{vec_ptr};
ghost use Rattle.cqlp_kind.specs.Types.{is_kind};
ghost use Rattle.cqlp_columns.specs.Arrays.{AreBytesOf, HasCells, IsAnswer, column_of, fits, is_long, offset_in, refusal_of};
ghost use Rattle.cqlp_columns.specs.Arrays.{site, site_of, values_at, with_cell};
ghost use Rattle.cqlp_columns.specs.Batches.{IsEmptyOf, IsMade, refusal_of_kind};
ghost use Rattle.cqlp_columns.specs.Bits.{Spells, bits};
ghost use Rattle.cqlp_columns.specs.Layouts.{layout_of};
ghost use Rattle.cqlp_columns.specs.Cells.{Cell as CellValue, blank, cell_bits, cell_bytes, cell_in, cell_of, is_of};

use crate::bits::Bits;
use crate::bytes::Bytes;
use crate::cell::{
    Cell, CellRef, is_empty, is_true, is_valid, kind_of, lend, put_scalar, stored_len,
};
use crate::layout::{Layout, layout_of};
use crate::marks::Marks;
use cqlp_kind::Kind;
use std::alloc::{AllocError, Allocator, Global};
use std::marker::Model;
use thiserror::Error;

/// Why no column is made.
#[derive(Clone, Copy, Debug, PartialEq, Eq, Error)]
pub enum MakeError {
    /// Values of the kind have items.
    #[error("values with items")]
    Unsupported,
    /// Columns of a batch: there are more than it may have.
    #[error("too many columns")]
    TooManyColumns,
    /// Memory for the arrays was refused.
    #[error("no memory")]
    NoMemory,
}

/// Why a column does not take a cell.
#[derive(Clone, Copy, Debug, PartialEq, Eq, Error)]
pub enum ColumnRefusal {
    /// It is none of the column's kind.
    #[error("a value of another kind")]
    NotOfKind,
    /// There is no room for it.
    #[error("no room")]
    Full,
}

/// The cells of a column, in arrays as Apache Arrow lays them out. All memory is taken when it is made.
#[derive(Drop)]
pub struct Column<A: Allocator = Global> {
    /// The values, where they are bits.
    truths: Bits<A>,
    offsets: Vec<u64, A>,
    // A number's cell reads and writes only the fields from here on. They lie together, since a row touches those of each column.
    marks: Marks<A>,
    values: Bytes<A>,
    rows: u32,
    layout: Layout,
    kind: Kind,
}

impl<A: Allocator> Model for Column<A> {
    ghost use Rattle.std.specs.Prelude.{◌≡◌, ◌+◌, ◌*◌, ◌≤◌, Some, length, vec_capacity};
    ghost use Rattle.std.specs.Vec.{vec_ptr};
    ghost use Rattle.cqlp_columns.specs.Arrays.{Column};
    ghost use Rattle.cqlp_columns.specs.Bits.{rounded};
    ghost use Rattle.cqlp_columns.specs.Layouts.{layout_of};

    ghost Value = { Column };

    ghost view = { λ c. record {
      kind = c.kind;
      places = record {
        values = c.values.at;
        truths = c.truths.at;
        offsets = vec_ptr c.offsets;
        valid = c.marks.valid_at;
        empty = c.marks.empty_at;
      };
      layout = c.layout;
      rows = c.rows;
      size = c.values.room;
      values = c.values.items;
      truths = c.truths.bits;
      offsets = c.offsets.items;
      valid = c.marks.valid;
      empty = c.marks.empty;
    } };

    ghost invariant = { λ c. (c.rows + 1 ≤ vec_capacity c.offsets) × (c.rows ≤ c.truths.room) × (c.rows ≤ c.marks.room)
        × (length c.truths.bits ≤ length c.marks.valid) × (length c.marks.empty ≡ length c.marks.valid)
        × (length c.offsets.items ≤ length c.marks.valid + 1) × (layout_of c.kind ≡ Some c.layout)
        × (vec_capacity c.offsets ≡ c.rows + 1) × (c.truths.room ≡ 8 * rounded c.rows) × (c.marks.room ≡ 8 * rounded c.rows) };
}

impl<A: Allocator> Column<A> {
    /// With no cells, and room for so many, which have at most `size` bytes of values. This is the one call that takes memory: `size`
    /// bytes, 8 for each cell and one more, and three bits for each cell.
    ///
    /// # Errors
    ///
    /// `Unsupported` where values of the kind have items; `NoMemory` where memory is refused.
    pub fn new(alloc: A, kind: Kind, rows: u32, size: usize) -> Result<Self, MakeError>
    where
        A: Clone,
        ensures made { IfOk result (λ column. IsEmptyOf kind rows size column) }
        ensures answer { IsMade (refusal_of_kind kind) result }
    {
        match layout_of(kind) {
            None => Err(MakeError::Unsupported),
            Some(layout) => match Column::with_layout(alloc, kind, layout, rows, size) {
                Ok(column) => Ok(column),
                Err(_) => Err(MakeError::NoMemory),
            },
        }
    }

    /// With no cells, in this layout.
    #[tactic(auto, using(crate::proofs::Numbers::rounded_holds))]
    fn with_layout(
        alloc: A,
        kind: Kind,
        layout: Layout,
        rows: u32,
        size: usize,
    ) -> Result<Self, AllocError>
    where
        A: Clone,
        requires { layout_of kind ≡ Some layout }
        ensures { IfOk result (λ column. column ≡ column_of (site kind column.places) layout rows size []) }
    {
        let mut offsets = Vec::with_capacity(alloc.clone()?, rows as usize + 1)?;
        put_offset(&mut offsets, layout, 0);
        Ok(Column {
            truths: Bits::new(alloc.clone()?, rows)?,
            offsets,
            marks: Marks::new(alloc.clone()?, rows)?,
            values: Bytes::new(alloc, size)?,
            rows,
            layout,
            kind,
        })
    }

    /// The kind of its values.
    pub fn kind(&self) -> Kind
        ensures { result ≡ self.now.kind }
    {
        self.kind
    }

    /// How its values lie in memory.
    pub fn layout(&self) -> Layout
        ensures { result ≡ self.now.layout }
    {
        self.layout
    }

    /// The values, one after the other, also zeros for cells without one; where they are bits, the bytes that have them.
    pub fn values(&self) -> &[u8]
        ensures { AreBytesOf self.now result.now }
    {
        match self.layout {
            Layout::Bits => self.truths.as_slice(),
            Layout::Fixed(_) | Layout::Variable => self.values.as_slice(),
        }
    }

    /// Where each value begins in the bytes, and where the last one ends; none where the layout is not of values of any length. Below 2^63.
    pub fn offsets(&self) -> &[u64]
        ensures { result.now ≡ self.now.offsets }
    {
        &self.offsets
    }

    /// A bit for each cell: whether it has a value.
    pub fn validity(&self) -> &[u8]
        ensures { Spells self.now.valid result.now }
    {
        self.marks.valid()
    }

    /// A bit for each cell: whether it has a value of no bytes. Among numbers and other values of a fixed length these have no other place, and
    /// count as having no value.
    pub fn empties(&self) -> &[u8]
        ensures { Spells self.now.empty result.now }
    {
        self.marks.empty()
    }

    /// Where its values begin in memory. Each array stays where it is for as long as the column lives.
    pub fn values_address(&self) -> *const u8
        ensures { result ≡ values_at self.now.layout self.now.places }
    {
        match self.layout {
            Layout::Bits => self.truths.address(),
            Layout::Fixed(_) | Layout::Variable => self.values.address(),
        }
    }

    /// Where its offsets begin.
    pub fn offsets_address(&self) -> *const u64
        ensures { result ≡ self.now.places.offsets }
    {
        self.offsets.as_ptr()
    }

    /// Where the bits begin that say which cells have a value.
    pub fn validity_address(&self) -> *const u8
        ensures { result ≡ self.now.places.valid }
    {
        self.marks.valid_address()
    }

    /// Where the bits begin that say which cells have a value of no bytes.
    pub fn empties_address(&self) -> *const u8
        ensures { result ≡ self.now.places.empty }
    {
        self.marks.empty_address()
    }

    /// How many cells it has.
    pub fn len(&self) -> usize
        ensures { result ≡ length self.now.valid }
    {
        self.marks.len()
    }

    /// Whether it has none.
    pub fn is_empty(&self) -> bool
        ensures { result ≡ (length self.now.valid == 0) }
    {
        self.marks.len() == 0
    }

    /// Whether it has at most so many bytes of values.
    #[inline(always)]
    pub(crate) fn is_light(&self, bytes: u32) -> bool
        ensures { result ≡ nat_le (length self.now.values) bytes }
    {
        self.values.len() <= bytes as usize
    }

    /// Whether more bytes than so many represent a cell.
    #[inline(always)]
    pub(crate) fn is_long(&self, cell: CellRef<'_>, content: u32) -> bool
        ensures { result ≡ is_long content (cell_in cell.entry) self.now }
    {
        cell_len(self.layout, cell) > content as usize
    }

    /// Whether a cell can be one of it.
    #[inline(always)]
    pub(crate) fn is_of(&self, cell: CellRef<'_>) -> bool
        ensures { result ≡ is_of self.now.kind (cell_in cell.entry) }
    {
        is_of(self.kind, cell)
    }

    /// Takes the next cell. Its arrays are those of the cells before, and of this one after them.
    ///
    /// # Errors
    ///
    /// `NotOfKind` for a scalar of another kind than the column's; else `Full` where there is no room for it. Nothing changes then.
    #[inline(always)]
    pub fn take(&mut self, cell: &Cell<'_>) -> Result<(), ColumnRefusal>
        ensures answer { IsAnswer (refusal_of (cell_of cell.now) self.old) result }
        ensures taken { IsOk result → (cells : List CellValue) → HasCells cells self.old → HasCells (cells ++ cell_of cell.now ∷ []) self.new }
        ensures room { OnOk result (self.new ≡ with_cell (cell_of cell.now) self.old) }
        ensures refused { OnErr result (self.new ≡ self.old) }
    {
        match self.refusal(cell) {
            Some(why) => Err(why),
            None => {
                self.push(lend(cell));
                Ok(())
            }
        }
    }

    /// Why it does not take a cell.
    #[inline(always)]
    pub fn refusal(&self, cell: &Cell<'_>) -> Option<ColumnRefusal>
        ensures { result ≡ refusal_of (cell_of cell.now) self.now }
    {
        let cell = lend(cell);
        if !is_of(self.kind, cell) {
            return Some(ColumnRefusal::NotOfKind);
        }
        if self.fits(cell) {
            None
        } else {
            Some(ColumnRefusal::Full)
        }
    }

    /// Whether there is room for a cell.
    #[inline(always)]
    fn fits(&self, cell: CellRef<'_>) -> bool
        ensures { result ≡ fits (cell_in cell.entry) self.now }
    {
        self.marks.len() < self.rows as usize
            && self.values.len() <= self.values.room()
            && cell_len(self.layout, cell) <= self.values.room() - self.values.len()
    }

    /// How its values lie in memory, asked of its kind: where the kind is known, nothing is left to ask.
    #[inline(always)]
    fn layout_of_kind(&self) -> Layout
        ensures { result ≡ self.now.layout }
    {
        match layout_of(self.kind) {
            Some(layout) => layout,
            None => self.layout,
        }
    }

    /// Adds a cell.
    #[inline(always)]
    pub(crate) fn push(&mut self, cell: CellRef<'_>)
        requires { refusal_of (cell_in cell) self.old ≡ None }
        ensures { self.new ≡ with_cell (cell_in cell.entry) self.old }
    {
        let layout = self.layout_of_kind();
        self.marks.push(is_valid(layout, cell), is_empty(cell));
        put_cell(&mut self.values, layout, cell);
        let end = self.values.len() as u64;
        put_beside(&mut self.truths, &mut self.offsets, layout, cell, end);
    }

    /// Removes all cells, and keeps the memory.
    pub fn clear(&mut self)
        ensures { self.new ≡ column_of (site_of self.old) self.old.layout self.old.rows self.old.size [] }
    {
        self.values.clear();
        self.truths.clear();
        remove_all(&mut self.offsets);
        put_offset(&mut self.offsets, self.layout, 0);
        self.marks.clear();
    }
}

/// Whether a cell can be one of a column of this kind.
#[inline(always)]
fn is_of(kind: Kind, cell: CellRef<'_>) -> bool
    ensures { result ≡ is_of kind (cell_in cell.entry) }
{
    match cell {
        CellRef::Null | CellRef::Empty => true,
        CellRef::Holds(scalar) => is(kind_of(scalar), kind),
    }
}

/// Whether two kinds are the same.
#[inline(always)]
fn is(one: Kind, other: Kind) -> bool
    ensures { result ≡ is_kind one other }
{
    one == other
}

/// How many bytes are in a cell's place.
#[inline(always)]
fn cell_len(layout: Layout, cell: CellRef<'_>) -> usize
    ensures { result ≡ length (cell_bytes layout (cell_in cell.entry)) }
{
    match cell {
        CellRef::Null | CellRef::Empty => blank_len(layout),
        CellRef::Holds(scalar) => stored_len(scalar),
    }
}

/// How many bytes are in the place of a cell without a value.
#[inline(always)]
fn blank_len(layout: Layout) -> usize
    ensures { result ≡ length (blank layout) }
{
    match layout {
        Layout::Bits | Layout::Variable => 0,
        Layout::Fixed(width) => width as usize,
    }
}

/// Adds the bytes in a cell's place, for which there is room.
#[inline(always)]
fn put_cell<A: Allocator>(values: &mut Bytes<A>, layout: Layout, cell: CellRef<'_>)
    requires { length values.old.items + length (cell_bytes layout (cell_in cell)) ≤ values.old.room }
    ensures items { values.new.items ≡ values.old.items ++ cell_bytes layout (cell_in cell.entry) }
    ensures room { values.new.room ≡ values.old.room }
    ensures in_place { values.new.at ≡ values.old.at }
{
    match cell {
        CellRef::Null | CellRef::Empty => values.push_zeros(blank_len(layout)),
        CellRef::Holds(scalar) => put_scalar(values, scalar),
    }
}

/// Adds what a cell has beside its bytes: the bit in its place, where values are bits, or where it ends, where the layout has offsets.
#[inline(always)]
fn put_beside<A: Allocator>(
    truths: &mut Bits<A>,
    offsets: &mut Vec<u64, A>,
    layout: Layout,
    cell: CellRef<'_>,
    end: u64,
)
    requires room { length truths.old.bits < truths.old.room }
    requires place { length offsets.old.items < vec_capacity offsets.old }
    ensures bits { truths.new ≡ bits (truths.old.bits ++ cell_bits layout (cell_in cell.entry)) truths.old.room truths.old.at }
    ensures items { offsets.new.items ≡ offsets.old.items ++ offset_in layout end }
    ensures capacity { vec_capacity offsets.new ≡ vec_capacity offsets.old }
    ensures in_place { vec_ptr offsets.new ≡ vec_ptr offsets.old }
{
    match layout {
        Layout::Bits => truths.push(is_true(cell)),
        Layout::Fixed(_) => {}
        Layout::Variable => offsets.push_reserved(end),
    }
}

/// Adds an offset, where the layout has offsets.
#[inline(always)]
fn put_offset<A: Allocator>(offsets: &mut Vec<u64, A>, layout: Layout, offset: u64)
    requires { length offsets.old.items < vec_capacity offsets.old }
    ensures items { offsets.new.items ≡ offsets.old.items ++ offset_in layout offset }
    ensures capacity { vec_capacity offsets.new ≡ vec_capacity offsets.old }
    ensures in_place { vec_ptr offsets.new ≡ vec_ptr offsets.old }
{
    match layout {
        Layout::Variable => offsets.push_reserved(offset),
        Layout::Bits | Layout::Fixed(_) => {}
    }
}

/// Removes all offsets, and leaves the memory in its place.
fn remove_all<A: Allocator>(offsets: &mut Vec<u64, A>)
    ensures items { offsets.new.items ≡ [] }
    ensures capacity { vec_capacity offsets.new ≡ vec_capacity offsets.old }
    ensures in_place { vec_ptr offsets.new ≡ vec_ptr offsets.old }
{
    'offsets: while !offsets.is_empty() {
        let _last = offsets.take_last();
    }
}
