//! Cells of a page, put into rooms of the caller's.

ghost use Rattle.std.specs.Prelude.{◌≡◌, ◌++◌, ◌+◌, ◌/◌, ◌%◌, ◌<◌, ◌^◌, ℕ, List, IfNone, IfSome, IsTrue};
ghost use Rattle.std.specs.Prelude.{None, drop, false, length, true};
ghost use Rattle.cqlp_kind.specs.Contents.{value_of};
ghost use Rattle.cqlp_grammar.specs.Events.{event_of};
ghost use Rattle.cqlp_compose.specs.Cells.{state};
ghost use Rattle.cqlp_build_cells.specs.Building.{ends_cell};
ghost use Rattle.cqlp_compose.specs.Put.{Ended, GoesOn, Puts, fresh_putter, putter, within};
ghost use Rattle.cqlp_compose.specs.Single.{IsNext, IsNextCell, IsNextPlain, IsNextScalar, IsNoNextScalar, PutsCell, PutsNull, PutsScalar, cell_bytes};

use crate::cells::PageCells;
use crate::column::column_type;
use crate::error::{PageCellError, PutError};
use crate::page::OpenPage;
use crate::place::PageProgress;
use crate::single::{WholeCell, plain_kind, scalar_cell, whole_cell};
use cqlp_build_cells::{CellLimits, ends_cell};
use cqlp_grammar::Event;
use cqlp_kind::{Kind, Scalar};
use cqlp_message::Frame;
use cqlp_note::Header;
use std::alloc::Global;

/// Puts the next cells of a page into rooms of the caller's, each as soon as its last event has come. Section 4.2.5.2 of
/// `native_protocol_v4.spec`.
///
/// It takes what a decoder says of the cells, in that order, each event with its row and its column, and holds the events of one cell that has
/// several. A cell of one event is put as it comes. The page stays where it is: the caller makes it go on to [`PutCells::place`]. After an error the
/// cell under way is forgotten, and nothing of it was put, so its events may be given again, from the first on, as where there was no room.
#[derive(Drop)]
pub struct PutCells<'a> {
    alloc: Global,
    frame: &'a Frame,
    limits: CellLimits,
    /// Behind the last cell that was put.
    place: PageProgress,
    /// The cell under way, where events of it came.
    cells: Option<PageCells<'a>>,
}

impl<'a> PutCells<'a> {
    /// The cells after the place of this page, none of which has come yet. It asks for no memory. `limits` is what may be held of one cell.
    #[must_use]
    pub fn new(alloc: Global, page: &'a OpenPage, limits: CellLimits) -> PutCells<'a>
        ensures { putter result ≡ fresh_putter page.now.frame page.now.place limits }
    {
        PutCells {
            alloc,
            frame: &page.frame,
            limits,
            place: page.place,
            cells: None,
        }
    }

    /// Where the page is after the cells that were put.
    #[must_use]
    pub fn place(&self) -> PageProgress
        ensures { result ≡ self.now.place }
    {
        self.place
    }

    /// Takes the next event. Where a cell ends with it, its bytes are put at the front of the room, and the answer is how many they are; it is
    /// None where the cell goes on.
    ///
    /// # Errors
    ///
    /// [`PutError::Cell`] with what [`PageCells::take`] says, and [`PutError::NoRoom`] where the cell that ends has more bytes than the room.
    /// The cell is forgotten then, and the room is as it was.
    #[tactic(auto, using(crate::proofs::WholeCells::next_short))]
    #[inline]
    pub fn take(&mut self, event: &Event<'_>, room: &mut [u8]) -> Result<Option<usize>, PutError>
        ensures { (bytes : List ℕ) × Puts (putter self.old) (event_of event.now) (length room.old) result bytes (putter self.new)
            × (room.new ≡ bytes ++ drop (length bytes) room.old) }
    {
        if self.cells.is_none() {
            if let Some(cell) = self.next_cell(event) {
                return self.put_cell(cell, room);
            }
        }
        self.take_next(event, room)
    }

    /// The next cell, where this event is all of it, and is seen to be a value of its column's type.
    #[inline]
    fn next_cell<'e>(&self, event: &Event<'e>) -> Option<WholeCell<'e>>
        ensures { IfSome result (λ cell. IsNextCell self.now.frame.now self.now.place self.now.limits (event_of event.now) (cell_bytes cell)) }
    {
        let (row, column) = match *event {
            Event::Leaf { row, column, .. }
            | Event::Null { row, column, .. }
            | Event::Empty { row, column, .. } => (row, column),
            _ => return None,
        };
        if self.place.cells >= self.frame.cells_wanted() || self.limits.events == 0 {
            return None;
        }
        if !is_at(self.place.cells, self.frame.columns(), row, column) {
            return None;
        }
        whole_cell(
            event,
            column_type(self.frame, column as usize),
            self.limits.bytes,
        )
    }

    /// Puts the next cell, of which nothing has come yet.
    #[inline(always)]
    fn put_cell(&mut self, cell: WholeCell<'_>, room: &mut [u8]) -> Result<Option<usize>, PutError>
        requires fresh { self.old.cells ≡ None }
        requires bounded { self.old.place.cells + 1 < 2 ^ 64 }
        requires short { length (cell_bytes cell) < 2 ^ 32 + 4 }
        ensures { (bytes : List ℕ) × PutsCell (putter self.old) (cell_bytes cell.entry) (length room.old) result bytes (putter self.new)
            × (room.new ≡ bytes ++ drop (length bytes) room.old) }
    {
        let size = cell.size();
        if size > self.place.free.min(Header::LONGEST_BODY) as usize {
            return Err(PutError::Cell(PageCellError::PastLength));
        }
        if size > room.len() {
            return Err(PutError::NoRoom(size));
        }
        cell.put(room);
        self.place = PageProgress {
            cells: self.place.cells + 1,
            free: self.place.free - size as u32,
        };
        Ok(Some(size))
    }

    /// The kind of the next cell, if no event of it came, the limits allow one, this is its row and its column, and values of its type have no
    /// items; else None.
    #[must_use]
    #[inline(always)]
    pub fn next_kind(&self, row: u32, column: u32) -> Option<Kind>
        ensures some { IfSome result (λ kind. IsNextScalar self.now row column kind) }
        ensures none { IfNone result (IsNoNextScalar self.now row column) }
    {
        if self.cells.is_some() {
            return None;
        }
        if self.place.cells >= self.frame.cells_wanted() || self.limits.events == 0 {
            return None;
        }
        if !is_at(self.place.cells, self.frame.columns(), row, column) {
            return None;
        }
        plain_kind(column_type(self.frame, column as usize))
    }

    /// Puts the next cell, which is of this kind and has one event, a leaf with this scalar, and answers how many bytes it has. It is None, and nothing
    /// changes, exactly where the scalar is of another kind or none of its kind, or passes the limits, the page or the room.
    #[tactic(auto, using(crate::proofs::WholeCells::scalar_short))]
    #[inline(always)]
    pub fn put_scalar(&mut self, scalar: &Scalar<'_>, kind: Kind, room: &mut [u8]) -> Option<usize>
        requires { IsNext self.old kind }
        ensures { PutsScalar self.old kind (value_of scalar.now) room.old result self.new room.new }
    {
        match scalar_cell(scalar, kind, self.limits.bytes) {
            Some(cell) => {
                let Ok(len) = self.put_cell(cell, room) else {
                    return None;
                };
                len
            }
            None => None,
        }
    }

    /// Puts the next cell, which is null, and answers how many bytes it has. It is None, and nothing changes, where the page or the room has fewer.
    #[tactic(auto, using(crate::proofs::WholeCells::null_short))]
    #[inline(always)]
    pub fn put_null(&mut self, room: &mut [u8]) -> Option<usize>
        requires { IsNextPlain self.old }
        ensures { PutsNull self.old room.old result self.new room.new }
    {
        let Ok(len) = self.put_cell(WholeCell::Null, room) else {
            return None;
        };
        len
    }

    /// Takes the next event of a cell that may have several.
    fn take_next(&mut self, event: &Event<'_>, room: &mut [u8]) -> Result<Option<usize>, PutError>
        ensures { (bytes : List ℕ) × Puts (putter self.old) (event_of event.now) (length room.old) result bytes (putter self.new)
            × (room.new ≡ bytes ++ drop (length bytes) room.old) }
    {
        let mut cells = self.take_cells();
        match cells.take(event) {
            Ok(()) => self.pass_event(cells, event, room),
            Err(why) => Err(PutError::Cell(why)),
        }
    }

    /// The cell under way, of which no event may have come; none is under way then.
    fn take_cells(&mut self) -> PageCells<'a>
        ensures is { state result ≡ (putter self.old).cells }
        ensures none { self.new ≡ record self.old { cells = None } }
    {
        match self.cells.take() {
            Some(cells) => cells,
            None => PageCells::new(self.alloc, self.frame, self.place, self.limits),
        }
    }

    /// An event of the cell was taken: the cell ends after it, or goes on.
    #[tactic(auto, using(crate::proofs::Putting::ends_true, crate::proofs::Putting::ends_false))]
    fn pass_event(
        &mut self,
        cells: PageCells<'a>,
        event: &Event<'_>,
        room: &mut [u8],
    ) -> Result<Option<usize>, PutError>
        requires none { self.old.cells ≡ None }
        requires whole { ends_cell (event_of event.now) ≡ true → (state cells).cut ≡ false }
        ensures { (bytes : List ℕ) × GoesOn (ends_cell (event_of event.now)) (within (putter self.old) (state cells.entry)) (length room.old) result bytes
            (putter self.new) × (room.new ≡ bytes ++ drop (length bytes) room.old) }
    {
        if ends_cell(event) {
            self.put(cells, room)
        } else {
            self.cells = Some(cells);
            Ok(None)
        }
    }

    /// Puts the cell that was taken whole.
    fn put(&mut self, cells: PageCells<'a>, room: &mut [u8]) -> Result<Option<usize>, PutError>
        requires none { self.old.cells ≡ None }
        requires whole { (state cells).cut ≡ false }
        ensures { (bytes : List ℕ) × Ended (within (putter self.old) (state cells.entry)) (length room.old) result bytes (putter self.new)
            × (room.new ≡ bytes ++ drop (length bytes) room.old) }
    {
        let Ok(written) = cells.finish() else {
            unreachable!()
        };
        let len = written.bytes.len();
        if len > room.len() {
            return Err(PutError::NoRoom(len));
        }
        room[..len].copy_from_slice(&written.bytes);
        self.place = written.place;
        Ok(Some(len))
    }
}

/// Whether this is the row and the column of the cell before which so many have come, of a page of so many columns.
#[inline]
pub(crate) fn is_at(cells: u64, columns: u32, row: u32, column: u32) -> bool
    ensures is { IsTrue result → (row ≡ cells / columns) × (column ≡ cells % columns) }
    ensures all { 0 < columns → row ≡ cells / columns → column ≡ cells % columns → IsTrue result }
{
    column < columns && u64::from(row) * u64::from(columns) + u64::from(column) == cells
}
