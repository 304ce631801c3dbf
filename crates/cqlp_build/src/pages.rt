//! Pages of rows. Section 4.2.5.2 of `native_protocol_v4.spec`.

ghost use Rattle.std.specs.Prelude.{◌≡◌, ◌<◌, ◌++◌, List, map};
ghost use Rattle.cqlp_type.specs.Trees.{types_in};
ghost use Rattle.cqlp_type.specs.TypeTrees.{tree_of};
ghost use Rattle.cqlp_value.specs.Owned.{value_of};
ghost use Rattle.cqlp_value.specs.Values.{Values};
ghost use Rattle.cqlp_message.specs.Bodies.{cell_types, page_parts};
ghost use Rattle.cqlp_message.specs.Owned.{metadata_of, page_of};
ghost use Rattle.cqlp_build.specs.CellSizes.{AreSized};
ghost use Rattle.cqlp_build.specs.FrameEvents.{Builds, IsSound};
ghost use Rattle.cqlp_build.specs.Productions.{AreCells, AreReadable, BuildsCell, BuildsRow, Gathers, IsPage, KeepsFault, cells_parts, column_type, fault_of};
ghost use Rattle.cqlp_build.specs.Emitted.{emitted};
ghost use Rattle.cqlp_build_cells.specs.Said.{IsReadable};

use crate::held::{Fault, FrameEvents};
use cqlp_build_cells::{CellError, Step, ends};
use cqlp_kind::Kind;
use cqlp_message::{Metadata, Rows};
use cqlp_note::Field;
use cqlp_type::TypeTree;
use cqlp_value::Value;

impl FrameEvents {
    /// Takes a page.
    pub fn page(&mut self) -> Rows
        ensures is { Builds (λ p. emitted (page_parts p)) IsPage (page_of result) self.old self.new }
        ensures sized { AreSized self.new.cells_size (page_of result).cells }
    {
        let meta = self.metadata();
        let rows = self.count(Field::Rows);
        let cells = self.cells(rows, &meta);
        Rows { meta, rows, cells }
    }

    /// Takes the cells of this many rows, and keeps how many bytes they have, where that was counted.
    fn cells(&mut self, rows: u32, meta: &Metadata) -> Vec<Value>
        requires { IsSound self.old → AreReadable (metadata_of meta.now) }
        ensures is { Builds (λ vs. emitted (cells_parts (metadata_of meta.now) rows vs)) (AreCells (metadata_of meta.now) rows)
            (map value_of result.items) self.old self.new }
        ensures sized { AreSized self.new.cells_size (map value_of result.items) }
    {
        let (cells, size) = self.sized_cells(rows, meta);
        self.cells_size = size;
        cells
    }

    /// Takes the cells of this many rows, and answers how many bytes they have, where that was counted.
    fn sized_cells(&mut self, rows: u32, meta: &Metadata) -> (Vec<Value>, Option<u64>)
        requires { IsSound self.old → AreReadable (metadata_of meta.now) }
        ensures is { Builds (λ vs. emitted (cells_parts (metadata_of meta.now) rows vs)) (AreCells (metadata_of meta.now) rows)
            (map value_of result.0.items) self.old self.new }
        ensures sized { AreSized result.1 (map value_of result.0.items) }
    {
        if self.fault.is_some() {
            return (self.rows(rows, meta), None);
        }
        match self.items.take_page(self.alloc, rows, meta) {
            Some((cells, size)) => (cells, Some(size)),
            None => (self.rows(rows, meta), None),
        }
    }

    /// Takes the cells of this many rows, one row after the other.
    fn rows(&mut self, rows: u32, meta: &Metadata) -> Vec<Value>
        requires { IsSound self.old → AreReadable (metadata_of meta.now) }
        ensures { Builds (λ vs. emitted (cells_parts (metadata_of meta.now) rows vs)) (AreCells (metadata_of meta.now) rows)
            (map value_of result.items) self.old self.new }
    {
        let mut cells = Vec::new(self.alloc);
        if self.fault.is_some() {
            return cells;
        }
        if meta.columns == 0 {
            return cells;
        }
        for row in 0..rows {
            self.row(row, meta, &mut cells);
            if self.fault.is_some() {
                return cells;
            }
        }
        cells
    }

    /// Takes the cells of a row, and puts them behind those that there are. Nothing was refused yet.
    fn row(&mut self, row: u32, meta: &Metadata, cells: &mut Vec<Value>)
        requires sound { IsSound self.old }
        requires readable { AreReadable (metadata_of meta.now) }
        ensures { (made : List Values) × (map value_of cells.new.items ≡ map value_of cells.old.items ++ made)
            × BuildsRow row (cell_types (metadata_of meta.now)) made self.old self.new }
    {
        for column in 0..meta.columns {
            let cell = self.cell_of(row, column, meta);
            if self.fault.is_some() {
                return;
            }
            if cells.push(cell).is_err() {
                self.refuse(Fault::NoMemory);
                return;
            }
        }
    }

    /// Takes the cell of a row and a column, which is as it is where no columns are described.
    fn cell_of(&mut self, row: u32, column: u32, meta: &Metadata) -> Value
        requires readable { AreReadable (metadata_of meta.now) }
        requires within { column < meta.now.columns }
        ensures { BuildsCell row column (column_type column (cell_types (metadata_of meta.now))) (value_of result) self.old self.new }
    {
        let Some(specs) = &meta.specs else {
            return self.cell(row, column, &TypeTree::Plain(Kind::Raw));
        };
        match specs.get(column as usize) {
            Some(spec) => self.cell(row, column, &spec.tree),
            None => {
                self.refuse(Fault::NoFrame);
                Value::Null
            }
        }
    }

    /// Takes the cell of a row and a column, which is of this type.
    fn cell(&mut self, row: u32, column: u32, tree: &TypeTree) -> Value
        requires { IsSound self.old → IsReadable tree.now }
        ensures { BuildsCell row column (types_in (tree_of tree.now)) (value_of result) self.old self.new }
    {
        if !self.gather(row, column) {
            self.take_front(tree);
            self.refuse(Fault::NoFrame);
            return Value::Null;
        }
        match self.cell.whole(tree) {
            Ok(value) => value,
            Err(why) => {
                self.refuse(fault(why));
                Value::Null
            }
        }
    }

    /// Takes the events of the cell of a row and a column, up to that after which nothing comes of it, and says whether that came.
    fn gather(&mut self, row: u32, column: u32) -> bool
        ensures { Gathers row column result self.old self.new }
    {
        self.cell.clear();
        while let Some((level, step)) = self.next_step(row, column) {
            let ended = ends(level, &step);
            if self.cell.push(level, step).is_err() {
                self.refuse(Fault::NoMemory);
                return false;
            }
            if ended {
                return true;
            }
        }
        false
    }

    /// Takes of a cell that did not come whole the events that are the first ones of a value of this type, and the one after them.
    fn take_front(&mut self, tree: &TypeTree)
        requires { IsSound self.old → IsReadable tree.now }
        ensures { KeepsFault self.old self.new }
    {
        if self.fault.is_some() {
            return;
        }
        // No value is around as many, so it is the first event of none, and is taken where all others were those of one.
        if self.cell.push(u32::MAX, Step::Null).is_err() {
            self.refuse(Fault::NoMemory);
            return;
        }
        if let Err(CellError::NoMemory) = self.cell.whole(tree) {
            self.refuse(Fault::NoMemory);
        }
    }
}

/// Why nothing more is taken, where there is no value.
fn fault(why: CellError) -> Fault
    ensures { result ≡ fault_of why }
{
    match why {
        CellError::NoMemory => Fault::NoMemory,
        _ => Fault::NoFrame,
    }
}
