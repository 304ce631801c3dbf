//! The parts of pages.

ghost use Rattle.std.specs.Prelude.{◌≡◌, ℕ, List, [], ◌∷◌, map};
ghost use Rattle.cqlp_kind.specs.Types.{how_many};
ghost use Rattle.cqlp_value.specs.Owned.{value_of};
ghost use Rattle.cqlp_message.specs.Bodies as body;
ghost use Rattle.cqlp_message.specs.FrameValues as value;
ghost use Rattle.cqlp_message.specs.Owned.{metadata_of, page_of, spec_of};
ghost use Rattle.cqlp_message.specs.PartRefs.{Takes};
ghost use Rattle.cqlp_grammar.specs.Productions.{raw_types};

use crate::part::{PartRef, TakesParts};
use crate::response::{Metadata, Rows, Spec};
use crate::walk::HasParts;
use cqlp_note::Field;
use cqlp_value::Value;

impl HasParts for Rows {
    ghost Value = { value.Page };

    ghost value = { page_of };

    ghost parts = { body.page_parts };

    fn walk<V: TakesParts>(&self, visitor: &mut V) {
        self.meta.walk(visitor);
        visitor.take(PartRef::Count32(Field::Rows, self.rows as usize));
        walk_rows(&self.meta, self.rows, &self.cells, visitor);
    }
}

/// Hands over the cells of this many rows.
fn walk_rows<V: TakesParts>(meta: &Metadata, rows: u32, cells: &[Value], visitor: &mut V)
    ensures { Takes V.taken visitor.old visitor.new
        (body.rows_parts 0 (body.cell_types (metadata_of meta.now)) rows (map value_of cells.now)) }
{
    let columns = meta.columns_described();
    let mut rest = cells;
    for row in 0..rows {
        if columns == 0 || rest.is_empty() {
            return;
        }
        walk_row(meta, row, rest, visitor);
        let (_, others) = rest.split_at(columns.min(rest.len()));
        rest = others;
    }
}

/// Hands over the cells of a row, the first of these.
fn walk_row<V: TakesParts>(meta: &Metadata, row: u32, cells: &[Value], visitor: &mut V)
    ensures { Takes V.taken visitor.old visitor.new
        (body.row_parts row 0 (body.cell_types (metadata_of meta.now)) (map value_of cells.now)) }
{
    match &meta.specs {
        Some(specs) => walk_typed(row, specs, cells, visitor),
        None => walk_raw(row, meta.columns, cells, visitor),
    }
}

/// Hands over a cell of each of these columns.
fn walk_typed<V: TakesParts>(row: u32, specs: &[Spec], cells: &[Value], visitor: &mut V)
    ensures { Takes V.taken visitor.old visitor.new
        (body.row_parts row 0 (body.column_types (map spec_of specs.now)) (map value_of cells.now)) }
{
    let mut rest = specs;
    for (column, value) in cells.iter().enumerate() {
        let Some((spec, others)) = rest.split_first() else {
            return;
        };
        visitor.take(PartRef::Cell {
            row,
            column,
            tree: Some(&spec.tree),
            value,
        });
        rest = others;
    }
}

/// Hands over a cell of each of this many columns, whose types are not described.
fn walk_raw<V: TakesParts>(row: u32, columns: u32, cells: &[Value], visitor: &mut V)
    ensures { Takes V.taken visitor.old visitor.new
        (body.row_parts row 0 (raw_types columns) (map value_of cells.now)) }
{
    for (column, value) in cells.iter().enumerate() {
        if column >= columns as usize {
            return;
        }
        visitor.take(PartRef::Cell {
            row,
            column,
            tree: None,
            value,
        });
    }
}

impl Metadata {
    /// How many columns the cells are of: those that are described, or as many as are said to be there.
    fn columns_described(&self) -> usize
        ensures { result ≡ how_many (body.cell_types (metadata_of self.now)) }
    {
        match &self.specs {
            Some(specs) => specs.len(),
            None => self.columns as usize,
        }
    }
}
