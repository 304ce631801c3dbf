//! Cells among events.

ghost use Rattle.std.specs.Prelude.{◌≡◌};
ghost use Rattle.cqlp_grammar.specs.Events.{event_of};
ghost use Rattle.cqlp_columns.specs.Cells.{cell_in};
ghost use Rattle.cqlp_columns.specs.Findings.{finding_of, found_at, found_in};

use crate::cell::CellRef;
use cqlp_grammar::Event;

/// What an event has of a page's cells.
#[derive(Clone, Copy)]
pub(crate) enum Found<'a> {
    Nothing,
    /// A part of a cell: a value with items, an item of one, or bytes of a long content.
    Part,
    /// A whole cell.
    Cell { column: u32, cell: CellRef<'a> },
}

/// What an event has of a page's cells.
#[inline(always)]
pub(crate) fn found_in<'a>(event: &'a Event<'a>) -> Found<'a>
    ensures { finding_of result ≡ found_in (event_of event.now) }
{
    match *event {
        Event::Leaf {
            column,
            level,
            ref scalar,
            ..
        } => at_level(column, level, CellRef::Holds(scalar)),
        Event::Null { column, level, .. } => at_level(column, level, CellRef::Null),
        Event::Empty { column, level, .. } => at_level(column, level, CellRef::Empty),
        Event::Enter { .. } | Event::Leave { .. } | Event::Part { .. } => Found::Part,
        Event::Frame(_)
        | Event::Byte { .. }
        | Event::Short { .. }
        | Event::Int { .. }
        | Event::Long { .. }
        | Event::Uuid { .. }
        | Event::Count { .. }
        | Event::Text { .. }
        | Event::Bytes { .. }
        | Event::Bound { .. }
        | Event::Inet { .. }
        | Event::TypeNode(_)
        | Event::End { .. } => Found::Nothing,
    }
}

/// A value at a level, which is a cell where no value is around it.
#[inline(always)]
fn at_level<'a>(column: u32, level: u32, cell: CellRef<'a>) -> Found<'a>
    ensures { finding_of result ≡ found_at column level (cell_in cell.entry) }
{
    if level == 0 {
        Found::Cell { column, cell }
    } else {
        Found::Part
    }
}
