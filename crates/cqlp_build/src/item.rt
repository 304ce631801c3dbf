//! Events that are held.

ghost use Rattle.std.specs.Prelude.{◌≡◌, IfOk, Some, option_map, true};
ghost use Rattle.cqlp_build_cells.specs.Building.{cell_of, is_whole};
ghost use Rattle.cqlp_grammar.specs.Events.{bound_of as event_bound, cell_event, event_of};
ghost use Rattle.cqlp_message.specs.Owned.{bound_of, bytes_of};
ghost use Rattle.cqlp_build.specs.FrameEvents.{IsHeld, item_event};

use cqlp_build_cells::{Step, own as own_step};
use cqlp_grammar::Event;
use cqlp_kind::Kind;
use cqlp_message::OwnedBound;
use cqlp_note::{Address, BoundValue, Field};
use std::alloc::{AllocError, Global};

/// What comes between a header and an end.
#[derive(Drop)]
pub(crate) enum Item {
    /// A field, with what it holds.
    Holds(Field, Content),
    /// The kind of a type option.
    Kind(Kind),
    /// An event of the cell of a row and a column, at a level. The end of a value names no cell, and what it has here counts for nothing.
    Cell {
        row: u32,
        column: u32,
        level: u32,
        step: Step,
    },
}

/// What a field holds, with bytes of its own.
#[derive(Drop)]
pub(crate) enum Content {
    Byte(u8),
    Short(u16),
    Int(i32),
    Long(i64),
    Uuid([u8; 16]),
    Count(u32),
    Text(String),
    Bytes(Option<Vec<u8>>),
    Bound(OwnedBound),
    Inet(Address, i32),
}

/// The same, with bytes of its own.
pub(crate) fn own(alloc: Global, event: &Event<'_>) -> Result<Item, AllocError>
    requires { IsHeld (event_of event.now) }
    ensures { IfOk result (λ item. item_event item ≡ event_of event.now) }
{
    let (field, content) = match *event {
        Event::Byte { field, value } => (field, Content::Byte(value)),
        Event::Short { field, value } => (field, Content::Short(value)),
        Event::Int { field, value } => (field, Content::Int(value)),
        Event::Long { field, value } => (field, Content::Long(value)),
        Event::Uuid { field, value } => (field, Content::Uuid(value)),
        Event::Count { field, count } => (field, Content::Count(count)),
        Event::Text { field, text } => (field, Content::Text(String::from_str(alloc, text)?)),
        Event::Bytes { field, bytes } => (field, Content::Bytes(own_bytes(alloc, bytes)?)),
        Event::Bound { field, value } => (field, Content::Bound(own_bound(alloc, value)?)),
        Event::Inet {
            field,
            address,
            port,
        } => (field, Content::Inet(address, port)),
        Event::TypeNode(kind) => return Ok(Item::Kind(kind)),
        Event::Leaf { row, column, .. }
        | Event::Null { row, column, .. }
        | Event::Empty { row, column, .. }
        | Event::Enter { row, column, .. } => return own_cell(alloc, row, column, event),
        Event::Leave { .. } => return own_cell(alloc, 0, 0, event),
        _ => unreachable!(),
    };
    Ok(Item::Holds(field, content))
}

/// The same of the cell of this row and column, with bytes of its own.
fn own_cell(alloc: Global, row: u32, column: u32, event: &Event<'_>) -> Result<Item, AllocError>
    requires { is_whole (event_of event.now) ≡ true }
    ensures { IfOk result (λ item. option_map (cell_event row column) (cell_of (event_of event.now)) ≡ Some (item_event item)) }
{
    let (level, step) = own_step(alloc, event)?;
    Ok(Item::Cell {
        row,
        column,
        level,
        step,
    })
}

/// The same \[bytes\], with memory of their own.
fn own_bytes(alloc: Global, bytes: Option<&[u8]>) -> Result<Option<Vec<u8>>, AllocError>
    ensures { IfOk result (λ own. bytes_of own ≡ option_map (λ b. b.now) bytes.entry) }
{
    match bytes {
        Some(bytes) => Ok(Some(Vec::from_slice(alloc, bytes)?)),
        None => Ok(None),
    }
}

/// The same \[value\], with bytes of its own.
fn own_bound(alloc: Global, value: BoundValue<'_>) -> Result<OwnedBound, AllocError>
    ensures { IfOk result (λ bound. bound_of bound ≡ event_bound value.entry) }
{
    Ok(match value {
        BoundValue::Null => OwnedBound::Null,
        BoundValue::Unset => OwnedBound::Unset,
        BoundValue::Bytes(bytes) => OwnedBound::Bytes(Vec::from_slice(alloc, bytes)?),
    })
}
