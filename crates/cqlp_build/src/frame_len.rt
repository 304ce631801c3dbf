//! How many bytes a frame has that was built, without another look at the cells of a page whose bytes were counted as they came.

ghost use Rattle.std.specs.Prelude.{◌≡◌, ◌≤◌, IsTrue, map, option_map, true};
ghost use Rattle.cqlp_note.specs.declared.header.TheConstants.Header as model;
ghost use Rattle.cqlp_value.specs.Owned.{value_of};
ghost use Rattle.cqlp_message.specs.Frames.{frame_size, if_none, measure_of};
ghost use Rattle.cqlp_message.specs.Owned.{frame_of, message_of};
ghost use Rattle.cqlp_message.specs.Pages.{filled, page_unfit_of};
ghost use Rattle.cqlp_build.specs.Building.{has_fit_cells};
ghost use Rattle.cqlp_build.specs.CellSizes.{IsCounted, IsSized, TakesCells, measured};

use cqlp_message::{Frame, Message};
use cqlp_note::Header;
use cqlp_value::Value;
use std::alloc::Global;
use std::mem;

/// How many bytes a frame has, if some bytes spell it. Of a page all cells are there, each a value of its column's type, and they have so many
/// bytes, where that is known.
pub(crate) fn frame_len(alloc: Global, frame: &mut Frame, cells_size: Option<u64>) -> Option<u32>
    requires { IsSized cells_size (frame_of frame.old).message }
    ensures len { has_fit_cells (frame_of frame.old).message ≡ true → result ≡ measured (measure_of (frame_of frame.old)) }
    ensures same { frame_of frame.new ≡ frame_of frame.old }
{
    match cells_size {
        Some(size) if is_short(size) => page_len(alloc, frame, size as u32),
        _ => measure(frame),
    }
}

/// Whether a body may have this many bytes.
fn is_short(size: u64) -> bool
    ensures { IsTrue result → size ≤ model.LONGEST_BODY }
{
    size <= u64::from(Header::LONGEST_BODY)
}

/// How many bytes a frame has, if some bytes spell it.
fn measure(frame: &Frame) -> Option<u32>
    ensures { result ≡ measured (measure_of (frame_of frame.now)) }
{
    match frame.measure() {
        Ok(len) => Some(len),
        Err(_) => None,
    }
}

/// How many bytes a frame has, if some bytes spell it. Of a page all cells are there, each a value of its column's type, and they have this many
/// bytes.
fn page_len(alloc: Global, frame: &mut Frame, cells_len: u32) -> Option<u32>
    requires { IsCounted cells_len (frame_of frame.old).message }
    ensures len { has_fit_cells (frame_of frame.old).message ≡ true → result ≡ measured (measure_of (frame_of frame.old)) }
    ensures same { frame_of frame.new ≡ frame_of frame.old }
{
    let Some(cells) = take_cells(alloc, &mut frame.message) else {
        return measure(frame);
    };
    let len = measure_page(frame, cells_len);
    put_back(&mut frame.message, cells);
    len
}

/// How many bytes a frame has with cells of so many bytes after it, if it is a page without cells that can be begun with them.
fn measure_page(frame: &Frame, cells_len: u32) -> Option<u32>
    ensures { let f = frame_of frame.now in
        result ≡ measured (if_none (page_unfit_of f cells_len) (frame_size f cells_len)) }
{
    match frame.page_measure(cells_len) {
        Ok(len) => Some(len),
        Err(_) => None,
    }
}

/// Takes the cells out of a page; of another message it takes nothing.
fn take_cells(alloc: Global, message: &mut Message) -> Option<Vec<Value>>
    ensures { TakesCells (option_map (λ cells. cells.items) result) message.old message.new }
{
    match message {
        Message::Rows(page) => Some(mem::replace(&mut page.cells, Vec::new(alloc))),
        _ => None,
    }
}

/// Gives a page these cells.
fn put_back(message: &mut Message, cells: Vec<Value>)
    ensures { message_of message.new ≡ filled (message_of message.old) (map value_of cells.items) }
{
    if let Message::Rows(page) = message {
        page.cells = cells;
    }
}
