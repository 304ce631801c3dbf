//! Frames and pages of the CQL native protocol v4, written of their events: a frame as a whole ([`Composer`]), the cells of a page of any size
//! some at a time ([`PageCells`]), and such a page in batches into a caller's buffers ([`OpenPage`], [`PutCells`]).
#![tactic(auto)]

mod bare;
mod cells;
mod column;
mod composer;
mod error;
mod head;
mod kinds;
pub mod laws;
mod measure;
mod memory;
mod page;
mod place;
mod put;
mod scalar;
mod single;

pub use bare::{BarePage, put_event, scalar_size};
pub use cells::{PageCells, WrittenCells};
pub use composer::Composer;
pub use cqlp_build_cells::CellLimits;
pub use error::{BeginError, HeadError, KindsError, PageCellError, PutError, Unended};
pub use head::page_head;
pub use measure::event_size;
pub use page::{BegunPage, OpenPage};
pub use place::PageProgress;
pub use put::PutCells;
