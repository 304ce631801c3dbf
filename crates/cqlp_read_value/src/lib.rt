//! Values of cells of the CQL native protocol v4, read whole from their bytes.
#![tactic(auto)]

mod cell;
mod error;
mod front;
pub mod laws;
mod owned;
mod reading;

pub use cell::{CellContent, PageCell, read_cell};
pub use error::ReadError;
pub use reading::read_value;
