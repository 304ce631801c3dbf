//! Values of cells of the CQL native protocol v4, built of their events.
#![tactic(auto)]

mod builder;
mod error;
mod held;
pub mod laws;
mod step;
mod values;

pub use builder::{CellBuilder, CellLimits, ends_cell};
pub use error::CellError;
pub use held::CellEvents;
pub use step::{Step, ends, own, own_scalar, scalar_size};
