//! Tables of the types that a caller knows as trees.
#![tactic(auto)]

mod count;
mod found;
pub mod laws;
mod making;
mod typed;
mod writing;

pub use making::{TableError, table_of, table_of_specs};
