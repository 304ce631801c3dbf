//! Columns of a page, in the layout of Apache Arrow; and pages that are read straight into them ([`PageColumns`]).
#![tactic(auto)]

mod bits;
mod bytes;
mod cell;
mod column;
mod columns;
mod filled;
mod found;
pub mod laws;
mod layout;
mod marks;
mod page_columns;

pub use cell::Cell;
pub use column::{Column, ColumnRefusal, MakeError};
pub use columns::{BatchLimits, Columns, TakeError};
pub use filled::{Filled, Stop};
pub use layout::{Layout, layout_of};
pub use page_columns::{PageColumns, Went};
