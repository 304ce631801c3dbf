//! The rows of pages as JSON and as CSV.
#![tactic(auto)]

mod csv_rows;
mod json_rows;
pub mod laws;
mod place;
mod quotes;
mod shown;

pub use csv_rows::{csv_break, csv_part, put_csv_part};
pub use json_rows::{json_break, json_part, put_json_part};
pub use place::TablePlace;
