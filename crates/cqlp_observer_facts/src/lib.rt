//! What messages say beside their first fields, read as the bytes of their bodies pass.
#![tactic(auto)]

mod announced;
mod batch;
mod columns;
mod due;
mod facts;
mod field_front;
pub mod laws;
mod numbers;
mod query;
mod reader;
mod rows;
mod types;

pub use facts::Facts;
pub use reader::FactsReader;
