//! Which types the page of a response has, by what PREPARE said.
#![tactic(auto)]

mod error;
mod execute;
mod latest;
pub mod laws;
mod prepared_types;
mod requests;
mod statement_id;
mod statement_types;

pub use error::NewPreparedError;
pub use latest::Latest;
pub use prepared_types::PreparedTypes;
pub use requests::Requests;
pub use statement_id::StatementId;
