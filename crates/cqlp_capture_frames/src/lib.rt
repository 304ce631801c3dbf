//! The frames of one direction of a captured connection, each read as a stream of its own.
#![tactic(auto)]

mod direction;
mod drain;
mod fault;
mod lines;
mod noted;
mod reader;
mod transcript;

pub use direction::Direction;
pub use fault::ReportFault;
pub use lines::{LinePlace, put_compressed, put_gap, put_place, put_refused, put_unread};
pub use transcript::Transcript;
