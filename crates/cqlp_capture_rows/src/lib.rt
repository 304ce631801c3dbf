//! The pages of one connection of a capture, as text.
#![tactic(auto)]

mod capturing;
pub mod laws;
mod limits;
mod other_connections;
mod other_limits;
mod other_types;
mod page;
mod prepared_frame;
mod prepared_frames;
mod responses;
mod rows;
mod silent;
mod spot;

pub use capturing::write_rows;
pub use limits::{EXECUTES, LIMITS, STATEMENTS};
pub use other_limits::{LONGEST_PREPARED, OTHER_FRAMES, OTHER_LIMITS, OTHER_STATEMENTS};
pub use rows::Rows;
