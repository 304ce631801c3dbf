//! The events of the frames on the connections of a capture, as lines.
#![tactic(auto)]

mod capturing;
mod events;
pub mod laws;
mod limits;
mod lines;
mod slot;
mod table;
mod words;

pub use capturing::write_events;
pub use events::Events;
pub use limits::{LIMITS, OPEN_FRAMES};
