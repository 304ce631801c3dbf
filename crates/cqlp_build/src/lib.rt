//! Frames of the CQL native protocol v4, built of their events.
#![tactic(auto)]

mod builder;
mod content;
mod error;
mod frame_len;
mod frames;
mod held;
mod held_events;
mod item;
pub mod laws;
mod lists;
mod messages;
mod metadata;
mod misfit;
mod nesting;
mod pages;
mod plain_cells;
mod requests;
mod responses;
mod types;

pub use builder::{BuildLimits, BuiltFrame, FrameBuilder};
pub use error::BuildError;
