//! Frames of the CQL native protocol v4, written and read back.
#![tactic(auto)]

mod memory;
mod trip;

pub use trip::{RoundTripError, write_and_read};
