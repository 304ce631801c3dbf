//! Laws of streams that are read in stretches, which no code needs.
#![tactic(auto)]

pub mod laws;
