//! Patterns of texts: regular expressions, matched in a bounded number of steps without memory of their own.
#![tactic(auto)]

mod bad_pattern;
mod brackets;
mod builder;
mod class;
mod escape;
mod fragment;
mod parser;
mod pattern;
mod token;

pub use bad_pattern::{BadPattern, PatternFault};
pub use pattern::{POSITIONS, Pattern};
