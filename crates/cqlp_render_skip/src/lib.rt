//! A stream as text that is read on after frames whose bodies are refused.
#![tactic(auto)]

mod feeding;
mod forming;
pub mod laws;
mod reading;
mod report;
mod showing;
mod skipped_line;

pub use showing::{check_skipping, show_skipping};
