//! Summaries of several captures, added.
#![tactic(auto)]

mod files;
mod lines;
mod merging;
mod object;
mod refusal;
mod run;

pub use files::FileNames;
pub use run::{MergedAs, merge_summaries};
