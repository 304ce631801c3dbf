//! Laws of what an observer keeps of messages, and reports of an honest client and an honest server. No code needs them.
#![tactic(auto)]

pub mod fronts;
pub mod honest;
