//! Laws of the reading of a stream, over its definition and over what the calls of the decoder promise. No code needs
//! them.
#![tactic(auto)]

pub mod frames;
pub mod lenient;
pub mod limits;
pub mod one_answer;
pub mod reading;
