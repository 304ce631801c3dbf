//! A stream that is read on after a frame whose body is refused.
#![tactic(auto)]

mod fed;
mod frame;
mod shifting;
mod skipping;

pub use cqlp_decode::Fed;
pub use fed::{NotSkippable, Skipped};
pub use frame::OpenFrame;
pub use skipping::SkippingDecoder;
