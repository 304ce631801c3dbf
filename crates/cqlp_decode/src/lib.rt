//! A stream of frames of the CQL native protocol v4, read as events.
#![tactic(auto)]

mod advance;
mod decoder;
mod feeding;
mod field_loop;
mod given;
mod item_loop;
mod leaf;
mod list_loop;
mod metadata;
mod page;
mod page_loop;
mod parts;
mod progress;
mod running;
mod step;

pub use cqlp_grammar::{Event, Finish, Sink, SinkFault};
pub use decoder::{Decoder, NewError};
pub use feeding::Fed;
pub use given::{GiveError, GiveReason};
pub use running::{Outcome, run};
pub use step::{Capacity, FaultAfter, Held, Step};
