//! What the two sides of a connection say to each other: each request with the response that comes next under its stream id.
#![tactic(auto)]

mod frame_record;
mod header_front;
mod heads;
mod kept;
pub mod laws;
mod message;
mod missed;
mod missed_record;
mod opening;
mod paired;
mod pairing;
mod room;
mod side;
mod stage_record;
mod subject;
mod unread;
mod watch;

pub use cqlp_observer_facts::Facts;
pub use heads::{Heads, Heard, HeardStep};
pub use kept::{Kept, LONGEST_FRONT};
pub use message::{Extent, Frame, Message};
pub use missed::Missed;
pub use opening::Opening;
pub use paired::Paired;
pub use pairing::Pairing;
pub use room::WatchRoom;
pub use subject::subject_of;
pub use unread::Unread;
pub use watch::{Watch, WatchProgress, WatchStep};
