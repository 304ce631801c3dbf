//! The bytes of each direction of each connection of a capture, apart, and a line for each connection.
#![tactic(auto)]

mod block_writer;
mod buffering;
mod busiest;
mod capturing;
mod connection_event;
mod connection_key;
mod ending;
mod fault;
mod files;
mod input;
mod last_words;
pub mod laws;
mod limits;
mod lines;
mod listener;
mod packets;
mod recorder;
mod reporting;
mod running;
mod skipped;
mod splitter;
mod summary;
mod writing;

pub use block_writer::BlockWriter;
pub use buffering::{Buffering, finish_blocks};
pub use capturing::{CaptureRead, read_capture};
pub use connection_event::ConnectionEvent;
pub use connection_key::newest_first;
pub use ending::conclude_capture;
pub use fault::StreamsFault;
pub use files::{FileFault, StreamFile, StreamFiles};
pub use input::CaptureInput;
pub use last_words::{LastWord, LastWords};
pub use limits::StreamsLimits;
pub use listener::Listener;
pub use packets::{PacketCounts, WithoutCounts};
pub use skipped::SkippedCounts;
pub use summary::put_count;
pub use writing::write_streams;
