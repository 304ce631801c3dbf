//! Packet captures, read from pieces of any size.
#![tactic(auto)]

mod block;
mod emission;
mod event;
mod file;
mod gathered;
mod interfaces;
pub mod laws;
mod limits;
mod pcap;
mod pcapng;
mod place;
mod reader;
mod refusal;

pub use event::{CaptureEnd, CaptureEvent, CaptureStep, InterfaceHead, PacketHead, SkipReason};
pub use file::{ByteOrder, FileForm, Fraction, SectionForm};
pub use limits::CaptureLimits;
pub use reader::CaptureReader;
pub use refusal::{CaptureReason, CaptureRefusal, NewReaderError};
