//! Captured packets, put in the order of their times within a window.
#![tactic(auto)]

pub mod laws;
mod limits;
mod order;
mod packet;

pub use limits::{OrderCounts, OrderLimits};
pub use order::PacketOrder;
pub use packet::{KeptPacket, Packet};
