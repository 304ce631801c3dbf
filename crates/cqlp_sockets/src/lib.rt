//! Sockets that do not wait, as readers and writers that keep why a call failed.
#![tactic(auto)]

mod cause;
pub mod laws;
mod of_socket;

pub use cause::Cause;
pub use of_socket::OfSocket;
