//! The TCP connections of a capture, in a table of bounded size: what each direction of each of them hands on.
#![tactic(auto)]

mod connection;
mod delivery;
mod ends;
pub mod laws;
mod limits;
mod pool;
mod ports;
mod side;
mod table;
mod tally;
mod totals;

pub use delivery::{Admission, Delivery, Departure};
pub use ends::{DEFAULT_PORT, Ends, Way};
pub use limits::{ConnectionLimits, NewConnectionsError};
pub use table::Connections;
pub use totals::{Begin, ConnectionCounts, ConnectionTotals, DirectionTotals, End};
