//! What a table of connections reports.

ghost use Rattle.std.specs.Prelude.{◌≡◌};
ghost use Rattle.cqlp_tcp_connections.specs.Tables.{between};

use crate::ends::{Ends, Way};
use crate::totals::ConnectionTotals;
use cqlp_tcp_reassembly::StreamStep;

/// What a segment is to a table.
#[derive(Clone, Copy)]
pub enum Admission {
    /// Neither of its ports is asked for. It was counted, and that is all.
    Foreign,
    /// It goes this way of the connection with this number, which begins with it where `is_new`. `pull` reports what it hands on.
    Taken { number: u64, way: Way, is_new: bool },
    /// Before it is taken the connection with this number has to leave: the table is full and it was silent longest, where
    /// `is_full`; else the segment begins another connection between the same ends.
    Crowded { number: u64, is_full: bool },
}

/// What is reported of one direction of a connection.
#[derive(Clone, Copy)]
pub struct Delivery {
    /// The number of the connection.
    pub number: u64,
    /// The ends of the connection.
    pub ends: Ends,
    pub way: Way,
    /// How many bytes and bytes of gaps were reported of the direction before; 2^64 - 1, if more.
    pub at: u64,
    /// What its stream reports, which is not `Done`. Of `Payload` the bytes are the segment's own; `Connections::held` lends those of `Held`.
    pub step: StreamStep,
}

/// What is reported of one direction of a connection whose ends its pool has.
#[derive(Clone, Copy)]
pub(crate) struct WayStep {
    pub(crate) number: u64,
    pub(crate) way: Way,
    pub(crate) at: u64,
    pub(crate) step: StreamStep,
}

/// What is reported of a connection between these ends.
#[inline(always)]
pub(crate) fn between(ends: Ends, step: Option<WayStep>) -> Option<Delivery>
    ensures { result ≡ between ends step }
{
    match step {
        Some(step) => Some(Delivery {
            number: step.number,
            ends,
            way: step.way,
            at: step.at,
            step: step.step,
        }),
        None => None,
    }
}

/// What is reported of a connection that leaves.
#[derive(Clone, Copy)]
pub enum Departure {
    /// What it still has.
    Delivery(Delivery),
    /// It has left.
    Left(ConnectionTotals),
    /// There is no connection.
    Empty,
}
