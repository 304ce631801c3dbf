//! The limits that a caller sets, and why a table is not made.

ghost use Rattle.std.specs.Prelude.{◌≡◌};

use thiserror::Error;

/// What a table of connections holds at most.
#[derive(Clone, Copy)]
pub struct ConnectionLimits {
    /// How many connections there are at one time: 1 to 1,048,576.
    pub connections: u32,
    /// How much all directions together hold of what came early, in the measure of `Stream::size`: of each packet its bytes and 144
    /// more.
    pub early: usize,
    /// How much one direction holds of it.
    pub early_each: usize,
}

/// Why a table was not made.
#[derive(Clone, Copy, Debug, PartialEq, Eq, Error)]
pub enum NewConnectionsError {
    #[error("the limit on connections is not from 1 to 1048576")]
    BadLimits,
    #[error("no memory")]
    NoMemory,
}

impl ConnectionLimits {
    ghost use Rattle.cqlp_tcp_connections.specs.Limits.{is_in_range};

    /// The greatest limit on connections.
    pub const GREATEST_CONNECTIONS: u32 = 1_048_576;

    /// The limits where none are given: 65,536 connections, and of what comes early 24 MiB in all and 1 MiB for each direction.
    pub const DEFAULT: ConnectionLimits = ConnectionLimits {
        connections: 65_536,
        early: 25_165_824,
        early_each: 1_048_576,
    };

    /// Whether the limit on connections is in its range.
    pub fn is_in_range(&self) -> bool
        ensures { result ≡ is_in_range self.now }
    {
        1 <= self.connections && self.connections <= ConnectionLimits::GREATEST_CONNECTIONS
    }
}
