//! The limits that a caller sets.

use cqlp_packet_order::OrderLimits;
use cqlp_tcp_connections::ConnectionLimits;

/// What the reading of a capture keeps at most.
#[derive(Clone, Copy)]
pub struct StreamsLimits {
    pub connections: ConnectionLimits,
    /// The window in which packets are put in order.
    pub order: OrderLimits,
}

impl StreamsLimits {
    /// The limits where none are given.
    pub const DEFAULT: StreamsLimits = StreamsLimits {
        connections: ConnectionLimits::DEFAULT,
        order: OrderLimits::DEFAULT,
    };
}
