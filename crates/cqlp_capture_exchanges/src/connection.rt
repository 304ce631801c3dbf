//! Which connection it is of which something is reported.

use cqlp_tcp_connections::Ends;

/// A connection: its number and its ends.
#[derive(Clone, Copy)]
pub(crate) struct Connection {
    pub(crate) number: u64,
    pub(crate) ends: Ends,
}
