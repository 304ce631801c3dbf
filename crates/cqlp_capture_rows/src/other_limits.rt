//! How much is held of other connections.

use cqlp_note::Limits;

/// The limits on a PREPARED of another connection. A decoder takes 80 KiB within them.
pub const OTHER_LIMITS: Limits = Limits {
    text: 65_536,
    cell: 65_536,
    entries: 1_024,
    depth: 16,
    types: true,
    parts: true,
};

/// How many statements of other connections are known at most.
pub const OTHER_STATEMENTS: u16 = 256;

/// How many frames of other connections are gathered at one time.
pub const OTHER_FRAMES: u16 = 64;

/// How many bytes the body of such a frame has at most.
pub const LONGEST_PREPARED: u32 = 65_536;
