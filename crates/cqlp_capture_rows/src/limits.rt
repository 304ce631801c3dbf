//! How much is held.

use cqlp_note::Limits;

/// The limits on each frame: those of `Limits::DEFAULT`, and longer blobs come in parts. A decoder takes some 1.1 MiB within them, and
/// each direction has one.
pub const LIMITS: Limits = Limits {
    text: 1_048_576,
    cell: 1_048_576,
    entries: 4_096,
    depth: 16,
    types: true,
    parts: true,
};

/// How many statements of a connection are known at most, with the types that PREPARE said of them.
pub const STATEMENTS: u16 = 256;

/// How many EXECUTEs of a connection wait at most.
pub const EXECUTES: u16 = 1_024;
