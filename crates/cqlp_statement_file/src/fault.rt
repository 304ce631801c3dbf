//! Why a file has no statements.

use std::alloc::AllocError;

/// Why a file has no statements.
#[derive(Clone, Copy, Debug, PartialEq, Eq)]
pub enum StatementsFault {
    /// A read failed.
    Read,
    /// Memory was refused.
    NoMemory,
    /// This line, of which the first has the number 1, is no object of those that a file has.
    NoObject { line: u64 },
    /// This line is too long.
    TooLong { line: u64 },
    /// No line has a statement.
    NoStatement,
    /// No line has a column, of whose types those of pages are made.
    NoColumn,
}

impl From<AllocError> for StatementsFault {
    fn from(_error: AllocError) -> StatementsFault {
        StatementsFault::NoMemory
    }
}
