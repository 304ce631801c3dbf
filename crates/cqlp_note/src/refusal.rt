//! Why bytes are refused, and why a call is. `Header::read` has the order in which a header is refused, head.rt that of a field.

use std::alloc::AllocError;
use thiserror::Error;

/// Why bytes of a stream are refused.
#[derive(Clone, Copy, Debug, PartialEq, Eq)]
pub enum Reason {
    /// The first byte of a header is neither 04 nor 84.
    BadVersion,
    /// A header's flags announce compression.
    Compressed,
    /// No opcode has this number.
    BadOpcode,
    /// A request's opcode in a response, or the other way round.
    BadDirection,
    /// A body's length that is negative or above 268,435,456.
    BadLength,
    /// Past the end of the frame, or of the value around an element.
    Overrun,
    /// Past the caller's limit on a text or a cell.
    TooLong,
    /// A text that is not UTF-8.
    BadUtf8,
    /// The length of a \[value\] below -2.
    BadValueLength,
    /// The address of an \[inet\] has neither 4 nor 16 bytes.
    BadInet,
    /// A negative count, or a negative length of a text.
    BadCount,
    /// No type option has this id.
    BadType,
    /// A type past the caller's limit on nesting.
    TooDeep,
    /// More type options than the caller's limit.
    TooMany,
    /// The kind of a batch's entry is neither 0 nor 1.
    BadBatchKind,
    /// A batch's flags name values, or have a bit that only a query's have.
    BadBatchFlags,
    /// A cell's length that its type does not have.
    BadSize,
    /// A cell's content that its type does not have.
    BadScalar,
    /// Bytes of a value after its last item.
    ExtraInValue,
    /// A frame that would begin past offset 2^63.
    StreamTooLong,
}

/// Bytes that are refused.
#[derive(Clone, Copy, Debug, PartialEq, Eq)]
pub struct Refusal {
    /// The offset in the stream of the first byte of the field that could not be made; in a header, of the faulty byte.
    pub at: u64,
    /// The first fault in the order in which a field or a header is read.
    pub why: Reason,
}

/// Memory was refused; nothing was made.
#[derive(Clone, Copy, Debug, PartialEq, Eq, Error)]
#[error("no memory")]
pub struct NoMemory;

impl From<AllocError> for NoMemory {
    fn from(_: AllocError) -> Self {
        NoMemory
    }
}
