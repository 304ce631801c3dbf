//! Why bytes are refused, and why a reader is not made.

use thiserror::Error;

/// Why bytes of a capture file are refused.
#[derive(Clone, Copy, Debug, PartialEq, Eq)]
pub enum CaptureReason {
    /// The first two bytes are those of what gzip compresses.
    Gzip,
    /// The first four bytes are no magic number that is known.
    UnknownMagic,
    /// The version is not 2.4, or of a pcapng section not 1.0, nor 1.2, which means the same.
    UnknownVersion,
    /// A record, or a block, that would begin past offset 2^63.
    FileTooLong,
    /// The byte-order magic of a section is not known.
    UnknownByteOrder,
    /// The length of a block is no multiple of four, or less than 12, 20 of an interface, 28 of a section.
    BadBlockLength,
    /// The length at the end of a block is not the one at its head.
    UnequalBlockLengths,
}

/// Bytes that are refused.
#[derive(Clone, Copy, Debug, PartialEq, Eq)]
pub struct CaptureRefusal {
    /// The offset in the file of the first byte of the number that is refused; of the record or the block, where it begins too far.
    pub at: u64,
    /// The first fault in the order in which the file is read.
    pub why: CaptureReason,
}

/// Why a reader was not made.
#[derive(Clone, Copy, Debug, PartialEq, Eq, Error)]
pub enum NewReaderError {
    /// A limit of the caller is out of its range: 64 to 16,777,216 bytes of a packet, or 1 to 65,536 interfaces.
    #[error("the limit on a packet is not from 64 to 16777216, or that on interfaces not from 1 to 65536")]
    BadLimits,
    /// Memory for a packet and for the interfaces was refused.
    #[error("no memory")]
    NoMemory,
}
