//! What is read of a cell.

use cqlp_kind::{Kind, Scalar};
use cqlp_note::Refusal;

/// A part of a cell. Its level is the number of values around it, 0 for the cell itself. Section 6 of
/// `native_protocol_v4.spec`.
#[derive(Clone, Copy)]
pub enum CellItem<'a> {
    /// A scalar.
    Leaf {
        level: u32,
        scalar: Scalar<'a>,
    },
    /// A value of a negative length.
    Null {
        level: u32,
    },
    /// A value of no bytes.
    Empty {
        level: u32,
    },
    /// The beginning of a value with items: how many a list or a set has, the pairs of a map, or the types of the items
    /// of a tuple or a user-defined type.
    Enter {
        level: u32,
        kind: Kind,
        items: u32,
    },
    /// The end of such a value, and how many items it had; a map's are pairs.
    Leave {
        level: u32,
        items: u32,
    },
    /// Bytes of a long blob, custom or raw scalar, from this offset in it.
    Part {
        level: u32,
        offset: u32,
        bytes: &'a [u8],
        last: bool,
    },
}

/// What a piece of input made of a cell.
#[derive(Clone, Copy)]
pub enum CellPush<'a> {
    /// All of it was used, and the cell goes on.
    More {
        used: usize,
    },
    /// This many of its bytes end a part, which began at this offset.
    Item {
        at: u64,
        used: usize,
        item: CellItem<'a>,
    },
    /// The cell is whole. No byte was used.
    Done,
    /// The cell ends, since it is refused.
    Refused(Refusal),
}
