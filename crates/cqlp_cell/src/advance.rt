//! What a piece of input makes of a cell, with nothing borrowed.

ghost use Rattle.std.specs.Prelude.{◌≡◌};
ghost use Rattle.cqlp_cell.specs.Items.{CanLend, event_at, event_of};
ghost use Rattle.cqlp_cell.specs.Reading.{is_bare};

use crate::gather::lend_bytes;
use crate::item::CellItem;
use cqlp_kind::Kind;
use cqlp_kind::content::make_scalar;
use cqlp_note::{FieldOutline, Partial, Refusal};
use std::alloc::Allocator;

/// A part of a cell, or where its content lies.
#[derive(Clone, Copy)]
pub enum CellOutline {
    /// A scalar, whose content lies there.
    Leaf {
        level: u32,
        kind: Kind,
        content: FieldOutline,
    },
    /// A value of a negative length.
    Null {
        level: u32,
    },
    /// A value of no bytes.
    Empty {
        level: u32,
    },
    /// The beginning of a value with items.
    Enter {
        level: u32,
        kind: Kind,
        items: u32,
    },
    /// The end of such a value.
    Leave {
        level: u32,
        items: u32,
    },
    /// Bytes of a long scalar, which lie there.
    Part {
        level: u32,
        offset: u32,
        content: FieldOutline,
        last: bool,
    },
}

/// What a piece of input made of a cell, with nothing borrowed.
#[derive(Clone, Copy)]
pub enum CellAdvance {
    /// All of it was used, and the cell goes on.
    More {
        used: usize,
    },
    /// This many of its bytes end a part, which began at this offset.
    Item {
        at: u64,
        used: usize,
        item: CellOutline,
    },
    /// The cell is whole. No byte was used.
    Done,
    /// The cell ends, since it is refused.
    Refused(Refusal),
}

impl CellAdvance {
    /// Whether it is an item without a content, or a refusal.
    #[inline]
    pub(crate) fn is_bare(&self) -> bool
        ensures { result ≡ is_bare self.now }
    {
        match self {
            CellAdvance::More { .. } | CellAdvance::Done => false,
            CellAdvance::Refused(_) => true,
            CellAdvance::Item { item, .. } => {
                !matches!(item, CellOutline::Leaf { .. } | CellOutline::Part { .. })
            }
        }
    }
}

impl CellOutline {
    /// The part, with its content lent from where it lies.
    #[inline]
    pub fn lend<'a, A: Allocator>(self, partial: &'a Partial<A>, input: &'a [u8]) -> CellItem<'a>
        requires { CanLend self input.now partial.now.content }
        ensures { event_of result ≡ event_at self input.now partial.now.content }
    {
        match self {
            CellOutline::Leaf {
                level,
                kind,
                content,
            } => CellItem::Leaf {
                level,
                scalar: make_scalar(kind, lend_bytes(partial, input, content)),
            },
            CellOutline::Null { level } => CellItem::Null { level },
            CellOutline::Empty { level } => CellItem::Empty { level },
            CellOutline::Enter { level, kind, items } => CellItem::Enter { level, kind, items },
            CellOutline::Leave { level, items } => CellItem::Leave { level, items },
            CellOutline::Part {
                level,
                offset,
                content,
                last,
            } => CellItem::Part {
                level,
                offset,
                bytes: lend_bytes(partial, input, content),
                last,
            },
        }
    }
}
