//! What a piece of input makes of a type option, with nothing borrowed.

ghost use Rattle.std.specs.Prelude.{◌≡◌};

use crate::item::TypeItem;
use cqlp_kind::Kind;
use cqlp_note::{Field, FieldOutline, Partial, Prim, Refusal};
use std::alloc::Allocator;

/// A part of a type option, or where its text lies.
#[derive(Clone, Copy)]
pub enum TypeOutline {
    Node(Kind),
    Text(Field, FieldOutline),
    Count(u32),
}

/// What a piece of input made of a type option, with nothing borrowed.
#[derive(Clone, Copy)]
pub enum TypeAdvance {
    /// All of it was used, and the option goes on.
    More {
        used: usize,
    },
    /// This many of its bytes end a part, which began at this offset.
    Item {
        at: u64,
        used: usize,
        item: TypeOutline,
    },
    /// The option is whole. No byte was used.
    Done,
    /// The option ends, since it is refused.
    Refused(Refusal),
}

impl TypeOutline {
    ghost use Rattle.cqlp_type.specs.Progress.{CanLendPart};
    ghost use Rattle.cqlp_type.specs.Remaining.{event_at};
    ghost use Rattle.cqlp_type.specs.Pushing.{event_of};

    /// The part, with its text lent from where it lies.
    pub fn lend<'a, B: Allocator>(self, partial: &'a Partial<B>, input: &'a [u8]) -> TypeItem<'a>
        requires { CanLendPart self input.now partial.now.content }
        ensures { event_of result ≡ event_at self input.now partial.now.content }
    {
        match self {
            TypeOutline::Node(kind) => TypeItem::Node(kind),
            TypeOutline::Count(count) => TypeItem::Count(count),
            TypeOutline::Text(field, item) => match partial.lend(input, item) {
                Prim::Text(text) => TypeItem::Text(field, text),
                _ => unreachable!(),
            },
        }
    }
}
