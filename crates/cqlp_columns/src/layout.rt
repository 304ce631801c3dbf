//! How the values of a column lie in memory.

ghost use Rattle.std.specs.Prelude.{◌≡◌};
ghost use Rattle.cqlp_columns.specs.Layouts.{layout_of};

use cqlp_kind::Kind;

/// How the values of a column lie in memory. Each row has a place, also one without a value.
#[derive(Clone, Copy, Debug, PartialEq, Eq)]
pub enum Layout {
    /// A bit each, eight in a byte, the first of them the least: booleans.
    Bits,
    /// So many bytes each. Numbers have their lowest byte first; a uuid has its 16 bytes in their order.
    Fixed(u8),
    /// As many bytes as each has, one after the other, as section 6 of `native_protocol_v4.spec` spells them. Offsets say where they begin and end.
    Variable,
}

/// How the values of a column of this kind lie in memory, if they are scalars.
#[must_use]
#[inline(always)]
pub fn layout_of(kind: Kind) -> Option<Layout>
    ensures { result ≡ layout_of kind }
{
    match kind {
        Kind::Boolean => Some(Layout::Bits),
        Kind::Tinyint => Some(Layout::Fixed(1)),
        Kind::Smallint => Some(Layout::Fixed(2)),
        Kind::Int | Kind::Date | Kind::Float => Some(Layout::Fixed(4)),
        Kind::Bigint | Kind::Counter | Kind::Timestamp | Kind::Time | Kind::Double => {
            Some(Layout::Fixed(8))
        }
        Kind::Uuid | Kind::Timeuuid => Some(Layout::Fixed(16)),
        Kind::Custom
        | Kind::Ascii
        | Kind::Blob
        | Kind::Decimal
        | Kind::Varchar
        | Kind::Varint
        | Kind::Inet
        | Kind::Raw => Some(Layout::Variable),
        Kind::List | Kind::Map | Kind::Set | Kind::Udt | Kind::Tuple => None,
    }
}
