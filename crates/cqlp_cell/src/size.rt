//! What the length of a value says.

ghost use Rattle.std.specs.Prelude.{◌≡◌, true};
ghost use Rattle.cqlp_note.specs.Limits.{rules_asked};
ghost use Rattle.cqlp_kind.specs.Types.{has_no_items};
ghost use Rattle.cqlp_kind.specs.Scalars.{size_or_lenient};
ghost use Rattle.cqlp_kind.specs.CellStep.{is_opaque as has_parts};
ghost use Rattle.cqlp_cell.specs.Sizes.{IsContent, IsSized};

use cqlp_kind::Kind;
use cqlp_kind::content::allows;
use cqlp_note::{Asked, Reason};

/// What a value is by its length.
#[derive(Clone, Copy)]
pub(crate) enum Sized {
    Null,
    Empty,
    /// A scalar of this many bytes.
    Scalar(u32),
    /// A scalar of this many bytes that comes in parts.
    Parts(u32),
    /// A list, a set or a map of this many bytes.
    Counted(u32),
    /// A tuple or a user-defined type of this many bytes.
    Fields(u32),
    Refused(Reason),
}

/// What a value of this kind is by the four bytes of its length, in a container with room for this many bytes from
/// there on.
#[tactic(auto, using(crate::proofs::Sizing::null_is, crate::proofs::Sizing::empty_is, crate::proofs::Sizing::overrun_is, crate::proofs::Sizing::fitting_is))]
#[inline]
pub(crate) fn size_up(limits: &Asked, kind: Kind, room: u64, len: u32) -> Sized
    ensures { IsSized (rules_asked limits.now) kind room len result }
{
    if len > i32::MAX as u32 {
        Sized::Null
    } else if len == 0 {
        Sized::Empty
    } else if room < 4 + u64::from(len) {
        Sized::Refused(Reason::Overrun)
    } else {
        size_content(limits, kind, len)
    }
}

/// The same of a value that has bytes, and room for them.
#[tactic(auto, using(crate::proofs::Sizing::counted_content, crate::proofs::Sizing::udt_content, crate::proofs::Sizing::tuple_content))]
#[inline]
fn size_content(limits: &Asked, kind: Kind, len: u32) -> Sized
    ensures { IsContent (rules_asked limits.now) kind len result }
{
    match kind {
        Kind::List | Kind::Set | Kind::Map => Sized::Counted(len),
        Kind::Udt | Kind::Tuple => Sized::Fields(len),
        _ => size_scalar(limits, kind, len),
    }
}

/// The same of a scalar.
#[tactic(auto, using(crate::proofs::Sizing::bad_size, crate::proofs::Sizing::short_is, crate::proofs::Sizing::long_is, crate::proofs::Sizing::too_long))]
#[inline]
fn size_scalar(limits: &Asked, kind: Kind, len: u32) -> Sized
    requires { has_no_items kind ≡ true }
    ensures { IsContent (rules_asked limits.now) kind len result }
{
    if !takes(limits.lenient, kind, len) {
        Sized::Refused(Reason::BadSize)
    } else if len <= limits.cell {
        Sized::Scalar(len)
    } else if limits.parts && is_opaque(kind) {
        Sized::Parts(len)
    } else {
        Sized::Refused(Reason::TooLong)
    }
}

/// Whether a content of this many bytes, which are not none, is read on: the type allows so many, or the caller is lenient.
#[inline]
fn takes(lenient: bool, kind: Kind, len: u32) -> bool
    ensures { result ≡ size_or_lenient lenient kind len }
{
    lenient || allows(kind, len as usize)
}

/// Whether a scalar of this kind comes in parts where it is long.
#[inline]
fn is_opaque(kind: Kind) -> bool
    ensures { result ≡ has_parts kind }
{
    matches!(kind, Kind::Blob | Kind::Custom | Kind::Raw)
}
