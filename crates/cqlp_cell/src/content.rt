//! As which kind a content is read.

ghost use Rattle.std.specs.Prelude.{◌≡◌, ◌&&◌, true, length, is_some};
ghost use Rattle.cqlp_kind.specs.Types.{has_no_items};
ghost use Rattle.cqlp_kind.specs.Scalars.{allows_size, scalar_of, size_or_lenient};
ghost use Rattle.cqlp_cell.specs.Contents.{IsReadAs};

use cqlp_kind::Kind;
use cqlp_kind::content::{accepts, allows};

/// The kind as which a content of a scalar type is read, whose length is taken: that of its type, where the type has it; else
/// that of a type which is not known, where the caller is lenient.
#[tactic(auto, using(crate::proofs::Contents::as_its_kind, crate::proofs::Contents::as_raw, crate::proofs::Contents::as_none))]
#[inline]
pub(crate) fn kind_read(lenient: bool, kind: Kind, bytes: &[u8]) -> Option<Kind>
    requires scalar { has_no_items kind ≡ true }
    requires size { size_or_lenient lenient kind (length bytes.now) ≡ true }
    ensures { IsReadAs lenient kind bytes.now result }
{
    if is_of(kind, bytes) {
        Some(kind)
    } else if lenient {
        Some(Kind::Raw)
    } else {
        None
    }
}

/// Whether a content is a scalar of this kind.
#[inline]
fn is_of(kind: Kind, bytes: &[u8]) -> bool
    requires { has_no_items kind ≡ true }
    ensures { result ≡ (allows_size kind (length bytes.now) && is_some (scalar_of kind bytes.now)) }
{
    allows(kind, bytes.len()) && accepts(kind, bytes)
}
