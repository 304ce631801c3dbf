//! The scalar that is written of a value's bytes.

ghost use Rattle.std.specs.Prelude.{◌≡◌};
ghost use Rattle.cqlp_kind.specs.Contents.{value_in, value_of};
ghost use Rattle.cqlp_bound_values.specs.Texts.{front_scalar, scalar_or_raw, shown_scalar, whole_scalar};

use crate::field::text_front;
use cqlp_kind::{Kind, Scalar, scalar};
use cqlp_note::Reason;

/// The scalar of these bytes, of all of a value or of its front.
pub(crate) fn shown_scalar(kind: Kind, bytes: &[u8], is_whole: bool) -> Scalar<'_>
    ensures { value_of result ≡ shown_scalar kind bytes.now is_whole }
{
    if is_whole {
        whole_scalar(kind, bytes)
    } else {
        front_scalar(kind, bytes)
    }
}

/// The scalar of this kind that these bytes spell, and else the bytes.
fn whole_scalar(kind: Kind, bytes: &[u8]) -> Scalar<'_>
    ensures { value_of result ≡ whole_scalar kind bytes.now }
{
    if kind.is_scalar() {
        scalar_or_raw(scalar(kind, bytes), bytes)
    } else {
        Scalar::Raw(bytes)
    }
}

fn scalar_or_raw<'a>(read: Result<Scalar<'a>, Reason>, bytes: &'a [u8]) -> Scalar<'a>
    ensures { value_of result ≡ scalar_or_raw (value_in read.entry) bytes.now }
{
    match read {
        Ok(scalar) => scalar,
        Err(_) => Scalar::Raw(bytes),
    }
}

/// Of the front of a text as much as is UTF-8, and of any other value the bytes.
fn front_scalar(kind: Kind, bytes: &[u8]) -> Scalar<'_>
    ensures { value_of result ≡ front_scalar kind bytes.now }
{
    match kind {
        Kind::Ascii | Kind::Varchar => Scalar::Varchar(text_front(bytes)),
        _ => Scalar::Raw(bytes),
    }
}
