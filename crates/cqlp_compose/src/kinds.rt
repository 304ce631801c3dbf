//! The kinds of a page's columns.

ghost use Rattle.std.specs.Prelude.{◌≡◌, get_or};
ghost use Rattle.cqlp_kind.specs.declared.kind.Kind.TheVariants.{Raw};
ghost use Rattle.cqlp_compose.specs.Bare.{AnswersKindsOf};

use crate::error::KindsError;
use crate::single::plain_kind;
use cqlp_kind::Kind;
use cqlp_message::Spec;
use std::alloc::Global;

/// The kinds of these columns, in their order.
pub(crate) fn kinds_of(alloc: Global, specs: &[Spec]) -> Result<Vec<Kind>, KindsError>
    ensures { AnswersKindsOf specs.now result }
{
    let Ok(mut kinds) = Vec::with_capacity(alloc, specs.len()) else {
        return Err(KindsError::NoMemory);
    };
    for spec in specs {
        match plain_kind(Some(&spec.tree)) {
            Some(kind) => kinds.push_reserved(kind),
            None => return Err(KindsError::Nested),
        }
    }
    Ok(kinds)
}

/// The kind of a column, which is raw where none is known.
#[inline(always)]
pub(crate) fn kind_in(kinds: &[Kind], column: usize) -> Kind
    ensures { result ≡ get_or kinds.now column Raw }
{
    match kinds.get(column) {
        Some(kind) => *kind,
        None => Kind::Raw,
    }
}
