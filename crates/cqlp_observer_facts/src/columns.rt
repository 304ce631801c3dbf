//! Columns of a page's metadata, each with its name and type. Section 4.2.5.2 of `native_protocol_v4.spec`.

ghost use Rattle.std.specs.Prelude.{◌≡◌, IfSome};
ghost use Rattle.cqlp_observer_facts.specs.Columns.{IsColumnOf, IsPlainColumn, is_before_column, is_plain_of_column, next_column};

use crate::due::Due;
use crate::numbers::short;
use crate::rows::{RowsField, is_plain};
use crate::types::Types;

/// How many bytes the column has whose name this field is, if it lies whole in these bytes, its type is plain and one more column comes after it.
#[inline(always)]
pub(crate) fn plain_column_of(field: &RowsField, bytes: &[u8]) -> Option<usize>
    ensures { IfSome result (λ used. IsColumnOf field.now bytes.now used (next_column (Due.Rows field.now))) }
{
    match field {
        RowsField::Name { more, types } => {
            if is_before_column(*more, types) {
                plain_column_in(bytes)
            } else {
                None
            }
        }
        _ => None,
    }
}

/// Whether so many more names before a type are none, and after the type comes one more column, whose name has no keyspace and table before it.
#[inline(always)]
fn is_before_column(more: u16, types: &Types) -> bool
    ensures { result ≡ is_before_column more types.now }
{
    more == 0 && types.first.types == 1 && types.first.fields > 0 && !types.first.qualified
}

/// How many bytes the name has that these begin with, and the id of a type after it, if both lie whole in them and the type is plain.
#[inline(always)]
fn plain_column_in(bytes: &[u8]) -> Option<usize>
    ensures { IfSome result (λ used. IsPlainColumn bytes.now used) }
{
    if bytes.len() < 2 {
        return None;
    }
    let name_end = 2 + short(bytes) as usize;
    if bytes.len() - 2 < name_end || !is_plain_of_column(short(&bytes[name_end..])) {
        return None;
    }
    Some(name_end + 2)
}

/// Whether nothing follows the id of such a type; a custom one has a name.
#[inline(always)]
fn is_plain_of_column(id: u16) -> bool
    ensures { result ≡ is_plain_of_column id }
{
    id > 0 && is_plain(id)
}
