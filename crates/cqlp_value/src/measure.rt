//! How many bytes spell a value.

ghost use Rattle.std.specs.Prelude.{◌≡◌, ◌+◌, ◌-◌, ◌^◌, length, min, option_map};
ghost use Rattle.cqlp_type.specs.TypeTrees.{len_if};
ghost use Rattle.cqlp_value.specs.Measures.{listed_pairs, listed_values};
ghost use Rattle.cqlp_value.specs.Owned.{atom_of, fits_type, spelled_value_len, value_of};
ghost use Rattle.cqlp_kind.specs.Scalars.{content_of};
ghost use Rattle.cqlp_value.specs.Values.{AreInRange, values_size};

use crate::fitting::fits;
use crate::value::{Atom, Value};
use cqlp_note::Header;
use cqlp_type::TypeTree;

/// The longest value, which is also the longest body of a frame.
const LONGEST: u64 = Header::LONGEST_BODY as u64;

/// How many bytes spell a value of this type, or of a cell without a type: those of its \[bytes\], with the four of the
/// length. None where the value does not fit the type, as [`fits`] says, and where that is more than 268,435,456.
#[must_use]
pub fn value_len(value: &Value, of: Option<&TypeTree>) -> Option<u32>
    ensures { result ≡ spelled_value_len value.now (option_map (λ t. t.now) of.entry) }
{
    let size = value_size(value);
    if size > LONGEST {
        return None;
    }
    if fits(value, of) {
        Some(size as u32)
    } else {
        None
    }
}

/// How many bytes of a value follow its length; 2^64 - 5 where there are more.
#[must_use]
pub fn content_len(value: &Value) -> u64
    ensures { 4 + result ≡ min (values_size (value_of value.now)) (2 ^ 64 - 1) }
{
    value_size(value) - 4
}

/// How many bytes spell a value, the four of its length counted; 2^64 - 1 where there are more. What its scalars hold is
/// in the range of their types.
#[must_use]
#[inline(always)]
#[cycle(value_size)]
pub fn value_size(value: &Value) -> u64
    ensures size { result ≡ min (values_size (value_of value.now)) (2 ^ 64 - 1) }
    ensures range { AreInRange (value_of value.now) }
{
    match value {
        Value::Leaf(atom) => atom.size(),
        _ => any_size(value),
    }
}

/// The same of a value that is mostly no scalar.
#[cycle(value_size)]
fn any_size(value: &Value) -> u64
    ensures size { result ≡ min (values_size (value_of value.now)) (2 ^ 64 - 1) }
    ensures range { AreInRange (value_of value.now) }
{
    match value {
        Value::Null => 4,
        Value::Empty => 4,
        Value::Leaf(atom) => atom.size(),
        Value::List(items) => items_size(items).saturating_add(8),
        Value::Set(items) => items_size(items).saturating_add(8),
        Value::Map(pairs) => pairs_size(pairs).saturating_add(8),
        Value::Tuple(items) => items_size(items).saturating_add(4),
        Value::Udt(items) => items_size(items).saturating_add(4),
    }
}

/// The same of values side by side.
#[cycle(value_size)]
fn items_size(items: &[Value]) -> u64
    ensures size { result ≡ min (values_size (listed_values items.now)) (2 ^ 64 - 1) }
    ensures range { AreInRange (listed_values items.now) }
{
    let mut size: u64 = 0;
    for item in items {
        size = size.saturating_add(value_size(item));
    }
    size
}

/// The same of pairs.
#[cycle(value_size)]
fn pairs_size(pairs: &[(Value, Value)]) -> u64
    ensures size { result ≡ min (values_size (listed_pairs pairs.now)) (2 ^ 64 - 1) }
    ensures range { AreInRange (listed_pairs pairs.now) }
{
    let mut size: u64 = 0;
    for (key, value) in pairs {
        size = size.saturating_add(value_size(key));
        size = size.saturating_add(value_size(value));
    }
    size
}
