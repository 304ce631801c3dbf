//! Values of cells, written.

ghost use Rattle.std.specs.Prelude.{◌≡◌, ◌+◌, ◌-◌, ◌++◌, ◌^◌, length, min};
ghost use Rattle.std.specs.Int.{w32, to_be_bytes};
ghost use Rattle.cqlp_value.specs.Measures.{listed_pairs, listed_values};
ghost use Rattle.cqlp_value.specs.Owned.{atom_of, value_and, value_of};
ghost use Rattle.cqlp_kind.specs.Scalars.{content_of};
ghost use Rattle.cqlp_value.specs.Values.{Scalar_and, NoValue, values_bytes, values_size};
ghost use Rattle.cqlp_encode.specs.Binding.{content_written};
ghost use Rattle.cqlp_encode.specs.Progress.{Puts, PutsWithin};

use crate::kept_values::keep_whole;
use crate::staged::Staged;
use cqlp_note::Target;
use cqlp_value::{Atom, Content, Value, content_len};

/// Takes a value with its length.
#[inline(always)]
#[cycle(put_value)]
pub fn put_value<W: Target>(out: &mut Staged<'_, W>, value: &Value)
    ensures { PutsWithin (values_size (value_of value.now)) out.old (values_bytes (value_of value.now)) out.new }
{
    match value {
        Value::Leaf(atom) => put_atom(out, atom),
        _ => put_nested(out, value),
    }
}

/// The same of a value that is no scalar. It goes as a whole where it has room among the bytes that wait, and is measured only where it
/// has more than 256 bytes. Where no more than that wait they are not passed on for it.
#[cycle(put_value)]
fn put_nested<W: Target>(out: &mut Staged<'_, W>, value: &Value)
    ensures { PutsWithin (values_size (value_of value.now)) out.old (values_bytes (value_of value.now)) out.new }
{
    if keep_whole(out, value) {
        return;
    }
    if out.waiting() <= 256 {
        return put_measured(out, value, content_len(value));
    }
    out.flush();
    if !keep_whole(out, value) {
        put_measured(out, value, content_len(value));
    }
}

/// The same of a value whose content has this many bytes, of which a null has none.
#[cycle(put_value)]
pub fn put_measured<W: Target>(out: &mut Staged<'_, W>, value: &Value, content: u64)
    requires { 4 + content ≡ min (values_size (value_of value.now)) (2 ^ 64 - 1) }
    ensures { PutsWithin (values_size (value_of value.now)) out.old (values_bytes (value_of value.now)) out.new }
{
    match value {
        Value::Null => out.put_int(-1),
        Value::Leaf(atom) => put_atom(out, atom),
        _ => {
            out.put_count32(content as usize);
            put_inside(out, value);
        }
    }
}

/// Takes what follows a value's length.
#[cycle(put_value)]
pub fn put_inside<W: Target>(out: &mut Staged<'_, W>, value: &Value)
    ensures { PutsWithin (values_size (value_of value.now)) out.old (content_written (value_of value.now)) out.new }
{
    match value {
        Value::Null => {}
        Value::Empty => {}
        Value::Leaf(atom) => put_scalar(out, atom),
        Value::List(items) => {
            out.put_count32(items.len());
            put_values(out, items);
        }
        Value::Set(items) => {
            out.put_count32(items.len());
            put_values(out, items);
        }
        Value::Map(pairs) => {
            out.put_count32(pairs.len());
            put_pairs(out, pairs);
        }
        Value::Tuple(items) => put_values(out, items),
        Value::Udt(items) => put_values(out, items),
    }
}

/// Takes values, each with its length.
#[cycle(put_value)]
fn put_values<W: Target>(out: &mut Staged<'_, W>, values: &[Value])
    ensures { PutsWithin (values_size (listed_values values.now)) out.old (values_bytes (listed_values values.now)) out.new }
{
    for value in values {
        put_value(out, value);
    }
}

/// Takes pairs, of each the key and the value with their lengths.
#[cycle(put_value)]
fn put_pairs<W: Target>(out: &mut Staged<'_, W>, pairs: &[(Value, Value)])
    ensures { PutsWithin (values_size (listed_pairs pairs.now)) out.old (values_bytes (listed_pairs pairs.now)) out.new }
{
    for (key, value) in pairs {
        put_value(out, key);
        put_value(out, value);
    }
}

/// Takes a scalar with its length.
#[inline(always)]
pub fn put_atom<W: Target>(out: &mut Staged<'_, W>, atom: &Atom)
    ensures { let v = Scalar_and (atom_of atom.now) NoValue in PutsWithin (values_size v) out.old (values_bytes v) out.new }
{
    match atom.content() {
        Content::One(number) => out.put_number(&[number]),
        Content::Two(number) => out.put_number(&number.to_be_bytes()),
        Content::Four(number) => out.put_number(&number.to_be_bytes()),
        Content::Eight(number) => out.put_number(&number.to_be_bytes()),
        Content::Lent(bytes) => out.put_content(bytes),
        Content::Decimal(scale, unscaled) => put_decimal(out, scale, unscaled),
    }
}

/// Takes the content of a decimal after its length.
fn put_decimal<W: Target>(out: &mut Staged<'_, W>, scale: [u8; 4], unscaled: &[u8])
    ensures { Puts out.old (to_be_bytes w32 (length (scale ++ unscaled.now)) ++ (scale ++ unscaled.now)) out.new }
{
    out.put_count32(unscaled.len().saturating_add(scale.len()));
    out.put(&scale);
    out.put(unscaled);
}

/// Takes the content of a scalar.
fn put_scalar<W: Target>(out: &mut Staged<'_, W>, atom: &Atom)
    ensures { Puts out.old (content_of (atom_of atom.now)) out.new }
{
    match atom.content() {
        Content::One(number) => out.put(&[number]),
        Content::Two(number) => out.put(&number.to_be_bytes()),
        Content::Four(number) => out.put(&number.to_be_bytes()),
        Content::Eight(number) => out.put(&number.to_be_bytes()),
        Content::Lent(bytes) => out.put(bytes),
        Content::Decimal(scale, unscaled) => {
            out.put(&scale);
            out.put(unscaled);
        }
    }
}
