//! A value, written.

ghost use Rattle.std.specs.Int.{w32, to_be_bytes};
ghost use Rattle.std.specs.Prelude.{◌≡◌, ◌≤◌, ◌-◌, ◌++◌, length, option_map};
ghost use Rattle.cqlp_note.specs.declared.header.TheConstants.Header.{LONGEST_BODY};
ghost use Rattle.cqlp_note.specs.Outputs.{Offered, written};
ghost use Rattle.cqlp_value.specs.Owned.{atom_of, value_of};
ghost use Rattle.cqlp_value.specs.Values.{NoValue, Scalar_and, values_bytes, values_size};
ghost use Rattle.cqlp_encode.specs.Binding.{content_written};
ghost use Rattle.cqlp_encode.specs.Encoding.{Continued};
ghost use Rattle.cqlp_encode.specs.Laws.{value_taken};
ghost use Rattle.cqlp_encode.specs.Progress.{FewCalls};
ghost use Rattle.cqlp_encode.specs.ValueWriting.{WritesValue};

use crate::staged::{Staged, offer_after};
use crate::values::{put_atom, put_inside, put_measured};
use cqlp_note::{Header, Target};
use cqlp_type::TypeTree;
use cqlp_value::{Atom, Content, Value, fitting_size};
use thiserror::Error;

/// Why a value was not written, or not whole.
#[derive(Clone, Copy, Debug, PartialEq, Eq, Error)]
pub enum ValueError {
    /// The value is none of the type, and nothing was written.
    #[error("the value is none of its type")]
    Unfit,
    /// The value would have more than 268,435,456 bytes, which no body of a frame has, and nothing was written.
    #[error("the value is longer than a frame can be")]
    TooLong,
    /// The target failed, or took nothing, after the value's first bytes, this many.
    #[error("the target failed after {written} bytes of the value")]
    Write {
        /// How many bytes of the value are written, from its length on.
        written: u32,
    },
}

/// Writes a value of this type, or of a cell without a type, as a \[bytes\] with its length, and answers how many bytes it has,
/// the four of the length counted. Sections 3 and 6 of `native_protocol_v4.spec`. Each null has the length -1, and each true is 01.
///
/// It takes no memory. A number goes to the target with its length, by one call, and any other scalar but a decimal by two, of which the first is
/// for its length: in front of a target whose calls cost much, as a socket, have a buffer. The parts of a collection, a tuple or a
/// user-defined value go together, at most 512 bytes at a time, and a longer content by a call of its own.
///
/// # Errors
///
/// In this order: [`ValueError::Unfit`] where [`fits`](cqlp_value::fits) says that the value is none of the type, and [`ValueError::TooLong`],
/// before anything is written; [`ValueError::Write`] at the first call of the target that fails or takes nothing.
pub fn write_value<W: Target>(
    value: &Value,
    of: Option<&TypeTree>,
    target: &mut W,
) -> Result<u32, ValueError>
    ensures writes { WritesValue value.now (option_map (λ t. t.now) of.entry) (written W.Target target.old) result
        (written W.Target target.new) }
    ensures calls { FewCalls (value_taken result) (W.writes target.old) (W.writes target.new) }
{
    let size = match fitting_size(value, of) {
        Some(size) => size,
        None => return Err(ValueError::Unfit),
    };
    if size > u64::from(Header::LONGEST_BODY) {
        return Err(ValueError::TooLong);
    }
    let len = size as u32;
    let taken = offer_value(value, len, 0, target);
    if taken < len {
        Err(ValueError::Write { written: taken })
    } else {
        Ok(len)
    }
}

/// Writes a value with its length, of `size` bytes in all, but for its first bytes, `before` many, and answers how many of its bytes
/// the target took or had from before.
#[inline(always)]
pub fn offer_value<W: Target>(value: &Value, size: u32, before: u32, target: &mut W) -> u32
    requires size { size ≡ values_size (value_of value.now) }
    requires short { size ≤ LONGEST_BODY }
    ensures continued { Continued before (written W.Target target.old) (values_bytes (value_of value.now)) result (written W.Target target.new) }
    ensures calls { FewCalls (result - before) (W.writes target.old) (W.writes target.new) }
{
    match value {
        Value::Leaf(atom) => {
            if before == 0 {
                offer_atom(atom, target)
            } else {
                offer_any(value, size, before, target)
            }
        }
        _ => offer_any(value, size, before, target),
    }
}

/// The same of a scalar.
#[inline(always)]
fn offer_atom<W: Target>(atom: &Atom, target: &mut W) -> u32
    requires { values_size (Scalar_and (atom_of atom.now) NoValue) ≤ LONGEST_BODY }
    ensures continued { Continued 0 (written W.Target target.old) (values_bytes (Scalar_and (atom_of atom.now) NoValue)) result
        (written W.Target target.new) }
    ensures calls { FewCalls result (W.writes target.old) (W.writes target.new) }
{
    match atom.content() {
        Content::One(number) => offer_number(&[number], target),
        Content::Two(number) => offer_number(&number.to_be_bytes(), target),
        Content::Four(number) => offer_number(&number.to_be_bytes(), target),
        Content::Eight(number) => offer_number(&number.to_be_bytes(), target),
        Content::Lent(bytes) => offer_lent(bytes, target),
        Content::Decimal(_, _) => offer_decimal(atom, target),
    }
}

/// The same of the bytes of a number, which are at most eight.
#[inline(always)]
pub fn offer_number<W: Target>(content: &[u8], target: &mut W) -> u32
    requires { length content.now ≤ 8 }
    ensures continued { Continued 0 (written W.Target target.old) (to_be_bytes w32 (length content.now) ++ content.now) result
        (written W.Target target.new) }
    ensures calls { FewCalls result (W.writes target.old) (W.writes target.new) }
{
    let mut bytes = [0; 12];
    let end = content.len() + 4;
    bytes[..4].copy_from_slice(&content.len().to_be_bytes()[4..]);
    bytes[4..end].copy_from_slice(content);
    offer_after(target, 0, &bytes[..end]) as u32
}

/// The same of a content that is lent, which is not copied on its way: its length is offered first, by a call of its own.
#[inline(always)]
pub fn offer_lent<W: Target>(content: &[u8], target: &mut W) -> u32
    requires { length content.now ≤ LONGEST_BODY }
    ensures continued { Continued 0 (written W.Target target.old) (to_be_bytes w32 (length content.now) ++ content.now) result
        (written W.Target target.new) }
    ensures calls { FewCalls result (W.writes target.old) (W.writes target.new) }
{
    let len = (content.len() as u32).to_be_bytes();
    let taken = offer_after(target, 0, &len);
    if taken < 4 {
        return taken as u32;
    }
    (4 + offer_after(target, 0, content)) as u32
}

/// The same of a decimal.
#[inline(never)]
pub fn offer_decimal<W: Target>(atom: &Atom, target: &mut W) -> u32
    requires { values_size (Scalar_and (atom_of atom.now) NoValue) ≤ LONGEST_BODY }
    ensures continued { Continued 0 (written W.Target target.old) (values_bytes (Scalar_and (atom_of atom.now) NoValue)) result
        (written W.Target target.new) }
    ensures calls { FewCalls result (W.writes target.old) (W.writes target.new) }
{
    let mut out = Staged::new(target, 0);
    put_atom(&mut out, atom);
    out.flush();
    let taken = out.taken();
    let _ = out.into_inner();
    taken as u32
}

/// The same of any value, of which the target may have the first bytes.
#[inline(never)]
fn offer_any<W: Target>(value: &Value, size: u32, before: u32, target: &mut W) -> u32
    requires size { size ≡ values_size (value_of value.now) }
    requires short { size ≤ LONGEST_BODY }
    ensures continued { Continued before (written W.Target target.old) (values_bytes (value_of value.now)) result (written W.Target target.new) }
    ensures calls { FewCalls (result - before) (W.writes target.old) (W.writes target.new) }
{
    let mut out = Staged::new(target, u64::from(before));
    put_measured(&mut out, value, u64::from(size) - 4);
    out.flush();
    let taken = out.taken();
    let _ = out.into_inner();
    taken as u32
}

/// Writes what follows a value's length, and answers how many bytes of it the target took.
pub fn offer_content<W: Target>(value: &Value, target: &mut W) -> u32
    requires { values_size (value_of value.now) ≤ LONGEST_BODY }
    ensures { Offered (written W.Target target.old) (content_written (value_of value.now)) result (written W.Target target.new) }
{
    let mut out = Staged::new(target, 0);
    put_inside(&mut out, value);
    out.flush();
    let taken = out.taken();
    let _ = out.into_inner();
    taken as u32
}
