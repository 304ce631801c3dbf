//! What is at the front of the bytes of a container.

ghost use Rattle.std.specs.Prelude.{◌≡◌, ◌+◌, ◌<◌, ◌≤◌, ◌^◌, drop, length, take};
ghost use Rattle.std.specs.Int.{w32};
ghost use Rattle.cqlp_note.specs.Limits.{Rules};
ghost use Rattle.cqlp_note.specs.Spelling.{IsNumber};
ghost use Rattle.cqlp_read_value.specs.declared.error.ReadError.TheVariants.{Refused};
ghost use Rattle.cqlp_read_value.specs.Fronts.{Counts, Holds};

use crate::error::ReadError;
use cqlp_kind::content::read_array;
use cqlp_note::{Reason, Refusal};
use cqlp_value::Value;

/// A value, and how many bytes it has with its length.
#[derive(Drop)]
pub(crate) struct Front {
    pub value: Value,
    pub used: usize,
}

/// The content of the \[bytes\] at the front of those left in a container, which begin at this offset; None where it is null.
pub(crate) fn front_content(bytes: &[u8], at: usize) -> Result<Option<&[u8]>, ReadError>
    requires { at + length bytes.now < 2 ^ 64 }
    ensures { (l : Rules) → Holds l at bytes.now result }
{
    if bytes.len() < 4 {
        return Err(refused(at, Reason::Overrun));
    }
    let len = front_number(bytes);
    if len > i32::MAX as u32 {
        return Ok(None);
    }
    if bytes.len() - 4 < len as usize {
        return Err(refused(at, Reason::Overrun));
    }
    Ok(Some(&bytes[4..4 + len as usize]))
}

/// The count at the front of the content of a list, a set or a map, whose value begins at this offset.
pub(crate) fn front_count(content: &[u8], at: usize) -> Result<u32, ReadError>
    requires { at + 4 + length content.now < 2 ^ 64 }
    ensures { (l : Rules) → Counts l at content.now result }
{
    if content.len() < 4 {
        return Err(refused(at + 4, Reason::Overrun));
    }
    let count = front_number(content);
    if count > i32::MAX as u32 {
        return Err(refused(at + 4, Reason::BadCount));
    }
    Ok(count)
}

/// The number that the first four bytes are.
#[inline(always)]
pub(crate) fn front_number(bytes: &[u8]) -> u32
    requires { 4 ≤ length bytes.now }
    ensures { IsNumber 4 w32 result (take 4 bytes.now) }
{
    u32::from_be_bytes(read_array(bytes))
}

/// The bytes after the first, this many.
pub(crate) fn rest(bytes: &[u8], used: usize) -> &[u8]
    requires { used ≤ length bytes.now }
    ensures { result.now ≡ drop used bytes.now }
{
    &bytes[used..]
}

/// Bytes that are refused at this offset.
pub(crate) fn refused(at: usize, why: Reason) -> ReadError
    ensures { result ≡ Refused (record { at = at; why = why }) }
{
    ReadError::Refused(Refusal { at: at as u64, why })
}
