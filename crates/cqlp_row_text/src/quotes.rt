//! Texts in quotes, where a quote is doubled.

ghost use Rattle.std.specs.Prelude.{◌≡◌, ◌+◌, ◌<◌, ◌≤◌, ◌==◌, ◌∷◌, ℕ, [], false, length, slice_index, IsTrue};
ghost use Rattle.cqlp_text.specs.Written.{Writes};
ghost use Rattle.cqlp_row_text.specs.Quotes.{doubled, is_mark, text_field, text_item};

use cqlp_grammar::SinkFault;
use cqlp_text::{Pen, TextWriter};
use std::simd::prelude::*;

/// How many bytes are looked at at once.
const BLOCK: usize = 16;

/// Takes a text as a field.
pub(crate) fn put_text_field<P: Pen>(
    text: &str,
    writer: &mut TextWriter<P>,
) -> Result<(), SinkFault>
    ensures { Writes writer.old (text_field text.now) result writer.new }
{
    writer.put(b"\"")?;
    put_doubled(b'"', b'"', text.as_bytes(), writer)?;
    writer.put(b"\"")
}

/// Takes a text as an item of a field.
pub(crate) fn put_text_item<P: Pen>(text: &str, writer: &mut TextWriter<P>) -> Result<(), SinkFault>
    ensures { Writes writer.old (text_item text.now) result writer.new }
{
    writer.put(b"'")?;
    put_doubled(b'\'', b'"', text.as_bytes(), writer)?;
    writer.put(b"'")
}

/// Takes bytes with each of these two twice; what is between them is taken as it is, many bytes at once.
fn put_doubled<P: Pen>(
    a: u8,
    b: u8,
    bytes: &[u8],
    writer: &mut TextWriter<P>,
) -> Result<(), SinkFault>
    ensures { Writes writer.old (doubled a b bytes.now) result writer.new }
{
    let mut rest = bytes;
    while !rest.is_empty() {
        let plain = plain_len(a, b, rest);
        writer.put(&rest[..plain])?;
        let Some((byte, after)) = rest[plain..].split_first() else {
            return Ok(());
        };
        put_byte(a, b, *byte, writer)?;
        rest = after;
    }
    Ok(())
}

/// Takes a byte, twice where it is one of these two.
#[inline]
fn put_byte<P: Pen>(a: u8, b: u8, byte: u8, writer: &mut TextWriter<P>) -> Result<(), SinkFault>
    ensures { Writes writer.old (doubled a b (byte ∷ [])) result writer.new }
{
    if is_mark(a, b, byte) {
        writer.put(&[byte, byte])
    } else {
        writer.put(&[byte])
    }
}

/// How many bytes at the front are neither of these two.
#[inline]
fn plain_len(a: u8, b: u8, bytes: &[u8]) -> usize
    ensures within { result ≤ length bytes.now }
    ensures plain { (k : ℕ) → k < result → is_mark a b (slice_index bytes.now k) ≡ false }
{
    let mut at = plain_blocks(a, b, bytes);
    while at < bytes.len() && !is_mark(a, b, bytes[at]) {
        at += 1;
    }
    at
}

/// How many bytes in whole blocks at the front are neither of these two.
#[inline]
fn plain_blocks(a: u8, b: u8, bytes: &[u8]) -> usize
    ensures within { result ≤ length bytes.now }
    ensures plain { (k : ℕ) → k < result → is_mark a b (slice_index bytes.now k) ≡ false }
{
    let mut at = 0;
    while bytes.len() - at >= BLOCK && is_plain_block(a, b, bytes, at) {
        at += BLOCK;
    }
    at
}

/// Whether none of the bytes of a block is one of these two.
#[inline]
fn is_plain_block(a: u8, b: u8, bytes: &[u8], at: usize) -> bool
    requires { at + 16 ≤ length bytes.now }
    ensures { IsTrue result → (k : ℕ) → at ≤ k → k < at + 16 → is_mark a b (slice_index bytes.now k) ≡ false }
{
    let block = u8x16::from_slice(&bytes[at..]);
    lacks(block, a) & lacks(block, b)
}

/// Whether this byte is not in a block.
#[inline]
fn lacks(block: u8x16, byte: u8) -> bool
    ensures { IsTrue result → (k : ℕ) → k < 16 → (slice_index block k == byte) ≡ false }
{
    block.simd_eq(u8x16::splat(byte)).to_bitmask() == 0
}

/// Whether a byte is one of these two.
#[inline]
fn is_mark(a: u8, b: u8, byte: u8) -> bool
    ensures { result ≡ is_mark a b byte }
{
    byte == a || byte == b
}
