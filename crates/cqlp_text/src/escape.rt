//! The escapes of a text: a quote, a backslash, and each byte that does not print.

ghost use Rattle.std.specs.Prelude.{◌≡◌, ◌+◌, ◌<◌, ◌≤◌, ◌==◌, ℕ, true, false, length, slice_index, nat_lt, IsTrue};
ghost use Rattle.std.specs.List.{prefix_len};
ghost use Rattle.std.specs.List.{flat_map};
ghost use Rattle.cqlp_text.specs.Text.{escaped, in_one_line, is_plain, printed, prints};
ghost use Rattle.cqlp_text.specs.Written.{Writes};

use crate::pen::Pen;
use crate::text_writer::TextWriter;
use cqlp_grammar::SinkFault;
use std::simd::prelude::*;

/// How many bytes are looked at at once.
const BLOCK: usize = 16;

impl<P: Pen> TextWriter<P> {
    /// Takes bytes as they are written between quotes; those that need no escape are taken as they are, many at once.
    #[inline]
    pub(crate) fn put_escaped(&mut self, bytes: &[u8]) -> Result<(), SinkFault>
        ensures { Writes self.old (flat_map escaped bytes.now) result self.new }
    {
        let mut rest = bytes;
        while !rest.is_empty() {
            let plain = plain_len(rest);
            self.put(&rest[..plain])?;
            let Some((byte, after)) = rest[plain..].split_first() else {
                return Ok(());
            };
            self.put_byte(*byte)?;
            rest = after;
        }
        Ok(())
    }

    /// Takes a byte as it is written between quotes.
    fn put_byte(&mut self, byte: u8) -> Result<(), SinkFault>
        ensures { Writes self.old (escaped byte) result self.new }
    {
        if is_plain(byte) {
            return self.put(&[byte]);
        }
        match byte {
            b'"' => self.put(b"\\\""),
            b'\\' => self.put(b"\\\\"),
            _ => {
                self.put(b"\\x")?;
                self.put_hex(&[byte])
            }
        }
    }

    /// Takes the bytes of a text in one line, where each that does not print is escaped.
    pub fn put_in_one_line(&mut self, bytes: &[u8]) -> Result<(), SinkFault>
        ensures { Writes self.old (in_one_line bytes.now) result self.new }
    {
        for byte in bytes {
            self.put_printed(*byte)?;
        }
        Ok(())
    }

    /// Takes a byte as it is written in a line.
    fn put_printed(&mut self, byte: u8) -> Result<(), SinkFault>
        ensures { Writes self.old (printed byte) result self.new }
    {
        if prints(byte) {
            self.put(&[byte])
        } else {
            self.put_byte(byte)
        }
    }
}

/// How many bytes at the front need no escape.
#[inline(always)]
pub(crate) fn plain_len(bytes: &[u8]) -> usize
    ensures { result ≡ prefix_len is_plain bytes.now }
{
    let mut at = plain_blocks(bytes);
    while at < bytes.len() && is_plain(bytes[at]) {
        at += 1;
    }
    at
}

/// Whether no byte needs an escape.
#[inline(always)]
pub(crate) fn is_plain_text(bytes: &[u8]) -> bool
    ensures { result ≡ true → flat_map escaped bytes.now ≡ bytes.now }
{
    plain_len(bytes) == bytes.len()
}

/// How many blocks at the front need no escape, in bytes.
#[inline(always)]
fn plain_blocks(bytes: &[u8]) -> usize
    ensures within { result ≤ length bytes.now }
    ensures plain { (k : ℕ) → k < result → is_plain (slice_index bytes.now k) ≡ true }
{
    let mut at = 0;
    while bytes.len() - at >= BLOCK && is_plain_block(bytes, at) {
        at += BLOCK;
    }
    at
}

/// Whether none of the bytes of a block needs an escape.
#[inline(always)]
fn is_plain_block(bytes: &[u8], at: usize) -> bool
    requires { at + 16 ≤ length bytes.now }
    ensures { IsTrue result → (k : ℕ) → at ≤ k → k < at + 16 → is_plain (slice_index bytes.now k) ≡ true }
{
    let block = u8x16::from_slice(&bytes[at..]);
    none_below(block, 32) & lacks(block, b'"') & lacks(block, b'\\') & lacks(block, 127)
}

/// Whether no byte of a block is below this one.
#[inline(always)]
fn none_below(block: u8x16, byte: u8) -> bool
    ensures { IsTrue result → (k : ℕ) → k < 16 → nat_lt (slice_index block k) byte ≡ false }
{
    block.simd_lt(u8x16::splat(byte)).to_bitmask() == 0
}

/// Whether this byte is not in a block.
#[inline(always)]
fn lacks(block: u8x16, byte: u8) -> bool
    ensures { IsTrue result → (k : ℕ) → k < 16 → (slice_index block k == byte) ≡ false }
{
    block.simd_eq(u8x16::splat(byte)).to_bitmask() == 0
}

/// Whether a byte is written as it is between quotes.
#[inline(always)]
pub(crate) fn is_plain(byte: u8) -> bool
    ensures { result ≡ is_plain byte }
{
    byte >= 32 && byte != b'"' && byte != b'\\' && byte != 127
}

/// Whether a byte is written as it is in a line.
fn prints(byte: u8) -> bool
    ensures { result ≡ prints byte }
{
    byte >= 32 && byte != 127
}
