//! Bits in a row.

ghost use Rattle.std.specs.Prelude.{◌≡◌, ◌+◌, ◌*◌, ◌^◌, ◌<◌, ◌≤◌, ◌++◌, ◌∷◌, [], IfOk, length, replicate};
ghost use Rattle.cqlp_columns.specs.Bits.{Spells, number_of_bytes, worth};

use crate::bytes::zeros;
use std::alloc::{AllocError, Allocator};
use std::marker::Model;

/// Bits in memory that is taken once: eight in a byte, the first of them the least.
#[derive(Drop)]
pub(crate) struct Bits<A: Allocator> {
    /// As many as there is room for. There are zeros after the bits so far.
    bytes: Vec<u8, A>,
    len: usize,
}

impl<A: Allocator> Model for Bits<A> {
    ghost use Rattle.std.specs.Prelude.{◌≡◌, ◌<◌, ◌≤◌, ◌^◌, ◌*◌, length, vec_capacity};
    ghost use Rattle.std.specs.Vec.{vec_ptr};
    ghost use Rattle.cqlp_columns.specs.Bits.{Bits, bits, digits, number_of_bytes};

    ghost Value = { Bits };

    ghost view = { λ b. bits (digits b.len (number_of_bytes b.bytes.items)) (8 * length b.bytes.items) (vec_ptr b.bytes) };

    ghost invariant = { λ b. (number_of_bytes b.bytes.items < 2 ^ b.len) × (b.len ≤ 8 * length b.bytes.items)
        × (length b.bytes.items < 2 ^ 32) × (vec_capacity b.bytes ≡ length b.bytes.items) };
}

impl<A: Allocator> Bits<A> {
    ghost use Rattle.cqlp_columns.specs.Bits.{bits, rounded};

    /// With room for at least so many bits. This is the one call that takes memory.
    #[tactic(auto, using(crate::proofs::Numbers::no_bytes, crate::proofs::Numbers::rounded_holds))]
    pub fn new(alloc: A, room: u32) -> Result<Self, AllocError>
        ensures { IfOk result (λ b. b ≡ bits [] (8 * rounded room) b.at) }
    {
        let count = room.div_ceil(8) as usize;
        Ok(Bits {
            bytes: zeros(alloc, count)?,
            len: 0,
        })
    }

    /// Where the bytes begin that have them. They stay there for as long as they live.
    pub fn address(&self) -> *const u8
        ensures { result ≡ self.now.at }
    {
        self.bytes.as_ptr()
    }

    /// Adds a bit at the end.
    #[inline(always)]
    pub fn push(&mut self, bit: bool)
        requires { length self.old.bits < self.old.room }
        ensures { self.new ≡ bits (self.old.bits ++ bit ∷ []) self.old.room self.old.at }
    {
        add_bit(self.bytes.as_mut_slice(), self.len, bit);
        self.len += 1;
    }

    /// Removes all bits, and keeps the memory.
    pub fn clear(&mut self)
        ensures { self.new ≡ bits [] self.old.room self.old.at }
    {
        fill_zeros(self.bytes.as_mut_slice());
        self.len = 0;
    }

    /// The bytes that have the bits, and zeros after the last.
    pub fn as_slice(&self) -> &[u8]
        ensures { Spells self.now.bits result.now }
    {
        &self.bytes[..self.len.div_ceil(8)]
    }
}

/// Adds the bit after so many, where the bytes have only zeros.
#[inline(always)]
pub(crate) fn add_bit(bytes: &mut [u8], at: usize, bit: bool)
    requires room { at < 8 * length bytes.old }
    requires below { number_of_bytes bytes.old < 2 ^ at }
    ensures { number_of_bytes bytes.new ≡ number_of_bytes bytes.old + worth bit at }
{
    if bit {
        bytes[at / 8] += 1 << (at % 8);
    }
}

/// Makes each byte a zero.
pub(crate) fn fill_zeros(bytes: &mut [u8])
    ensures { bytes.new ≡ replicate (length bytes.old) 0 }
{
    for byte in bytes.iter_mut() {
        *byte = 0;
    }
}
