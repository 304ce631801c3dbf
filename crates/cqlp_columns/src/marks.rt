//! Two bits for each cell: whether it has a value, and whether that has no bytes.

ghost use Rattle.std.specs.Prelude.{◌≡◌, ◌*◌, ◌<◌, ◌++◌, ◌∷◌, [], IfOk, length};
ghost use Rattle.cqlp_columns.specs.Bits.{Spells};

use crate::bits::{add_bit, fill_zeros};
use crate::bytes::zeros;
use std::alloc::{AllocError, Allocator};
use std::marker::Model;

/// As many bits of the one sort as of the other, in memory that is taken once: eight in a byte, the first of them the least.
#[derive(Drop)]
pub(crate) struct Marks<A: Allocator> {
    /// Which cells have a value of no bytes. As many bytes as there is room for, with zeros after the bits so far; so are those of `valid`.
    empty: Vec<u8, A>,
    /// Which cells have a value.
    valid: Vec<u8, A>,
    /// How many cells they are of.
    len: usize,
}

impl<A: Allocator> Model for Marks<A> {
    ghost use Rattle.std.specs.Prelude.{◌≡◌, ◌<◌, ◌≤◌, ◌^◌, ◌*◌, length, vec_capacity};
    ghost use Rattle.std.specs.Vec.{vec_ptr};
    ghost use Rattle.cqlp_columns.specs.Bits.{Marks, digits, marks, number_of_bytes};

    ghost Value = { Marks };

    ghost view = { λ m. marks (digits m.len (number_of_bytes m.valid.items)) (digits m.len (number_of_bytes m.empty.items))
        (8 * length m.valid.items) (vec_ptr m.valid) (vec_ptr m.empty) };

    ghost invariant = { λ m. (number_of_bytes m.valid.items < 2 ^ m.len) × (number_of_bytes m.empty.items < 2 ^ m.len)
        × (m.len ≤ 8 * length m.valid.items) × (length m.empty.items ≡ length m.valid.items) × (length m.valid.items < 2 ^ 32)
        × (vec_capacity m.valid ≡ length m.valid.items) × (vec_capacity m.empty ≡ length m.empty.items) };
}

impl<A: Allocator> Marks<A> {
    ghost use Rattle.cqlp_columns.specs.Bits.{marks, rounded};

    /// With room for the bits of at least so many cells. This is the one call that takes memory.
    pub fn new(alloc: A, room: u32) -> Result<Self, AllocError>
    where
        A: Clone,
        ensures { IfOk result (λ m. m ≡ marks [] [] (8 * rounded room) m.valid_at m.empty_at) }
    {
        let count = room.div_ceil(8) as usize;
        Ok(Marks {
            empty: zeros(alloc.clone()?, count)?,
            valid: zeros(alloc, count)?,
            len: 0,
        })
    }

    /// How many cells they are of.
    #[tactic(auto, using(crate::proofs::Numbers::bits_are))]
    #[inline(always)]
    pub fn len(&self) -> usize
        ensures { result ≡ length self.now.valid }
    {
        self.len
    }

    /// Where the bytes begin that have the bits of cells with a value. They stay there for as long as they live.
    pub fn valid_address(&self) -> *const u8
        ensures { result ≡ self.now.valid_at }
    {
        self.valid.as_ptr()
    }

    /// Where the bytes begin that have the bits of values without bytes.
    pub fn empty_address(&self) -> *const u8
        ensures { result ≡ self.now.empty_at }
    {
        self.empty.as_ptr()
    }

    /// Adds the two bits of a cell.
    #[inline(always)]
    pub fn push(&mut self, valid: bool, empty: bool)
        requires { length self.old.valid < self.old.room }
        ensures { self.new ≡ marks (self.old.valid ++ valid ∷ []) (self.old.empty ++ empty ∷ []) self.old.room self.old.valid_at self.old.empty_at }
    {
        add_bit(self.valid.as_mut_slice(), self.len, valid);
        add_bit(self.empty.as_mut_slice(), self.len, empty);
        self.len += 1;
    }

    /// Removes all bits, and keeps the memory.
    pub fn clear(&mut self)
        ensures { self.new ≡ marks [] [] self.old.room self.old.valid_at self.old.empty_at }
    {
        fill_zeros(self.valid.as_mut_slice());
        fill_zeros(self.empty.as_mut_slice());
        self.len = 0;
    }

    /// The bytes that have the bits of cells with a value, and zeros after the last.
    pub fn valid(&self) -> &[u8]
        ensures { Spells self.now.valid result.now }
    {
        &self.valid[..self.len.div_ceil(8)]
    }

    /// The bytes that have the bits of values without bytes, and zeros after the last.
    pub fn empty(&self) -> &[u8]
        ensures { Spells self.now.empty result.now }
    {
        &self.empty[..self.len.div_ceil(8)]
    }
}
