//! Bytes in a row.

ghost use Rattle.std.specs.Prelude.{◌≡◌, ◌+◌, ◌≤◌, ◌++◌, [], length, replicate, vec_capacity, IfOk};
ghost use Rattle.cqlp_columns.specs.Bytes.{bytes};

use crate::bits::fill_zeros;
use std::alloc::{AllocError, Allocator};
use std::marker::Model;

/// Bytes in memory that is taken once.
#[derive(Drop)]
pub(crate) struct Bytes<A: Allocator> {
    /// The bytes, and after them zeros or what is left of others before them, in all of the room, so that more are written over these at once.
    memory: Vec<u8, A>,
    len: usize,
}

impl<A: Allocator> Model for Bytes<A> {
    ghost use Rattle.std.specs.Prelude.{◌≡◌, ◌≤◌, length, take, vec_capacity};
    ghost use Rattle.std.specs.Vec.{vec_ptr};
    ghost use Rattle.cqlp_columns.specs.Bytes.{Bytes, bytes};

    ghost Value = { Bytes };

    ghost view = { λ b. bytes (take b.len b.memory.items) (length b.memory.items) (vec_ptr b.memory) };

    ghost invariant = { λ b. (b.len ≤ length b.memory.items) × (vec_capacity b.memory ≡ length b.memory.items) };
}

impl<A: Allocator> Bytes<A> {
    /// With room for so many. This is the one call that takes memory.
    pub fn new(alloc: A, room: usize) -> Result<Self, AllocError>
        ensures { IfOk result (λ b. b ≡ bytes [] room b.at) }
    {
        Ok(Bytes {
            memory: zeros(alloc, room)?,
            len: 0,
        })
    }

    /// How many there are.
    #[inline(always)]
    pub fn len(&self) -> usize
        ensures { result ≡ length self.now.items }
    {
        self.len
    }

    /// How many there is room for.
    #[inline(always)]
    pub fn room(&self) -> usize
        ensures { result ≡ self.now.room }
    {
        self.memory.len()
    }

    /// The bytes.
    pub fn as_slice(&self) -> &[u8]
        ensures { result.now ≡ self.now.items }
    {
        &self.memory[..self.len]
    }

    /// Where they begin. They stay there for as long as they live.
    pub fn address(&self) -> *const u8
        ensures { result ≡ self.now.at }
    {
        self.memory.as_ptr()
    }

    /// Adds bytes at the end.
    #[inline(always)]
    pub fn push(&mut self, more: &[u8])
        requires { length self.old.items + length more.now ≤ self.old.room }
        ensures { self.new ≡ bytes (self.old.items ++ more.now) self.old.room self.old.at }
    {
        let end = self.len + more.len();
        self.memory.slice_mut(self.len..end).copy_from_slice(more);
        self.len = end;
    }

    /// Adds this many zeros at the end.
    pub fn push_zeros(&mut self, count: usize)
        requires { length self.old.items + count ≤ self.old.room }
        ensures { self.new ≡ bytes (self.old.items ++ replicate count 0) self.old.room self.old.at }
    {
        let end = self.len + count;
        fill_zeros(self.memory.slice_mut(self.len..end));
        self.len = end;
    }

    /// Removes all bytes, and keeps the memory.
    pub fn clear(&mut self)
        ensures { self.new ≡ bytes [] self.old.room self.old.at }
    {
        self.len = 0;
    }
}

/// This many zeros, in memory for just as many.
pub(crate) fn zeros<A: Allocator>(alloc: A, count: usize) -> Result<Vec<u8, A>, AllocError>
    ensures items { IfOk result (λ v. v.items ≡ replicate count 0) }
    ensures capacity { IfOk result (λ v. vec_capacity v ≡ count) }
{
    let mut memory = Vec::with_capacity(alloc, count)?;
    memory.resize(count, 0)?;
    // There was room, so `resize` took no more; but its contract does not say so.
    if memory.capacity() > count {
        return Err(AllocError);
    }
    Ok(memory)
}
