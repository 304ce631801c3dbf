//! The content of a field out of pieces.

ghost use Rattle.std.specs.Prelude.{◌≡◌, ◌==◌, ◌+◌, ◌≤◌, ◌++◌, [], length, min, replicate, take, true, is_err, vec_capacity, IfOk};
ghost use denote.RawPtr.{InBlock, ◌+ₚ◌};
ghost use Rattle.std.specs.Vec.{vec_ptr};
ghost use Rattle.cqlp_note.specs.Streams.{ReadsPiece, counted, counted_up};

use crate::refusal::NoMemory;
use crate::streams::{IoFault, Source};
use std::alloc::Allocator;
use std::marker::Model;

/// The bytes so far of a content, in memory that is taken once: its capacity is the room, and it lies in one place, for as
/// long as it lives.
#[derive(Drop)]
pub(crate) struct GatheredContent<A: Allocator> {
    /// The content, and after it what is left of longer ones before it, so that a piece is copied over them at once.
    bytes: Vec<u8, A>,
    len: u32,
    room: u32,
}

impl<A: Allocator> Model for GatheredContent<A> {
    ghost use Rattle.std.specs.Prelude.{◌≡◌, ◌≤◌, length, take, vec_capacity};
    ghost use Rattle.std.specs.Vec.{vec_ptr};
    ghost use Rattle.cqlp_note.specs.Gathered.{Gathered};

    ghost Value = { Gathered };

    ghost view = { λ g. record { items = take g.len g.bytes.items; room = g.room; buffer = vec_ptr g.bytes } };

    ghost invariant = { λ g. (vec_capacity g.bytes ≡ g.room) × (g.len ≤ length g.bytes.items) };
}

impl<A: Allocator> GatheredContent<A> {
    /// With room for a content of up to `room` bytes. This is the one call that takes memory.
    pub fn new(alloc: A, room: u32) -> Result<Self, NoMemory>
        ensures { IfOk result (λ content. (content.items ≡ []) × (content.room ≡ room)) }
    {
        Ok(GatheredContent {
            bytes: Vec::with_capacity(alloc, room as usize)?,
            len: 0,
            room,
        })
    }

    /// The bytes so far.
    pub fn as_slice(&self) -> &[u8]
        ensures { result.now ≡ self.now.items }
    {
        &self.bytes[..self.len as usize]
    }

    /// Where its bytes lie from the index `start` on, or where they end if they are fewer.
    pub fn address(&self, start: usize) -> *const u8
        ensures { result ≡ self.now.buffer +ₚ min start (length self.now.items) }
    {
        address_after(&self.bytes, start.min(self.len as usize))
    }

    /// How many bytes there are.
    pub fn len(&self) -> u32
        ensures is { result ≡ length self.now.items }
        ensures bound { result ≤ self.now.room }
    {
        self.len
    }

    /// Whether there are none.
    pub fn is_empty(&self) -> bool
        ensures { result ≡ (length self.now.items == 0) }
    {
        self.len == 0
    }

    /// How many bytes its memory has places for.
    pub fn capacity(&self) -> usize
        ensures { result ≡ self.now.room }
    {
        self.bytes.capacity()
    }

    /// Removes all bytes, and keeps the memory.
    pub fn clear(&mut self)
        ensures { self.new ≡ record self.old { items = [] } }
    {
        self.len = 0;
    }

    /// Adds a piece at the end.
    pub fn append(&mut self, piece: &[u8])
        requires { length self.old.items + length piece.now ≤ self.old.room }
        ensures { self.new ≡ record self.old { items = self.old.items ++ piece.now } }
    {
        let start = self.len as usize;
        let end = start + piece.len();
        let written = self.bytes.len();
        if written < end {
            add_zeros(&mut self.bytes, end - written);
        }
        self.bytes.slice_mut(start..end).copy_from_slice(piece);
        self.len = end as u32;
    }

    /// Adds at the end what one call of a reader gives, which is up to `most` bytes: it reads them where they belong.
    pub fn read_from<R: Source>(&mut self, reader: &mut R, most: usize) -> Result<usize, IoFault>
        requires { length self.old.items + most ≤ self.old.room }
        ensures bytes { ReadsPiece most (R.left reader.old) (R.left reader.new) result (self.new ≡ self.old)
            (λ piece. self.new ≡ record self.old { items = self.old.items ++ piece }) }
        ensures failures { R.failures reader.new ≡ counted (is_err result) (R.failures reader.old) }
        ensures reads { R.reads reader.new ≡ counted true (R.reads reader.old) }
        ensures asked { R.asked reader.new ≡ counted_up most (R.asked reader.old) }
    {
        let start = self.len as usize;
        let end = start + most;
        fill_to(&mut self.bytes, end);
        match reader.read(self.bytes.slice_mut(start..end)) {
            Ok(count) => {
                self.len += count as u32;
                Ok(count)
            }
            Err(IoFault) => Err(IoFault),
        }
    }
}

/// The memory of a vector is in a block, so that addresses behind its first are counted on from it. It has nothing to do.
fn has_address<A: Allocator>(bytes: &Vec<u8, A>)
    ensures { InBlock (vec_ptr bytes.now) }
{}

/// Where a byte of a vector lies, or where its bytes end.
fn address_after<A: Allocator>(bytes: &Vec<u8, A>, start: usize) -> *const u8
    requires { start ≤ length bytes.now.items }
    ensures { result ≡ vec_ptr bytes.now +ₚ start }
{
    has_address(bytes);
    unsafe { bytes.as_ptr().byte_add(start) }
}

/// Adds zeros behind the bytes that there are, so that there are at least so many.
fn fill_to<A: Allocator>(bytes: &mut Vec<u8, A>, end: usize)
    requires { end ≤ vec_capacity bytes.old }
    ensures long { end ≤ length bytes.new.items }
    ensures kept { take (length bytes.old.items) bytes.new.items ≡ bytes.old.items }
    ensures no_fewer { length bytes.old.items ≤ length bytes.new.items }
    ensures capacity { vec_capacity bytes.new ≡ vec_capacity bytes.old }
    ensures in_place { vec_ptr bytes.new ≡ vec_ptr bytes.old }
{
    let written = bytes.len();
    if written < end {
        add_zeros(bytes, end - written);
    }
}

/// Adds this many zeros.
fn add_zeros<A: Allocator>(bytes: &mut Vec<u8, A>, count: usize)
    requires { length bytes.old.items + count ≤ vec_capacity bytes.old }
    ensures items { bytes.new.items ≡ bytes.old.items ++ replicate count 0 }
    ensures capacity { vec_capacity bytes.new ≡ vec_capacity bytes.old }
    ensures in_place { vec_ptr bytes.new ≡ vec_ptr bytes.old }
{
    for _ in 0..count {
        bytes.push_reserved(0);
    }
}
