//! Bytes on their way to a target in blocks.

ghost use Rattle.std.specs.Prelude.{◌≡◌, ◌+◌, ◌-◌, ◌≤◌, ◌++◌, [], length, drop, true, IfErr, IfOk, IsSome, vec_capacity};
ghost use Rattle.std.specs.Io.KnownBytes.{Appends, append_known};
ghost use Rattle.cqlp_note.specs.Outputs.{output, written};
ghost use Rattle.cqlp_note.specs.Streams.{counted};
ghost use Rattle.cqlp_capture_streams.specs.Blocks.{HandsOn};

use cqlp_note::{IoFault, Target, offer};
use std::alloc::{AllocError, Allocator, Global};
use std::marker::Model;

/// How many bytes wait at most.
const BLOCK: usize = 65_536;

/// A target that passes bytes on to another one in blocks of up to 64 KiB: they wait until the next ones have no room beside them. Longer
/// ones are passed on as they come.
#[derive(Drop)]
pub struct BlockWriter<O: Target, A: Allocator = Global> {
    target: O,
    /// What waits to be passed on.
    waiting: Vec<u8, A>,
    /// How many calls took all of their bytes, up to 2^64 - 1.
    writes: u64,
}

impl<O: Target, A: Allocator> Model for BlockWriter<O, A> {
    ghost use Rattle.std.specs.Prelude.{◌≤◌, length, vec_capacity};
    ghost use Rattle.cqlp_capture_streams.specs.Blocks.{Blocks, blocks};

    ghost Value = { Blocks };

    ghost view = { λ b. blocks (O.contents b.target) (O.failures b.target) b.waiting.items b.writes };

    ghost invariant = { λ b. (length b.waiting.items ≤ 65536) × (65536 ≤ vec_capacity b.waiting) };
}

impl<O: Target, A: Allocator> BlockWriter<O, A> {
    ghost use Rattle.std.specs.Io.KnownBytes.{WriteAppends};
    ghost use Rattle.cqlp_note.specs.Streams.{took_all, took_none};
    ghost use Rattle.cqlp_capture_streams.specs.Blocks.{PassesOn, blocks, contents_of, whole_of};

    /// With nothing that waits. Takes memory for a block; where it is not granted, the target is given back.
    pub fn new(alloc: A, target: O) -> Result<Self, O>
        ensures ok { IfOk result (λ b. b ≡ blocks (O.contents target) (O.failures target) [] 0) }
        ensures err { IfErr result (λ o. o ≡ target) }
    {
        match Vec::with_capacity(alloc, BLOCK) {
            Ok(waiting) => Ok(BlockWriter {
                target,
                waiting,
                writes: 0,
            }),
            Err(AllocError) => Err(target),
        }
    }

    /// The target, after all that waited was passed on.
    ///
    /// # Errors
    ///
    /// The target failed, and got the first of what waited.
    pub fn finish(mut self) -> (Result<(), IoFault>, O)
        ensures { IsSome (contents_of self) → HandsOn (whole_of self) result.0 (written O.Target result.1) }
    {
        let answer = self.pass_on();
        (answer, self.into_inner())
    }

    /// The target, which did not get what waits.
    pub fn into_inner(self) -> O
        ensures target { written O.Target result ≡ output self.given self.failures }
        ensures short { length self.waiting ≤ 65536 }
    {
        let BlockWriter {
            target,
            waiting: _,
            writes: _,
        } = self;
        target
    }

    /// Passes on all that waits. What a target that fails did not take waits still.
    fn pass_on(&mut self) -> Result<(), IoFault>
        ensures { PassesOn self.old result self.new }
    {
        let sent = offer(&mut self.target, &self.waiting);
        remove_front(&mut self.waiting, sent);
        if self.waiting.is_empty() {
            Ok(())
        } else {
            Err(IoFault)
        }
    }

    /// Takes bytes for which there is room.
    fn keep(&mut self, bytes: &[u8])
        requires { length self.old.waiting + length bytes.now ≤ 65536 }
        ensures { self.new ≡ blocks self.old.given self.old.failures (self.old.waiting ++ bytes.now) (counted true self.old.writes) }
    {
        append(&mut self.waiting, bytes);
        self.writes = self.writes.saturating_add(1);
    }

    /// Passes bytes on as they are, where nothing waits.
    fn write_through(&mut self, bytes: &[u8]) -> Result<usize, IoFault>
        requires { self.old.waiting ≡ [] }
        ensures bound { IfOk result (λ n. n ≤ length bytes.now) }
        ensures bytes { WriteAppends (contents_of self.old) (contents_of self.new) result bytes.now }
        ensures failures { self.new.failures ≡ counted (took_none result bytes.now) self.old.failures }
        ensures writes { self.new.writes ≡ counted (took_all result bytes.now) self.old.writes }
    {
        let count = self.target.write(bytes)?;
        if count == bytes.len() {
            self.writes = self.writes.saturating_add(1);
        }
        Ok(count)
    }

    /// Takes bytes after what waits was passed on.
    #[inline(never)]
    fn write_afresh(&mut self, bytes: &[u8]) -> Result<usize, IoFault>
        ensures bound { IfOk result (λ n. n ≤ length bytes.now) }
        ensures bytes { WriteAppends (contents_of self.old) (contents_of self.new) result bytes.now }
        ensures failures { self.new.failures ≡ counted (took_none result bytes.now) self.old.failures }
        ensures writes { self.new.writes ≡ counted (took_all result bytes.now) self.old.writes }
    {
        self.pass_on()?;
        if bytes.len() > BLOCK {
            return self.write_through(bytes);
        }
        self.keep(bytes);
        Ok(bytes.len())
    }
}

impl<O: Target, A: Allocator> Target for BlockWriter<O, A> {
    ghost use Rattle.cqlp_capture_streams.specs.Blocks.{contents_of};

    ghost contents = { contents_of };

    ghost failures = { λ b. b.failures };

    ghost writes = { λ b. b.writes };

    #[inline]
    fn write(&mut self, bytes: &[u8]) -> Result<usize, IoFault> {
        if bytes.len() > BLOCK - self.waiting.len() {
            return self.write_afresh(bytes);
        }
        self.keep(bytes);
        Ok(bytes.len())
    }
}

/// Adds bytes for which there is room.
#[inline(always)]
fn append<A: Allocator>(to: &mut Vec<u8, A>, bytes: &[u8])
    requires { length to.old.items + length bytes.now ≤ vec_capacity to.old }
    ensures items { to.new.items ≡ to.old.items ++ bytes.now }
    ensures capacity { vec_capacity to.old ≤ vec_capacity to.new }
{
    let Ok(()) = to.extend_from_slice(bytes) else {
        unreachable!()
    };
}

/// Removes the first bytes.
fn remove_front<A: Allocator>(from: &mut Vec<u8, A>, count: usize)
    requires { count ≤ length from.old.items }
    ensures items { from.new.items ≡ drop count from.old.items }
    ensures capacity { vec_capacity from.new ≡ vec_capacity from.old }
{
    let len = from.len();
    from.copy_within(count.., 0);
    from.truncate(len - count);
}
