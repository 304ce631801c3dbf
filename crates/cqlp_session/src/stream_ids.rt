//! The free stream ids, one bit to an id, so that the least is found a word at a time.

ghost use Rattle.std.specs.Prelude.{◌≡◌, ◌+◌, ◌*◌, ◌/◌, ◌^◌, ◌<◌, ◌≤◌, IfNone, IfOk, IfSome, length, vec_capacity};
ghost use Rattle.cqlp_session.specs.Ids.{IsFirstBit, NoBit, WithBit, all_ones};

use std::alloc::{AllocError, Allocator};

const BITS: usize = 64;

/// Words with a bit for each of `len` ids and for those that fill up the last word, all set, in memory for just these.
pub(crate) fn all<A: Allocator>(alloc: A, len: usize) -> Result<Vec<u64, A>, AllocError>
    requires { len ≤ 2 ^ 15 }
    ensures words { IfOk result (λ words. words.items ≡ all_ones len) }
    ensures capacity { IfOk result (λ words. vec_capacity words ≡ (len + 63) / 64) }
{
    let count = len.div_ceil(BITS);
    let mut words = Vec::with_capacity(alloc, count)?;
    for _ in 0..count {
        words.push_reserved(u64::MAX);
    }
    Ok(words)
}

/// The place of the first bit that is set.
#[tactic(auto, using(crate::proofs::Bits::first_bit, crate::proofs::Bits::no_bit))]
pub(crate) fn first(words: &[u64]) -> Option<usize>
    requires { length words.now ≤ 2 ^ 15 }
    ensures some { IfSome result (IsFirstBit words.now) }
    ensures none { IfNone result (NoBit words.now) }
{
    for (i, word) in words.iter().enumerate() {
        if *word > 0 {
            return Some(i * BITS + word.trailing_zeros() as usize);
        }
    }
    None
}

/// Sets the bit at a place.
pub(crate) fn set(words: &mut [u64], place: usize)
    requires { place < 64 * length words.old }
    ensures { WithBit words.old place 1 words.new }
{
    let word = &mut words[place / BITS];
    *word |= 1 << (place % BITS);
}

/// Clears the bit at a place.
pub(crate) fn clear(words: &mut [u64], place: usize)
    requires { place < 64 * length words.old }
    ensures { WithBit words.old place 0 words.new }
{
    let word = &mut words[place / BITS];
    *word &= !(1 << (place % BITS));
}
