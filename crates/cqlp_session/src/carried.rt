//! The values that are carried with open requests.

ghost use Rattle.std.specs.Borrow.{Lends, sem};
ghost use Rattle.std.specs.contracts.option.Option.{the_row as OptionOf};
ghost use Rattle.std.specs.Prelude.{◌≡◌, IfOk, IsSome, None, Some, option_copied, replicate, vec_capacity, vec_len};
ghost use Rattle.cqlp_session.specs.Slots.{put, under};

use crate::slots;
use std::alloc::{AllocError, Allocator};

/// A call that was refused, and the value that was to be carried.
#[derive(Clone, Copy, Debug, PartialEq, Eq, Drop)]
pub struct Refused<E, T> {
    /// Why it was refused.
    pub why: E,
    /// The value, as it was handed in.
    pub carried: T,
}

/// This many places for values, all empty, in memory for just these.
pub(crate) fn empty<T: Drop, A: Allocator>(
    alloc: A,
    len: usize,
) -> Result<Vec<Option<T>, A>, AllocError>
    ensures places { IfOk result (λ carried. carried.items ≡ replicate len None) }
    ensures capacity { IfOk result (λ carried. vec_capacity carried ≡ vec_len carried) }
{
    let mut carried = Vec::with_capacity(alloc, len)?;
    for _ in 0..len {
        carried.push_reserved(None);
    }
    Ok(carried)
}

/// Puts a value under an id.
pub(crate) fn keep<T: Drop>(carried: &mut [Option<T>], id: i16, value: T)
    ensures { carried.new ≡ put carried.old id (Some value) }
{
    match slots::index_of(id) {
        Some(i) if i < carried.len() => carried[i] = Some(value),
        _ => {}
    }
}

/// Takes the value under an id, if one is there.
pub(crate) fn take<T: Drop>(carried: &mut [Option<T>], id: i16) -> Option<T>
    ensures value { result ≡ under carried.old id }
    ensures after { carried.new ≡ put carried.old id None }
{
    match slots::index_of(id) {
        Some(i) if i < carried.len() => carried[i].take(),
        _ => None,
    }
}

/// The value under an id, if one is there.
pub(crate) fn get<T>(carried: &[Option<T>], id: i16) -> Option<&T>
    ensures { option_copied result ≡ under carried.now id }
{
    match slots::index_of(id) {
        Some(i) if i < carried.len() => carried[i].as_ref(),
        _ => None,
    }
}

/// The value in a place, where one is, to write.
pub(crate) fn value_in<T>(place: &mut Option<T>) -> &mut T
    requires { IsSome place.old }
    ensures* writes_back { sem 𝓛 (Lends (OptionOf T.row) T.row place.entry result Some) }
    ensures value { place.old ≡ Some result.now }
{
    match place {
        Some(value) => value,
        None => unreachable!(),
    }
}
