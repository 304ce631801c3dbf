//! What is under each stream id.

ghost use Rattle.std.specs.Prelude.{◌≡◌, IfOk, None, replicate, vec_capacity};
ghost use Rattle.cqlp_session.specs.Slots.{has_slot, index_of, put, under};

use std::alloc::{AllocError, Allocator};

/// The most stream ids that a connection has. Section 2.3 of `native_protocol_v4.spec`.
pub(crate) const MOST: u16 = 32_768;

/// The place of a stream id, which is negative for none.
pub(crate) fn index_of(id: i16) -> Option<usize>
    ensures { result ≡ index_of id }
{
    if id < 0 { None } else { Some(id as usize) }
}

/// Whether this is the id of one of these slots.
pub(crate) fn has<T>(slots: &[Option<T>], id: i16) -> bool
    ensures { result ≡ has_slot slots.now id }
{
    match index_of(id) {
        Some(i) => i < slots.len(),
        None => false,
    }
}

/// What is under this id.
pub(crate) fn under<T: Copy>(slots: &[Option<T>], id: i16) -> Option<T>
    ensures { result ≡ under slots.now id }
{
    match index_of(id) {
        Some(i) if i < slots.len() => slots[i],
        _ => None,
    }
}

/// Puts this under an id.
pub(crate) fn put<T: Copy>(slots: &mut [Option<T>], id: i16, what: Option<T>)
    ensures { slots.new ≡ put slots.old id what }
{
    match index_of(id) {
        Some(i) if i < slots.len() => slots[i] = what,
        _ => {}
    }
}

/// This many slots, all empty, in memory for just these.
pub(crate) fn empty<T: Copy, A: Allocator>(
    alloc: A,
    len: usize,
) -> Result<Vec<Option<T>, A>, AllocError>
    ensures slots { IfOk result (λ slots. slots.items ≡ replicate len None) }
    ensures capacity { IfOk result (λ slots. vec_capacity slots ≡ len) }
{
    let mut slots = Vec::with_capacity(alloc, len)?;
    for _ in 0..len {
        slots.push_reserved(None);
    }
    Ok(slots)
}
