//! The stream ids of a client.

ghost use Rattle.std.specs.Prelude.{◌≡◌, IfOk, None, option_map, pos, replicate};

use crate::kind::RequestKind;
use crate::{slots, stream_ids};
use std::alloc::{AllocError, Allocator, Global};
use std::marker::Model;

/// A request whose reply has not come.
#[derive(Clone, Copy)]
pub struct OpenRequest {
    /// The place of the request among all that the core began.
    pub number: u64,
    pub kind: RequestKind,
    pub cancelled: bool,
}

/// The request that is open under each id, and which ids are free.
#[derive(Drop)]
pub(crate) struct Streams<A: Allocator = Global> {
    slots: Vec<Option<OpenRequest>, A>,
    /// A bit for each id, set where it is free.
    free: Vec<u64, A>,
}

impl<A: Allocator> Model for Streams<A> {
    ghost use Rattle.std.specs.Prelude.{◌≡◌, List, Option, length, vec_capacity, vec_len};
    ghost use Rattle.cqlp_session.specs.declared.streams.OpenRequest.{OpenRequest};
    ghost use Rattle.cqlp_session.specs.Slots.{IsSlotCount};
    ghost use Rattle.cqlp_session.specs.Ids.{Marks};

    ghost Value = { List (Option OpenRequest) };

    ghost view = { λ s. s.slots.items };

    ghost invariant = { λ s. IsSlotCount (length s.slots.items) × Marks s.free.items s.slots.items
        × (vec_capacity s.slots ≡ vec_len s.slots) × (vec_capacity s.free ≡ vec_len s.free) };
}

impl<A: Allocator> Streams<A> {
    ghost use Rattle.cqlp_session.specs.Slots.{IsSlotCount, least_free, put, under};

    /// Ids from 0 on, all free.
    pub(crate) fn new(alloc: A, len: u16) -> Result<Streams<A>, AllocError>
    where
        A: Clone,
        requires { IsSlotCount len }
        ensures { IfOk result (λ streams. streams ≡ replicate len None) }
    {
        let len = len as usize;
        let slots = slots::empty(alloc.clone()?, len)?;
        let free = stream_ids::all(alloc, len)?;
        Ok(Streams { slots, free })
    }

    /// The request that is open under this id.
    pub(crate) fn under(&self, id: i16) -> Option<OpenRequest>
        ensures { result ≡ under self.now id }
    {
        slots::under(&self.slots, id)
    }

    /// The least id that is free.
    pub(crate) fn least_free(&self) -> Option<i16>
        ensures { result ≡ option_map pos (least_free self.now) }
    {
        let place = stream_ids::first(&self.free)?;
        if place < self.slots.len() {
            Some(place as i16)
        } else {
            None
        }
    }

    /// Opens a request under this id, or frees it.
    pub(crate) fn put(&mut self, id: i16, what: Option<OpenRequest>)
        ensures { self.new ≡ put self.old id what }
    {
        let Some(place) = slots::index_of(id) else {
            return;
        };
        if place >= self.slots.len() {
            return;
        }
        self.slots[place] = what;
        match what {
            Some(_) => stream_ids::clear(&mut self.free, place),
            None => stream_ids::set(&mut self.free, place),
        }
    }
}
