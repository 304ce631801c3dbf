//! The server's core with a value for each open request.

ghost use Rattle.std.specs.Borrow.{sem};
ghost use Rattle.std.specs.Option.{option_copied_mut};
ghost use Rattle.std.specs.Prelude.{◌≡◌, IfOk, IsSome, OnErr, Some, is_some, option_copied};

use crate::carried::Refused;
use crate::into_values::IntoValues;
use crate::kind::RequestKind;
use crate::phase::Phase;
use crate::refusal::SlotsOrMemory;
use crate::server::{AnswerError, Server, ServerRefusal};
use crate::{carried, slots};
use cqlp_note::{Header, Opcode};
use std::alloc::{Allocator, Global};
use std::marker::Model;

/// A [`Server`] that carries a value of the caller's with each open request, from its `accept` to its answer.
#[derive(Drop)]
pub struct ServerOf<T, A: Allocator = Global> {
    core: Server<A>,
    /// The value of the request that is open under each stream id.
    carried: Vec<Option<T>, A>,
}

impl<T, A: Allocator> Model for ServerOf<T, A> {
    ghost use Rattle.std.specs.Prelude.{◌≡◌, vec_capacity, vec_len};
    ghost use Rattle.cqlp_session.specs.Carried.{CarryingServer, ConformWith};

    ghost Value = { CarryingServer T };

    ghost view = { λ s. record { core = s.core; carried = s.carried.items } };

    ghost invariant = { λ s. ConformWith s.core.slots s.carried.items × (vec_capacity s.carried ≡ vec_len s.carried) };
}

impl<T: Drop, A: Allocator> ServerOf<T, A> {
    ghost use Rattle.cqlp_session.specs.Carried.{accepted_with, answered_with, kind_alone, new_carrying_server, or_back, values_in, ConformWith};
    ghost use Rattle.cqlp_session.specs.Server.{accept_of, answer_of};
    ghost use Rattle.cqlp_session.specs.ServerLends.{server_lends, server_lends_value};
    ghost use Rattle.cqlp_session.specs.Signal.{signal_of};
    ghost use Rattle.cqlp_session.specs.Slots.{Makes, is_open, under};

    /// The core of a connection on which nothing came yet. `slots` is how many requests may be open at a time, 1 to
    /// 32,768, as in [`Server::new`]. All memory is taken here: that of a `Server`, and a place for each value.
    ///
    /// # Errors
    ///
    /// A number of slots that is 0 or over 32,768, and memory that is refused.
    pub fn new(alloc: A, slots: u16) -> Result<ServerOf<T, A>, SlotsOrMemory>
    where
        A: Clone,
        ensures { Makes slots (new_carrying_server slots) result }
    {
        if !(1..=slots::MOST).contains(&slots) {
            return Err(SlotsOrMemory::BadSlots);
        }
        Ok(ServerOf {
            core: Server::new(alloc.clone()?, slots)?,
            carried: carried::empty(alloc, slots as usize)?,
        })
    }

    /// How far the setting up of the connection has come.
    pub fn phase(&self) -> Phase
        ensures { result ≡ self.now.core.phase }
    {
        self.core.phase()
    }

    /// Whether a request is open under this stream id, as in [`Server::is_open`].
    pub fn is_open(&self, stream: i16) -> bool
        ensures { result ≡ is_open self.now.core.slots stream }
    {
        self.core.is_open(stream)
    }

    /// The value that the request carries which is open under this stream id. None where none is.
    pub fn get(&self, stream: i16) -> Option<&T>
        ensures value { option_copied result ≡ under self.now.carried stream }
        ensures open { is_some result ≡ is_open self.now.core.slots stream }
    {
        carried::get(&self.carried, stream)
    }

    /// The same, to write: what is left there is what the request carries from then on. Nothing else changes.
    pub fn get_mut(&mut self, stream: i16) -> Option<&mut T>
        ensures* writes_back { sem 𝓛 (server_lends T.row A.row A.Allocator self.entry stream result) }
        ensures value { option_copied_mut result ≡ under self.old.carried stream }
        ensures open { is_some result ≡ is_open self.old.core.slots stream }
    {
        if self.get(stream).is_some() {
            Some(self.value_mut(stream))
        } else {
            None
        }
    }

    /// The value of the request that is open under this stream id, to write.
    fn value_mut(&mut self, stream: i16) -> &mut T
        requires { IsSome (under self.old.carried stream) }
        ensures* writes_back { sem 𝓛 (server_lends_value T.row A.row A.Allocator self.entry stream result) }
        ensures value { under self.old.carried stream ≡ Some result.now }
    {
        carried::value_in(&mut self.carried[stream as usize])
    }

    /// The values of all requests that are still open, in the order of their stream ids: what is left to report when
    /// the connection ends. Takes no memory.
    pub fn into_values(self) -> IntoValues<T, A>
        ensures { result ≡ values_in self.carried }
    {
        let ServerOf { core: _, carried } = self;
        IntoValues::new(carried)
    }

    /// Takes the header of a request that came, as [`Server::accept`] does, and keeps a value until it is answered.
    /// Where it is refused, the value comes back and nothing is changed.
    ///
    /// # Errors
    ///
    /// As [`Server::accept`], with the value.
    pub fn accept(
        &mut self,
        header: &Header,
        carried: T,
    ) -> Result<RequestKind, Refused<ServerRefusal, T>>
        ensures answer { result ≡ or_back carried (accept_of self.old.core (signal_of header.now)) }
        ensures after { self.new ≡ accepted_with self.old (signal_of header.now) carried }
        ensures refused { OnErr result (self.new ≡ self.old) }
        ensures held { ConformWith self.new.core.slots self.new.carried }
    {
        match self.core.accept(header) {
            Ok(kind) => {
                carried::keep(&mut self.carried, header.stream, carried);
                Ok(kind)
            }
            Err(why) => Err(Refused { why, carried }),
        }
    }

    /// Answers the request that is open under this id, as [`Server::answer`] does, and hands out the value that it was
    /// accepted with.
    ///
    /// # Errors
    ///
    /// As [`Server::answer`].
    pub fn answer(&mut self, id: i16, opcode: Opcode) -> Result<(RequestKind, T), AnswerError>
        ensures answer { kind_alone result ≡ answer_of self.old.core id opcode }
        ensures value { IfOk result (λ answer. Some answer.1 ≡ under self.old.carried id) }
        ensures after { self.new ≡ answered_with self.old id opcode }
        ensures refused { OnErr result (self.new ≡ self.old) }
        ensures held { ConformWith self.new.core.slots self.new.carried }
    {
        let kind = self.core.answer(id, opcode)?;
        match carried::take(&mut self.carried, id) {
            Some(carried) => Ok((kind, carried)),
            None => unreachable!(),
        }
    }
}
