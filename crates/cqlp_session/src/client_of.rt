//! The client's core with a value for each open request.

ghost use Rattle.std.specs.Borrow.{sem};
ghost use Rattle.std.specs.Option.{option_copied_mut};
ghost use Rattle.std.specs.Prelude.{◌≡◌, IfOk, IsSome, OnErr, Some, is_some, option_copied};
ghost use Rattle.std.specs.Bool.{OnFalse};

use crate::carried::Refused;
use crate::client::Client;
use crate::into_values::IntoValues;
use crate::kind::RequestKind;
use crate::phase::Phase;
use crate::refusal::SlotsOrMemory;
use crate::ticket::{BeginError, Reply, Stray, Ticket};
use crate::{carried, slots};
use cqlp_note::Header;
use std::alloc::{Allocator, Global};
use std::marker::Model;

/// What a response's header says to a client, with the value of the request that it answers.
#[derive(Clone, Copy, Debug, PartialEq, Eq, Drop)]
pub enum ReplyOf<T> {
    /// An event that the server pushed. Section 4.2.6 of `native_protocol_v4.spec`.
    ServerEvent,
    /// The reply to this request, with the value that it began with.
    Answer {
        /// The ticket that `begin` gave for the request.
        ticket: Ticket,
        /// What the request asked for, which says how the reply is to be read.
        kind: RequestKind,
        /// The value that the caller gave to `begin`.
        carried: T,
    },
    /// The reply to this request, which was cancelled, with the value that it began with.
    Dropped {
        /// The ticket that `begin` gave for the request.
        ticket: Ticket,
        /// The value that the caller gave to `begin`, kept until now since the reply was still to come.
        carried: T,
    },
}

/// A [`Client`] that carries a value of the caller's with each open request, from its `begin` to its reply.
#[derive(Drop)]
pub struct ClientOf<T, A: Allocator = Global> {
    core: Client<A>,
    /// The value of the request that is open under each stream id.
    carried: Vec<Option<T>, A>,
}

impl<T, A: Allocator> Model for ClientOf<T, A> {
    ghost use Rattle.std.specs.Prelude.{◌≡◌, vec_capacity, vec_len};
    ghost use Rattle.cqlp_session.specs.Carried.{CarryingClient, ConformWith};

    ghost Value = { CarryingClient T };

    ghost view = { λ c. record { core = c.core; carried = c.carried.items } };

    ghost invariant = { λ c. ConformWith c.core.slots c.carried.items × (vec_capacity c.carried ≡ vec_len c.carried) };
}

impl<T: Drop, A: Allocator> ClientOf<T, A> {
    ghost use Rattle.cqlp_session.specs.Carried.{answer_alone, begun_with, cancelled_with, new_carrying_client, or_back};
    ghost use Rattle.cqlp_session.specs.Carried.{replied_with, reply_value, values_in, ConformWith};
    ghost use Rattle.cqlp_session.specs.Client.{cancels, reply_to, ticket_for};
    ghost use Rattle.cqlp_session.specs.ClientLends.{client_lends, client_lends_value};
    ghost use Rattle.cqlp_session.specs.Signal.{signal_of};
    ghost use Rattle.cqlp_session.specs.Slots.{Makes, is_open, under};

    /// The core of a connection on which nothing was sent yet. `slots` is how many requests may be open at a time, 1 to
    /// 32,768, as in [`Client::new`]. All memory is taken here: that of a `Client`, and a place for each value.
    ///
    /// # Errors
    ///
    /// A number of slots that is 0 or over 32,768, and memory that is refused.
    pub fn new(alloc: A, slots: u16) -> Result<ClientOf<T, A>, SlotsOrMemory>
    where
        A: Clone,
        ensures { Makes slots (new_carrying_client slots) result }
    {
        if !(1..=slots::MOST).contains(&slots) {
            return Err(SlotsOrMemory::BadSlots);
        }
        Ok(ClientOf {
            core: Client::new(alloc.clone()?, slots)?,
            carried: carried::empty(alloc, slots as usize)?,
        })
    }

    /// How far the setting up of the connection has come.
    pub fn phase(&self) -> Phase
        ensures { result ≡ self.now.core.phase }
    {
        self.core.phase()
    }

    /// Whether a request is open under this stream id, as in [`Client::is_open`].
    pub fn is_open(&self, stream: i16) -> bool
        ensures { result ≡ is_open self.now.core.slots stream }
    {
        self.core.is_open(stream)
    }

    /// The value that the request carries which is open under this stream id. None where none is.
    pub fn get(&self, stream: i16) -> Option<&T>
        ensures value { option_copied result ≡ under self.now.carried stream }
        ensures open { is_some result ≡ is_open self.now.core.slots stream }
    {
        carried::get(&self.carried, stream)
    }

    /// The same, to write: what is left there is what the request carries from then on. Nothing else changes.
    pub fn get_mut(&mut self, stream: i16) -> Option<&mut T>
        ensures* writes_back { sem 𝓛 (client_lends T.row A.row A.Allocator self.entry stream result) }
        ensures value { option_copied_mut result ≡ under self.old.carried stream }
        ensures open { is_some result ≡ is_open self.old.core.slots stream }
    {
        if self.get(stream).is_some() {
            Some(self.value_mut(stream))
        } else {
            None
        }
    }

    /// The value of the request that is open under this stream id, to write.
    fn value_mut(&mut self, stream: i16) -> &mut T
        requires { IsSome (under self.old.carried stream) }
        ensures* writes_back { sem 𝓛 (client_lends_value T.row A.row A.Allocator self.entry stream result) }
        ensures value { under self.old.carried stream ≡ Some result.now }
    {
        carried::value_in(&mut self.carried[stream as usize])
    }

    /// The values of all requests that are still open, in the order of their stream ids: what is left to report when
    /// the connection ends. Takes no memory.
    pub fn into_values(self) -> IntoValues<T, A>
        ensures { result ≡ values_in self.carried }
    {
        let ClientOf { core: _, carried } = self;
        IntoValues::new(carried)
    }

    /// Begins a request, as [`Client::begin`] does, and keeps a value until its reply. Where it is refused, the value
    /// comes back and nothing is changed.
    ///
    /// # Errors
    ///
    /// As [`Client::begin`], with the value.
    pub fn begin(&mut self, kind: RequestKind, carried: T) -> Result<Ticket, Refused<BeginError, T>>
        ensures answer { result ≡ or_back carried (ticket_for self.old.core kind) }
        ensures after { self.new ≡ begun_with self.old kind carried }
        ensures refused { OnErr result (self.new ≡ self.old) }
        ensures held { ConformWith self.new.core.slots self.new.carried }
    {
        match self.core.begin(kind) {
            Ok(ticket) => {
                carried::keep(&mut self.carried, ticket.id, carried);
                Ok(ticket)
            }
            Err(why) => Err(Refused { why, carried }),
        }
    }

    /// Takes the header of a message that came, as [`Client::reply`] does. A reply hands out the value that its request
    /// began with, given up or not.
    ///
    /// # Errors
    ///
    /// As [`Client::reply`].
    pub fn reply(&mut self, header: &Header) -> Result<ReplyOf<T>, Stray>
        ensures answer { answer_alone result ≡ reply_to self.old.core (signal_of header.now) }
        ensures value { IfOk result (λ reply. reply_value reply ≡ under self.old.carried header.now.stream) }
        ensures after { self.new ≡ replied_with self.old (signal_of header.now) }
        ensures refused { OnErr result (self.new ≡ self.old) }
        ensures held { ConformWith self.new.core.slots self.new.carried }
    {
        let reply = self.core.reply(header)?;
        let value = carried::take(&mut self.carried, header.stream);
        match (reply, value) {
            (Reply::Answer { ticket, kind }, Some(carried)) => Ok(ReplyOf::Answer {
                ticket,
                kind,
                carried,
            }),
            (Reply::Dropped { ticket }, Some(carried)) => Ok(ReplyOf::Dropped { ticket, carried }),
            (Reply::ServerEvent, None) => Ok(ReplyOf::ServerEvent),
            _ => unreachable!(),
        }
    }

    /// Gives up a request, as [`Client::cancel`] does. Its value stays until its reply comes, which hands it out.
    pub fn cancel(&mut self, ticket: Ticket) -> bool
        ensures answer { result ≡ cancels self.old.core ticket }
        ensures after { self.new ≡ cancelled_with self.old ticket }
        ensures refused { OnFalse result (self.new ≡ self.old) }
        ensures held { ConformWith self.new.core.slots self.new.carried }
    {
        self.core.cancel(ticket)
    }
}
