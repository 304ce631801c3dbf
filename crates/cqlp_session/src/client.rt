//! The client's core.

ghost use Rattle.std.specs.Prelude.{◌≡◌, ◌+◌, ◌-◌, ◌^◌, All, IfOk, IsErrOf, IsSome, OnErr};
ghost use Rattle.std.specs.Bool.{OnFalse};

use crate::kind::RequestKind;
use crate::phase::Phase;
use crate::refusal::SlotsOrMemory;
use crate::slots;
use crate::streams::{OpenRequest, Streams};
use crate::ticket::{BeginError, Reply, Stray, Ticket};
use cqlp_note::{Header, Opcode};
use std::alloc::{Allocator, Global};
use std::marker::Model;

/// Which requests are open on one connection, seen from its client. An id is given out again only once the reply to
/// the request before was handed in.
#[derive(Drop)]
pub struct Client<A: Allocator = Global> {
    phase: Phase,
    /// How many requests have begun.
    begun: u64,
    streams: Streams<A>,
}

impl<A: Allocator> Model for Client<A> {
    ghost use Rattle.cqlp_session.specs.Client.{ClientCore};

    ghost Value = { ClientCore };

    ghost view = { λ c. record { phase = c.phase; begun = c.begun; slots = c.streams } };
}

impl<A: Allocator> Client<A> {
    ghost use Rattle.cqlp_session.specs.Client.{begun, cancelled, cancels, new_client, replied, reply_to, ticket_for};
    ghost use Rattle.cqlp_session.specs.Signal.{signal_of};
    ghost use Rattle.cqlp_session.specs.Slots.{IsLeastFree, Makes, is_open};

    /// The core of a connection on which nothing was sent yet. `slots` is how many requests may be open at a time, 1 to
    /// 32,768; their stream ids are those below it (section 2.3 of `native_protocol_v4.spec`). All memory is taken here.
    ///
    /// # Errors
    ///
    /// A number of slots that is 0 or over 32,768, and memory that is refused.
    pub fn new(alloc: A, slots: u16) -> Result<Client<A>, SlotsOrMemory>
    where
        A: Clone,
        ensures { Makes slots (new_client slots) result }
    {
        if !(1..=slots::MOST).contains(&slots) {
            return Err(SlotsOrMemory::BadSlots);
        }
        Ok(Client {
            phase: Phase::Fresh,
            begun: 0,
            streams: Streams::new(alloc, slots)?,
        })
    }

    /// How far the setting up of the connection has come.
    pub fn phase(&self) -> Phase
        ensures { result ≡ self.now.phase }
    {
        self.phase
    }

    /// Whether a request is open under this stream id: one began under it, and its reply has not come. A request that was
    /// cancelled is open until then. No request is open under a negative id.
    pub fn is_open(&self, stream: i16) -> bool
        ensures { result ≡ is_open self.now.slots stream }
    {
        self.streams.under(stream).is_some()
    }

    /// Begins a request. Its header is to have the ticket's id, the least that is free.
    ///
    /// The first of these refuses it, and changes nothing: `Phase`, where requests of this kind may not begin in the
    /// phase that is; `Spent`, where 2^64 - 1 requests have begun; `Full`, where each id is taken.
    ///
    /// # Errors
    ///
    /// `Phase`, `Spent` or `Full`, as said above.
    #[tactic(auto, using(crate::proofs::Least::none_found))]
    pub fn begin(&mut self, kind: RequestKind) -> Result<Ticket, BeginError>
        ensures answer { result ≡ ticket_for self.old kind }
        ensures after { self.new ≡ begun self.old kind result }
        ensures refused { OnErr result (self.new ≡ self.old) }

        // What the answer says of the ids and the numbers.
        ensures least { IfOk result (λ ticket. IsLeastFree self.old.slots ticket.id) }
        ensures next { IfOk result (λ ticket. ticket.number ≡ self.old.begun + 1) }
        ensures full { IsErrOf result BeginError.Full → All (λ slot. IsSome slot) self.old.slots }
        ensures spent { IsErrOf result BeginError.Spent → self.old.begun ≡ 2 ^ 64 - 1 }
    {
        if !self.phase.may_begin(kind) {
            return Err(BeginError::Phase(self.phase));
        }
        if self.begun == u64::MAX {
            return Err(BeginError::Spent);
        }
        let Some(id) = self.streams.least_free() else {
            return Err(BeginError::Full);
        };
        let number = self.begun + 1;
        self.phase = self.phase.begun(kind);
        self.begun = number;
        let open = OpenRequest {
            number,
            kind,
            cancelled: false,
        };
        self.streams.put(id, Some(open));
        Ok(Ticket { id, number })
    }

    /// Takes the header of a message that came. A reply frees its request's id. Section 4.2 of
    /// `native_protocol_v4.spec`.
    ///
    /// An EVENT response with a negative id is no reply. Of any other message, the first of these refuses it, and
    /// changes nothing: `NotResponse`, for a request; `NoSuchStream`, where no request is open under its id;
    /// `WrongOpcode`, where it does not answer requests of that kind.
    ///
    /// # Errors
    ///
    /// `NotResponse`, `NoSuchStream` or `WrongOpcode`, as said above.
    pub fn reply(&mut self, header: &Header) -> Result<Reply, Stray>
        ensures answer { result ≡ reply_to self.old (signal_of header.now) }
        ensures after { self.new ≡ replied self.old (signal_of header.now) result }
        ensures refused { OnErr result (self.new ≡ self.old) }
    {
        let Header {
            response,
            flags: _,
            stream: id,
            opcode,
            length: _,
        } = *header;
        if response && opcode == Opcode::Event && id < 0 {
            return Ok(Reply::ServerEvent);
        }
        if !response {
            return Err(Stray::NotResponse);
        }
        let Some(open) = self.streams.under(id) else {
            return Err(Stray::NoSuchStream);
        };
        if !open.kind.is_answered_by(opcode) {
            return Err(Stray::WrongOpcode);
        }
        self.phase = self.phase.answered(open.kind, opcode);
        self.streams.put(id, None);
        let ticket = Ticket {
            id,
            number: open.number,
        };
        Ok(if open.cancelled {
            Reply::Dropped { ticket }
        } else {
            Reply::Answer {
                ticket,
                kind: open.kind,
            }
        })
    }

    /// Gives up a request that waits for its reply, and was not given up before, unless it is a STARTUP or an
    /// AUTH_RESPONSE; else changes nothing. Its id stays taken until its reply comes.
    pub fn cancel(&mut self, ticket: Ticket) -> bool
        ensures answer { result ≡ cancels self.old ticket }
        ensures after { self.new ≡ cancelled self.old ticket result }
        ensures refused { OnFalse result (self.new ≡ self.old) }
    {
        let Some(open) = self.streams.under(ticket.id) else {
            return false;
        };
        if open.number != ticket.number || open.cancelled || open.kind.is_handshake() {
            return false;
        }
        let open = OpenRequest {
            cancelled: true,
            ..open
        };
        self.streams.put(ticket.id, Some(open));
        true
    }
}
