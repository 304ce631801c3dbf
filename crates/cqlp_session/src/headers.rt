//! Calls that give the header to be written.

ghost use Rattle.std.specs.Prelude.{◌≡◌, IfOk, OnErr, Some};
ghost use Rattle.cqlp_note.specs.Heading.{IsLawful};
ghost use Rattle.cqlp_session.specs.Carried.{answered_with, begun_with, or_back};
ghost use Rattle.cqlp_session.specs.Client.{begun, ticket_for};
ghost use Rattle.cqlp_session.specs.Headers.{event_header, request_header, response_header, with_request_header, with_response_header, without_value};
ghost use Rattle.cqlp_session.specs.Server.{answer_of, answered};
ghost use Rattle.cqlp_session.specs.Slots.{under};

use crate::body::Body;
use crate::carried::Refused;
use crate::client::Client;
use crate::client_of::ClientOf;
use crate::kind::RequestKind;
use crate::server::{AnswerError, Server};
use crate::server_of::ServerOf;
use crate::ticket::{BeginError, Ticket};
use cqlp_note::{Header, Opcode};
use std::alloc::Allocator;

impl<A: Allocator> Client<A> {
    /// Begins a request, as [`Client::begin`] does, and gives its header: a request with the ticket's stream id and the
    /// opcode of its kind. It is lawful, and what a server's core takes for this request.
    ///
    /// # Errors
    ///
    /// As [`Client::begin`].
    pub fn begin_with(
        &mut self,
        kind: RequestKind,
        body: Body,
    ) -> Result<(Ticket, Header), BeginError>
        ensures answer { result ≡ with_request_header kind body (ticket_for self.old kind) }
        ensures after { self.new ≡ begun self.old kind (ticket_for self.old kind) }
        ensures refused { OnErr result (self.new ≡ self.old) }
        ensures lawful { IfOk result (λ begun. IsLawful begun.1) }
    {
        let ticket = self.begin(kind)?;
        Ok((ticket, request_header(kind, ticket, body)))
    }
}

impl<A: Allocator> Server<A> {
    /// Answers the request that is open under this id, as [`Server::answer`] does, and gives the header of the response,
    /// with that id and that opcode. It is lawful, and what the client's core takes for the reply.
    ///
    /// # Errors
    ///
    /// As [`Server::answer`].
    pub fn answer_with(
        &mut self,
        id: i16,
        opcode: Opcode,
        body: Body,
    ) -> Result<(Header, RequestKind), AnswerError>
        ensures answer { result ≡ with_response_header id opcode body (answer_of self.old id opcode) }
        ensures after { self.new ≡ answered self.old id opcode (answer_of self.old id opcode) }
        ensures refused { OnErr result (self.new ≡ self.old) }
        ensures lawful { IfOk result (λ answer. IsLawful answer.0) }
    {
        let kind = self.answer(id, opcode)?;
        Ok((response_header(id, opcode, body), kind))
    }
}

impl<T: Drop, A: Allocator> ClientOf<T, A> {
    /// Begins a request and keeps a value, as [`ClientOf::begin`] does, and gives its header, as [`Client::begin_with`] does.
    ///
    /// # Errors
    ///
    /// As [`ClientOf::begin`].
    pub fn begin_with(
        &mut self,
        kind: RequestKind,
        body: Body,
        carried: T,
    ) -> Result<(Ticket, Header), Refused<BeginError, T>>
        ensures answer { result ≡ with_request_header kind body (or_back carried (ticket_for self.old.core kind)) }
        ensures after { self.new ≡ begun_with self.old kind carried }
        ensures refused { OnErr result (self.new ≡ self.old) }
        ensures lawful { IfOk result (λ begun. IsLawful begun.1) }
    {
        match self.begin(kind, carried) {
            Ok(ticket) => Ok((ticket, request_header(kind, ticket, body))),
            Err(refused) => Err(refused),
        }
    }
}

impl<T: Drop, A: Allocator> ServerOf<T, A> {
    /// Answers a request and hands out its value, as [`ServerOf::answer`] does, and gives the header of the response, as
    /// [`Server::answer_with`] does.
    ///
    /// # Errors
    ///
    /// As [`ServerOf::answer`].
    pub fn answer_with(
        &mut self,
        id: i16,
        opcode: Opcode,
        body: Body,
    ) -> Result<(Header, RequestKind, T), AnswerError>
        ensures answer { without_value result ≡ with_response_header id opcode body (answer_of self.old.core id opcode) }
        ensures value { IfOk result (λ answer. Some answer.2 ≡ under self.old.carried id) }
        ensures after { self.new ≡ answered_with self.old id opcode }
        ensures refused { OnErr result (self.new ≡ self.old) }
        ensures lawful { IfOk result (λ answer. IsLawful answer.0) }
    {
        let (kind, carried) = self.answer(id, opcode)?;
        Ok((response_header(id, opcode, body), kind, carried))
    }
}

/// The header of an EVENT that a server pushes, whose stream id is -1 (section 4.2.6 of `native_protocol_v4.spec`). It is
/// lawful, and what a client's core reports as [`Reply::ServerEvent`](crate::Reply::ServerEvent).
#[must_use]
pub fn event_header(body: Body) -> Header
    ensures is { result ≡ event_header body }
    ensures lawful { IsLawful result }
{
    Header {
        response: true,
        flags: body.flags(),
        stream: -1,
        opcode: Opcode::Event,
        length: body.length(),
    }
}

/// The header of a request.
fn request_header(kind: RequestKind, ticket: Ticket, body: Body) -> Header
    ensures is { result ≡ request_header kind ticket body }
    ensures lawful { IsLawful result }
{
    Header {
        response: false,
        flags: body.flags(),
        stream: ticket.id,
        opcode: kind.opcode(),
        length: body.length(),
    }
}

/// The header of a response.
fn response_header(id: i16, opcode: Opcode, body: Body) -> Header
    ensures { result ≡ response_header id opcode body }
{
    Header {
        response: true,
        flags: body.flags(),
        stream: id,
        opcode,
        length: body.length(),
    }
}
