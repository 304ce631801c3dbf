//! What cores take from C and give to it.

ghost use Rattle.std.specs.Prelude.{◌≡◌, option_map};
ghost use Rattle.cqlp_session.specs.Carried.{reply_alone, reply_value};
ghost use Rattle.cqlp_session.specs.Kind as kinds;
ghost use Rattle.cqlp_session.specs.Signal.{signal_of};
ghost use Rattle.cqlp_c.specs.Talked as talked;

use crate::event::CqlpEvent;
use crate::numbers::*;
use cqlp_note::{Header, Opcode};
use cqlp_session::{AnswerError, BeginError, ReplyOf, RequestKind, ServerRefusal, Stray, Ticket};

/// A request that has begun.
#[repr(C)]
#[derive(Clone, Copy)]
pub struct CqlpTicket {
    /// The place of the request among all that the core began, from 1 on.
    pub number: u64,
    /// The stream id, which the request's header has and its reply's will have: 0 to 32,767.
    pub id: i16,
}

/// What a response says to a client.
#[repr(C)]
#[derive(Clone, Copy)]
pub struct CqlpReply {
    /// The number of the request's ticket; 0 of an event.
    pub number: u64,
    /// The number that the request began with, the caller's; 0 of an event.
    pub carried: u64,
    /// The stream id of the request's ticket; 0 of an event.
    pub id: i16,
    /// What it is: a number `REPLY_..`.
    pub what: u8,
    /// What was asked for, a number `OPCODE_..`; 0 of an event, and of the reply to what was cancelled.
    pub request: u8,
}

/// A request that a server has answered.
#[repr(C)]
#[derive(Clone, Copy)]
pub struct CqlpAnswered {
    /// The number that the request was accepted with, the caller's.
    pub carried: u64,
    /// What was asked for: a number `OPCODE_..`.
    pub request: u8,
}

/// The opcode of a request.
fn opcode_of(kind: RequestKind) -> Opcode
    ensures { result ≡ kinds.opcode_of kind }
{
    match kind {
        RequestKind::Startup => Opcode::Startup,
        RequestKind::Options => Opcode::Options,
        RequestKind::Query => Opcode::Query,
        RequestKind::Prepare => Opcode::Prepare,
        RequestKind::Execute => Opcode::Execute,
        RequestKind::Batch => Opcode::Batch,
        RequestKind::Register => Opcode::Register,
        RequestKind::AuthResponse => Opcode::AuthResponse,
    }
}

/// The kind of request that has this opcode, if one has.
pub fn request_of(opcode: u8) -> Option<RequestKind>
    ensures { result ≡ talked.request_of opcode }
{
    match Opcode::from_number(opcode)? {
        Opcode::Startup => Some(RequestKind::Startup),
        Opcode::Options => Some(RequestKind::Options),
        Opcode::Query => Some(RequestKind::Query),
        Opcode::Prepare => Some(RequestKind::Prepare),
        Opcode::Execute => Some(RequestKind::Execute),
        Opcode::Batch => Some(RequestKind::Batch),
        Opcode::Register => Some(RequestKind::Register),
        Opcode::AuthResponse => Some(RequestKind::AuthResponse),
        Opcode::Error
        | Opcode::Ready
        | Opcode::Authenticate
        | Opcode::Supported
        | Opcode::Result
        | Opcode::Event
        | Opcode::AuthChallenge
        | Opcode::AuthSuccess => None,
    }
}

/// A ticket, as C sees it.
pub fn ticket_of(ticket: Ticket) -> CqlpTicket
    ensures { result ≡ talked.ticket_of ticket }
{
    CqlpTicket {
        number: ticket.number,
        id: ticket.id,
    }
}

/// A ticket that C gives.
pub fn given_ticket(ticket: &CqlpTicket) -> Ticket
    ensures { result ≡ talked.given_ticket ticket.now }
{
    Ticket {
        id: ticket.id,
        number: ticket.number,
    }
}

/// The code for a request that may not begin.
pub fn begin_code(error: BeginError) -> u32
    ensures { result ≡ talked.code_of_refused error }
{
    match error {
        BeginError::Phase(_) => BAD_PHASE,
        BeginError::Spent => SPENT,
        BeginError::Full => FULL,
    }
}

/// A header with what a core sees of the event of a frame. A core sees neither flags nor length.
pub fn header_in(frame: &CqlpEvent) -> Option<Header>
    ensures { option_map signal_of result ≡ talked.signal_in frame.now }
{
    if frame.tag != TAG_FRAME {
        return None;
    }
    let Ok(stream) = i16::try_from(frame.extra) else {
        return None;
    };
    let opcode = Opcode::from_number(frame.opcode)?;
    Some(Header {
        response: frame.mark == MARK_RESPONSE,
        flags: 0,
        stream,
        opcode,
        length: 0,
    })
}

/// A reply, as C sees it.
pub fn reply_of(reply: &ReplyOf<u64>) -> CqlpReply
    ensures { result ≡ talked.reply_of (reply_alone reply.now) (reply_value reply.now) }
{
    match *reply {
        ReplyOf::ServerEvent => CqlpReply {
            number: 0,
            carried: 0,
            id: 0,
            what: REPLY_EVENT,
            request: 0,
        },
        ReplyOf::Answer {
            ticket,
            kind,
            carried,
        } => CqlpReply {
            number: ticket.number,
            carried,
            id: ticket.id,
            what: REPLY_ANSWER,
            request: opcode_number(opcode_of(kind)),
        },
        ReplyOf::Dropped { ticket, carried } => CqlpReply {
            number: ticket.number,
            carried,
            id: ticket.id,
            what: REPLY_DROPPED,
            request: 0,
        },
    }
}

/// The code for a message that is no reply.
pub fn stray_code(stray: Stray) -> u32
    ensures { result ≡ talked.code_of_stray stray }
{
    match stray {
        Stray::NotResponse => NOT_RESPONSE,
        Stray::NoSuchStream => NO_SUCH_STREAM,
        Stray::WrongOpcode => WRONG_OPCODE,
    }
}

/// The code for a message that a server does not accept as a request.
pub fn refusal_code(refusal: ServerRefusal) -> u32
    ensures { result ≡ talked.code_of_refusal refusal }
{
    match refusal {
        ServerRefusal::NotRequest => NOT_REQUEST,
        ServerRefusal::BadId => BAD_ID,
        ServerRefusal::IdTaken => ID_TAKEN,
        ServerRefusal::Phase(_) => BAD_PHASE,
    }
}

/// A request that was answered, as C sees it.
pub fn answered_of(kind: RequestKind, carried: u64) -> CqlpAnswered
    ensures { result ≡ talked.answered_of kind carried }
{
    CqlpAnswered {
        carried,
        request: opcode_number(opcode_of(kind)),
    }
}

/// The code for a request that may not be answered so.
pub fn answer_code(error: AnswerError) -> u32
    ensures { result ≡ talked.code_of_unanswered error }
{
    match error {
        AnswerError::NotTaken => NO_SUCH_STREAM,
        AnswerError::WrongOpcode => WRONG_OPCODE,
    }
}
