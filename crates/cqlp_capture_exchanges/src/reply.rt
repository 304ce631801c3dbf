//! What a response is, by its opcode and the first number of its body.

ghost use Rattle.std.specs.Prelude.{◌≡◌, option_map};
ghost use Rattle.cqlp_note.specs.Heading.{beside_number};
ghost use Rattle.cqlp_capture_exchanges.specs.Replies.{consistency_names, error_names, first_number, kind_names, message, number_in, reply};
ghost use Rattle.cqlp_capture_exchanges.specs.Statements.{said_of};

use crate::prepared::after_number;
use crate::statement::{Statement, has, string_in};
use cqlp_note::{Header, Opcode};

/// What a response is.
#[derive(Clone, Copy)]
pub(crate) enum Reply {
    /// A RESULT of this kind. Section 4.2.5 of `native_protocol_v4.spec`.
    Result(u32),
    /// An ERROR with this code. Section 9 of `native_protocol_v4.spec`.
    Error(u32),
    /// Any other; also where the kind or the code is not to be seen.
    Other(Opcode),
}

/// What a response is, by its header and the first bytes of its body.
pub(crate) fn reply_of(header: &Header, body: &[u8]) -> Reply
    ensures { result ≡ reply header.now body.now }
{
    match (header.opcode, first_number(header.flags, body)) {
        (Opcode::Result, Some(kind)) => Reply::Result(kind),
        (Opcode::Error, Some(code)) => Reply::Error(code),
        (opcode, _) => Reply::Other(opcode),
    }
}

/// The number that the message of a response begins with. `None` if it is not there, or if the body is compressed.
fn first_number(flags: u8, front: &[u8]) -> Option<u32>
    ensures { result ≡ first_number flags front.now }
{
    if has(flags, 0x01) {
        return None;
    }
    number_in(front)
}

/// An \[int\] at the front, as a number without a sign.
fn number_in(bytes: &[u8]) -> Option<u32>
    ensures { result ≡ number_in bytes.now }
{
    let (number, _) = bytes.split_first_chunk::<4>()?;
    Some(u32::from_be_bytes(*number))
}

/// The name of a kind of result.
pub(crate) fn kind_name(kind: u32) -> Option<&'static str>
    ensures { option_map (λ s. s.now) result ≡ beside_number kind kind_names }
{
    match kind {
        1 => Some("VOID"),
        2 => Some("ROWS"),
        3 => Some("SET_KEYSPACE"),
        4 => Some("PREPARED"),
        5 => Some("SCHEMA_CHANGE"),
        _ => None,
    }
}

/// The name of an error.
pub(crate) fn error_name(code: u32) -> Option<&'static str>
    ensures { option_map (λ s. s.now) result ≡ beside_number code error_names }
{
    match code {
        0x0000 => Some("ServerError"),
        0x000A => Some("ProtocolError"),
        0x0100 => Some("AuthenticationError"),
        0x1000 => Some("Unavailable"),
        0x1001 => Some("Overloaded"),
        0x1002 => Some("IsBootstrapping"),
        0x1003 => Some("TruncateError"),
        0x1100 => Some("WriteTimeout"),
        0x1200 => Some("ReadTimeout"),
        0x1300 => Some("ReadFailure"),
        0x1400 => Some("FunctionFailure"),
        0x1500 => Some("WriteFailure"),
        0x2000 => Some("SyntaxError"),
        0x2100 => Some("Unauthorized"),
        0x2200 => Some("Invalid"),
        0x2300 => Some("ConfigError"),
        0x2400 => Some("AlreadyExists"),
        0x2500 => Some("Unprepared"),
        _ => None,
    }
}

/// The name of a consistency level. Section 3 of `native_protocol_v4.spec`.
pub(crate) fn consistency_name(level: u16) -> Option<&'static str>
    ensures { option_map (λ s. s.now) result ≡ beside_number level consistency_names }
{
    match level {
        0x0000 => Some("ANY"),
        0x0001 => Some("ONE"),
        0x0002 => Some("TWO"),
        0x0003 => Some("THREE"),
        0x0004 => Some("QUORUM"),
        0x0005 => Some("ALL"),
        0x0006 => Some("LOCAL_QUORUM"),
        0x0007 => Some("EACH_QUORUM"),
        0x0008 => Some("SERIAL"),
        0x0009 => Some("LOCAL_SERIAL"),
        0x000A => Some("LOCAL_ONE"),
        _ => None,
    }
}

/// The message of an ERROR, as far as it is there.
pub(crate) fn message_of<'a>(reply: Reply, front: &'a [u8]) -> Option<Statement<'a>>
    ensures { option_map said_of result ≡ message reply front.now }
{
    match reply {
        Reply::Error(_) => string_in(after_number(front)),
        Reply::Result(_) => None,
        Reply::Other(_) => None,
    }
}
