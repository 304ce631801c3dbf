//! Headers, written for C.

ghost use Rattle.std.specs.Prelude.{◌≡◌, IfOk};
ghost use Rattle.cqlp_note.specs.Heading.{IsLawful};
ghost use Rattle.cqlp_c.specs.Headers.{Writes, code_of_bad, header_in};

use crate::numbers::*;
use cqlp_note::{Header, Opcode};

/// The fields of a header, as in `Header`.
#[repr(C)]
#[derive(Clone, Copy)]
pub struct CqlpHeader {
    /// The bytes of the body, at most 268,435,456.
    pub length: u32,
    /// The stream id, which is a request's and its response's.
    pub stream: i16,
    /// What the message is: a number `OPCODE_..`.
    pub opcode: u8,
    /// 02 tracing, 04 custom payload, 08 warning.
    pub flags: u8,
    /// Whether the frame is a response: anything but 0.
    pub response: u8,
}

/// Which field no header has.
#[derive(Clone, Copy)]
pub enum BadHeader {
    /// The flag 01, of a compressed body.
    Compressed,
    /// No opcode has this number.
    Opcode,
    /// A request's opcode in a response, or the other way round.
    Direction,
    /// A body above 268,435,456 bytes.
    Length,
}

/// The code for a field that no header has.
fn bad_code(why: BadHeader) -> u32
    ensures { result ≡ code_of_bad why }
{
    match why {
        BadHeader::Compressed => COMPRESSED,
        BadHeader::Opcode => BAD_OPCODE,
        BadHeader::Direction => BAD_DIRECTION,
        BadHeader::Length => BAD_LENGTH,
    }
}

/// The header that these fields are.
fn header_of(fields: &CqlpHeader) -> Result<Header, BadHeader>
    ensures header { result ≡ header_in fields.now }
    ensures lawful { IfOk result (λ header. IsLawful header) }
{
    if fields.flags & 0x01 > 0 {
        return Err(BadHeader::Compressed);
    }
    let Some(opcode) = Opcode::from_number(fields.opcode) else {
        return Err(BadHeader::Opcode);
    };
    let response = fields.response != 0;
    if opcode.is_response() != response {
        return Err(BadHeader::Direction);
    }
    if fields.length > Header::LONGEST_BODY {
        return Err(BadHeader::Length);
    }
    Ok(Header {
        response,
        flags: fields.flags,
        stream: fields.stream,
        opcode,
        length: fields.length,
    })
}

/// Writes the nine bytes of a header.
#[unsafe(no_mangle)]
pub extern "C" fn cqlp_write_header(fields: &CqlpHeader, bytes: &mut [u8; 9]) -> u32
    ensures { Writes (header_in fields.now) result bytes.old bytes.new }
{
    match header_of(fields) {
        Ok(header) => {
            *bytes = header.write();
            DONE
        }
        Err(why) => bad_code(why),
    }
}
