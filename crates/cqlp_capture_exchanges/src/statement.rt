//! What a request asks to be done, as far as the first bytes of its body say it.

ghost use Rattle.std.specs.Prelude.{◌≡◌, option_map, take};
ghost use Rattle.std.specs.Str.Lossy.{utf8_valid_len};
ghost use Rattle.cqlp_note.specs.Heading.{has as has_bit};
ghost use Rattle.cqlp_capture_exchanges.specs.Statements.{count_in, entry_in, first_in, id_in, long_string, said_of, said_text, short_bytes};
ghost use Rattle.cqlp_capture_exchanges.specs.Statements.{statement, statements, string_in, text_front, text_in};

use cqlp_note::{Header, Opcode};

/// What a request asks to be done, as far as it is there.
#[derive(Clone, Copy)]
pub enum Statement<'a> {
    /// The text of a QUERY or a PREPARE, or of the first statement of a BATCH. Sections 4.1.4, 4.1.5 and 4.1.7 of `native_protocol_v4.spec`.
    Text { text: &'a str, is_whole: bool },
    /// The id of the statement of an EXECUTE, or of the first one of a BATCH. Sections 4.1.6 and 4.1.7 of `native_protocol_v4.spec`.
    Id { id: &'a [u8], is_whole: bool },
}

/// What a request asks to be done, by the first bytes of the message, behind a custom payload: the longest front of its text that is UTF-8,
/// which is whole where it is as long as the length before it says; or the id of its statement; of a BATCH that of the first one. `None` of another
/// message, where the length is negative or is not there, and where the body is compressed, by the header's flags.
pub fn statement_of<'a>(header: &Header, body: &'a [u8]) -> Option<Statement<'a>>
    ensures { option_map said_of result ≡ statement header.now body.now }
{
    if has(header.flags, 0x01) {
        return None;
    }
    match header.opcode {
        Opcode::Query | Opcode::Prepare => long_string(body),
        Opcode::Execute => short_bytes(body),
        Opcode::Batch => first_in(body),
        _ => None,
    }
}

/// How many statements a BATCH has, by the first bytes of the message, behind a custom payload. `None` of another message, where the number is not
/// there, and where the body is compressed. Section 4.1.7 of `native_protocol_v4.spec`.
pub fn statements_of(header: &Header, body: &[u8]) -> Option<u16>
    ensures { result ≡ statements header.now body.now }
{
    if has(header.flags, 0x01) || header.opcode != Opcode::Batch {
        return None;
    }
    count_in(body)
}

/// The number of statements behind the type of a BATCH.
fn count_in(body: &[u8]) -> Option<u16>
    ensures { result ≡ count_in body.now }
{
    let (front, _) = body.split_first_chunk::<3>()?;
    Some(u16::from_be_bytes([front[1], front[2]]))
}

/// The first statement of a BATCH, if it has one.
fn first_in(body: &[u8]) -> Option<Statement<'_>>
    ensures { option_map said_of result ≡ first_in body.now }
{
    match count_in(body) {
        Some(0) => None,
        Some(_) => entry_in(&body[3..]),
        None => None,
    }
}

/// A statement of a BATCH: a text, or the id of one.
fn entry_in(bytes: &[u8]) -> Option<Statement<'_>>
    ensures { option_map said_of result ≡ entry_in bytes.now }
{
    let (kind, rest) = bytes.split_first()?;
    match *kind {
        0 => long_string(rest),
        1 => short_bytes(rest),
        _ => None,
    }
}

/// A \[long string\]. Section 3 of `native_protocol_v4.spec`.
fn long_string(body: &[u8]) -> Option<Statement<'_>>
    ensures { option_map said_of result ≡ long_string body.now }
{
    let (len, content) = body.split_first_chunk::<4>()?;
    text_in(u32::from_be_bytes(*len), content)
}

/// A text of so many bytes, as far as it is there.
fn text_in(len: u32, content: &[u8]) -> Option<Statement<'_>>
    ensures { option_map said_of result ≡ text_in len content.now }
{
    if len >= 0x8000_0000 {
        return None;
    }
    let there = content.len().min(len as usize);
    let text = text_front(&content[..there]);
    Some(Statement::Text {
        text,
        is_whole: text.len() == len as usize,
    })
}

/// A \[string\]. Section 3 of `native_protocol_v4.spec`.
pub(crate) fn string_in(bytes: &[u8]) -> Option<Statement<'_>>
    ensures { option_map said_of result ≡ string_in bytes.now }
{
    let (len, content) = bytes.split_first_chunk::<2>()?;
    Some(text_of(u16::from_be_bytes(*len), content))
}

/// A text of so many bytes, as far as it is there.
fn text_of(len: u16, content: &[u8]) -> Statement<'_>
    ensures { said_of result ≡ said_text len (text_front (take len content.now)) }
{
    let there = content.len().min(len as usize);
    let text = text_front(&content[..there]);
    Statement::Text {
        text,
        is_whole: text.len() == len as usize,
    }
}

/// The longest front of bytes that is UTF-8.
pub(crate) fn text_front(bytes: &[u8]) -> &str
    ensures { result.now ≡ take (utf8_valid_len bytes.now) bytes.now }
{
    match str::from_utf8(bytes) {
        Ok(text) => text,
        // SAFETY: the bytes up to there are UTF-8.
        Err(error) => unsafe { str::from_utf8_unchecked(&bytes[..error.valid_up_to()]) },
    }
}

/// A \[short bytes\]. Section 3 of `native_protocol_v4.spec`.
pub(crate) fn short_bytes(body: &[u8]) -> Option<Statement<'_>>
    ensures { option_map said_of result ≡ short_bytes body.now }
{
    let (len, content) = body.split_first_chunk::<2>()?;
    Some(id_in(u16::from_be_bytes(*len), content))
}

/// An id of so many bytes, as far as it is there.
fn id_in(len: u16, content: &[u8]) -> Statement<'_>
    ensures { said_of result ≡ id_in len content.now }
{
    let there = content.len().min(len as usize);
    Statement::Id {
        id: &content[..there],
        is_whole: there == len as usize,
    }
}

/// Whether some bit of these is set.
pub(crate) fn has(flags: u8, bits: u8) -> bool
    ensures { result ≡ has_bit flags bits }
{
    flags & bits > 0
}
