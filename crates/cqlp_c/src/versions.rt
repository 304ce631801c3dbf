//! What a server answers to a request of another version of the protocol.

ghost use Rattle.std.specs.Prelude.{◌≡◌, ℕ, ◌+◌, ◌≤◌, ◌++◌, length, take, drop};
ghost use Rattle.cqlp_message.specs.VersionError.{stream_under, version_error_bytes};
ghost use Rattle.cqlp_c.specs.Rooms.{PutsBytes};
ghost use Rattle.cqlp_c.specs.Versions.{error_head};

use crate::numbers::*;

/// The stream id of a header of this version: its third byte in versions 1 and 2, and its third and fourth in all others.
fn stream_under(version: u8, header: &[u8; 9]) -> i16
    ensures { result ≡ stream_under version header.now }
{
    match version {
        1 | 2 => i16::from(header[2].cast_signed()),
        _ => i16::from_be_bytes([header[2], header[3]]),
    }
}

/// What comes before the text: a header, the code of a protocol error, and the length of the text.
fn error_head(stream: i16, text_len: u16) -> [u8; 15]
    ensures { result ≡ error_head stream text_len }
{
    let [first, second] = stream.to_be_bytes();
    let [a, b, c, d] = (6 + u32::from(text_len)).to_be_bytes();
    let [high, low] = text_len.to_be_bytes();
    [
        0x84, 0x00, first, second, 0x00, a, b, c, d, 0x00, 0x00, 0x00, 0x0A, high, low,
    ]
}

/// Writes bytes at a place, and answers the place after them.
pub fn put(room: &mut [u8], at: usize, bytes: &[u8]) -> usize
    requires { at + length bytes.now ≤ length room.old }
    ensures behind { result ≡ at + length bytes.now }
    ensures first { take result room.new ≡ take at room.old ++ bytes.now }
    ensures others { (n : ℕ) → result ≤ n → drop n room.new ≡ drop n room.old }
{
    let end = at + bytes.len();
    room[at..end].copy_from_slice(bytes);
    end
}

/// Writes the answer to a request whose header is of another version, an ERROR of version 4, and says how many bytes it has. Where
/// there is no room, its pointer may be null.
#[unsafe(no_mangle)]
pub extern "C" fn cqlp_version_error(header: &[u8; 9], bytes: &mut [u8], length: &mut usize) -> u32
    ensures { PutsBytes (version_error_bytes header.now) result bytes.old bytes.new length.new }
{
    let version = header[0] & 0x7F;
    let before = b"Invalid or unsupported protocol version (";
    let after = b"); the lowest supported version is 4 and the greatest is 4";
    let mut digits = itoa::Buffer::new();
    let number = digits.format(version).as_bytes();
    let text_len = before.len() + number.len() + after.len();
    *length = 15 + text_len;
    if bytes.len() < 15 + text_len {
        return NO_ROOM;
    }
    let head = error_head(stream_under(version, header), text_len as u16);
    let end = put(bytes, 0, &head);
    let end = put(bytes, end, before);
    let end = put(bytes, end, number);
    put(bytes, end, after);
    DONE
}
