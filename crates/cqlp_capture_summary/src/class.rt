//! Classes of bytes in a statement.

ghost use Rattle.std.specs.Prelude.{◌≡◌, ◌≤◌};
ghost use Rattle.std.specs.Int.{is_in_range};
ghost use Rattle.cqlp_capture_summary.specs.Fingerprints.{class_of, hex_with, is_digit, is_hex, is_letter, is_number, is_opening, is_space, is_uuid, is_word};

/// What a byte may begin.
#[derive(Clone, Copy)]
pub(crate) enum Class {
    Space,
    Digit,
    Letter,
    Quote,
    DoubleQuote,
    QuestionMark,
    Dash,
    Slash,
    Star,
    Dollar,
    Other,
}

pub(crate) fn class_of(byte: u8) -> Class
    ensures { result ≡ class_of byte }
{
    if is_space(byte) {
        Class::Space
    } else if is_digit(byte) {
        Class::Digit
    } else if is_letter(byte) {
        Class::Letter
    } else if byte == b'\'' {
        Class::Quote
    } else if byte == b'"' {
        Class::DoubleQuote
    } else if byte == b'?' {
        Class::QuestionMark
    } else if byte == b'-' {
        Class::Dash
    } else if byte == b'/' {
        Class::Slash
    } else if byte == b'*' {
        Class::Star
    } else if byte == b'$' {
        Class::Dollar
    } else {
        Class::Other
    }
}

/// Whether a number is none below the one and none above the other.
fn is_among(byte: u8, least: u8, greatest: u8) -> bool
    ensures { result ≡ is_in_range least greatest byte }
{
    least <= byte && byte <= greatest
}

fn is_space(byte: u8) -> bool
    ensures { result ≡ is_space byte }
{
    byte == b' ' || is_among(byte, 9, 13)
}

fn is_digit(byte: u8) -> bool
    ensures { result ≡ is_digit byte }
{
    is_among(byte, b'0', b'9')
}

fn is_letter(byte: u8) -> bool
    ensures { result ≡ is_letter byte }
{
    is_among(byte, b'A', b'Z') || is_among(byte, b'a', b'z') || byte == b'_' || byte >= 128
}

pub(crate) fn is_hex(byte: u8) -> bool
    ensures { result ≡ is_hex byte }
{
    is_digit(byte) || is_among(byte, b'A', b'F') || is_among(byte, b'a', b'f')
}

/// Whether a word goes on with a byte.
pub(crate) fn is_word(byte: u8) -> bool
    ensures { result ≡ is_word byte }
{
    is_digit(byte) || is_letter(byte)
}

/// Whether a number goes on with a byte.
pub(crate) fn is_number(byte: u8) -> bool
    ensures { result ≡ is_number byte }
{
    is_word(byte) || byte == b'.'
}

/// How many hexadecimal digits a word is made of, with this byte; 9 where it is no more the beginning of a uuid.
pub(crate) fn hex_with(byte: u8, count: u8) -> u8
    ensures { result ≡ hex_with byte count }
{
    if is_hex(byte) && count < 8 {
        count + 1
    } else {
        9
    }
}

/// Whether a byte is the first dash of a uuid, behind so many hexadecimal digits.
pub(crate) fn is_uuid(byte: u8, count: u8) -> bool
    ensures { result ≡ is_uuid byte count }
{
    byte == b'-' && count == 8
}

/// Whether a sign behind this byte belongs to a number.
pub(crate) fn is_opening(byte: u8) -> bool
    ensures { result ≡ is_opening byte }
{
    byte == 0
        || byte == b'('
        || byte == b'*'
        || byte == b'+'
        || byte == b','
        || byte == b'-'
        || byte == b'/'
        || byte == b':'
        || is_among(byte, b'<', b'>')
        || byte == b'%'
        || byte == b'['
        || byte == b'{'
}
