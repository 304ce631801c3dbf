//! Texts of a peer, as a terminal may show them.

ghost use Rattle.std.specs.Prelude.{◌≡◌};
ghost use Rattle.std.specs.Int.{is_in_range};
ghost use Rattle.std.specs.List.{flat_map, list_all};
ghost use Rattle.cqlp_text.specs.Written.{Writes};
ghost use Rattle.cqlp_capture_summary.specs.Shown.{escape, is_hidden, is_plain, shown, shown_in_field, shown_in_fields, shown_text};

use cqlp_grammar::SinkFault;
use cqlp_text::{Pen, TextWriter};

/// Takes a text as it is written between quotes: a quote, a backslash and each character that a terminal may obey is escaped.
pub fn put_shown_text<P: Pen>(writer: &mut TextWriter<P>, text: &str) -> Result<(), SinkFault>
    ensures { Writes writer.old (shown_text text.now) result writer.new }
{
    if are_plain(text.as_bytes()) {
        return writer.put(text.as_bytes());
    }
    for c in text.chars() {
        put_shown(writer, c)?;
    }
    Ok(())
}

/// Takes a text as it is written between the quotes of a field of CSV: a quote is doubled, and all else is as `put_shown_text` takes it.
pub fn put_shown_in_field<P: Pen>(writer: &mut TextWriter<P>, text: &str) -> Result<(), SinkFault>
    ensures { Writes writer.old (shown_in_field text.now) result writer.new }
{
    for c in text.chars() {
        put_in_field(writer, c)?;
    }
    Ok(())
}

fn put_in_field<P: Pen>(writer: &mut TextWriter<P>, c: char) -> Result<(), SinkFault>
    ensures { Writes writer.old (shown_in_fields c) result writer.new }
{
    if c == '"' {
        writer.put(b"\"\"")
    } else {
        put_shown(writer, c)
    }
}

/// Whether each byte is written as it is. All are looked at, so that the compiler looks at many at once.
fn are_plain(bytes: &[u8]) -> bool
    ensures { result ≡ list_all is_plain bytes.now }
{
    let mut plain = true;
    for byte in bytes {
        plain &= is_plain(*byte);
    }
    plain
}

/// Whether a byte is a character that is not escaped.
fn is_plain(byte: u8) -> bool
    ensures { result ≡ is_plain byte }
{
    (0x20..=0x21).contains(&byte) || (0x23..=0x5B).contains(&byte) || (0x5D..=0x7E).contains(&byte)
}

/// Takes a character as it is written between quotes.
fn put_shown<P: Pen>(writer: &mut TextWriter<P>, c: char) -> Result<(), SinkFault>
    ensures { Writes writer.old (shown c) result writer.new }
{
    let mut room = [0; 4];
    let bytes = c.encode_utf8(&mut room).as_bytes();
    if is_hidden(c) {
        return put_escapes(writer, bytes);
    }
    match c {
        '"' => writer.put(b"\\\""),
        '\\' => writer.put(b"\\\\"),
        _ => writer.put(bytes),
    }
}

/// Takes bytes each as `\x` and two hexadecimal digits.
fn put_escapes<P: Pen>(writer: &mut TextWriter<P>, bytes: &[u8]) -> Result<(), SinkFault>
    ensures { Writes writer.old (flat_map escape bytes.now) result writer.new }
{
    for byte in bytes {
        writer.put(b"\\x")?;
        writer.put_hex(&[*byte])?;
    }
    Ok(())
}

/// Whether a terminal may obey a character, or show a line in another order for it.
fn is_hidden(c: char) -> bool
    ensures { result ≡ is_hidden c }
{
    let code = u32::from(c);
    is_among(code, 0x0000, 0x001F)
        || is_among(code, 0x007F, 0x009F)
        || code == 0x061C
        || is_among(code, 0x200E, 0x200F)
        || is_among(code, 0x2028, 0x202E)
        || is_among(code, 0x2066, 0x2069)
}

/// Whether a number is none below the one and none above the other.
fn is_among(number: u32, least: u32, greatest: u32) -> bool
    ensures { result ≡ is_in_range least greatest number }
{
    least <= number && number <= greatest
}
