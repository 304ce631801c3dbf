//! What statements have in common that differ in their literals alone.

ghost use Rattle.std.specs.Prelude.{◌≡◌, ◌≤◌, length};
ghost use Rattle.cqlp_capture_summary.specs.Fingerprints.{behind_dollar, behind_star, class_of, fingerprint_of, in_block, in_dollars, in_line};
ghost use Rattle.cqlp_capture_summary.specs.Fingerprints.{in_number, in_text, mode_after, mode_at, mode_at_comment, read_from};
ghost use Rattle.cqlp_capture_summary.specs.Fingerprints.{text_after, text_at};
ghost use Rattle.cqlp_capture_summary.specs.declared.mode.Mode.TheVariants as mode;

use crate::class::{Class, class_of, hex_with, is_hex, is_number, is_uuid, is_word};
use crate::mode::Mode;
use crate::written::Written;
use std::marker::Model;

/// A statement with each literal as `?`, lists of literals as `?+`, and white space and comments as one space. At most 256 bytes.
#[derive(Drop)]
pub struct Fingerprint {
    written: Written,
}

impl Model for Fingerprint {
    ghost use Rattle.cqlp_capture_summary.specs.Names.{Name};

    ghost Value = { Name };

    ghost view = { λ f. f.written };
}

impl Fingerprint {
    /// Of a statement of which these are the bytes, or the first ones.
    pub fn new(statement: &[u8], is_whole: bool) -> Self
        ensures { result ≡ fingerprint_of statement.now is_whole }
    {
        let mut written = Written::new(is_whole);
        read(&mut written, statement);
        written.trim();
        Fingerprint { written }
    }

    pub fn as_slice(&self) -> &[u8]
        ensures bytes { result.now ≡ self.now.bytes }
        ensures few { length result.now ≤ 256 }
    {
        self.written.as_slice()
    }

    /// Whether it is that of a whole statement, and all of it.
    pub fn is_whole(&self) -> bool
        ensures { result ≡ self.now.is_whole }
    {
        self.written.is_whole()
    }
}

fn read(written: &mut Written, statement: &[u8])
    ensures { written.new ≡ read_from mode.Between statement.now written.old }
{
    let mut mode = Mode::Between;
    for byte in statement {
        mode = read_byte(written, mode, *byte);
    }
}

fn read_byte(written: &mut Written, mode: Mode, byte: u8) -> Mode
    ensures mode { result ≡ mode_after mode byte written.old }
    ensures text { written.new ≡ text_after mode byte written.old }
{
    match mode {
        Mode::Between => begin(written, byte),
        Mode::Word(count) => in_word(written, byte, count),
        Mode::Number(count) => in_digits(written, byte, count),
        Mode::Exponent(count) => in_exponent(written, byte, count),
        Mode::Uuid => in_uuid(written, byte),
        Mode::TextEnd => behind_text(written, byte),
        Mode::Name => in_name(written, byte),
        Mode::Text => in_text(byte),
        Mode::Dollars => in_dollars(byte),
        Mode::DollarsEnd => behind_dollar(byte),
        Mode::Line => in_line(byte),
        Mode::Block => in_block(byte),
        Mode::BlockEnd => behind_star(byte),
    }
}

/// A byte behind a whole word, number, text or comment.
fn begin(written: &mut Written, byte: u8) -> Mode
    ensures mode { result ≡ mode_at (class_of byte) byte written.old }
    ensures text { written.new ≡ text_at (class_of byte) byte written.old }
{
    let class = class_of(byte);
    let mode = mode_at(written, class, byte);
    write_at(written, class, byte);
    mode
}

fn mode_at(written: &Written, class: Class, byte: u8) -> Mode
    ensures { result ≡ mode_at class byte written.now }
{
    match class {
        Class::Space => Mode::Between,
        Class::Digit => Mode::Number(1),
        Class::Letter => Mode::Word(hex_with(byte, 0)),
        Class::Quote => Mode::Text,
        Class::DoubleQuote => Mode::Name,
        Class::QuestionMark => Mode::Between,
        Class::Dash => mode_behind(written, b'-', Mode::Line),
        Class::Slash => mode_behind(written, b'/', Mode::Line),
        Class::Star => mode_behind(written, b'/', Mode::Block),
        Class::Dollar => mode_behind(written, b'$', Mode::Dollars),
        Class::Other => Mode::Between,
    }
}

/// This mode where this byte is the last one.
fn mode_behind(written: &Written, before: u8, mode: Mode) -> Mode
    ensures { result ≡ mode_at_comment before mode written.now }
{
    if written.back(1) == before {
        mode
    } else {
        Mode::Between
    }
}

fn write_at(written: &mut Written, class: Class, byte: u8)
    ensures { written.new ≡ text_at class byte written.old }
{
    match class {
        Class::Space => written.space(),
        Class::Digit => {
            written.drop_sign();
            written.literal();
        }
        Class::Letter => written.push(byte),
        Class::Quote => written.literal(),
        Class::DoubleQuote => written.push(byte),
        Class::QuestionMark => written.literal(),
        Class::Dash => written.push_or_space(b'-', byte),
        Class::Slash => written.push_or_space(b'/', byte),
        Class::Star => written.push_or_space(b'/', byte),
        Class::Dollar => written.push_or_literal(byte),
        Class::Other => written.push(byte),
    }
}

fn in_word(written: &mut Written, byte: u8, count: u8) -> Mode
    ensures mode { result ≡ mode_after (mode.Word count) byte written.old }
    ensures text { written.new ≡ text_after (mode.Word count) byte written.old }
{
    if is_word(byte) {
        written.push(byte);
        return Mode::Word(hex_with(byte, count));
    }
    if is_uuid(byte, count) {
        written.cut(8);
        written.literal();
        return Mode::Uuid;
    }
    begin(written, byte)
}

fn in_digits(written: &mut Written, byte: u8, count: u8) -> Mode
    ensures mode { result ≡ mode_after (mode.Number count) byte written.old }
    ensures text { written.new ≡ text_after (mode.Number count) byte written.old }
{
    if is_number(byte) {
        return in_number(byte, count);
    }
    if is_uuid(byte, count) {
        return Mode::Uuid;
    }
    begin(written, byte)
}

fn in_exponent(written: &mut Written, byte: u8, count: u8) -> Mode
    ensures mode { result ≡ mode_after (mode.Exponent count) byte written.old }
    ensures text { written.new ≡ text_after (mode.Exponent count) byte written.old }
{
    if is_number(byte) {
        return in_number(byte, count);
    }
    if is_uuid(byte, count) {
        return Mode::Uuid;
    }
    if byte == b'-' || byte == b'+' {
        return Mode::Number(9);
    }
    begin(written, byte)
}

/// A byte with which a number goes on.
fn in_number(byte: u8, count: u8) -> Mode
    ensures { result ≡ in_number byte count }
{
    let count = hex_with(byte, count);
    if byte == b'E' || byte == b'e' {
        Mode::Exponent(count)
    } else {
        Mode::Number(count)
    }
}

fn in_uuid(written: &mut Written, byte: u8) -> Mode
    ensures mode { result ≡ mode_after mode.Uuid byte written.old }
    ensures text { written.new ≡ text_after mode.Uuid byte written.old }
{
    if is_hex(byte) || byte == b'-' {
        return Mode::Uuid;
    }
    begin(written, byte)
}

fn behind_text(written: &mut Written, byte: u8) -> Mode
    ensures mode { result ≡ mode_after mode.TextEnd byte written.old }
    ensures text { written.new ≡ text_after mode.TextEnd byte written.old }
{
    if byte == b'\'' {
        return Mode::Text;
    }
    begin(written, byte)
}

fn in_name(written: &mut Written, byte: u8) -> Mode
    ensures mode { result ≡ mode_after mode.Name byte written.old }
    ensures text { written.new ≡ text_after mode.Name byte written.old }
{
    written.push(byte);
    if byte == b'"' {
        Mode::Between
    } else {
        Mode::Name
    }
}

fn in_text(byte: u8) -> Mode
    ensures { result ≡ in_text byte }
{
    if byte == b'\'' {
        Mode::TextEnd
    } else {
        Mode::Text
    }
}

fn in_dollars(byte: u8) -> Mode
    ensures { result ≡ in_dollars byte }
{
    if byte == b'$' {
        Mode::DollarsEnd
    } else {
        Mode::Dollars
    }
}

fn behind_dollar(byte: u8) -> Mode
    ensures { result ≡ behind_dollar byte }
{
    if byte == b'$' {
        Mode::Between
    } else {
        Mode::Dollars
    }
}

fn in_line(byte: u8) -> Mode
    ensures { result ≡ in_line byte }
{
    if byte == b'\n' || byte == b'\r' {
        Mode::Between
    } else {
        Mode::Line
    }
}

fn in_block(byte: u8) -> Mode
    ensures { result ≡ in_block byte }
{
    if byte == b'*' {
        Mode::BlockEnd
    } else {
        Mode::Block
    }
}

fn behind_star(byte: u8) -> Mode
    ensures { result ≡ behind_star byte }
{
    match byte {
        b'/' => Mode::Between,
        b'*' => Mode::BlockEnd,
        _ => Mode::Block,
    }
}
