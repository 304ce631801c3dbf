//! Members of JSON objects, and their values.

ghost use Rattle.std.specs.Prelude.{◌≡◌, option_map};
ghost use Rattle.std.specs.Fmt.{signed_decimal};
ghost use Rattle.std.specs.List.{flat_map};
ghost use Rattle.cqlp_text.specs.CellText.{boolean_text};
ghost use Rattle.cqlp_text.specs.Written.{Writes};
ghost use Rattle.cqlp_capture_exchanges.specs.CsvFields.{field_text, if_known};
ghost use Rattle.cqlp_capture_exchanges.specs.CsvRecords.{level as level_text};
ghost use Rattle.cqlp_capture_exchanges.specs.Members.{consistency_or_null, end_value, flag_or_null, hex_or_null, member_text, name_or_code};
ghost use Rattle.cqlp_capture_exchanges.specs.Members.{number as number_text, number_or_null, quote, seconds, seconds_or_null, string_or_null};
ghost use Rattle.cqlp_capture_exchanges.specs.Members.{signed_or_null, utc as utc_text, utc_or_null, uuid as uuid_text, uuid_or_null, value_text};

use crate::end::put_end;
use crate::reply::consistency_name;
use crate::span::{Span, sign};
use cqlp_grammar::SinkFault;
use cqlp_json::{put_bytes, put_string, put_word};
use cqlp_tcp_segment::Endpoint;
use cqlp_text::{Pen, TextWriter};

/// How many nanoseconds a day has.
const DAY: u64 = 86_400_000_000_000;

/// The number that `TextWriter::put_date` takes for the first of January 1970.
const EPOCH: u64 = 1 << 31;

/// The value of a member.
#[derive(Clone, Copy)]
pub(crate) enum Value<'a> {
    Null,
    Flag(bool),
    /// Between quotes where it is above 2^53.
    Number(u64),
    Signed(i32),
    /// With nine digits after the point; between quotes where it is more than 2^53 nanoseconds.
    Seconds(Span),
    /// Nanoseconds since 1970-01-01 00:00:00 UTC as a date and a time of day.
    Utc(u64),
    /// As a socket's address is written.
    End(Endpoint),
    /// A text that needs no escape.
    Name(&'a str),
    Text(&'a str),
    Hex(&'a [u8]),
    /// With hyphens.
    Uuid([u8; 16]),
}

/// A value, and the text before it: a comma or a bracket, the member's key in quotes and a colon.
#[derive(Clone, Copy)]
pub(crate) struct Member<'a>(pub &'a str, pub Value<'a>);

/// A time, where it is known.
pub(crate) fn seconds_or_null(time: Option<Span>) -> Value<'static>
    ensures value { value_text result ≡ seconds_or_null time }
    ensures field { field_text result ≡ if_known seconds time }
{
    match time {
        Some(span) => Value::Seconds(span),
        None => Value::Null,
    }
}

/// A date and a time of day, where they are known.
pub(crate) fn utc_or_null(time: Option<u64>) -> Value<'static>
    ensures value { value_text result ≡ utc_or_null time }
    ensures field { field_text result ≡ if_known utc_text time }
{
    match time {
        Some(time) => Value::Utc(time),
        None => Value::Null,
    }
}

/// A number, where it is known.
pub(crate) fn signed_or_null(number: Option<i32>) -> Value<'static>
    ensures value { value_text result ≡ signed_or_null number }
    ensures field { field_text result ≡ if_known signed_decimal number }
{
    match number {
        Some(number) => Value::Signed(number),
        None => Value::Null,
    }
}

/// A number, where it is known.
pub(crate) fn number_or_null(number: Option<u16>) -> Value<'static>
    ensures value { value_text result ≡ number_or_null number }
    ensures field { field_text result ≡ if_known number_text number }
{
    match number {
        Some(number) => Value::Number(u64::from(number)),
        None => Value::Null,
    }
}

/// An id, where it is known.
pub(crate) fn uuid_or_null(id: Option<[u8; 16]>) -> Value<'static>
    ensures value { value_text result ≡ uuid_or_null id }
    ensures field { field_text result ≡ if_known uuid_text id }
{
    match id {
        Some(id) => Value::Uuid(id),
        None => Value::Null,
    }
}

/// Whether something is so, where that is known.
pub(crate) fn flag_or_null(flag: Option<bool>) -> Value<'static>
    ensures value { value_text result ≡ flag_or_null flag }
    ensures field { field_text result ≡ if_known boolean_text flag }
{
    match flag {
        Some(flag) => Value::Flag(flag),
        None => Value::Null,
    }
}

/// A text, where it is known.
pub(crate) fn text_or_null<'a>(text: Option<&'a str>) -> Value<'a>
    ensures { value_text result ≡ string_or_null (option_map (λ t. t.now) text.entry) }
{
    match text {
        Some(text) => Value::Text(text),
        None => Value::Null,
    }
}

/// Bytes, where they are known.
pub(crate) fn hex_or_null<'a>(bytes: Option<&'a [u8]>) -> Value<'a>
    ensures { value_text result ≡ hex_or_null (option_map (λ t. t.now) bytes.entry) }
{
    match bytes {
        Some(bytes) => Value::Hex(bytes),
        None => Value::Null,
    }
}

/// A consistency level, where it is known.
pub(crate) fn consistency_or_null(level: Option<u16>) -> Value<'static>
    ensures value { value_text result ≡ consistency_or_null level }
    ensures field { field_text result ≡ if_known level_text level }
{
    match level {
        Some(level) => name_or_code(consistency_name(level), u32::from(level)),
        None => Value::Null,
    }
}

/// A name, or where there is none the number.
pub(crate) fn name_or_code(name: Option<&'static str>, code: u32) -> Value<'static>
    ensures value { value_text result ≡ name_or_code (option_map (λ s. s.now) name.entry) code }
    ensures field { field_text result ≡ name_or_code (option_map (λ s. s.now) name.entry) code }
{
    match name {
        Some(name) => Value::Name(name),
        None => Value::Number(u64::from(code)),
    }
}

/// Takes members, one after the other.
pub(crate) fn put_members<P: Pen>(
    writer: &mut TextWriter<P>,
    members: &[Member<'_>],
) -> Result<(), SinkFault>
    ensures { Writes writer.old (flat_map member_text members.now) result writer.new }
{
    for member in members {
        writer.put_str(member.0)?;
        put_value(writer, &member.1)?;
    }
    Ok(())
}

/// Takes a value. It is large, and stays where it is, here and below.
#[inline(always)]
pub(crate) fn put_value<P: Pen>(
    writer: &mut TextWriter<P>,
    value: &Value<'_>,
) -> Result<(), SinkFault>
    ensures { Writes writer.old (value_text value.now) result writer.new }
{
    match value {
        Value::Null => writer.put(b"null"),
        Value::Flag(true) => writer.put(b"true"),
        Value::Flag(false) => writer.put(b"false"),
        _ => put_any_value(writer, value),
    }
}

/// The same, out of line: most values are null or a flag.
#[inline(never)]
fn put_any_value<P: Pen>(writer: &mut TextWriter<P>, value: &Value<'_>) -> Result<(), SinkFault>
    ensures { Writes writer.old (value_text value.now) result writer.new }
{
    match value {
        Value::Null => writer.put(b"null"),
        Value::Flag(flag) => writer.put_str(boolean_text(*flag)),
        Value::Number(number) => put_big(writer, *number),
        Value::Signed(number) => writer.put_signed(i64::from(*number)),
        Value::Seconds(span) => put_seconds(writer, *span),
        Value::Utc(time) => put_utc(writer, *time),
        Value::End(end) => put_end_value(writer, *end),
        Value::Name(name) => put_word(name, writer),
        Value::Text(text) => put_string(text, writer),
        Value::Hex(bytes) => put_bytes(bytes, writer),
        Value::Uuid(id) => put_id(writer, *id),
    }
}

fn boolean_text(flag: bool) -> &'static str
    ensures { result.now ≡ boolean_text flag }
{
    if flag { "true" } else { "false" }
}

fn put_id<P: Pen>(writer: &mut TextWriter<P>, id: [u8; 16]) -> Result<(), SinkFault>
    ensures { Writes writer.old (uuid_text id) result writer.new }
{
    writer.put(b"\"")?;
    writer.put_uuid(id)?;
    writer.put(b"\"")
}

/// What comes before and behind a number: quotes, where many readers of JSON do not keep it exactly.
fn quote(number: u64) -> &'static str
    ensures { result.now ≡ quote number }
{
    if number > 9_007_199_254_740_992 {
        "\""
    } else {
        ""
    }
}

fn put_big<P: Pen>(writer: &mut TextWriter<P>, number: u64) -> Result<(), SinkFault>
    ensures { Writes writer.old (number_text number) result writer.new }
{
    writer.put_str(quote(number))?;
    writer.put_number(number)?;
    writer.put_str(quote(number))
}

fn put_seconds<P: Pen>(writer: &mut TextWriter<P>, span: Span) -> Result<(), SinkFault>
    ensures { Writes writer.old (seconds span) result writer.new }
{
    let nanoseconds = span.nanoseconds;
    writer.put_str(quote(nanoseconds))?;
    writer.put_str(sign(span.is_before))?;
    writer.put_number(nanoseconds / 1_000_000_000)?;
    writer.put(b".")?;
    writer.put_digits(9, nanoseconds % 1_000_000_000)?;
    writer.put_str(quote(nanoseconds))
}

fn put_utc<P: Pen>(writer: &mut TextWriter<P>, time: u64) -> Result<(), SinkFault>
    ensures { Writes writer.old (utc_text time) result writer.new }
{
    let day = EPOCH + time / DAY;
    writer.put(b"\"")?;
    writer.put_date(day as u32)?;
    writer.put(b"T")?;
    writer.put_time((time % DAY) as i64)?;
    writer.put(b"Z\"")
}

fn put_end_value<P: Pen>(writer: &mut TextWriter<P>, end: Endpoint) -> Result<(), SinkFault>
    ensures { Writes writer.old (end_value end) result writer.new }
{
    writer.put(b"\"")?;
    put_end(writer, end)?;
    writer.put(b"\"")
}
