//! What C passes of cells.

ghost use Rattle.std.specs.Prelude.{◌≡◌, option_map, take};
ghost use Rattle.cqlp_kind.specs.Contents.{value_of};
ghost use Rattle.cqlp_grammar.specs.Events.{event_of};
ghost use Rattle.cqlp_c.specs.CellFromC as model;

use crate::event::CqlpEvent;
use crate::numbers::*;
use cqlp_grammar::Event;
use cqlp_kind::{Kind, Scalar};
use cqlp_note::{Address, is_text};

/// What C passes of a cell, by a tag of a cell, as an event with this content.
pub fn cell_from_c<'a>(c_event: &CqlpEvent, content: &'a [u8]) -> Option<Event<'a>>
    ensures { option_map event_of result ≡ model.cell_from_c c_event.now content.now }
{
    let CqlpEvent {
        row,
        column,
        level,
        ..
    } = *c_event;
    match c_event.tag {
        TAG_LEAF => Some(Event::Leaf {
            row,
            column,
            level,
            scalar: scalar_from_c(kind_numbered(c_event.kind)?, c_event, content)?,
        }),
        TAG_NULL => Some(Event::Null { row, column, level }),
        TAG_EMPTY => Some(Event::Empty { row, column, level }),
        TAG_ENTER => Some(Event::Enter {
            row,
            column,
            level,
            kind: kind_numbered(c_event.kind)?,
            items: u32::try_from(c_event.number).ok()?,
        }),
        TAG_LEAVE => Some(Event::Leave {
            level,
            items: u32::try_from(c_event.number).ok()?,
        }),
        _ => None,
    }
}

/// Whether a scalar of the kind with this number has a content.
#[inline(always)]
pub fn lends(kind: u8) -> bool
    ensures { result ≡ model.lends kind }
{
    matches!(
        kind,
        KIND_CUSTOM | KIND_ASCII | KIND_BLOB | KIND_DECIMAL | KIND_VARCHAR | KIND_VARINT | KIND_RAW
    )
}

/// A scalar of this kind.
#[inline(always)]
pub fn scalar_from_c<'a>(kind: Kind, c_event: &CqlpEvent, content: &'a [u8]) -> Option<Scalar<'a>>
    ensures { option_map value_of result ≡ model.scalar_from_c kind c_event.now content.now }
{
    match kind {
        Kind::Custom => Some(Scalar::Custom(content)),
        Kind::Ascii => Some(Scalar::Ascii(text_in(content)?)),
        Kind::Blob => Some(Scalar::Blob(content)),
        Kind::Decimal => Some(Scalar::Decimal {
            scale: c_event.extra,
            unscaled: content,
        }),
        Kind::Double => Some(Scalar::Double(first_eight(c_event.bytes))),
        Kind::Float => Some(Scalar::Float(first_four(c_event.bytes))),
        Kind::Uuid => Some(Scalar::Uuid(c_event.bytes)),
        Kind::Varchar => Some(Scalar::Varchar(text_in(content)?)),
        Kind::Varint => Some(Scalar::Varint(content)),
        Kind::Timeuuid => Some(Scalar::Timeuuid(c_event.bytes)),
        Kind::Inet => Some(Scalar::Inet(address_from_c(c_event)?)),
        Kind::Raw => Some(Scalar::Raw(content)),
        _ => numbered_from_c(kind, c_event.number),
    }
}

/// A scalar of a kind that is known by its number.
#[inline(always)]
fn numbered_from_c<'a>(kind: Kind, number: i64) -> Option<Scalar<'a>>
    ensures { option_map value_of result ≡ model.numbered_from_c kind number }
{
    match kind {
        Kind::Bigint => Some(Scalar::Bigint(number)),
        Kind::Boolean => Some(Scalar::Boolean(truth_from_c(number)?)),
        Kind::Counter => Some(Scalar::Counter(number)),
        Kind::Int => Some(Scalar::Int(i32::try_from(number).ok()?)),
        Kind::Timestamp => Some(Scalar::Timestamp(number)),
        Kind::Date => Some(Scalar::Date(u32::try_from(number).ok()?)),
        Kind::Time => Some(Scalar::Time(number)),
        Kind::Smallint => Some(Scalar::Smallint(i16::try_from(number).ok()?)),
        Kind::Tinyint => Some(Scalar::Tinyint(i8::try_from(number).ok()?)),
        _ => None,
    }
}

/// False is 0, and true is 1.
#[inline(always)]
fn truth_from_c(number: i64) -> Option<bool>
    ensures { result ≡ model.truth_from_c number }
{
    match number {
        0 => Some(false),
        1 => Some(true),
        _ => None,
    }
}

/// The text that these bytes are, if they are UTF-8.
#[tactic(auto, using(cqlp_note::proofs::Texts::utf8_known))]
#[inline(always)]
pub fn text_in(content: &[u8]) -> Option<&str>
    ensures { option_map (λ text. text.now) result ≡ model.text_in content.now }
{
    if is_text(content) {
        Some(unsafe { str::from_utf8_unchecked(content) })
    } else {
        None
    }
}

/// The first four bytes.
#[inline(always)]
fn first_four(bytes: [u8; 16]) -> [u8; 4]
    ensures { result ≡ take 4 bytes }
{
    let [first, second, third, last, ..] = bytes;
    [first, second, third, last]
}

/// The first eight bytes.
#[inline(always)]
fn first_eight(bytes: [u8; 16]) -> [u8; 8]
    ensures { result ≡ take 8 bytes }
{
    let [a, b, c, d, e, f, g, h, ..] = bytes;
    [a, b, c, d, e, f, g, h]
}

/// An address, by how many bytes it has.
#[inline(always)]
pub fn address_from_c(c_event: &CqlpEvent) -> Option<Address>
    ensures { result ≡ model.address_from_c c_event.now }
{
    match c_event.octets {
        4 => Some(Address::V4(first_four(c_event.bytes))),
        16 => Some(Address::V6(c_event.bytes)),
        _ => None,
    }
}
