//! Events that C passes.

ghost use Rattle.std.specs.Prelude.{◌≡◌, ◌↔◌, IfNone, IfOk, IfSome, IsTrue, drop, option_map};
ghost use Rattle.cqlp_kind.specs.Contents.{value_of};
ghost use Rattle.cqlp_grammar.specs.Events.{Holds, event_of};
ghost use Rattle.cqlp_c.specs.FromC as model;

use crate::cell_from_c::{address_from_c, cell_from_c, lends, scalar_from_c, text_in};
use crate::event::CqlpEvent;
use crate::numbers::*;
use cqlp_grammar::Event;
use cqlp_kind::{Kind, Scalar};
use cqlp_note::{BoundValue, Field, Header, Opcode};

/// Why what C passes is no event that a frame is made of.
#[derive(Clone, Copy)]
pub enum BadEvent {
    /// No such tag, field, kind, opcode or mark, a number out of its range, a text that is not UTF-8, or fewer bytes than its length.
    NoEvent,
    /// A part of a scalar of a cell, of which no frame is made.
    Unbuilt,
}

/// What C passes as an event, with the first bytes of the contents that are left, where it has a content; and the contents after it.
pub fn event_from_c<'a>(
    c_event: &CqlpEvent,
    contents: &'a [u8],
) -> Result<(Event<'a>, &'a [u8]), BadEvent>
    ensures event { model.first_of (λ found. event_of found.0) result ≡ model.event_from_c c_event.now contents.now }
    ensures rest { IfOk result (λ found. found.1.now ≡ drop (model.content_len c_event.now) contents.now) }
{
    if c_event.tag == TAG_PART {
        return Err(BadEvent::Unbuilt);
    }
    let len = content_len(c_event);
    if contents.len() < len {
        return Err(BadEvent::NoEvent);
    }
    let (content, rest) = contents.split_at(len);
    match event_with(c_event, content) {
        Some(event) => Ok((event, rest)),
        None => Err(BadEvent::NoEvent),
    }
}

/// The scalar of what C passes as a leaf of this kind with no value around it, whose content is the first of the contents, and the contents after it;
/// None where it is no such leaf.
#[tactic(auto, using(crate::proofs::Leaves::leaf_read, crate::proofs::Leaves::no_leaf, crate::proofs::Leaves::short_leaf))]
#[inline(always)]
pub fn leaf_from_c<'a>(
    c_event: &CqlpEvent,
    kind: Kind,
    contents: &'a [u8],
) -> Option<(Scalar<'a>, &'a [u8])>
    ensures leaf { IfSome result (λ found. model.event_from_c c_event.now contents.now ≡ model.found_leaf c_event.now (value_of found.0)) }
    ensures rest { IfSome result (λ found. found.1.now ≡ drop (model.content_len c_event.now) contents.now) }
    ensures none { IfNone result (model.IsNoLeaf c_event.now kind contents.now) }
{
    if !is_leaf(c_event, kind) {
        return None;
    }
    let len = content_len(c_event);
    if contents.len() < len {
        return None;
    }
    let (content, rest) = contents.split_at(len);
    match scalar_from_c(kind, c_event, content) {
        Some(scalar) => Some((scalar, rest)),
        None => None,
    }
}

/// Whether C passes a leaf of this kind with no value around it.
#[inline(always)]
fn is_leaf(c_event: &CqlpEvent, kind: Kind) -> bool
    ensures { IsTrue result ↔ model.IsLeaf c_event.now kind }
{
    c_event.tag == TAG_LEAF && c_event.kind == kind_number(kind) && c_event.level == 0
}

/// Whether C passes a null with no value around it.
#[inline(always)]
pub fn is_null(c_event: &CqlpEvent) -> bool
    ensures { IsTrue result ↔ model.IsNull c_event.now }
{
    c_event.tag == TAG_NULL && c_event.level == 0
}

/// Whether C passes an empty value with no value around it.
#[inline(always)]
pub fn is_empty(c_event: &CqlpEvent) -> bool
    ensures { IsTrue result ↔ model.IsEmpty c_event.now }
{
    c_event.tag == TAG_EMPTY && c_event.level == 0
}

/// How many bytes its content has; none where it has no content.
#[inline(always)]
pub fn content_len(c_event: &CqlpEvent) -> usize
    ensures { result ≡ model.content_len c_event.now }
{
    if has_content(c_event) {
        c_event.length
    } else {
        0
    }
}

/// Whether it is a text, bytes that are there, or a scalar that has a content.
#[inline(always)]
fn has_content(c_event: &CqlpEvent) -> bool
    ensures { result ≡ model.has_content c_event.now }
{
    match c_event.tag {
        TAG_TEXT => true,
        TAG_BYTES | TAG_BOUND => c_event.mark == MARK_NONE,
        TAG_LEAF => lends(c_event.kind),
        _ => false,
    }
}

/// The event with this content.
fn event_with<'a>(c_event: &CqlpEvent, content: &'a [u8]) -> Option<Event<'a>>
    ensures { option_map event_of result ≡ model.event_with c_event.now content.now }
{
    match c_event.tag {
        TAG_FRAME => Some(Event::Frame(header_from_c(c_event)?)),
        TAG_END => Some(Event::End { extra: 0 }),
        TAG_TYPE_NODE => Some(Event::TypeNode(kind_numbered(c_event.kind)?)),
        TAG_LEAF | TAG_NULL | TAG_EMPTY | TAG_ENTER | TAG_LEAVE => cell_from_c(c_event, content),
        _ => field_from_c(c_event, field_numbered(c_event.field)?, content),
    }
}

/// The header of a frame, without its length.
fn header_from_c(c_event: &CqlpEvent) -> Option<Header>
    ensures { result ≡ model.header_from_c c_event.now }
{
    let opcode = Opcode::from_number(c_event.opcode)?;
    let stream = i16::try_from(c_event.extra).ok()?;
    let response = match c_event.mark {
        MARK_NONE => false,
        MARK_RESPONSE => true,
        _ => return None,
    };
    Some(Header {
        response,
        flags: c_event.flags,
        stream,
        opcode,
        length: 0,
    })
}

/// The event of this field.
fn field_from_c<'a>(c_event: &CqlpEvent, field: Field, content: &'a [u8]) -> Option<Event<'a>>
    ensures { option_map event_of result ≡ option_map (Holds field) (model.value_from_c c_event.now content.now) }
{
    match c_event.tag {
        TAG_TEXT => text_from_c(field, content),
        TAG_BYTES => bytes_from_c(c_event.mark, field, content),
        TAG_BOUND => bound_from_c(c_event.mark, field, content),
        TAG_UUID => Some(Event::Uuid {
            field,
            value: c_event.bytes,
        }),
        TAG_INET => Some(Event::Inet {
            field,
            address: address_from_c(c_event)?,
            port: c_event.extra,
        }),
        _ => number_from_c(c_event.tag, field, c_event.number),
    }
}

/// A field that is a number.
#[tactic(auto, unfolding(crate::specs::FromC::number_from_c))]
fn number_from_c<'a>(tag: u8, field: Field, number: i64) -> Option<Event<'a>>
    ensures { option_map event_of result ≡ option_map (Holds field) (model.number_from_c tag number) }
{
    match tag {
        TAG_BYTE => Some(Event::Byte {
            field,
            value: u8::try_from(number).ok()?,
        }),
        TAG_SHORT => Some(Event::Short {
            field,
            value: u16::try_from(number).ok()?,
        }),
        TAG_INT => Some(Event::Int {
            field,
            value: i32::try_from(number).ok()?,
        }),
        TAG_LONG => Some(Event::Long {
            field,
            value: number,
        }),
        TAG_COUNT => Some(Event::Count {
            field,
            count: u32::try_from(number).ok()?,
        }),
        _ => None,
    }
}

/// A text.
fn text_from_c<'a>(field: Field, content: &'a [u8]) -> Option<Event<'a>>
    ensures { option_map event_of result ≡ option_map (Holds field) (model.text_from_c content.now) }
{
    Some(Event::Text {
        field,
        text: text_in(content)?,
    })
}

/// \[bytes\], or null.
fn bytes_from_c<'a>(mark: u8, field: Field, content: &'a [u8]) -> Option<Event<'a>>
    ensures { option_map event_of result ≡ option_map (Holds field) (model.bytes_from_c mark content.now) }
{
    let bytes = match mark {
        MARK_NONE => Some(content),
        MARK_NULL => None,
        _ => return None,
    };
    Some(Event::Bytes { field, bytes })
}

/// A \[value\] of a request.
fn bound_from_c<'a>(mark: u8, field: Field, content: &'a [u8]) -> Option<Event<'a>>
    ensures { option_map event_of result ≡ option_map (Holds field) (model.bound_from_c mark content.now) }
{
    let value = match mark {
        MARK_NONE => BoundValue::Bytes(content),
        MARK_NULL => BoundValue::Null,
        MARK_UNSET => BoundValue::Unset,
        _ => return None,
    };
    Some(Event::Bound { field, value })
}
