//! An event, as C sees it.

ghost use Rattle.std.specs.Prelude.{◌≡◌, ◌++◌, Some, nat_lt, pos};
ghost use Rattle.std.specs.Ptr.{as_ptr};
ghost use Rattle.cqlp_kind.specs.CellStep as cell;
ghost use Rattle.cqlp_kind.specs.Contents.{value_of};
ghost use Rattle.cqlp_note.specs.Field as value;
ghost use Rattle.cqlp_note.specs.Head.{value_of as value_of_primitive};
ghost use Rattle.cqlp_note.specs.declared.prim.Primitive.TheVariants as primitive;
ghost use Rattle.cqlp_grammar.specs.Events.{Cell_at, Holds, event_of};
ghost use Rattle.cqlp_c.specs.Events.{LendsFrom, Writes, content_after, has_address, scalar_after, zeros};

use crate::numbers::*;
use cqlp_decode::Event;
use cqlp_kind::{Kind, Scalar};
use cqlp_note::{Address, BoundValue, Field, Header};

/// An event. What its tag has no use for is 0.
#[repr(C)]
#[derive(Clone, Copy)]
pub struct CqlpEvent {
    /// The offset in the stream of the event's field; an end's is the frame's end.
    pub at: u64,
    /// Where the content lies that the event lends, also one of no bytes; null where it lends none.
    pub content: *const u8,
    /// How many bytes the content has.
    pub length: usize,
    /// The number of the event: a value, a count, how many items, the offset of a part, the bytes of a body, or
    /// those after the last field.
    pub number: i64,
    /// The row of a cell, from 0.
    pub row: u32,
    /// The column of a cell, from 0.
    pub column: u32,
    /// The number of values around a value.
    pub level: u32,
    /// The stream id of a frame, the port of an address, or the scale of a decimal.
    pub extra: i32,
    /// A uuid, an address, or a binary number, its bytes in their order, and zeros after them.
    pub bytes: [u8; 16],
    /// What the event is: a number `TAG_..`.
    pub tag: u8,
    /// Which field it is: a number `FIELD_..`.
    pub field: u8,
    /// Of which kind a type, a scalar or a value with items is: a number `KIND_..`.
    pub kind: u8,
    /// The opcode of a frame, as in its header.
    pub opcode: u8,
    /// The flags of a frame, as in its header.
    pub flags: u8,
    /// What the tag leaves open: a number `MARK_..`.
    pub mark: u8,
    /// How many of `bytes` are the event's: 4, 8 or 16.
    pub octets: u8,
}

/// Where these bytes begin.
#[inline(always)]
pub fn address_of(bytes: &[u8]) -> *const u8
    ensures { result ≡ as_ptr bytes.entry }
{
    bytes.as_ptr()
}

/// Four bytes, and zeros.
#[inline(always)]
fn widen_four(bytes: [u8; 4]) -> [u8; 16]
    ensures { result ≡ bytes ++ zeros 12 }
{
    let [first, second, third, last] = bytes;
    [
        first, second, third, last, 0, 0, 0, 0, 0, 0, 0, 0, 0, 0, 0, 0,
    ]
}

/// Eight bytes, and zeros.
#[inline(always)]
fn widen_eight(bytes: [u8; 8]) -> [u8; 16]
    ensures { result ≡ bytes ++ zeros 8 }
{
    let [a, b, c, d, e, f, g, h] = bytes;
    [a, b, c, d, e, f, g, h, 0, 0, 0, 0, 0, 0, 0, 0]
}

impl CqlpEvent {
    ghost use Rattle.cqlp_c.specs.Events.{blank, is_decimal, of_field, of_frame, of_value, scale_in, span_in};
    ghost use Rattle.cqlp_c.specs.Numbers.{number_of_kind};

    /// An event of which only the offset is known.
    #[inline(always)]
    pub fn blank(at: u64) -> CqlpEvent
        ensures { result ≡ blank at }
    {
        CqlpEvent {
            at,
            content: std::ptr::null(),
            length: 0,
            number: 0,
            row: 0,
            column: 0,
            level: 0,
            extra: 0,
            bytes: [0; 16],
            tag: 0,
            field: 0,
            kind: 0,
            opcode: 0,
            flags: 0,
            mark: MARK_NONE,
            octets: 0,
        }
    }

    /// Puts this content.
    #[inline(always)]
    fn lend(&mut self, bytes: &[u8])
        ensures lends { LendsFrom self.old (Some bytes.now) self.new }
        ensures there { self.new.content ≡ as_ptr bytes.entry }
    {
        self.content = address_of(bytes);
        self.length = bytes.len();
    }

    /// Puts this address.
    #[inline(always)]
    fn put_address(&mut self, address: Address)
        ensures { self.new ≡ has_address self.old address }
    {
        match address {
            Address::V4(bytes) => self.put_bytes(widen_four(bytes), 4),
            Address::V6(bytes) => self.put_bytes(bytes, 16),
        }
    }

    /// Puts these bytes, of which this many are its own.
    #[inline(always)]
    fn put_bytes(&mut self, bytes: [u8; 16], octets: u8)
        ensures { self.new ≡ record self.old { bytes = bytes; octets = octets } }
    {
        self.bytes = bytes;
        self.octets = octets;
    }

    /// Puts a number of a scalar of this kind.
    #[inline(always)]
    fn put_number(&mut self, kind: Kind, number: i64)
        ensures { self.new ≡ record self.old { kind = number_of_kind kind; number = number } }
    {
        self.kind = kind_number(kind);
        self.number = number;
    }

    /// Puts the content of a scalar of this kind.
    #[inline(always)]
    fn lend_scalar(&mut self, kind: u8, bytes: &[u8])
        ensures { LendsFrom (record self.old { kind = kind }) (Some bytes.now) self.new }
    {
        self.kind = kind;
        self.lend(bytes);
    }

    /// Puts the bytes of a scalar of this kind, of which this many are its own.
    #[inline(always)]
    fn put_scalar_bytes(&mut self, kind: u8, bytes: [u8; 16], octets: u8)
        ensures { self.new ≡ record self.old { kind = kind; bytes = bytes; octets = octets } }
    {
        self.kind = kind;
        self.put_bytes(bytes, octets);
    }

    /// Begins an event that is a field.
    #[inline(always)]
    fn begin_field(&mut self, at: u64, tag: u8, field: Field)
        ensures { self.new ≡ of_field at tag field }
    {
        *self = CqlpEvent::blank(at);
        self.tag = tag;
        self.field = field_number(field);
    }

    /// Begins an event that is a field with this number.
    #[inline(always)]
    fn put_field(&mut self, at: u64, tag: u8, field: Field, number: i64)
        ensures { self.new ≡ record (of_field at tag field) { number = number } }
    {
        self.begin_field(at, tag, field);
        self.number = number;
    }

    /// Begins an event that is a value, or a part of one.
    #[inline(always)]
    fn begin_value(&mut self, at: u64, tag: u8, row: u32, column: u32, level: u32)
        ensures { self.new ≡ of_value at tag row column level }
    {
        *self = CqlpEvent {
            row,
            column,
            level,
            tag,
            ..CqlpEvent::blank(at)
        };
    }

    /// A value with items ends.
    #[inline(always)]
    fn put_leave(&mut self, at: u64, level: u32, items: u32)
        ensures { self.new ≡ record (of_value at TAG_LEAVE 0 0 level) { number = pos items } }
    {
        self.begin_value(at, TAG_LEAVE, 0, 0, level);
        self.number = i64::from(items);
    }

    /// A frame ends.
    #[inline(always)]
    fn put_end(&mut self, at: u64, extra: u32)
        ensures { self.new ≡ record (of_value at TAG_END 0 0 0) { number = pos extra } }
    {
        self.begin_value(at, TAG_END, 0, 0, 0);
        self.number = i64::from(extra);
    }

    /// A type of a metadata.
    #[inline(always)]
    fn put_type_node(&mut self, at: u64, kind: Kind)
        ensures { self.new ≡ record (blank at) { tag = TAG_TYPE_NODE; kind = number_of_kind kind } }
    {
        *self = CqlpEvent::blank(at);
        self.tag = TAG_TYPE_NODE;
        self.kind = kind_number(kind);
    }

    /// A frame begins.
    #[inline(always)]
    fn put_frame(&mut self, at: u64, header: &Header)
        ensures { self.new ≡ of_frame at header.now }
    {
        *self = CqlpEvent::blank(at);
        self.tag = TAG_FRAME;
        self.number = i64::from(header.length);
        self.extra = i32::from(header.stream);
        self.opcode = opcode_number(header.opcode);
        self.flags = header.flags;
        if header.response {
            self.mark = MARK_RESPONSE;
        }
    }

    /// Whether it is a decimal, whose scale comes before its content.
    #[inline(always)]
    pub fn is_decimal(&self) -> bool
        ensures { result ≡ is_decimal self.now }
    {
        self.tag == TAG_LEAF && self.kind == KIND_DECIMAL
    }

    /// How many bytes of a scale are gathered before the content.
    #[inline(always)]
    pub fn scale_len(&self) -> usize
        ensures { result ≡ scale_in self.now }
    {
        if self.is_decimal() { 4 } else { 0 }
    }

    /// Whether a content lies not whole in the bytes that the call used, so that it lies in the decoder. Of a decimal the
    /// four bytes of the scale are gathered with it.
    #[inline(always)]
    pub fn is_gathered(&self, used: usize) -> bool
        ensures { result ≡ nat_lt used (span_in self.now) }
    {
        if self.is_decimal() {
            used < 4 || used - 4 < self.length
        } else {
            used < self.length
        }
    }
}

/// A scalar of a cell.
#[inline(always)]
fn write_scalar(
    slot: &mut CqlpEvent,
    at: u64,
    row: u32,
    column: u32,
    level: u32,
    scalar: &Scalar<'_>,
)
    ensures { Writes slot.new at (Cell_at row column (cell.Leaf level (value_of scalar.now))) }
{
    slot.begin_value(at, TAG_LEAF, row, column, level);
    match *scalar {
        Scalar::Custom(bytes) => slot.lend_scalar(KIND_CUSTOM, bytes),
        Scalar::Ascii(text) => slot.lend_scalar(KIND_ASCII, text.as_bytes()),
        Scalar::Bigint(number) => slot.put_number(Kind::Bigint, number),
        Scalar::Blob(bytes) => slot.lend_scalar(KIND_BLOB, bytes),
        Scalar::Boolean(truth) => slot.put_number(Kind::Boolean, if truth { 1 } else { 0 }),
        Scalar::Counter(number) => slot.put_number(Kind::Counter, number),
        Scalar::Decimal { scale, unscaled } => {
            slot.extra = scale;
            slot.lend_scalar(KIND_DECIMAL, unscaled);
        }
        Scalar::Double(bytes) => slot.put_scalar_bytes(KIND_DOUBLE, widen_eight(bytes), 8),
        Scalar::Float(bytes) => slot.put_scalar_bytes(KIND_FLOAT, widen_four(bytes), 4),
        Scalar::Int(number) => slot.put_number(Kind::Int, i64::from(number)),
        Scalar::Timestamp(number) => slot.put_number(Kind::Timestamp, number),
        Scalar::Uuid(bytes) => slot.put_scalar_bytes(KIND_UUID, bytes, 16),
        Scalar::Varchar(text) => slot.lend_scalar(KIND_VARCHAR, text.as_bytes()),
        Scalar::Varint(bytes) => slot.lend_scalar(KIND_VARINT, bytes),
        Scalar::Timeuuid(bytes) => slot.put_scalar_bytes(KIND_TIMEUUID, bytes, 16),
        Scalar::Inet(address) => {
            slot.kind = KIND_INET;
            slot.put_address(address);
        }
        Scalar::Date(number) => slot.put_number(Kind::Date, i64::from(number)),
        Scalar::Time(number) => slot.put_number(Kind::Time, number),
        Scalar::Smallint(number) => slot.put_number(Kind::Smallint, i64::from(number)),
        Scalar::Tinyint(number) => slot.put_number(Kind::Tinyint, i64::from(number)),
        Scalar::Raw(bytes) => slot.lend_scalar(KIND_RAW, bytes),
    }
}

/// How many bytes come before the content of an event, from its offset on, if it has one: those of its length, and of a
/// decimal those of its scale. A query alone is a \[long string\], and the id of a statement alone \[short bytes\]: these two
/// have other lengths than the texts and the bytes beside them. A part of a long content begins with it.
#[inline(always)]
pub fn before_content(event: &Event<'_>) -> Option<u64>
    ensures { result ≡ content_after (event_of event.now) }
{
    match *event {
        Event::Leaf { scalar, .. } => before_scalar(&scalar),
        Event::Text {
            field: Field::Query,
            ..
        } => Some(4),
        Event::Text { .. } => Some(2),
        Event::Bytes {
            field: Field::StatementId,
            bytes: Some(_),
        } => Some(2),
        Event::Bytes { bytes: Some(_), .. } => Some(4),
        Event::Bound {
            value: BoundValue::Bytes(_),
            ..
        } => Some(4),
        Event::Part { .. } => Some(0),
        _ => None,
    }
}

/// The same of a scalar.
#[inline(always)]
fn before_scalar(scalar: &Scalar<'_>) -> Option<u64>
    ensures { result ≡ scalar_after (value_of scalar.now) }
{
    match *scalar {
        Scalar::Decimal { .. } => Some(8),
        Scalar::Custom(_)
        | Scalar::Ascii(_)
        | Scalar::Blob(_)
        | Scalar::Varchar(_)
        | Scalar::Varint(_)
        | Scalar::Raw(_) => Some(4),
        _ => None,
    }
}

/// Puts the event at an offset, as C sees it. Those of cells are put in line, so that the code for one kind of cell is as short as it
/// can be.
#[inline(always)]
pub fn write(slot: &mut CqlpEvent, at: u64, event: &Event<'_>)
    ensures { Writes slot.new at (event_of event.now) }
{
    match event {
        Event::Leaf {
            row,
            column,
            level,
            scalar,
        } => write_scalar(slot, at, *row, *column, *level, scalar),
        Event::Null { row, column, level } => {
            slot.begin_value(at, TAG_NULL, *row, *column, *level);
        }
        Event::Empty { row, column, level } => {
            slot.begin_value(at, TAG_EMPTY, *row, *column, *level);
        }
        Event::Enter {
            row,
            column,
            level,
            kind,
            items,
        } => {
            slot.begin_value(at, TAG_ENTER, *row, *column, *level);
            slot.put_number(*kind, i64::from(*items));
        }
        Event::Leave { level, items } => slot.put_leave(at, *level, *items),
        _ => write_any(slot, at, event),
    }
}

/// Puts a field that is a \[uuid\].
fn write_uuid(slot: &mut CqlpEvent, at: u64, field: Field, uuid: [u8; 16])
    ensures { Writes slot.new at (Holds field (value.Uuid uuid)) }
{
    slot.begin_field(at, TAG_UUID, field);
    slot.put_bytes(uuid, 16);
}

/// Puts a field that is text with these bytes.
fn write_text(slot: &mut CqlpEvent, at: u64, field: Field, text: &[u8])
    ensures { Writes slot.new at (Holds field (value.Text text.now)) }
{
    slot.begin_field(at, TAG_TEXT, field);
    slot.lend(text);
}

/// Puts a field that is \[bytes\].
fn write_bytes(slot: &mut CqlpEvent, at: u64, field: Field, bytes: Option<&[u8]>)
    ensures { Writes slot.new at (Holds field (value_of_primitive (primitive.Bytes bytes.entry))) }
{
    slot.begin_field(at, TAG_BYTES, field);
    match bytes {
        Some(bytes) => slot.lend(bytes),
        None => slot.mark = MARK_NULL,
    }
}

/// Puts a field that is a \[value\] of a request.
fn write_bound(slot: &mut CqlpEvent, at: u64, field: Field, value: BoundValue<'_>)
    ensures { Writes slot.new at (Holds field (value_of_primitive (primitive.Bound value.entry))) }
{
    slot.begin_field(at, TAG_BOUND, field);
    match value {
        BoundValue::Bytes(bytes) => slot.lend(bytes),
        BoundValue::Null => slot.mark = MARK_NULL,
        BoundValue::Unset => slot.mark = MARK_UNSET,
    }
}

/// Puts a field that is an \[inet\].
fn write_inet(slot: &mut CqlpEvent, at: u64, field: Field, address: Address, port: i32)
    ensures { Writes slot.new at (Holds field (value_of_primitive (primitive.Inet address port))) }
{
    slot.begin_field(at, TAG_INET, field);
    slot.extra = port;
    slot.put_address(address);
}

/// Puts any event.
#[inline(never)]
fn write_any(slot: &mut CqlpEvent, at: u64, event: &Event<'_>)
    ensures { Writes slot.new at (event_of event.now) }
{
    match *event {
        Event::Frame(header) => slot.put_frame(at, &header),
        Event::TypeNode(kind) => slot.put_type_node(at, kind),
        Event::Leaf {
            row,
            column,
            level,
            scalar,
        } => write_scalar(slot, at, row, column, level, &scalar),
        Event::Null { row, column, level } => slot.begin_value(at, TAG_NULL, row, column, level),
        Event::Empty { row, column, level } => slot.begin_value(at, TAG_EMPTY, row, column, level),
        Event::Enter {
            row,
            column,
            level,
            kind,
            items,
        } => {
            slot.begin_value(at, TAG_ENTER, row, column, level);
            slot.put_number(kind, i64::from(items));
        }
        Event::Leave { level, items } => slot.put_leave(at, level, items),
        Event::Part {
            row,
            column,
            level,
            offset,
            bytes,
            last,
        } => {
            slot.begin_value(at, TAG_PART, row, column, level);
            slot.number = i64::from(offset);
            slot.mark = if last { MARK_LAST } else { MARK_NONE };
            slot.lend(bytes);
        }
        Event::End { extra } => slot.put_end(at, extra),
        Event::Byte { field, value } => slot.put_field(at, TAG_BYTE, field, i64::from(value)),
        Event::Short { field, value } => slot.put_field(at, TAG_SHORT, field, i64::from(value)),
        Event::Int { field, value } => slot.put_field(at, TAG_INT, field, i64::from(value)),
        Event::Long { field, value } => slot.put_field(at, TAG_LONG, field, value),
        Event::Uuid { field, value } => write_uuid(slot, at, field, value),
        Event::Count { field, count } => slot.put_field(at, TAG_COUNT, field, i64::from(count)),
        Event::Text { field, text } => write_text(slot, at, field, text.as_bytes()),
        Event::Bytes { field, bytes } => write_bytes(slot, at, field, bytes),
        Event::Bound { field, value } => write_bound(slot, at, field, value),
        Event::Inet {
            field,
            address,
            port,
        } => write_inet(slot, at, field, address, port),
    }
}
