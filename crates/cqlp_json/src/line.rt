//! The line of an event.

ghost use Rattle.std.specs.Prelude.{◌≡◌, ◌∷◌, ◌++◌, [], IsSome, codes, decimal};
ghost use Rattle.std.specs.Fmt.{signed_decimal};
ghost use Rattle.cqlp_grammar.specs.Events.{bound_of, event_of};
ghost use Rattle.cqlp_kind.specs.CellStep as cell;
ghost use Rattle.cqlp_kind.specs.Contents.{value_of};
ghost use Rattle.cqlp_kind.specs.Scalars.{kind_of as kind_of_value};
ghost use Rattle.cqlp_grammar.specs.Events as reading;
ghost use Rattle.cqlp_grammar.specs.declared.event.Event.TheVariants as events;
ghost use Rattle.cqlp_note.specs.Field as fields;
ghost use Rattle.cqlp_text.specs.CellText.{boolean_text};
ghost use Rattle.cqlp_text.specs.Names.{field_name, kind_name};
ghost use Rattle.cqlp_text.specs.Lines.{direction as direction_text};
ghost use Rattle.cqlp_text.specs.Outputs.{AppendsText, written};
ghost use Rattle.cqlp_text.specs.Written.{Writes};
ghost use Rattle.cqlp_json.specs.Lines.{json_line as line_of, cell_members, field_event, field_members, member, members, texts};
ghost use Rattle.cqlp_json.specs.Values.{value_text, word};

use crate::member::{Member, Value, bigint, int, number, put_members, smallint};
use cqlp_grammar::{Event, SinkFault};
use cqlp_kind::{Kind, Scalar};
use cqlp_note::{Address, BoundValue, Field, Header, Target};
use cqlp_text::{Pen, TextWriter, field_name, kind_name, opcode_name};

/// Appends the JSON line of an event at an offset. A fault is the target's own.
///
/// # Errors
///
/// The fault of the target.
#[inline]
pub fn json_line<W: Target>(at: u64, event: &Event<'_>, target: &mut W) -> Result<(), SinkFault>
    ensures { AppendsText (written W.Target target.old) (line_of at (event_of event.now)) result
        (written W.Target target.new) }
{
    let mut writer = TextWriter::over(target);
    match put_json_line(at, event, &mut writer) {
        Ok(()) => {
            let passed = writer.flush();
            let _ = writer.into_target();
            passed
        }
        Err(fault) => {
            let _ = writer.into_target();
            Err(fault)
        }
    }
}

/// Has a writer take the JSON line of an event at an offset.
#[inline]
pub fn put_json_line<P: Pen>(
    at: u64,
    event: &Event<'_>,
    writer: &mut TextWriter<P>,
) -> Result<(), SinkFault>
    ensures { Writes writer.old (line_of at (event_of event.now)) result writer.new }
{
    writer.put(b"{\"at\":")?;
    writer.put_number(at)?;
    put_event(event, writer)?;
    writer.put(b"}\n")
}

/// Takes the members of an event after its offset.
fn put_event<P: Pen>(event: &Event<'_>, writer: &mut TextWriter<P>) -> Result<(), SinkFault>
    ensures { Writes writer.old (texts (members (event_of event.now))) result writer.new }
{
    match *event {
        Event::Frame(header) => put_header(header, writer),
        Event::Byte { field, value } => put_field("Byte", field, number(u32::from(value)), writer),
        Event::Short { field, value } => put_field(
            "Short",
            field,
            number(u32::from(value)),
            writer,
        ),
        Event::Int { field, value } => put_field("Int", field, int(value), writer),
        Event::Long { field, value } => put_field("Long", field, bigint(value), writer),
        Event::Uuid { field, value } => put_field(
            "Uuid",
            field,
            Value::Scalar(Scalar::Uuid(value)),
            writer,
        ),
        Event::Count { field, count } => put_field("Count", field, number(count), writer),
        Event::Text { field, text } => put_field(
            "Text",
            field,
            Value::Scalar(Scalar::Varchar(text)),
            writer,
        ),
        Event::Bytes { field, bytes } => put_bytes_field(field, bytes, writer),
        Event::Bound { field, value } => put_bound(field, value, writer),
        Event::Inet {
            field,
            address,
            port,
        } => put_inet(field, address, port, writer),
        Event::TypeNode(kind) => put_node(kind, writer),
        Event::Leaf {
            row,
            column,
            level,
            scalar,
        } => put_leaf(row, column, level, scalar, writer),
        Event::Null { row, column, level } => put_place("Null", row, column, level, writer),
        Event::Empty { row, column, level } => put_place("Empty", row, column, level, writer),
        Event::Enter {
            row,
            column,
            level,
            kind,
            items,
        } => put_enter(row, column, level, kind, items, writer),
        Event::Leave { level, items } => put_leave(level, items, writer),
        Event::Part {
            row,
            column,
            level,
            offset,
            bytes,
            last,
        } => put_part(row, column, level, offset, bytes, last, writer),
        Event::End { extra } => put_end(extra, writer),
    }
}

fn put_header<P: Pen>(header: Header, writer: &mut TextWriter<P>) -> Result<(), SinkFault>
    ensures { Writes writer.old (texts (members (reading.Frame header))) result writer.new }
{
    put_members(
        &[
            Member(
                ",\"event\":\"Frame\",\"direction\":",
                Value::Name(direction(header.response)),
            ),
            Member(",\"flags\":", Value::Number(u64::from(header.flags))),
            Member(",\"stream\":", smallint(header.stream)),
            Member(",\"opcode\":", Value::Name(opcode_name(header.opcode))),
            Member(",\"length\":", Value::Number(u64::from(header.length))),
        ],
        writer,
    )
}

/// Takes a field: the event's name, which says its notation, the field's, and its value.
#[inline]
fn put_field<P: Pen>(
    notation: &str,
    field: Field,
    value: Value<'_>,
    writer: &mut TextWriter<P>,
) -> Result<(), SinkFault>
    ensures { Writes writer.old (texts (member "event" (word notation.now) ∷ member "name" (word (field_name field))
        ∷ member "value" (value_text value.entry) ∷ [])) result writer.new }
{
    put_members(
        &[
            Member(",\"event\":", Value::Name(notation)),
            Member(",\"name\":", Value::Name(field_name(field))),
            Member(",\"value\":", value),
        ],
        writer,
    )
}

fn put_bytes_field<P: Pen>(
    field: Field,
    bytes: Option<&[u8]>,
    writer: &mut TextWriter<P>,
) -> Result<(), SinkFault>
    ensures { Writes writer.old (texts (members (event_of (events.Bytes field bytes.entry)))) result writer.new }
{
    match bytes {
        None => put_field("Bytes", field, Value::Null, writer),
        Some(bytes) => put_field("Bytes", field, Value::Scalar(Scalar::Blob(bytes)), writer),
    }
}

/// Takes a \[value\] of a request, by whether it is set, and its bytes.
fn put_bound<P: Pen>(
    field: Field,
    value: BoundValue<'_>,
    writer: &mut TextWriter<P>,
) -> Result<(), SinkFault>
    ensures { Writes writer.old (texts (field_members field (fields.Bound (bound_of value.entry)))) result writer.new }
{
    match value {
        BoundValue::Null => put_set(field, true, Value::Null, writer),
        BoundValue::Unset => put_set(field, false, Value::Null, writer),
        BoundValue::Bytes(bytes) => {
            put_set(field, true, Value::Scalar(Scalar::Blob(bytes)), writer)
        }
    }
}

fn put_set<P: Pen>(
    field: Field,
    set: bool,
    value: Value<'_>,
    writer: &mut TextWriter<P>,
) -> Result<(), SinkFault>
    ensures { Writes writer.old (texts (field_event "Bound" field
        (member "set" (boolean_text set) ∷ member "value" (value_text value.entry) ∷ []))) result writer.new }
{
    put_members(
        &[
            Member(
                ",\"event\":\"Bound\",\"name\":",
                Value::Name(field_name(field)),
            ),
            Member(",\"set\":", Value::Scalar(Scalar::Boolean(set))),
            Member(",\"value\":", value),
        ],
        writer,
    )
}

fn put_inet<P: Pen>(
    field: Field,
    address: Address,
    port: i32,
    writer: &mut TextWriter<P>,
) -> Result<(), SinkFault>
    ensures { Writes writer.old (texts (field_members field (fields.Inet address port))) result writer.new }
{
    put_members(
        &[
            Member(
                ",\"event\":\"Inet\",\"name\":",
                Value::Name(field_name(field)),
            ),
            Member(",\"address\":", Value::Scalar(Scalar::Inet(address))),
            Member(",\"port\":", int(port)),
        ],
        writer,
    )
}

fn put_node<P: Pen>(kind: Kind, writer: &mut TextWriter<P>) -> Result<(), SinkFault>
    ensures { Writes writer.old (texts (members (reading.Node_of kind))) result writer.new }
{
    put_members(
        &[Member(
            ",\"event\":\"TypeNode\",\"kind\":",
            Value::Name(kind_name(kind)),
        )],
        writer,
    )
}

/// Takes an event of a value that says nothing but where it is.
fn put_place<P: Pen>(
    name: &str,
    row: u32,
    column: u32,
    level: u32,
    writer: &mut TextWriter<P>,
) -> Result<(), SinkFault>
    ensures { Writes writer.old (texts (member "event" (word name.now) ∷ member "row" (decimal row)
        ∷ member "column" (decimal column) ∷ member "level" (decimal level) ∷ [])) result writer.new }
{
    put_members(
        &[
            Member(",\"event\":", Value::Name(name)),
            Member(",\"row\":", Value::Number(u64::from(row))),
            Member(",\"column\":", Value::Number(u64::from(column))),
            Member(",\"level\":", Value::Number(u64::from(level))),
        ],
        writer,
    )
}

#[inline]
fn put_leaf<P: Pen>(
    row: u32,
    column: u32,
    level: u32,
    scalar: Scalar<'_>,
    writer: &mut TextWriter<P>,
) -> Result<(), SinkFault>
    ensures { Writes writer.old (texts (cell_members row column (cell.Leaf level (value_of scalar.entry)))) result writer.new }
{
    put_members(
        &[
            Member(
                ",\"event\":\"Leaf\",\"row\":",
                Value::Number(u64::from(row)),
            ),
            Member(",\"column\":", Value::Number(u64::from(column))),
            Member(",\"level\":", Value::Number(u64::from(level))),
            Member(",\"kind\":", Value::Name(kind_name(kind_of(&scalar)))),
            Member(",\"value\":", Value::Scalar(scalar)),
        ],
        writer,
    )
}

fn put_enter<P: Pen>(
    row: u32,
    column: u32,
    level: u32,
    kind: Kind,
    items: u32,
    writer: &mut TextWriter<P>,
) -> Result<(), SinkFault>
    ensures { Writes writer.old (texts (cell_members row column (cell.Enter level kind items))) result writer.new }
{
    put_members(
        &[
            Member(
                ",\"event\":\"Enter\",\"row\":",
                Value::Number(u64::from(row)),
            ),
            Member(",\"column\":", Value::Number(u64::from(column))),
            Member(",\"level\":", Value::Number(u64::from(level))),
            Member(",\"kind\":", Value::Name(kind_name(kind))),
            Member(",\"items\":", Value::Number(u64::from(items))),
        ],
        writer,
    )
}

fn put_leave<P: Pen>(level: u32, items: u32, writer: &mut TextWriter<P>) -> Result<(), SinkFault>
    ensures { Writes writer.old (texts (members (reading.Leave level items))) result writer.new }
{
    put_members(
        &[
            Member(
                ",\"event\":\"Leave\",\"level\":",
                Value::Number(u64::from(level)),
            ),
            Member(",\"items\":", Value::Number(u64::from(items))),
        ],
        writer,
    )
}

fn put_part<P: Pen>(
    row: u32,
    column: u32,
    level: u32,
    offset: u32,
    bytes: &[u8],
    last: bool,
    writer: &mut TextWriter<P>,
) -> Result<(), SinkFault>
    ensures { Writes writer.old (texts (cell_members row column (cell.Part level offset bytes.now last))) result writer.new }
{
    put_members(
        &[
            Member(
                ",\"event\":\"Part\",\"row\":",
                Value::Number(u64::from(row)),
            ),
            Member(",\"column\":", Value::Number(u64::from(column))),
            Member(",\"level\":", Value::Number(u64::from(level))),
            Member(",\"offset\":", Value::Number(u64::from(offset))),
            Member(",\"last\":", Value::Scalar(Scalar::Boolean(last))),
            Member(",\"value\":", Value::Scalar(Scalar::Blob(bytes))),
        ],
        writer,
    )
}

fn put_end<P: Pen>(extra: u32, writer: &mut TextWriter<P>) -> Result<(), SinkFault>
    ensures { Writes writer.old (texts (members (reading.End extra))) result writer.new }
{
    put_members(
        &[Member(
            ",\"event\":\"End\",\"extra\":",
            Value::Number(u64::from(extra)),
        )],
        writer,
    )
}

fn direction(response: bool) -> &'static str
    ensures { result.now ≡ direction_text response }
{
    if response { "response" } else { "request" }
}

/// The kind of a scalar.
fn kind_of(scalar: &Scalar<'_>) -> Kind
    ensures { result ≡ kind_of_value (value_of scalar.now) }
{
    match *scalar {
        Scalar::Custom(_) => Kind::Custom,
        Scalar::Ascii(_) => Kind::Ascii,
        Scalar::Bigint(_) => Kind::Bigint,
        Scalar::Blob(_) => Kind::Blob,
        Scalar::Boolean(_) => Kind::Boolean,
        Scalar::Counter(_) => Kind::Counter,
        Scalar::Decimal { .. } => Kind::Decimal,
        Scalar::Double(_) => Kind::Double,
        Scalar::Float(_) => Kind::Float,
        Scalar::Int(_) => Kind::Int,
        Scalar::Timestamp(_) => Kind::Timestamp,
        Scalar::Uuid(_) => Kind::Uuid,
        Scalar::Varchar(_) => Kind::Varchar,
        Scalar::Varint(_) => Kind::Varint,
        Scalar::Timeuuid(_) => Kind::Timeuuid,
        Scalar::Inet(_) => Kind::Inet,
        Scalar::Date(_) => Kind::Date,
        Scalar::Time(_) => Kind::Time,
        Scalar::Smallint(_) => Kind::Smallint,
        Scalar::Tinyint(_) => Kind::Tinyint,
        Scalar::Raw(_) => Kind::Raw,
    }
}
