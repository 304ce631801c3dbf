//! Rows as CSV.

ghost use Rattle.std.specs.Prelude.{◌≡◌, ◌++◌, ◌+◌, ◌==◌, ℕ, [], codes};
ghost use Rattle.cqlp_grammar.specs.Events.{event_of};
ghost use Rattle.cqlp_kind.specs.CellStep as cell;
ghost use Rattle.cqlp_kind.specs.Contents.{value_of};
ghost use Rattle.cqlp_note.specs.Field.{Count as CountValue, Text as TextValue};
ghost use Rattle.cqlp_text.specs.Outputs.{AppendsText, written};
ghost use Rattle.cqlp_text.specs.PageText.{separator as separator_of};
ghost use Rattle.cqlp_text.specs.Written.{Writes};
ghost use Rattle.cqlp_row_text.specs.CsvRows.{after, after_value, before, before_value, csv_part as text_of, empty_value};
ghost use Rattle.cqlp_row_text.specs.CsvRows.{end_part, event_part, field_part, field_quote, null_value, scalar_value, value_part};
ghost use Rattle.cqlp_row_text.specs.CsvRows.{csv_break as break_of, text_value};
ghost use Rattle.cqlp_row_text.specs.Places.{table_after};
ghost use Rattle.cqlp_row_text.specs.Shows.{content_text, shown_text};

use crate::place::TablePlace;
use crate::shown::{Content, Shown, put_shown};
use cqlp_grammar::{Event, SinkFault};
use cqlp_kind::{Kind, Scalar};
use cqlp_note::{Field, Target};
use cqlp_text::{Pen, TextWriter, Turn, WrittenValue, closing, opening};

/// Appends what is written of an event of a page as CSV, which nothing is of an event of another frame, and goes to the
/// place after it, also at a fault, which is the target's own.
///
/// # Errors
///
/// The fault of the target.
#[inline]
pub fn csv_part<W: Target>(
    place: &mut TablePlace,
    event: &Event<'_>,
    target: &mut W,
) -> Result<(), SinkFault>
    ensures part { AppendsText (written W.Target target.old) (text_of place.old (event_of event.now)) result
        (written W.Target target.new) }
    ensures place { place.new ≡ table_after place.old (event_of event.now) }
{
    let mut writer = TextWriter::over(target);
    match put_csv_part(place, event, &mut writer) {
        Ok(()) => {
            let passed = writer.flush();
            let _ = writer.into_target();
            passed
        }
        Err(fault) => {
            let _ = writer.into_target();
            Err(fault)
        }
    }
}

/// Has a writer take what is written of an event of a page as CSV, and goes to the place after it, also at a fault.
#[inline]
pub fn put_csv_part<P: Pen>(
    place: &mut TablePlace,
    event: &Event<'_>,
    writer: &mut TextWriter<P>,
) -> Result<(), SinkFault>
    ensures part { Writes writer.old (text_of place.old (event_of event.now)) result writer.new }
    ensures place { place.new ≡ table_after place.old (event_of event.now) }
{
    if !place.page.is_page() {
        place.pass(event);
        return Ok(());
    }
    let written = put_shown(&shown_of(place, event), writer);
    place.pass(event);
    written
}

/// What ends the record under way on a page that is cut at this place: the quote of its field, where that is between quotes, and the line.
/// Nothing where there is no page.
pub fn csv_break(place: &TablePlace) -> &'static str
    ensures { result.now ≡ break_of place.now }
{
    if !place.page.is_page() {
        return "";
    }
    match place.page.innermost() {
        None => "\r\n",
        Some(_) => "\"\r\n",
    }
}

/// What is written of an event on a page.
#[inline]
fn shown_of<'a>(place: &TablePlace, event: &Event<'a>) -> Shown<'a>
    ensures { shown_text result ≡ event_part place.now (event_of event.now) }
{
    match *event {
        Event::Text { field, text } => shown_name(place, field, text),
        Event::Count { field, .. } => shown_count(place, field),
        Event::Leaf { column, scalar, .. } => shown_scalar(place, column, scalar),
        Event::Null { column, .. } => shown_null(place, column),
        Event::Empty { column, .. } => shown_empty(place, column),
        Event::Enter { column, kind, .. } => shown_opening(place, column, kind),
        Event::Leave { .. } => shown_closing(place),
        Event::Part {
            column,
            offset,
            bytes,
            last,
            ..
        } => shown_part(place, column, offset, bytes, last),
        _ => Shown::NOTHING,
    }
}

fn shown_name<'a>(place: &TablePlace, field: Field, name: &'a str) -> Shown<'a>
    ensures { shown_text result ≡ field_part place.now field (TextValue name.now) }
{
    match field {
        Field::ColumnName => Shown {
            before: if place.is_named { "," } else { "" },
            content: Content::TextField(name),
            ..Shown::NOTHING
        },
        _ => Shown::NOTHING,
    }
}

/// The end of the names, before the rows.
fn shown_count(place: &TablePlace, field: Field) -> Shown<'static>
    ensures { (count : ℕ) → shown_text result ≡ field_part place.now field (CountValue count) }
{
    match field {
        Field::Rows if place.is_named => Shown {
            after: "\r\n",
            ..Shown::NOTHING
        },
        _ => Shown::NOTHING,
    }
}

/// A cell or an item that has no items.
#[inline]
fn shown_scalar<'a>(place: &TablePlace, column: u32, scalar: Scalar<'a>) -> Shown<'a>
    ensures { shown_text result ≡ value_part place.now column (cell.Leaf 0 (value_of scalar.entry)) }
{
    let around = place.page.innermost();
    Shown {
        before: before(column, around),
        content: scalar_content(around, scalar),
        after: after(place.page.is_last(column), around),
        ..Shown::NOTHING
    }
}

#[inline]
fn scalar_content<'a>(around: Option<WrittenValue>, scalar: Scalar<'a>) -> Content<'a>
    ensures { content_text result ≡ scalar_value around (value_of scalar.entry) }
{
    match scalar {
        Scalar::Ascii(text) | Scalar::Varchar(text) => text_content(around, text),
        Scalar::Custom(_)
        | Scalar::Blob(_)
        | Scalar::Raw(_)
        | Scalar::Double(_)
        | Scalar::Float(_)
        | Scalar::Varint(_)
        | Scalar::Decimal { .. }
        | Scalar::Uuid(_)
        | Scalar::Timeuuid(_)
        | Scalar::Bigint(_)
        | Scalar::Counter(_)
        | Scalar::Timestamp(_)
        | Scalar::Int(_)
        | Scalar::Smallint(_)
        | Scalar::Tinyint(_)
        | Scalar::Time(_)
        | Scalar::Date(_)
        | Scalar::Boolean(_)
        | Scalar::Inet(_) => Content::Cell(scalar),
    }
}

fn text_content<'a>(around: Option<WrittenValue>, text: &'a str) -> Content<'a>
    ensures { content_text result ≡ text_value around text.now }
{
    match around {
        None => Content::TextField(text),
        Some(_) => Content::TextItem(text),
    }
}

fn shown_null(place: &TablePlace, column: u32) -> Shown<'static>
    ensures { shown_text result ≡ value_part place.now column (cell.Null 0) }
{
    let around = place.page.innermost();
    Shown {
        before: before(column, around),
        begin: null(around),
        after: after(place.page.is_last(column), around),
        ..Shown::NOTHING
    }
}

fn null(around: Option<WrittenValue>) -> &'static str
    ensures { result.now ≡ null_value around }
{
    match around {
        None => "",
        Some(_) => "null",
    }
}

fn shown_empty(place: &TablePlace, column: u32) -> Shown<'static>
    ensures { shown_text result ≡ value_part place.now column (cell.Empty 0) }
{
    let around = place.page.innermost();
    Shown {
        before: before(column, around),
        begin: empty(around),
        after: after(place.page.is_last(column), around),
        ..Shown::NOTHING
    }
}

fn empty(around: Option<WrittenValue>) -> &'static str
    ensures { result.now ≡ empty_value around }
{
    match around {
        None => "\"\"",
        Some(_) => "''",
    }
}

fn shown_opening(place: &TablePlace, column: u32, kind: Kind) -> Shown<'static>
    ensures { shown_text result ≡ value_part place.now column (cell.Enter 0 kind 0) }
{
    let around = place.page.innermost();
    Shown {
        before: before(column, around),
        begin: quote(around),
        after: opening(kind),
        ..Shown::NOTHING
    }
}

fn shown_closing(place: &TablePlace) -> Shown<'static>
    ensures { shown_text result ≡ end_part place.now.page.columns place.now.page.column place.now.page.open_values }
{
    let outer = place.page.outer();
    match place.page.innermost() {
        None => Shown::NOTHING,
        Some(open) => Shown {
            before: closing(open.kind),
            begin: quote(outer),
            after: after(place.page.is_last(place.page.column()), outer),
            ..Shown::NOTHING
        },
    }
}

/// A part of a long content, which begins with `0x`.
fn shown_part<'a>(
    place: &TablePlace,
    column: u32,
    offset: u32,
    bytes: &'a [u8],
    last: bool,
) -> Shown<'a>
    ensures { shown_text result ≡ value_part place.now column (cell.Part 0 offset bytes.now last) }
{
    let around = place.page.innermost();
    let (before, begin) = if offset == 0 {
        (before(column, around), "0x")
    } else {
        ("", "")
    };
    let after = if last {
        after(place.page.is_last(column), around)
    } else {
        ""
    };
    Shown {
        before,
        begin,
        content: Content::Hex(bytes),
        end: "",
        after,
    }
}

/// What comes before a cell of this column, or before an item of the open value.
#[inline(always)]
fn before(column: u32, around: Option<WrittenValue>) -> &'static str
    ensures { result.now ≡ before column around }
{
    match around {
        None if column == 0 => "",
        None => ",",
        Some(open) => separator(open.turn),
    }
}

#[inline(always)]
fn separator(turn: Turn) -> &'static str
    ensures { result.now ≡ separator_of turn }
{
    match turn {
        Turn::First => "",
        Turn::Paired => ": ",
        Turn::Another => ", ",
    }
}

/// What comes after a cell, which may be the last of its row, or after an item of the open value.
#[inline(always)]
fn after(is_last: bool, around: Option<WrittenValue>) -> &'static str
    ensures { (columns column : ℕ) → is_last ≡ (column + 1 == columns)
        → result.now ≡ after columns column around }
{
    match around {
        None if is_last => "\r\n",
        None | Some(_) => "",
    }
}

/// The quote around a value with items that is a field.
#[inline]
fn quote(around: Option<WrittenValue>) -> &'static str
    ensures { result.now ≡ field_quote around }
{
    match around {
        None => "\"",
        Some(_) => "",
    }
}
