//! Rows as JSON.

ghost use Rattle.std.specs.Prelude.{◌≡◌, ◌++◌, ◌+◌, ◌==◌, ℕ, codes};
ghost use Rattle.cqlp_grammar.specs.Events.{event_of};
ghost use Rattle.cqlp_kind.specs.CellStep as cell;
ghost use Rattle.cqlp_kind.specs.Contents.{value_of};
ghost use Rattle.cqlp_note.specs.Field.{Count as CountValue, Text as TextValue};
ghost use Rattle.cqlp_text.specs.Outputs.{AppendsText, written};
ghost use Rattle.cqlp_text.specs.PageText.{innermost, with_item};
ghost use Rattle.cqlp_text.specs.Written.{Writes};
ghost use Rattle.cqlp_json.specs.Values.{scalar_text};
ghost use Rattle.cqlp_row_text.specs.JsonRows.{after, after_item as after_item_of, after_value, before, before_item as before_item_of};
ghost use Rattle.cqlp_row_text.specs.JsonRows.{before_value, end_part, event_part, field_part, json_break as break_of, json_part as text_of, value_part};
ghost use Rattle.cqlp_row_text.specs.Places.{table_after};
ghost use Rattle.cqlp_row_text.specs.declared.place.TablePlace.{TablePlace};
ghost use Rattle.cqlp_row_text.specs.Shows.{content_text, shown_text};

use crate::place::TablePlace;
use crate::shown::{Content, Shown, put_shown};
use cqlp_grammar::{Event, SinkFault};
use cqlp_kind::{Kind, Scalar};
use cqlp_note::{Field, Target};
use cqlp_text::{PagePlace, Pen, TextWriter, Turn, WrittenValue};

/// Appends what is written of an event of a page as JSON, which nothing is of an event of another frame, and goes to the
/// place after it, also at a fault, which is the target's own.
///
/// # Errors
///
/// The fault of the target.
#[inline]
pub fn json_part<W: Target>(
    place: &mut TablePlace,
    event: &Event<'_>,
    target: &mut W,
) -> Result<(), SinkFault>
    ensures part { AppendsText (written W.Target target.old) (text_of place.old (event_of event.now)) result
        (written W.Target target.new) }
    ensures place { place.new ≡ table_after place.old (event_of event.now) }
{
    let mut writer = TextWriter::over(target);
    match put_json_part(place, event, &mut writer) {
        Ok(()) => {
            let passed = writer.flush();
            let _ = writer.into_target();
            passed
        }
        Err(fault) => {
            let _ = writer.into_target();
            Err(fault)
        }
    }
}

/// Has a writer take what is written of an event of a page as JSON, and goes to the place after it, also at a fault.
#[inline]
pub fn put_json_part<P: Pen>(
    place: &mut TablePlace,
    event: &Event<'_>,
    writer: &mut TextWriter<P>,
) -> Result<(), SinkFault>
    ensures part { Writes writer.old (text_of place.old (event_of event.now)) result writer.new }
    ensures place { place.new ≡ table_after place.old (event_of event.now) }
{
    if !place.page.is_page() {
        place.pass(event);
        return Ok(());
    }
    let written = put_shown(&shown_of(place, event), writer);
    place.pass(event);
    written
}

/// What ends the line under way on a page that is cut at this place, which is no JSON then. Nothing where there is no page.
pub fn json_break(place: &TablePlace) -> &'static str
    ensures { result.now ≡ break_of place.now }
{
    if place.page.is_page() { "\n" } else { "" }
}

/// What is written of an event on a page.
#[inline]
fn shown_of<'a>(place: &TablePlace, event: &Event<'a>) -> Shown<'a>
    ensures { shown_text result ≡ event_part place.now (event_of event.now) }
{
    match *event {
        Event::Text { field, text } => shown_name(place, field, text),
        Event::Count { field, count } => shown_count(field, count),
        Event::Leaf { column, scalar, .. } => shown_value(place, column, Content::Json(scalar)),
        Event::Null { column, .. } => shown_word(place, column, "null"),
        Event::Empty { column, .. } => shown_word(place, column, "\"\""),
        Event::Enter { column, .. } => shown_opening(place, column),
        Event::Leave { .. } => shown_closing(place),
        Event::Part {
            column,
            offset,
            bytes,
            last,
            ..
        } => shown_part(place, column, offset, bytes, last),
        _ => Shown::NOTHING,
    }
}

fn shown_name<'a>(place: &TablePlace, field: Field, name: &'a str) -> Shown<'a>
    ensures { shown_text result ≡ field_part place.now field (TextValue name.now) }
{
    match field {
        Field::ColumnName => Shown {
            before: if place.is_named { "," } else { "" },
            content: Content::Json(Scalar::Varchar(name)),
            ..Shown::NOTHING
        },
        _ => Shown::NOTHING,
    }
}

fn shown_count(field: Field, count: u32) -> Shown<'static>
    ensures { (place : TablePlace) → shown_text result ≡ field_part place field (CountValue count) }
{
    let content = Content::Number(u64::from(count));
    match field {
        Field::Columns => Shown {
            before: "{\"columns\":",
            content,
            after: ",\"names\":[",
            ..Shown::NOTHING
        },
        Field::Rows => Shown {
            before: "],\"rows\":",
            content,
            after: "}\n",
            ..Shown::NOTHING
        },
        _ => Shown::NOTHING,
    }
}

/// A cell or an item that has no items.
#[inline]
fn shown_value<'a>(place: &TablePlace, column: u32, content: Content<'a>) -> Shown<'a>
    ensures { shown_text result
        ≡ before_value place.now column ++ (content_text content.entry ++ after_value place.now column) }
{
    Shown {
        before: before(column, place.page.innermost()),
        content,
        after: after(
            place.page.is_last(column),
            innermost_after_item(&place.page),
        ),
        ..Shown::NOTHING
    }
}

/// A word in place of a value.
#[inline]
fn shown_word(place: &TablePlace, column: u32, word: &'static str) -> Shown<'static>
    ensures { shown_text result ≡ before_value place.now column ++ (word.now ++ after_value place.now column) }
{
    Shown {
        before: before(column, place.page.innermost()),
        begin: word,
        after: after(
            place.page.is_last(column),
            innermost_after_item(&place.page),
        ),
        ..Shown::NOTHING
    }
}

fn shown_opening(place: &TablePlace, column: u32) -> Shown<'static>
    ensures { shown_text result ≡ before_value place.now column ++ codes "[" }
{
    Shown {
        before: before(column, place.page.innermost()),
        begin: "[",
        ..Shown::NOTHING
    }
}

fn shown_closing(place: &TablePlace) -> Shown<'static>
    ensures { shown_text result ≡ end_part place.now.page.columns place.now.page.column place.now.page.open_values }
{
    match place.page.innermost() {
        None => Shown::NOTHING,
        Some(_) => Shown {
            end: "]",
            after: after(place.page.is_last(place.page.column()), place.page.outer()),
            ..Shown::NOTHING
        },
    }
}

/// The innermost open value as it is after one more item.
#[inline(always)]
fn innermost_after_item(place: &PagePlace) -> Option<WrittenValue>
    ensures { result ≡ innermost (with_item place.now.open_values) }
{
    match place.innermost() {
        Some(open) => Some(open.after_item()),
        None => None,
    }
}

/// A part of a long content, which is between quotes.
fn shown_part<'a>(
    place: &TablePlace,
    column: u32,
    offset: u32,
    bytes: &'a [u8],
    last: bool,
) -> Shown<'a>
    ensures { shown_text result ≡ value_part place.now column (cell.Part 0 offset bytes.now last) }
{
    let (before, begin) = if offset == 0 {
        (before(column, place.page.innermost()), "\"")
    } else {
        ("", "")
    };
    let (end, after) = if last {
        (
            "\"",
            after(
                place.page.is_last(column),
                innermost_after_item(&place.page),
            ),
        )
    } else {
        ("", "")
    };
    Shown {
        before,
        begin,
        content: Content::Hex(bytes),
        end,
        after,
    }
}

/// What comes before a cell of this column, or before an item of the open value.
#[inline(always)]
fn before(column: u32, around: Option<WrittenValue>) -> &'static str
    ensures { result.now ≡ before column around }
{
    match around {
        None if column == 0 => "[",
        None => ",",
        Some(open) => before_item(open.kind, open.turn),
    }
}

#[inline(always)]
fn before_item(kind: Kind, turn: Turn) -> &'static str
    ensures { result.now ≡ before_item_of kind turn }
{
    match (kind, turn) {
        (Kind::Map, Turn::First) => "[",
        (Kind::Map, Turn::Another) => ",[",
        (_, Turn::First) => "",
        _ => ",",
    }
}

/// What comes after a cell, which may be the last of its row, or after an item of the open value.
#[inline(always)]
fn after(is_last: bool, around: Option<WrittenValue>) -> &'static str
    ensures { (columns column : ℕ) → is_last ≡ (column + 1 == columns)
        → result.now ≡ after columns column around }
{
    match around {
        None if is_last => "]\n",
        None => "",
        Some(open) => after_item(open.kind, open.turn),
    }
}

#[inline(always)]
fn after_item(kind: Kind, turn: Turn) -> &'static str
    ensures { result.now ≡ after_item_of kind turn }
{
    match (kind, turn) {
        (Kind::Map, Turn::Another) => "]",
        _ => "",
    }
}
