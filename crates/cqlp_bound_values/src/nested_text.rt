//! Values with items, as cells of `cqlp rows` and of `cqlp rows --json`.

ghost use Rattle.std.specs.Prelude.{◌≡◌};
ghost use Rattle.cqlp_kind.specs.Contents.{value_of};
ghost use Rattle.cqlp_row_text.specs.JsonRows.{after_item, before_item};
ghost use Rattle.cqlp_text.specs.PageText.{separator, turn_after};
ghost use Rattle.cqlp_text.specs.Written.{Writes};
ghost use Rattle.cqlp_bound_values.specs.Bindings.{found_of};
ghost use Rattle.cqlp_bound_values.specs.Columns.{behind_option};
ghost use Rattle.cqlp_bound_values.specs.Nested.{items_as};
ghost use Rattle.cqlp_bound_values.specs.Texts.{after_text, all_items, before_text, closing_text, empty_text, first_text, inner_text, kind_text, nested_text};
ghost use Rattle.cqlp_bound_values.specs.Texts.{opening_text, scalar_as, typed_text};

use crate::column_types::kind_at;
use crate::field::{behind, is_end};
use crate::form::Form;
use crate::item::Item;
use crate::line_scalar::put_line_scalar;
use crate::nested::Items;
use crate::scalars::shown_scalar;
use cqlp_grammar::SinkFault;
use cqlp_json::put_scalar;
use cqlp_kind::{Kind, Scalar};
use cqlp_text::{Pen, TextWriter, Turn, WrittenValue, closing, opening};

/// Takes a content that conforms to a type option in which so many are nested at most, itself counted.
///
/// # Errors
///
/// The fault of the pen.
#[cycle(put_typed)]
pub(crate) fn put_typed<P: Pen>(
    writer: &mut TextWriter<P>,
    form: Form,
    depth: u32,
    option: &[u8],
    content: &[u8],
) -> Result<(), SinkFault>
    ensures { Writes writer.old (typed_text depth form option.now content.now) result writer.new }
{
    if depth == 0 {
        return writer.put(b"");
    }
    let depth = depth - 1;
    let (kind, inner) = (kind_at(option), behind(2, option));
    if kind.is_scalar() {
        return put_scalar_as(writer, form, &shown_scalar(kind, content, true));
    }
    put_nested(
        writer,
        form,
        depth,
        kind,
        &Items::of(depth, kind, inner, content),
    )
}

#[cycle(put_typed)]
fn put_nested<P: Pen>(
    writer: &mut TextWriter<P>,
    form: Form,
    depth: u32,
    kind: Kind,
    items: &Items<'_>,
) -> Result<(), SinkFault>
    ensures { Writes writer.old (nested_text (typed_text depth form) (behind_option depth) form kind (items_as items.now)) result writer.new }
{
    writer.put_str(opening_text(form, kind))?;
    put_items(writer, form, depth, items)?;
    writer.put_str(closing_text(form, kind))
}

/// Takes items, up to the last byte.
#[cycle(put_typed)]
fn put_items<P: Pen>(
    writer: &mut TextWriter<P>,
    form: Form,
    depth: u32,
    items: &Items<'_>,
) -> Result<(), SinkFault>
    ensures { Writes writer.old (all_items (typed_text depth form) (behind_option depth) form (items_as items.now)) result writer.new }
{
    let mut rest = *items;
    let mut turn = Turn::First;
    while rest.left > 0 {
        if is_end(rest.bytes) {
            return Ok(());
        }
        put_first(writer, form, depth, turn, &rest)?;
        turn = turn_after(rest.kind, turn);
        rest = rest.others(depth);
    }
    Ok(())
}

/// Takes the first of these items, which has this turn, with what comes before and after it.
#[cycle(put_typed)]
fn put_first<P: Pen>(
    writer: &mut TextWriter<P>,
    form: Form,
    depth: u32,
    turn: Turn,
    items: &Items<'_>,
) -> Result<(), SinkFault>
    ensures { Writes writer.old (first_text (typed_text depth form) form turn (items_as items.now)) result writer.new }
{
    writer.put_str(before_text(form, items.kind, turn))?;
    put_inner(writer, form, depth, items.option, &items.first())?;
    writer.put_str(after_text(form, items.kind, turn))
}

#[cycle(put_typed)]
fn put_inner<P: Pen>(
    writer: &mut TextWriter<P>,
    form: Form,
    depth: u32,
    option: &[u8],
    item: &Item<'_>,
) -> Result<(), SinkFault>
    ensures { Writes writer.old (inner_text (typed_text depth form) form option.now (found_of item.now)) result writer.new }
{
    match *item {
        Item::Missing => writer.put(b""),
        Item::Null | Item::Unset => writer.put(b"null"),
        Item::Content {
            bytes: [],
            is_whole: _,
        } => writer.put_str(empty_text(form)),
        Item::Content { bytes, is_whole: _ } => put_typed(writer, form, depth, option, bytes),
    }
}

fn put_scalar_as<P: Pen>(
    writer: &mut TextWriter<P>,
    form: Form,
    scalar: &Scalar<'_>,
) -> Result<(), SinkFault>
    ensures { Writes writer.old (scalar_as form (value_of scalar.now)) result writer.new }
{
    match form {
        Form::Line => put_line_scalar(writer, scalar),
        Form::Json => put_scalar(scalar, writer),
    }
}

fn empty_text(form: Form) -> &'static str
    ensures { result.now ≡ empty_text form }
{
    match form {
        Form::Line => "empty",
        Form::Json => "\"\"",
    }
}

fn opening_text(form: Form, kind: Kind) -> &'static str
    ensures { result.now ≡ opening_text form kind }
{
    match form {
        Form::Line => opening(kind),
        Form::Json => "[",
    }
}

fn closing_text(form: Form, kind: Kind) -> &'static str
    ensures { result.now ≡ closing_text form kind }
{
    match form {
        Form::Line => closing(kind),
        Form::Json => "]",
    }
}

fn before_text(form: Form, kind: Kind, turn: Turn) -> &'static str
    ensures { result.now ≡ before_text form kind turn }
{
    match form {
        Form::Line => separator(turn),
        Form::Json => before_item(kind, turn),
    }
}

fn separator(turn: Turn) -> &'static str
    ensures { result.now ≡ separator turn }
{
    match turn {
        Turn::First => "",
        Turn::Paired => ": ",
        Turn::Another => ", ",
    }
}

fn turn_after(kind: Kind, turn: Turn) -> Turn
    ensures { result ≡ turn_after kind turn }
{
    WrittenValue { kind, turn }.after_item().turn
}

/// A pair of a map is an array of its own.
fn before_item(kind: Kind, turn: Turn) -> &'static str
    ensures { result.now ≡ before_item kind turn }
{
    match (kind, turn) {
        (Kind::Map, Turn::First) => "[",
        (Kind::Map, Turn::Paired) => ",",
        (Kind::Map, Turn::Another) => ",[",
        (_, Turn::First) => "",
        _ => ",",
    }
}

fn after_text(form: Form, kind: Kind, turn: Turn) -> &'static str
    ensures { result.now ≡ after_text form kind turn }
{
    match form {
        Form::Line => "",
        Form::Json => after_item(kind, turn_after(kind, turn)),
    }
}

fn after_item(kind: Kind, turn: Turn) -> &'static str
    ensures { result.now ≡ after_item kind turn }
{
    match (kind, turn) {
        (Kind::Map, Turn::Another) => "]",
        _ => "",
    }
}
