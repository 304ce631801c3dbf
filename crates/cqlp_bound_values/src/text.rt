//! Values that are bound, as a part of a line and as members of a JSON object.

ghost use Rattle.std.specs.Prelude.{◌≡◌, true};
ghost use Rattle.cqlp_text.specs.CellText.{boolean_text};
ghost use Rattle.cqlp_text.specs.Written.{Writes};
ghost use Rattle.cqlp_bound_values.specs.Bindings.{bound_of, found_of, values_of};
ghost use Rattle.cqlp_bound_values.specs.Texts.{array_text, behind_named, content_text, item_text, items_text, json_content, json_item};
ghost use Rattle.cqlp_bound_values.specs.Texts.{line_content, line_item, list_text, members_text, missing_text, more, name_text, named_text};
ghost use Rattle.cqlp_bound_values.specs.Texts.{present_text, separator, value_text, values_text};
ghost use Rattle.cqlp_bound_values.specs.declared.form.Form.TheVariants as form;

use crate::binding::{Binding, BoundValues};
use crate::column_types::{DEEPEST, kind_at};
use crate::field::text_front;
use crate::form::Form;
use crate::item::Item;
use crate::line_scalar::put_line_scalar;
use crate::nested::is_nested;
use crate::nested_text::put_typed;
use crate::scalars::shown_scalar;
use cqlp_capture_summary::put_shown_text;
use cqlp_grammar::SinkFault;
use cqlp_json::{put_scalar, put_string};
use cqlp_kind::Kind;
use cqlp_text::{Pen, TextWriter};

/// Takes what a line has of the values that a request binds: each as `cqlp rows` writes a cell; nothing where there are none, or none is seen.
///
/// # Errors
///
/// The fault of the pen.
#[inline(never)]
pub fn put_values<P: Pen>(
    writer: &mut TextWriter<P>,
    binding: &Binding<'_>,
) -> Result<(), SinkFault>
    ensures { Writes writer.old (values_text (bound_of binding.now)) result writer.new }
{
    match binding {
        Binding::Nothing => writer.put(b""),
        Binding::Unseen => writer.put(b""),
        Binding::Values(values) => put_list(writer, values),
    }
}

fn put_list<P: Pen>(writer: &mut TextWriter<P>, values: &BoundValues<'_>) -> Result<(), SinkFault>
    ensures { Writes writer.old (list_text (values_of values.now)) result writer.new }
{
    writer.put(b" values [")?;
    put_items(writer, Form::Line, values)?;
    writer.put(b"]")
}

/// Takes the members of a JSON object that say which values a request binds, and whether all bytes of all of them are there: each as `cqlp rows --json`
/// writes a cell.
///
/// # Errors
///
/// The fault of the pen.
#[inline(never)]
pub fn put_values_members<P: Pen>(
    writer: &mut TextWriter<P>,
    binding: &Binding<'_>,
) -> Result<(), SinkFault>
    ensures { Writes writer.old (members_text (bound_of binding.now)) result writer.new }
{
    match binding {
        Binding::Nothing => writer.put(b",\"values\":null,\"values_are_whole\":null"),
        Binding::Unseen => writer.put(b",\"values\":null,\"values_are_whole\":false"),
        Binding::Values(values) => put_array(writer, values),
    }
}

fn put_array<P: Pen>(writer: &mut TextWriter<P>, values: &BoundValues<'_>) -> Result<(), SinkFault>
    ensures { Writes writer.old (array_text (values_of values.now)) result writer.new }
{
    writer.put(b",\"values\":[")?;
    put_items(writer, Form::Json, values)?;
    writer.put(b"],\"values_are_whole\":")?;
    writer.put_str(boolean_text(values.are_whole()))
}

fn boolean_text(flag: bool) -> &'static str
    ensures { result.now ≡ boolean_text flag }
{
    if flag { "true" } else { "false" }
}

/// Takes values, one after the other, up to the first one that is not there.
fn put_items<P: Pen>(
    writer: &mut TextWriter<P>,
    form: Form,
    values: &BoundValues<'_>,
) -> Result<(), SinkFault>
    ensures { Writes writer.old (items_text values.now.count form true (values_of values.now)) result writer.new }
{
    let mut rest = *values;
    let mut is_first = true;
    while rest.count() > 0 {
        put_item(writer, form, is_first, &rest)?;
        if rest.item().is_missing() {
            return Ok(());
        }
        rest = rest.others();
        is_first = false;
    }
    Ok(())
}

/// Takes the first of these values, behind what comes before it.
fn put_item<P: Pen>(
    writer: &mut TextWriter<P>,
    form: Form,
    is_first: bool,
    values: &BoundValues<'_>,
) -> Result<(), SinkFault>
    ensures { Writes writer.old (item_text form is_first (values_of values.now)) result writer.new }
{
    let item = values.item();
    if item.is_missing() {
        return put_missing(writer, form, is_first);
    }
    put_present(writer, form, is_first, values, &item)
}

/// Takes what there is in place of a value that is not there.
fn put_missing<P: Pen>(
    writer: &mut TextWriter<P>,
    form: Form,
    is_first: bool,
) -> Result<(), SinkFault>
    ensures { Writes writer.old (missing_text form is_first) result writer.new }
{
    match (form, is_first) {
        (Form::Line, true) => writer.put(b".."),
        (Form::Line, false) => writer.put(b", .."),
        (Form::Json, _) => writer.put(b""),
    }
}

fn put_present<P: Pen>(
    writer: &mut TextWriter<P>,
    form: Form,
    is_first: bool,
    values: &BoundValues<'_>,
    item: &Item<'_>,
) -> Result<(), SinkFault>
    ensures { Writes writer.old (present_text form is_first (values_of values.now) (found_of item.now)) result writer.new }
{
    writer.put_str(separator(form, is_first))?;
    put_name(writer, form, values)?;
    put_value(writer, form, values.option(), item)?;
    writer.put_str(behind_named(form, values.are_named()))
}

fn separator(form: Form, is_first: bool) -> &'static str
    ensures { result.now ≡ separator form is_first }
{
    match (form, is_first) {
        (_, true) => "",
        (Form::Line, false) => ", ",
        (Form::Json, false) => ",",
    }
}

/// What comes behind a value with a name: in JSON it is the only member of an object.
fn behind_named(form: Form, is_named: bool) -> &'static str
    ensures { result.now ≡ behind_named form is_named }
{
    match (form, is_named) {
        (Form::Json, true) => "}",
        (Form::Json, false) => "",
        (Form::Line, _) => "",
    }
}

/// Takes the name of the first of these values, if it has one.
fn put_name<P: Pen>(
    writer: &mut TextWriter<P>,
    form: Form,
    values: &BoundValues<'_>,
) -> Result<(), SinkFault>
    ensures { Writes writer.old (name_text form (values_of values.now)) result writer.new }
{
    if values.are_named() {
        put_name_as(writer, form, text_front(values.name()))
    } else {
        writer.put(b"")
    }
}

fn put_name_as<P: Pen>(writer: &mut TextWriter<P>, form: Form, name: &str) -> Result<(), SinkFault>
    ensures { Writes writer.old (named_text form name.now) result writer.new }
{
    match form {
        Form::Line => put_line_name(writer, name),
        Form::Json => put_json_name(writer, name),
    }
}

fn put_line_name<P: Pen>(writer: &mut TextWriter<P>, name: &str) -> Result<(), SinkFault>
    ensures { Writes writer.old (named_text form.Line name.now) result writer.new }
{
    put_shown_text(writer, name)?;
    writer.put(b": ")
}

fn put_json_name<P: Pen>(writer: &mut TextWriter<P>, name: &str) -> Result<(), SinkFault>
    ensures { Writes writer.old (named_text form.Json name.now) result writer.new }
{
    writer.put(b"{")?;
    put_string(name, writer)?;
    writer.put(b":")
}

/// Takes a value of this type option that is there.
fn put_value<P: Pen>(
    writer: &mut TextWriter<P>,
    form: Form,
    option: &[u8],
    item: &Item<'_>,
) -> Result<(), SinkFault>
    ensures { Writes writer.old (value_text form option.now (found_of item.now)) result writer.new }
{
    match form {
        Form::Line => put_line_value(writer, option, item),
        Form::Json => put_json_value(writer, option, item),
    }
}

fn put_line_value<P: Pen>(
    writer: &mut TextWriter<P>,
    option: &[u8],
    item: &Item<'_>,
) -> Result<(), SinkFault>
    ensures { Writes writer.old (line_item option.now (found_of item.now)) result writer.new }
{
    match *item {
        Item::Missing => writer.put(b""),
        Item::Null => writer.put(b"null"),
        Item::Unset => writer.put(b"unset"),
        Item::Content {
            bytes: [],
            is_whole: true,
        } => writer.put(b"empty"),
        Item::Content { bytes, is_whole } => put_line_content(writer, option, bytes, is_whole),
    }
}

fn put_line_content<P: Pen>(
    writer: &mut TextWriter<P>,
    option: &[u8],
    bytes: &[u8],
    is_whole: bool,
) -> Result<(), SinkFault>
    ensures { Writes writer.old (line_content option.now bytes.now is_whole) result writer.new }
{
    if is_whole && is_nested(option, bytes) {
        return put_typed(writer, Form::Line, DEEPEST, option, bytes);
    }
    put_content(writer, kind_at(option), bytes, is_whole)
}

fn put_content<P: Pen>(
    writer: &mut TextWriter<P>,
    kind: Kind,
    bytes: &[u8],
    is_whole: bool,
) -> Result<(), SinkFault>
    ensures { Writes writer.old (content_text kind bytes.now is_whole) result writer.new }
{
    put_line_scalar(writer, &shown_scalar(kind, bytes, is_whole))?;
    writer.put_str(more(is_whole))
}

/// Two points behind what is not all of it.
fn more(is_whole: bool) -> &'static str
    ensures { result.now ≡ more is_whole }
{
    if is_whole { "" } else { ".." }
}

fn put_json_value<P: Pen>(
    writer: &mut TextWriter<P>,
    option: &[u8],
    item: &Item<'_>,
) -> Result<(), SinkFault>
    ensures { Writes writer.old (json_item option.now (found_of item.now)) result writer.new }
{
    match *item {
        Item::Missing => writer.put(b""),
        Item::Null => writer.put(b"null"),
        Item::Unset => writer.put(b"{}"),
        Item::Content {
            bytes: [],
            is_whole: true,
        } => writer.put(b"\"\""),
        Item::Content { bytes, is_whole } => put_json_content(writer, option, bytes, is_whole),
    }
}

fn put_json_content<P: Pen>(
    writer: &mut TextWriter<P>,
    option: &[u8],
    bytes: &[u8],
    is_whole: bool,
) -> Result<(), SinkFault>
    ensures { Writes writer.old (json_content option.now bytes.now is_whole) result writer.new }
{
    if is_whole && is_nested(option, bytes) {
        return put_typed(writer, Form::Json, DEEPEST, option, bytes);
    }
    put_scalar(&shown_scalar(kind_at(option), bytes, is_whole), writer)
}
