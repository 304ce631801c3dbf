//! The texts of the warnings of a response, in a line, an object or a record.

ghost use Rattle.std.specs.Prelude.{◌≡◌};
ghost use Rattle.cqlp_text.specs.Written.{Writes};
ghost use Rattle.cqlp_capture_exchanges.specs.WarningTexts.{closing, other_text, other_texts, texts_fields, texts_members, whole_text};
ghost use Rattle.cqlp_capture_exchanges.specs.Warnings.{listed_of, warned_of};
ghost use Rattle.cqlp_capture_exchanges.specs.declared.warning_texts.WarningForm.TheVariants as form_as;

use crate::warning::{Warning, Warnings};
use cqlp_capture_summary::{put_shown_in_field, put_shown_text};
use cqlp_grammar::SinkFault;
use cqlp_json::put_string;
use cqlp_text::{Pen, TextWriter};

/// What texts are written in.
#[derive(Clone, Copy)]
pub(crate) enum WarningForm {
    Line,
    Json,
    Csv,
}

/// Takes the texts of warnings, each behind another one.
pub(crate) fn put_other_texts<P: Pen>(
    writer: &mut TextWriter<P>,
    form: WarningForm,
    warnings: &Warnings<'_>,
) -> Result<(), SinkFault>
    ensures { Writes writer.old (other_texts form (listed_of warnings.now)) result writer.new }
{
    let mut rest = *warnings;
    while let Some((warning, others)) = rest.split_first() {
        put_other_text(writer, form, &warning)?;
        rest = others;
    }
    Ok(())
}

fn put_other_text<P: Pen>(
    writer: &mut TextWriter<P>,
    form: WarningForm,
    warning: &Warning<'_>,
) -> Result<(), SinkFault>
    ensures { Writes writer.old (other_text form (warned_of warning.now)) result writer.new }
{
    match form {
        WarningForm::Line => put_in_line(writer, warning),
        WarningForm::Json => put_in_array(writer, warning),
        WarningForm::Csv => put_in_field(writer, warning),
    }
}

fn put_in_line<P: Pen>(writer: &mut TextWriter<P>, warning: &Warning<'_>) -> Result<(), SinkFault>
    ensures { Writes writer.old (other_text form_as.Line (warned_of warning.now)) result writer.new }
{
    writer.put(b" \"")?;
    put_shown_text(writer, warning.text)?;
    writer.put_str(closing(warning.is_whole))
}

/// The quote behind a text, and two points if that is not all of it.
fn closing(is_whole: bool) -> &'static str
    ensures { result.now ≡ closing is_whole }
{
    if is_whole { "\"" } else { "\".." }
}

fn put_in_array<P: Pen>(writer: &mut TextWriter<P>, warning: &Warning<'_>) -> Result<(), SinkFault>
    ensures { Writes writer.old (other_text form_as.Json (warned_of warning.now)) result writer.new }
{
    writer.put(b",")?;
    put_string(warning.text, writer)
}

fn put_in_field<P: Pen>(writer: &mut TextWriter<P>, warning: &Warning<'_>) -> Result<(), SinkFault>
    ensures { Writes writer.old (other_text form_as.Csv (warned_of warning.now)) result writer.new }
{
    writer.put(b"; ")?;
    put_shown_in_field(writer, warning.text)
}

/// Takes the members that have the texts of warnings, by the first one and the others.
pub(crate) fn put_texts_members<P: Pen>(
    writer: &mut TextWriter<P>,
    first: &Warning<'_>,
    others: &Warnings<'_>,
) -> Result<(), SinkFault>
    ensures { Writes writer.old (texts_members (warned_of first.now) (listed_of others.now)) result writer.new }
{
    writer.put(b",\"warning_texts\":[")?;
    put_string(first.text, writer)?;
    put_other_texts(writer, WarningForm::Json, others)?;
    writer.put(b"],\"warning_texts_are_whole\":")?;
    writer.put_str(whole_text(first, others))
}

/// Likewise the fields, one of which has all texts.
pub(crate) fn put_texts_fields<P: Pen>(
    writer: &mut TextWriter<P>,
    first: &Warning<'_>,
    others: &Warnings<'_>,
) -> Result<(), SinkFault>
    ensures { Writes writer.old (texts_fields (warned_of first.now) (listed_of others.now)) result writer.new }
{
    writer.put(b",\"")?;
    put_shown_in_field(writer, first.text)?;
    put_other_texts(writer, WarningForm::Csv, others)?;
    writer.put(b"\",")?;
    writer.put_str(whole_text(first, others))
}

/// Whether all of the text of each warning is there.
fn whole_text(first: &Warning<'_>, others: &Warnings<'_>) -> &'static str
    ensures { result.now ≡ whole_text (warned_of first.now) (listed_of others.now) }
{
    if first.is_whole && others.are_whole() {
        "true"
    } else {
        "false"
    }
}
