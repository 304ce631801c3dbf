//! Forms of text, written and begun anew.

ghost use Rattle.std.specs.Prelude.{◌≡◌, []};
ghost use Rattle.cqlp_grammar.specs.Events.{event_of};
ghost use Rattle.cqlp_render.specs.Forms.{form_after, text_of};
ghost use Rattle.cqlp_text.specs.Written.{Writes};
ghost use Rattle.cqlp_render_skip.specs.Texts.{afresh, break_of};

use cqlp_decode::{Event, SinkFault};
use cqlp_json::put_json_line;
use cqlp_render::TextForm;
use cqlp_row_text::{TablePlace, csv_break, json_break, put_csv_part, put_json_part};
use cqlp_text::{PagePlace, Pen, TextWriter};

/// Takes the text of the event at an offset.
#[inline]
pub(crate) fn write_event<P: Pen>(
    form: &mut TextForm,
    at: u64,
    event: &Event<'_>,
    writer: &mut TextWriter<P>,
) -> Result<(), SinkFault>
    ensures text { Writes writer.old (text_of form.old at (event_of event.now)) result writer.new }
    ensures form { form.new ≡ form_after form.old (event_of event.now) }
{
    match form {
        TextForm::Lines => writer.put_event(at, event),
        TextForm::JsonLines => put_json_line(at, event, writer),
        TextForm::Pages(place) => writer.put_page_part(place, event),
        TextForm::JsonRows(place) => put_json_part(place, event, writer),
        TextForm::CsvRows(place) => put_csv_part(place, event, writer),
        TextForm::Nothing => Ok(()),
    }
}

/// Takes what ends the text of a stretch, and goes on with no page under way.
pub(crate) fn break_off<P: Pen>(
    form: &mut TextForm,
    writer: &mut TextWriter<P>,
) -> Result<(), SinkFault>
    ensures text { Writes writer.old (break_of form.old) result writer.new }
    ensures form { form.new ≡ afresh form.old }
{
    match form {
        TextForm::Lines | TextForm::JsonLines => Ok(()),
        TextForm::Pages(place) => {
            *place = PagePlace::new();
            writer.put(b"\n")
        }
        TextForm::JsonRows(place) => {
            let text = json_break(place);
            *place = TablePlace::new();
            writer.put(text.as_bytes())
        }
        TextForm::CsvRows(place) => {
            let text = csv_break(place);
            *place = TablePlace::new();
            writer.put(text.as_bytes())
        }
        TextForm::Nothing => Ok(()),
    }
}
