//! How the text of events is written.

ghost use Rattle.std.specs.Prelude.{◌≡◌, IsSome};
ghost use Rattle.cqlp_grammar.specs.Events.{event_of};
ghost use Rattle.cqlp_text.specs.Outputs.{AppendsText, written};
ghost use Rattle.cqlp_text.specs.Written.{Writes};
ghost use Rattle.cqlp_render.specs.Forms.{form_after, text_of};
ghost use Rattle.cqlp_render.specs.declared.text_form.TextForm.TheVariants as forms;

use cqlp_decode::{Event, SinkFault};
use cqlp_json::{json_line, put_json_line};
use cqlp_note::Target;
use cqlp_row_text::{TablePlace, csv_part, json_part, put_csv_part, put_json_part};
use cqlp_text::{PagePlace, Pen, TextWriter, event_line, page_part};

/// A form of text. Each has a type of its own, so that no event asks for its form.
pub(crate) trait Form {
    ghost use Rattle.cqlp_render.specs.declared.text_form.TextForm.{TextForm};

    /// The form, as it is before the next event.
    ghost form: { Self → TextForm };

    /// Appends the text of the event at an offset. A fault is the target's own.
    fn put<W: Target>(
        &mut self,
        at: u64,
        event: &Event<'_>,
        target: &mut W,
    ) -> Result<(), SinkFault>
        ensures text { AppendsText (written W.Target target.old) (text_of (form self.old) at (event_of event.now))
            result (written W.Target target.new) }
        ensures form { form self.new ≡ form_after (form self.old) (event_of event.now) };

    /// Has a writer take the text of the event at an offset.
    fn write<P: Pen>(
        &mut self,
        at: u64,
        event: &Event<'_>,
        writer: &mut TextWriter<P>,
    ) -> Result<(), SinkFault>
        ensures text { Writes writer.old (text_of (form self.old) at (event_of event.now)) result writer.new }
        ensures form { form self.new ≡ form_after (form self.old) (event_of event.now) };
}

/// A line for each event.
#[derive(Drop)]
pub(crate) struct Lines;

impl Form for Lines {
    ghost form = { λ _. forms.Lines };

    #[inline]
    fn put<W: Target>(
        &mut self,
        at: u64,
        event: &Event<'_>,
        target: &mut W,
    ) -> Result<(), SinkFault> {
        event_line(at, event, target)
    }

    #[inline]
    fn write<P: Pen>(
        &mut self,
        at: u64,
        event: &Event<'_>,
        writer: &mut TextWriter<P>,
    ) -> Result<(), SinkFault> {
        writer.put_event(at, event)
    }
}

/// A JSON object for each event, in a line.
#[derive(Drop)]
pub(crate) struct JsonLines;

impl Form for JsonLines {
    ghost form = { λ _. forms.JsonLines };

    #[inline]
    fn put<W: Target>(
        &mut self,
        at: u64,
        event: &Event<'_>,
        target: &mut W,
    ) -> Result<(), SinkFault> {
        json_line(at, event, target)
    }

    #[inline]
    fn write<P: Pen>(
        &mut self,
        at: u64,
        event: &Event<'_>,
        writer: &mut TextWriter<P>,
    ) -> Result<(), SinkFault> {
        put_json_line(at, event, writer)
    }
}

/// The text of pages, from a place in a page.
impl Form for PagePlace {
    ghost form = { λ place. forms.Pages place };

    #[inline]
    fn put<W: Target>(
        &mut self,
        _at: u64,
        event: &Event<'_>,
        target: &mut W,
    ) -> Result<(), SinkFault> {
        page_part(self, event, target)
    }

    #[inline(always)]
    fn write<P: Pen>(
        &mut self,
        _at: u64,
        event: &Event<'_>,
        writer: &mut TextWriter<P>,
    ) -> Result<(), SinkFault> {
        writer.put_page_part(self, event)
    }
}

/// The rows of pages as JSON, from a place in a page.
#[derive(Drop)]
pub(crate) struct JsonRows(pub TablePlace);

impl Form for JsonRows {
    ghost form = { λ rows. forms.JsonRows rows.0 };

    #[inline]
    fn put<W: Target>(
        &mut self,
        _at: u64,
        event: &Event<'_>,
        target: &mut W,
    ) -> Result<(), SinkFault> {
        json_part(&mut self.0, event, target)
    }

    #[inline]
    fn write<P: Pen>(
        &mut self,
        _at: u64,
        event: &Event<'_>,
        writer: &mut TextWriter<P>,
    ) -> Result<(), SinkFault> {
        put_json_part(&mut self.0, event, writer)
    }
}

/// The rows of pages as CSV, from a place in a page.
#[derive(Drop)]
pub(crate) struct CsvRows(pub TablePlace);

impl Form for CsvRows {
    ghost form = { λ rows. forms.CsvRows rows.0 };

    #[inline]
    fn put<W: Target>(
        &mut self,
        _at: u64,
        event: &Event<'_>,
        target: &mut W,
    ) -> Result<(), SinkFault> {
        csv_part(&mut self.0, event, target)
    }

    #[inline]
    fn write<P: Pen>(
        &mut self,
        _at: u64,
        event: &Event<'_>,
        writer: &mut TextWriter<P>,
    ) -> Result<(), SinkFault> {
        put_csv_part(&mut self.0, event, writer)
    }
}

/// No text.
#[derive(Drop)]
pub(crate) struct Nothing;

impl Form for Nothing {
    ghost form = { λ _. forms.Nothing };

    #[inline]
    fn put<W: Target>(
        &mut self,
        _at: u64,
        _event: &Event<'_>,
        _target: &mut W,
    ) -> Result<(), SinkFault> {
        Ok(())
    }

    #[inline]
    fn write<P: Pen>(
        &mut self,
        _at: u64,
        _event: &Event<'_>,
        _writer: &mut TextWriter<P>,
    ) -> Result<(), SinkFault> {
        Ok(())
    }
}
