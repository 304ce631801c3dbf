//! A page, as far as its events came.

ghost use Rattle.std.specs.Prelude.{◌≡◌, OnOk, option_map};
ghost use Rattle.cqlp_note.specs.Field.{Int as IntValue};
ghost use Rattle.cqlp_grammar.specs.Events.{event_of};
ghost use Rattle.cqlp_text.specs.PageText.{is_rows};
ghost use Rattle.cqlp_text.specs.Written.{Writes};
ghost use Rattle.cqlp_capture_rows.specs.Pages.{begins_page, cut_text, ends_frame, id_after, is_begun_after, is_page_kind};
ghost use Rattle.cqlp_capture_rows.specs.Pages.{no_rows, page_after, page_line_if, rows_part};

use crate::spot::{FrameSpot, put_page_line};
use cqlp_capture_prepared::StatementId;
use cqlp_grammar::{Event, SinkFault};
use cqlp_note::Field;
use cqlp_text::{PagePlace, Pen, TextWriter};
use std::marker::Model;

/// The kind of a result that is a page (section 4.2.5 of `native_protocol_v4.spec`).
const ROWS: i32 = 2;

/// What the text of a frame's next event depends on.
#[derive(Drop)]
pub(crate) struct Page {
    place: PagePlace,
    /// Whether a page has begun that has not ended.
    is_begun: bool,
    /// The id of a statement that was named.
    id: Option<StatementId>,
}

impl Model for Page {
    ghost use Rattle.cqlp_capture_rows.specs.Pages.{Page};

    ghost Value = { Page };

    ghost view = { λ p. record { place = p.place; is_begun = p.is_begun; id = p.id } };
}

impl Page {
    /// Before the first event of a frame.
    pub(crate) fn new() -> Self
        ensures { result ≡ no_rows }
    {
        Page {
            place: PagePlace::new(),
            is_begun: false,
            id: None,
        }
    }

    /// Takes what is written of an event of the frame that begins there, and goes to the place after it.
    pub(crate) fn put_event<P: Pen>(
        &mut self,
        event: &Event<'_>,
        begun: FrameSpot,
        writer: &mut TextWriter<P>,
    ) -> Result<(), SinkFault>
        ensures part { Writes writer.old (rows_part begun self.old (event_of event.now)) result writer.new }
        ensures after { OnOk result (self.new ≡ page_after self.old (event_of event.now)) }
    {
        self.is_begun = is_begun_after(self.is_begun, event);
        note_id(&mut self.id, event);
        put_page_line_if(begins_page(event), writer, begun)?;
        writer.put_page_part(&mut self.place, event)
    }

    /// The id of a statement that was named, of a RESULT that of its PREPARED, if it has at most [`StatementId::MOST`] bytes.
    pub(crate) fn id(&self) -> Option<&StatementId>
        ensures { option_map (λ id. id.now) result ≡ self.now.id }
    {
        self.id.as_ref()
    }

    /// Takes the end of a page that does not end, if one has begun.
    pub(crate) fn put_cut<P: Pen>(&self, writer: &mut TextWriter<P>) -> Result<(), SinkFault>
        ensures { Writes writer.old (cut_text self.now) result writer.new }
    {
        if self.is_begun {
            writer.put(b" cut\n")
        } else {
            Ok(())
        }
    }
}

/// Keeps the id of a statement, if an event says one.
pub(crate) fn note_id(id: &mut Option<StatementId>, event: &Event<'_>)
    ensures { id.new ≡ id_after id.old (event_of event.now) }
{
    if let Event::Bytes {
        field: Field::StatementId,
        bytes: Some(bytes),
    } = *event
    {
        *id = StatementId::new(bytes);
    }
}

/// Takes the line of a page, where one begins.
fn put_page_line_if<P: Pen>(
    begins: bool,
    writer: &mut TextWriter<P>,
    begun: FrameSpot,
) -> Result<(), SinkFault>
    ensures { Writes writer.old (page_line_if begins begun) result writer.new }
{
    if begins {
        put_page_line(writer, begun)
    } else {
        Ok(())
    }
}

/// Whether a page has begun that has not ended, after an event.
fn is_begun_after(is_begun: bool, event: &Event<'_>) -> bool
    ensures { result ≡ is_begun_after is_begun (event_of event.now) }
{
    if ends_frame(event) {
        false
    } else if begins_page(event) {
        true
    } else {
        is_begun
    }
}

/// Whether a page begins with an event.
fn begins_page(event: &Event<'_>) -> bool
    ensures { result ≡ begins_page (event_of event.now) }
{
    match *event {
        Event::Int { field, value } => is_page_kind(field, value),
        _ => false,
    }
}

fn is_page_kind(field: Field, value: i32) -> bool
    ensures { result ≡ is_page_kind field (IntValue value) }
{
    match field {
        Field::ResultKind => value == ROWS,
        _ => false,
    }
}

fn ends_frame(event: &Event<'_>) -> bool
    ensures { result ≡ ends_frame (event_of event.now) }
{
    match *event {
        Event::End { .. } => true,
        _ => false,
    }
}
