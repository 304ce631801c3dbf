//! The place on a page, and whether a column's name has come.

ghost use Rattle.std.specs.Prelude.{◌≡◌};
ghost use Rattle.cqlp_grammar.specs.Events.{event_of};
ghost use Rattle.cqlp_row_text.specs.Places.{no_table, table_after};

use cqlp_grammar::Event;
use cqlp_note::Field;
use cqlp_text::PagePlace;

/// What the rows of a page depend on of the events before.
#[derive(Drop)]
pub struct TablePlace {
    pub(crate) page: PagePlace,
    /// Whether a column's name has come.
    pub(crate) is_named: bool,
}

impl TablePlace {
    /// Before any frame.
    #[must_use]
    pub fn new() -> Self
        ensures { result ≡ no_table }
    {
        TablePlace {
            page: PagePlace::new(),
            is_named: false,
        }
    }

    /// Goes to the place after an event.
    #[inline]
    pub(crate) fn pass(&mut self, event: &Event<'_>)
        ensures { self.new ≡ table_after self.old (event_of event.now) }
    {
        self.page.pass(event);
        match *event {
            Event::Text {
                field: Field::ColumnName,
                ..
            } => self.is_named = true,
            Event::End { .. } => self.is_named = false,
            _ => {}
        }
    }
}
