//! What is said of frames in the last line.

ghost use Rattle.std.specs.Prelude.{◌≡◌};
ghost use Rattle.cqlp_text.specs.Written.{Writes};
ghost use Rattle.cqlp_capture_events.specs.Words.{events_note};

use cqlp_capture_streams::{LastWords, put_count};
use cqlp_grammar::SinkFault;
use cqlp_text::{Pen, TextWriter};

/// How many frames were not read.
#[derive(Clone, Copy)]
pub(crate) struct EventsWords {
    pub(crate) unread: u64,
}

/// Why not all frames were read, in a line, if so many were not.
fn note_of(unread: u64) -> &'static str
    ensures { result.now ≡ events_note unread }
{
    if unread == 0 {
        ""
    } else {
        "cqlp: not all frames were read: more than 128 came at one time\n"
    }
}

impl LastWords for EventsWords {
    ghost use Rattle.cqlp_capture_events.specs.Words.{events_words};

    ghost note = { λ w. events_note w.unread };

    ghost words = { λ w. events_words w.unread };

    fn has_note(&self) -> bool {
        self.unread != 0
    }

    fn put_note<P: Pen>(&self, writer: &mut TextWriter<P>) -> Result<(), SinkFault> {
        writer.put_str(note_of(self.unread))
    }

    fn put_words<P: Pen>(&self, writer: &mut TextWriter<P>) -> Result<(), SinkFault> {
        writer.put(b"events")?;
        put_count(writer, "Unread", self.unread)
    }
}
