//! What a caller says in the last line of a capture.

ghost use Rattle.std.specs.Prelude.{◌≡◌, [], ◌==◌, length, not};
ghost use Rattle.cqlp_text.specs.Written.{Writes};

use cqlp_grammar::SinkFault;
use cqlp_text::{Pen, TextWriter};

/// What a caller says in the last line of a capture, beside what the capture was. It takes no memory for that.
pub trait LastWords {
    ghost use Rattle.std.specs.Prelude.{ℕ, List};

    /// What comes before the line, where not all of the capture was seen. It ends with a line break, or is empty.
    ghost note: { Self → List ℕ };

    /// The words in the line.
    ghost words: { Self → List ℕ };

    /// Whether there is a note.
    fn has_note(&self) -> bool
        ensures { result ≡ not (length (note self.now) == 0) };

    /// Takes the note.
    fn put_note<P: Pen>(&self, writer: &mut TextWriter<P>) -> Result<(), SinkFault>
        ensures { Writes writer.old (note self.now) result writer.new };

    /// Takes the words.
    fn put_words<P: Pen>(&self, writer: &mut TextWriter<P>) -> Result<(), SinkFault>
        ensures { Writes writer.old (words self.now) result writer.new };
}

/// A word, without a note.
#[derive(Clone, Copy)]
pub struct LastWord(pub &'static str);

impl LastWords for LastWord {
    ghost note = { λ _. [] };

    ghost words = { λ w. w.0.now };

    fn has_note(&self) -> bool {
        false
    }

    fn put_note<P: Pen>(&self, writer: &mut TextWriter<P>) -> Result<(), SinkFault> {
        writer.put(b"")
    }

    fn put_words<P: Pen>(&self, writer: &mut TextWriter<P>) -> Result<(), SinkFault> {
        writer.put_str(self.0)
    }
}
