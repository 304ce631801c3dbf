//! How a command ends.

ghost use Rattle.std.specs.Prelude.{◌≡◌, IsSome};
ghost use Rattle.cqlp_text.specs.Endings.{cannot_open_line as cannot_open_line_of, ending_line as line_of};
ghost use Rattle.cqlp_text.specs.Outputs.{AppendsText, written};

use crate::exit_status::{DONE, FAULT, NOT_WHOLE};
use crate::line_pen::LinePen;
use crate::names::reason_name;
use crate::text_writer::TextWriter;
use crate::word::Word;
use cqlp_grammar::{Finish, SinkFault};
use cqlp_note::{Refusal, Target};

/// How a command ends.
#[derive(Clone, Copy, Debug, PartialEq, Eq)]
pub enum Ending {
    /// The stream was read to its end, or refused.
    Finished(Finish),
    /// The input failed.
    ReadFault,
    /// The output failed.
    WriteFault,
    /// The command asked for memory and got none.
    NoMemory,
    /// The input was not at its end, or a message not whole, after the greatest number of reads.
    TooManyTurns,
    /// A message of a conversation was refused.
    BadReply,
    /// A connection could not be made, or failed, or ended within a conversation.
    SocketFault,
}

impl Ending {
    ghost use Rattle.cqlp_text.specs.Endings.{IsStatusOfTask, status_of};

    /// The exit status.
    #[must_use]
    pub fn status(self) -> u8
        ensures value { result ≡ status_of self }
        ensures task { IsStatusOfTask result }
    {
        match self {
            Ending::Finished(Finish::Whole { .. }) => DONE,
            Ending::Finished(Finish::Cut { .. }) => NOT_WHOLE,
            Ending::Finished(Finish::Refused(_)) => NOT_WHOLE,
            Ending::ReadFault => FAULT,
            Ending::WriteFault => FAULT,
            Ending::NoMemory => FAULT,
            Ending::TooManyTurns => FAULT,
            Ending::BadReply => NOT_WHOLE,
            Ending::SocketFault => FAULT,
        }
    }
}

/// Appends the verdict line or the fault line of an ending. A fault is the writer's own.
///
/// # Errors
///
/// The fault of the target.
pub fn ending_line<W: Target>(ending: Ending, w: &mut W) -> Result<(), SinkFault>
    ensures { AppendsText (written W.Target w.old) (line_of ending) result (written W.Target w.new) }
{
    let mut writer = TextWriter::over(w);
    let written = writer.put_ending(ending);
    let _ = writer.into_target();
    written
}

/// Appends the line of a file that cannot be opened. A fault is the writer's own.
pub fn cannot_open_line<W: Target>(file: &str, w: &mut W) -> Result<(), SinkFault>
    ensures { AppendsText (written W.Target w.old) (cannot_open_line_of file.now) result (written W.Target w.new) }
{
    let mut writer = TextWriter::over(w);
    let written = writer.put_cannot_open(file);
    let _ = writer.into_target();
    written
}

impl<W: Target> TextWriter<LinePen<'_, W>> {
    ghost use Rattle.std.specs.Prelude.{◌++◌, [], map, codes};
    ghost use Rattle.cqlp_text.specs.Endings.{cannot_open_line, ending_line, verdict};
    ghost use Rattle.cqlp_text.specs.Lines.{spaced};
    ghost use Rattle.cqlp_text.specs.Words.{word_text};
    ghost use Rattle.cqlp_text.specs.Written.{Writes};

    /// Takes the verdict line or the fault line, and passes all on.
    pub fn put_ending(&mut self, ending: Ending) -> Result<(), SinkFault>
        ensures line { Writes self.old (ending_line ending) result self.new }
        ensures passed { self.new.waiting ≡ [] }
    {
        match ending {
            Ending::Finished(finish) => self.put_verdict(finish),
            Ending::ReadFault => self.put_line("cqlp: read fault", &[]),
            Ending::WriteFault => self.put_line("cqlp: write fault", &[]),
            Ending::NoMemory => self.put_line("cqlp: no memory", &[]),
            Ending::TooManyTurns => self.put_line("cqlp: too many turns", &[]),
            Ending::BadReply => self.put_line("cqlp: bad reply", &[]),
            Ending::SocketFault => self.put_line("cqlp: socket fault", &[]),
        }
    }

    fn put_verdict(&mut self, finish: Finish) -> Result<(), SinkFault>
        ensures line { Writes self.old (verdict finish ++ codes "\n") result self.new }
        ensures passed { self.new.waiting ≡ [] }
    {
        match finish {
            Finish::Whole { bytes } => self.put_line("whole", &[Word::Number(bytes)]),
            Finish::Cut { frame_at, bytes } => {
                self.put_line("cut", &[Word::Number(frame_at), Word::Number(bytes)])
            }
            Finish::Refused(Refusal { at, why }) => self.put_line(
                "refused",
                &[Word::Number(at), Word::Name(reason_name(why))],
            ),
        }
    }

    /// Takes the line of a file that cannot be opened, and passes all on.
    pub fn put_cannot_open(&mut self, file: &str) -> Result<(), SinkFault>
        ensures line { Writes self.old (cannot_open_line file.now) result self.new }
        ensures passed { self.new.waiting ≡ [] }
    {
        self.put_line("cqlp: cannot open", &[Word::Foreign(file)])
    }

    /// Takes a line of words, and passes all on.
    fn put_line(&mut self, first: &str, words: &[Word<'_>]) -> Result<(), SinkFault>
        ensures line { Writes self.old (first.now ++ (spaced (map word_text words.now) ++ codes "\n")) result self.new }
        ensures passed { self.new.waiting ≡ [] }
    {
        self.put(first.as_bytes())?;
        self.put_words(words)?;
        self.put(b"\n")?;
        self.flush()
    }
}
