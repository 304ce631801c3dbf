//! A reader that reports how far it came.

ghost use Rattle.std.specs.Prelude.{◌≡◌, ◌+◌, ◌-◌, ◌≤◌, ◌^◌, IfOk, false, is_err, length, min, true};
ghost use Rattle.cqlp_note.specs.Outputs.{Output, written};
ghost use Rattle.cqlp_note.specs.Streams.{counted, counted_up};
ghost use Rattle.cqlp_tool.specs.Marks.{Shows, read_after};

use crate::marks::{marks, put_marks};
use cqlp_capture_streams::CaptureInput;
use cqlp_note::{IoFault, Source, Target};

/// A reader of a file of a known length, which gives what the reader gives, and writes to `notes` how much of the file was read: a line after each
/// further [`MARK`](crate::marks::MARK) bytes, as far as the length goes.
///
/// Once a line cannot be written no other one is, and the reading goes on.
#[derive(Drop)]
pub struct Progress<S, T> {
    /// The reader.
    source: S,
    notes: T,
    /// How many bytes the file has.
    length: u64,
    /// How many of them were read.
    read: u64,
    /// Whether a line could not be written.
    is_over: bool,
}

impl<S, T> Progress<S, T> {
    /// Of a file of so many bytes, of which none is read.
    pub fn new(source: S, length: u64, notes: T) -> Self
        ensures { result ≡ record { source = source; notes = notes; length = length; read = 0; is_over = false } }
    {
        Progress {
            source,
            notes,
            length,
            read: 0,
            is_over: false,
        }
    }
}

impl<S, T: Target> Progress<S, T> {
    /// So many bytes more were read.
    fn add_read(&mut self, count: usize)
        ensures source { self.new.source ≡ self.old.source }
        ensures length { self.new.length ≡ self.old.length }
        ensures read { self.new.read ≡ min (self.old.read + count) (2 ^ 64 - 1) }
        ensures shows { (before : Output)
            → Shows before self.old.length self.old.read self.old.is_over (written T.Target self.old.notes)
            → Shows before self.new.length self.new.read self.new.is_over (written T.Target self.new.notes) }
    {
        let shown = marks(self.length, self.read);
        self.read = self.read.saturating_add(count as u64);
        let due = marks(self.length, self.read);
        if !self.is_over {
            self.is_over = put_marks(&mut self.notes, self.length, shown, due);
        }
    }
}

impl<S: Source, T: Target> Source for Progress<S, T> {
    ghost use Rattle.std.specs.Io.KnownBytes.{ReadConsumes};

    ghost left = { λ p. S.left p.source };

    ghost failures = { λ p. S.failures p.source };

    ghost reads = { λ p. S.reads p.source };

    ghost asked = { λ p. S.asked p.source };

    fn read(&mut self, buffer: &mut [u8]) -> Result<usize, IoFault>
        ensures bound { IfOk result (λ n. n ≤ length buffer.new) }
        ensures bytes { ReadConsumes (S.left self.old.source) (S.left self.new.source) result buffer.new }
        ensures failures { S.failures self.new.source ≡ counted (is_err result) (S.failures self.old.source) }
        ensures reads { S.reads self.new.source ≡ counted true (S.reads self.old.source) }
        ensures asked { S.asked self.new.source ≡ counted_up (length buffer.new) (S.asked self.old.source) }
        ensures length { self.new.length ≡ self.old.length }
        ensures read { self.new.read ≡ read_after result self.old.read }
        ensures shows { (before : Output)
            → Shows before self.old.length self.old.read self.old.is_over (written T.Target self.old.notes)
            → Shows before self.new.length self.new.read self.new.is_over (written T.Target self.new.notes) }
    {
        match self.source.read(buffer) {
            Ok(count) => {
                self.add_read(count);
                Ok(count)
            }
            Err(IoFault) => Err(IoFault),
        }
    }
}

impl<S: CaptureInput, T: Target> CaptureInput for Progress<S, T> {
    fn next_file(&mut self) -> Result<bool, IoFault> {
        self.source.next_file()
    }
}
