//! What is written while a stream is read.

ghost use Rattle.std.specs.Prelude.{◌≡◌, [], IsSome, true};
ghost use Rattle.cqlp_text.specs.Written.{Writes};
ghost use Rattle.cqlp_render_skip.specs.Texts.{afresh, break_of};

use crate::forming::{break_off, write_event};
use crate::skipped_line::skipped_line;
use cqlp_decode::{Event, Sink, SinkFault};
use cqlp_note::Target;
use cqlp_render::TextForm;
use cqlp_skip::Skipped;
use cqlp_text::{Buffered, TextWriter};
use std::alloc::Allocator;
use std::marker::Model;

/// Writes the text of each event straight into a buffer in front of the output, and the lines of frames that are passed over
/// to the error output.
#[derive(Drop)]
pub(crate) struct Report<O: Target, E: Target, A: Allocator> {
    writer: TextWriter<Buffered<O, A>>,
    form: TextForm,
    err: E,
    passed_over: bool,
}

impl<O: Target, E: Target, A: Allocator> Model for Report<O, E, A> {
    ghost use Rattle.cqlp_text.specs.Outputs.{written};
    ghost use Rattle.cqlp_render_skip.specs.Reporting.{Reporting};

    ghost Value = { Reporting };

    ghost view = { λ r. record {
      text = record { written = r.writer; form = r.form };
      err = written E.Target r.err;
      passed = r.passed_over;
    } };
}

impl<O: Target, E: Target, A: Allocator> Report<O, E, A> {
    ghost use Rattle.std.specs.Prelude.{false};
    ghost use Rattle.cqlp_text.specs.Outputs.{output, written};
    ghost use Rattle.cqlp_render_skip.specs.Reporting.{EndsStretch, GoOn, Reporting};

    /// Over a buffer, in a form, and an error output.
    pub fn new(buffered: Buffered<O, A>, form: TextForm, err: E) -> Self
        ensures { result ≡ record {
          text = record { written = buffered; form = form };
          err = written E.Target err;
          passed = false;
        } }
    {
        Report {
            writer: TextWriter::new(buffered),
            form,
            err,
            passed_over: false,
        }
    }

    /// Whether a frame was passed over, the output, which did not get what waits, and the error output.
    pub fn into_parts(self) -> (bool, O, E)
        ensures passed { result.0 ≡ self.passed }
        ensures out { written O.Target result.1 ≡ output self.text.written.given self.text.written.failures }
        ensures err { written E.Target result.2 ≡ self.err }
    {
        let Report {
            writer,
            form: _,
            err,
            passed_over,
        } = self;
        (passed_over, writer.into_inner().into_inner(), err)
    }

    /// Passes on all text that waits; after a fault nothing waits either.
    pub fn flush(&mut self) -> Result<(), SinkFault>
        ensures writes { Writes self.old.text.written [] result self.new.text.written }
        ensures empty { self.new.text.written.waiting ≡ [] }
        ensures form { self.new.text.form ≡ self.old.text.form }
        ensures err { self.new.err ≡ self.old.err }
        ensures passed { self.new.passed ≡ self.old.passed }
    {
        self.writer.pass_on()
    }

    /// Ends the text of a stretch at a frame that is passed over, passes on all text, and writes the frame's line.
    pub fn end_stretch(&mut self, skipped: &Skipped) -> Result<(), SinkFault>
        ensures ends { IsSome self.old.text.written.given → IsSome self.old.err.given →
            EndsStretch self.old skipped.now.at skipped.now.refusal result self.new }
        ensures passed { self.new.passed ≡ true }
        ensures goes_on { GoOn self.old self.new }
    {
        self.passed_over = true;
        self.end_text()?;
        skipped_line(skipped, &mut self.err)
    }

    /// Ends the text of a stretch, and passes on all text; after a fault nothing waits either.
    fn end_text(&mut self) -> Result<(), SinkFault>
        ensures writes { Writes self.old.text.written (break_of self.old.text.form) result self.new.text.written }
        ensures empty { self.new.text.written.waiting ≡ [] }
        ensures form { self.new.text.form ≡ afresh self.old.text.form }
        ensures err { self.new.err ≡ self.old.err }
        ensures passed { self.new.passed ≡ self.old.passed }
    {
        break_off(&mut self.form, &mut self.writer)?;
        self.flush()
    }
}

impl<O: Target, E: Target, A: Allocator> Sink for Report<O, E, A> {
    ghost use Rattle.cqlp_render.specs.Rendering.{Rendering, rendered, with_event, FallsShortAtEvent};
    ghost use Rattle.cqlp_render_skip.specs.Reporting.{KeepsOnAtEvent};

    ghost View = { Rendering };

    ghost view = { λ r. rendered r.text };

    ghost reports = { λ r. IsSome r.text.written.given };

    ghost after = { with_event };

    ghost faulted = { FallsShortAtEvent };

    ghost also = { KeepsOnAtEvent };

    #[inline]
    fn take(&mut self, at: u64, event: &Event<'_>) -> Result<(), SinkFault> {
        write_event(&mut self.form, at, event, &mut self.writer)
    }
}
