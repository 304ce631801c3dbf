//! Text in large pieces.

ghost use Rattle.std.specs.Prelude.{◌≡◌, IsSome};

use crate::form::Form;
use cqlp_decode::{Event, Sink, SinkFault};
use cqlp_note::Target;
use cqlp_text::{Buffered, TextWriter};
use std::alloc::Allocator;
use std::marker::Model;

/// Writes the text of each event straight into a buffer in front of a target.
#[derive(Drop)]
pub(crate) struct BufferedSink<W: Target, A: Allocator, F: Form> {
    writer: TextWriter<Buffered<W, A>>,
    form: F,
}

impl<W: Target, A: Allocator, F: Form> Model for BufferedSink<W, A, F> {
    ghost use Rattle.cqlp_render.specs.Rendering.{Buffering};

    ghost Value = { Buffering };

    ghost view = { λ s. record { written = s.writer; form = F.form s.form } };
}

impl<W: Target, A: Allocator, F: Form + Drop> BufferedSink<W, A, F> {
    /// Over a buffer, in a form.
    pub fn new(buffered: Buffered<W, A>, form: F) -> Self
        ensures { result ≡ record { written = buffered; form = F.form form } }
    {
        BufferedSink {
            writer: TextWriter::new(buffered),
            form,
        }
    }

    /// The buffer.
    pub fn into_inner(self) -> Buffered<W, A>
        ensures { result ≡ self.written }
    {
        let BufferedSink { writer, form: _ } = self;
        writer.into_inner()
    }
}

impl<W: Target, A: Allocator, F: Form> BufferedSink<W, A, F> {
    ghost use Rattle.std.specs.Prelude.{[]};
    ghost use Rattle.cqlp_text.specs.Written.{Writes};

    /// Passes on all text that waits; after a fault nothing waits either.
    pub fn flush(&mut self) -> Result<(), SinkFault>
        ensures writes { Writes self.old.written [] result self.new.written }
        ensures empty { self.new.written.waiting ≡ [] }
        ensures form { self.new.form ≡ self.old.form }
    {
        self.writer.pass_on()
    }
}

impl<W: Target, A: Allocator, F: Form> Sink for BufferedSink<W, A, F> {
    ghost use Rattle.cqlp_render.specs.Rendering.{Rendering, rendered, with_event, FallsShortAtEvent, GoesOnAtEvent};

    ghost View = { Rendering };

    ghost view = { rendered };

    ghost reports = { λ s. IsSome s.written.given };

    ghost after = { with_event };

    ghost faulted = { FallsShortAtEvent };

    ghost also = { GoesOnAtEvent };

    #[inline(always)]
    fn take(&mut self, at: u64, event: &Event<'_>) -> Result<(), SinkFault> {
        self.form.write(at, event, &mut self.writer)
    }
}
