//! Lines of events.

ghost use Rattle.std.specs.Prelude.{◌≡◌};
ghost use Rattle.cqlp_grammar.specs.Events.{event_of};
ghost use Rattle.cqlp_text.specs.Written.{Writes};
ghost use Rattle.cqlp_capture_events.specs.Lines.{event_line};

use cqlp_capture_frames::{
    LinePlace, ReportFault, Transcript, put_compressed, put_gap, put_place, put_refused, put_unread,
};
use cqlp_grammar::{Event, SinkFault};
use cqlp_note::{Header, Reason};
use cqlp_tcp_reassembly::GapCause;
use cqlp_text::{Pen, TextWriter};
use cqlp_type::TypeTable;
use std::alloc::Allocator;

/// The lines of one direction of a connection.
#[derive(Clone, Copy)]
pub(crate) struct Lines {
    pub(crate) place: LinePlace,
    /// How many frames were not read, as there was no room for their decoders.
    pub(crate) unread: u64,
}

/// Takes the line of an event at an offset.
fn put_event<P: Pen>(
    writer: &mut TextWriter<P>,
    place: LinePlace,
    at: u64,
    event: &Event<'_>,
) -> Result<(), SinkFault>
    ensures { Writes writer.old (event_line place at (event_of event.now)) result writer.new }
{
    put_place(writer, place)?;
    writer.put_event(at, event)
}

impl<A: Allocator> Transcript<A> for Lines {
    ghost use Rattle.cqlp_capture_frames.specs.Reportings.{is_memory};
    ghost use Rattle.cqlp_capture_events.specs.declared.lines.Lines.{Lines};
    ghost use Rattle.cqlp_capture_events.specs.Lines.{line_manner};

    type Fault = ReportFault;

    ghost refuses = { is_memory };

    ghost State = { Lines };

    ghost state = { λ lines. lines };

    ghost manner = { line_manner };

    fn no_memory() -> ReportFault {
        ReportFault::NoMemory
    }

    fn begin<P: Pen>(
        &mut self,
        _at: u64,
        _header: &Header,
        _writer: &mut TextWriter<P>,
    ) -> Result<Option<TypeTable<A>>, ReportFault> {
        Ok(None)
    }

    #[tactic(auto, using(cqlp_capture_frames::proofs::Reportings::breaks_here))]
    fn event<P: Pen>(
        &mut self,
        at: u64,
        event: &Event<'_>,
        writer: &mut TextWriter<P>,
    ) -> Result<(), ReportFault> {
        Ok(put_event(writer, self.place, at, event)?)
    }

    #[tactic(auto, using(cqlp_capture_frames::proofs::Reportings::breaks_here))]
    fn refusal<P: Pen>(
        &mut self,
        at: u64,
        why: Reason,
        writer: &mut TextWriter<P>,
    ) -> Result<(), ReportFault> {
        Ok(put_refused(writer, self.place, at, why)?)
    }

    #[tactic(auto, using(cqlp_capture_frames::proofs::Reportings::breaks_here))]
    fn compressed<P: Pen>(
        &mut self,
        at: u64,
        _header: &Header,
        writer: &mut TextWriter<P>,
    ) -> Result<(), ReportFault> {
        Ok(put_compressed(writer, self.place, at)?)
    }

    #[tactic(auto, using(cqlp_capture_frames::proofs::Reportings::breaks_here))]
    fn unread<P: Pen>(
        &mut self,
        at: u64,
        _header: &Header,
        writer: &mut TextWriter<P>,
    ) -> Result<(), ReportFault> {
        self.unread = self.unread.saturating_add(1);
        Ok(put_unread(writer, self.place, at)?)
    }

    #[tactic(auto, using(cqlp_capture_frames::proofs::Reportings::breaks_here))]
    fn gap<P: Pen>(
        &mut self,
        at: u64,
        length: u64,
        cause: GapCause,
        writer: &mut TextWriter<P>,
    ) -> Result<(), ReportFault> {
        Ok(put_gap(writer, self.place, at, length, cause)?)
    }

    fn end<P: Pen>(
        &mut self,
        _types: &TypeTable<A>,
        _writer: &mut TextWriter<P>,
    ) -> Result<(), ReportFault> {
        Ok(())
    }

    fn close<P: Pen>(&mut self, _writer: &mut TextWriter<P>) -> Result<(), ReportFault> {
        Ok(())
    }
}
