//! The events of connections, on their way to files and to lines.

ghost use Rattle.std.specs.Prelude.{◌≡◌, ◌++◌, [], IsSome, Some};
ghost use Rattle.cqlp_text.specs.Outputs.{written};
ghost use Rattle.cqlp_text.specs.Written.{Writes};
ghost use Rattle.cqlp_capture_streams.specs.Recordings.{Puts};
ghost use Rattle.cqlp_capture_streams.specs.Endings.{sums_words};

use crate::connection_event::ConnectionEvent;
use crate::fault::StreamsFault;
use crate::files::{StreamFile, StreamFiles};
use crate::last_words::LastWords;
use crate::lines::{ConnectionLines, gap_line};
use crate::listener::Listener;
use cqlp_grammar::SinkFault;
use cqlp_note::Target;
use cqlp_tcp_connections::{ConnectionTotals, Delivery, DirectionTotals};
use cqlp_tcp_reassembly::{GapCause, StreamStep};
use cqlp_text::{Pen, TextWriter, put_text};
use std::alloc::{AllocError, Allocator};
use std::marker::Model;

/// What the connections delivered that have left. A number stays at 2^64 - 1 once it is there.
#[derive(Clone, Copy)]
pub(crate) struct Sums {
    pub gaps: u64,
    /// Bytes that were handed on.
    pub bytes: u64,
}

/// Has files keep the bytes of connections, and writes a line for each gap and for each connection that has left.
#[derive(Drop)]
pub(crate) struct Recorder<F: StreamFiles, O: Target, A: Allocator> {
    lines: ConnectionLines<A>,
    files: F,
    out: O,
    sums: Sums,
}

impl<F: StreamFiles, O: Target, A: Allocator> Model for Recorder<F, O, A> {
    ghost use Rattle.cqlp_text.specs.Outputs.{written};
    ghost use Rattle.cqlp_capture_streams.specs.Recordings.{Recording, recording};

    ghost Value = { Recording };

    ghost view = { λ r. recording (F.calls r.files) (written O.Target r.out) r.sums };
}

impl Sums {
    ghost use Rattle.cqlp_capture_streams.specs.Recordings.{summed};

    fn add(&mut self, totals: &DirectionTotals)
        ensures { self.new ≡ summed totals.now self.old }
    {
        self.gaps = self
            .gaps
            .saturating_add(totals.gaps)
            .saturating_add(totals.snapped);
        self.bytes = self.bytes.saturating_add(totals.bytes);
    }

    /// Takes their words in the last line.
    fn put<P: Pen>(&self, writer: &mut TextWriter<P>) -> Result<(), SinkFault>
        ensures { Writes writer.old (sums_words self.now) result writer.new }
    {
        writer.put(b"gaps ")?;
        writer.put_number(self.gaps)?;
        writer.put(b" bytes ")?;
        writer.put_number(self.bytes)
    }
}

impl LastWords for Sums {
    ghost note = { λ _. [] };

    ghost words = { sums_words };

    fn has_note(&self) -> bool {
        false
    }

    fn put_note<P: Pen>(&self, writer: &mut TextWriter<P>) -> Result<(), SinkFault> {
        writer.put(b"")
    }

    fn put_words<P: Pen>(&self, writer: &mut TextWriter<P>) -> Result<(), SinkFault> {
        self.put(writer)
    }
}

impl<F: StreamFiles, O: Target, A: Allocator + Drop> Recorder<F, O, A> {
    ghost use Rattle.cqlp_capture_streams.specs.Recordings.{no_sums, recording};

    /// Over files and an output, with nothing recorded.
    pub fn new(alloc: A, files: F, out: O) -> Self
        ensures { result ≡ recording (F.calls files) (written O.Target out) no_sums }
    {
        Recorder {
            lines: ConnectionLines::new(alloc),
            files,
            out,
            sums: Sums { gaps: 0, bytes: 0 },
        }
    }

    /// The files, the output and the sums.
    pub fn into_parts(self) -> (F, O, Sums)
        ensures { recording (F.calls result.0) (written O.Target result.1) result.2 ≡ self }
    {
        let Recorder {
            lines: _,
            files,
            out,
            sums,
        } = self;
        (files, out, sums)
    }
}

impl<F: StreamFiles, O: Target, A: Allocator> Recorder<F, O, A> {
    ghost use Rattle.cqlp_capture_streams.specs.declared.connection_event.ConnectionEvent.TheVariants as event;
    ghost use Rattle.cqlp_capture_streams.specs.ConnectionEvents.{Left, Of, connection_event_of};
    ghost use Rattle.cqlp_capture_streams.specs.Lines.{gap_line};
    ghost use Rattle.cqlp_capture_streams.specs.Recordings.{Records, with_output};

    /// Takes an event: a new connection's files are made, bytes are appended to the file of their direction, a gap is a line,
    /// and the files of a connection that has left are kept, and then its line is written.
    fn record(&mut self, event: &ConnectionEvent<'_>) -> Result<(), StreamsFault>
        ensures { IsSome self.old.output.given → Records self.old (connection_event_of event.now) result self.new }
    {
        match event {
            ConnectionEvent::Packet { .. } => Ok(()),
            ConnectionEvent::New { number } => Ok(self.files.make(*number)?),
            ConnectionEvent::Of { delivered, bytes } => self.record_step(delivered, bytes),
            ConnectionEvent::Left(totals) => self.keep(totals),
        }
    }

    /// Takes what a direction delivers.
    fn record_step(&mut self, delivered: &Delivery, bytes: &[u8]) -> Result<(), StreamsFault>
        ensures { IsSome self.old.output.given → Records self.old (Of delivered.now bytes.now) result self.new }
    {
        let file = StreamFile {
            number: delivered.number,
            way: delivered.way,
        };
        match delivered.step {
            StreamStep::Payload { .. } | StreamStep::Held { .. } => {
                Ok(self.files.append(file, bytes)?)
            }
            StreamStep::Gap { length, cause, .. } => self.put_gap(
                file,
                delivered.at,
                length,
                cause,
            ),
            StreamStep::Began { .. }
            | StreamStep::Kept
            | StreamStep::Ended
            | StreamStep::Reset
            | StreamStep::Done => Ok(()),
        }
    }

    /// Writes the line of a gap, for which there is no memory to take.
    fn put_gap(
        &mut self,
        file: StreamFile,
        at: u64,
        length: u64,
        cause: GapCause,
    ) -> Result<(), StreamsFault>
        ensures put { IsSome self.old.output.given → Puts (gap_line file at length cause) self.old.output result self.new.output }
        ensures rest { self.new ≡ with_output self.new.output self.old }
    {
        match gap_line(file, at, length, cause, &mut self.out) {
            Ok(()) => Ok(()),
            Err(SinkFault) => Err(StreamsFault::Write),
        }
    }

    /// Keeps the files of a connection, and writes its line.
    fn keep(&mut self, totals: &ConnectionTotals) -> Result<(), StreamsFault>
        ensures { IsSome self.old.output.given → Records self.old (Left totals.now) result self.new }
    {
        self.files.keep(totals.number)?;
        self.sums.add(&totals.requests);
        self.sums.add(&totals.responses);
        match self.lines.line(totals) {
            Ok(line) => put_line(&line, &mut self.out),
            Err(AllocError) => Err(StreamsFault::NoMemory),
        }
    }
}

impl<F: StreamFiles, O: Target, A: Allocator> Listener for Recorder<F, O, A> {
    ghost use Rattle.cqlp_capture_streams.specs.Recordings.{Recording, StopsAt, with_connection_event};

    ghost View = { Recording };

    ghost view = { λ r. r };

    ghost reports = { λ r. IsSome r.output.given };

    ghost after = { with_connection_event };

    ghost faulted = { StopsAt };

    fn hear(&mut self, event: &ConnectionEvent<'_>) -> Result<(), StreamsFault> {
        self.record(event)
    }
}

fn put_line<O: Target>(line: &str, out: &mut O) -> Result<(), StreamsFault>
    ensures { IsSome (O.contents out.old) → Puts line.now (written O.Target out.old) result (written O.Target out.new) }
{
    match put_text(line, out) {
        Ok(()) => Ok(()),
        Err(SinkFault) => Err(StreamsFault::Write),
    }
}
