//! What listens to the connections of a capture.

ghost use Rattle.std.specs.Prelude.{◌≡◌, ◌≤◌, [], IfErr, IfOk, IsSome, OnOk, vec_len};
ghost use Rattle.cqlp_text.specs.Outputs.{written};
ghost use Rattle.cqlp_capture_frames.specs.Faults.{Takes};
ghost use Rattle.cqlp_capture_frames.specs.Reportings.{is_memory};
ghost use Rattle.cqlp_capture_events.specs.Tables.{new_table, reports};

use crate::table::Table;
use cqlp_capture_frames::ReportFault;
use cqlp_capture_streams::{ConnectionEvent, Listener, StreamsFault};
use cqlp_note::Target;
use cqlp_tcp_connections::Delivery;
use cqlp_text::{Buffered, TextWriter};
use std::alloc::{AllocError, Allocator, Global};
use std::marker::Model;

/// How many bytes of lines wait at most.
const ROOM: usize = 65_536;

/// Reads the frames on the connections of a capture, and writes a line for each event, when its last byte is there. Memory for a connection is
/// taken as it begins, and for the decoder of a frame as that does, and is given back. A frame that begins while as many are read as there may
/// be is passed over, and counted.
#[derive(Drop)]
pub struct Events<O: Target, A: Allocator = Global> {
    /// The connection whose lines are written, if only one's are.
    asked: Option<u64>,
    table: Table<A>,
    writer: TextWriter<Buffered<O, A>>,
}

impl<O: Target, A: Allocator> Model for Events<O, A> {
    ghost use Rattle.std.specs.Prelude.{◌≡◌, []};
    ghost use Rattle.cqlp_text.specs.Outputs.{output};
    ghost use Rattle.cqlp_capture_events.specs.Listening.{Listening, listening};

    ghost Value = { Listening };

    ghost view = { λ e. listening e.asked e.table (output e.writer.given e.writer.failures) };

    ghost invariant = { λ e. e.writer.waiting ≡ [] };
}

impl<O: Target, A: Allocator + Clone> Events<O, A> {
    ghost use Rattle.cqlp_capture_streams.specs.ConnectionEvents.{New, Of, connection_event_of};
    ghost use Rattle.cqlp_capture_events.specs.Listening.{Hears, Reports, is_asked, new_listening};

    /// Nothing is watched, and lines go to this output: those of the connection with this number, or of all. Takes memory for lines; where it is
    /// not granted, the output is given back.
    pub fn new(alloc: A, asked: Option<u64>, out: O) -> Result<Self, O>
        ensures ok { IfOk result (λ e. e ≡ new_listening asked (written O.Target out)) }
        ensures err { IfErr result (λ o. written O.Target o ≡ written O.Target out) }
    {
        match take_memory(alloc) {
            Ok((table, buffer)) => Ok(Events {
                asked,
                table,
                writer: TextWriter::new(Buffered::new(out, buffer)),
            }),
            Err(AllocError) => Err(out),
        }
    }

    /// The output, and how many frames were not read.
    pub fn into_parts(self) -> (O, u64)
        ensures output { written O.Target result.0 ≡ self.output }
        ensures unread { result.1 ≡ self.table.unread }
    {
        let Events {
            asked: _,
            table,
            writer,
        } = self;
        (writer.into_inner().into_inner(), table.unread())
    }

    /// Whether the lines of the connection with this number are written.
    fn is_asked(&self, number: u64) -> bool
        ensures { result ≡ is_asked self.now.asked number }
    {
        match self.asked {
            Some(one) => one == number,
            None => true,
        }
    }

    /// Takes the next event of the connections.
    fn take(&mut self, event: &ConnectionEvent<'_>) -> Result<(), StreamsFault>
        ensures { IsSome self.old.output.given → Hears self.old (connection_event_of event.now) result self.new }
    {
        match event {
            ConnectionEvent::Packet { .. } => Ok(()),
            ConnectionEvent::New { number } => self.begin(*number),
            ConnectionEvent::Of { delivered, bytes } => self.hear_delivery(delivered, bytes),
            ConnectionEvent::Left(totals) => {
                self.table.leave(totals.number);
                Ok(())
            }
        }
    }

    fn begin(&mut self, number: u64) -> Result<(), StreamsFault>
        ensures { Hears self.old (New number) result self.new }
    {
        if !self.is_asked(number) {
            return Ok(());
        }
        match self.table.begin(number) {
            Ok(()) => Ok(()),
            Err(AllocError) => Err(StreamsFault::NoMemory),
        }
    }

    fn hear_delivery(&mut self, delivered: &Delivery, bytes: &[u8]) -> Result<(), StreamsFault>
        ensures { IsSome self.old.output.given → Hears self.old (Of delivered.now bytes.now) result self.new }
    {
        match self.report(delivered, bytes) {
            Ok(()) => Ok(()),
            Err(ReportFault::Write) => Err(StreamsFault::Write),
            Err(ReportFault::NoMemory) => Err(StreamsFault::NoMemory),
        }
    }

    /// Writes the lines of an event.
    fn report(&mut self, delivered: &Delivery, bytes: &[u8]) -> Result<(), ReportFault>
        ensures { IsSome self.old.output.given → Reports self.old delivered.now bytes.now result self.new }
    {
        put_delivery(&mut self.table, delivered, bytes, &mut self.writer)
    }
}

/// Takes the lines of an event, and passes them on, also where memory was refused.
#[tactic(auto, using(cqlp_capture_frames::proofs::Reportings::passing_fails, cqlp_capture_frames::proofs::Reportings::passing_front_fails))]
fn put_delivery<W: Target, A: Allocator + Clone, B: Allocator>(
    table: &mut Table<A>,
    delivered: &Delivery,
    bytes: &[u8],
    writer: &mut TextWriter<Buffered<W, B>>,
) -> Result<(), ReportFault>
    ensures text { Takes is_memory writer.old (reports delivered.now bytes.now table.old).text result writer.new }
    ensures passed { writer.new.waiting ≡ [] }
    ensures after { OnOk result (table.new ≡ (reports delivered.now bytes.now table.old).table) }
{
    match table.hear(delivered, bytes, writer) {
        Ok(()) => Ok(writer.pass_on()?),
        Err(ReportFault::Write) => Err(ReportFault::Write),
        Err(ReportFault::NoMemory) => {
            writer.pass_on()?;
            Err(ReportFault::NoMemory)
        }
    }
}

/// A table without connections, and a buffer.
fn take_memory<A: Allocator + Clone>(alloc: A) -> Result<(Table<A>, Vec<u8, A>), AllocError>
    ensures table { IfOk result (λ p. p.0 ≡ new_table) }
    ensures buffer { IfOk result (λ p. 128 ≤ vec_len p.1) }
{
    let table = Table::new(alloc.clone()?)?;
    let buffer = vec![in alloc; 0; ROOM]?;
    Ok((table, buffer))
}

impl<O: Target, A: Allocator + Clone> Listener for Events<O, A> {
    ghost use Rattle.cqlp_capture_events.specs.Listening.{Listening, StopsAt, with_connection_event};

    ghost View = { Listening };

    ghost view = { λ e. e };

    ghost reports = { λ e. IsSome e.output.given };

    ghost after = { with_connection_event };

    ghost faulted = { StopsAt };

    fn hear(&mut self, event: &ConnectionEvent<'_>) -> Result<(), StreamsFault> {
        self.take(event)
    }
}
