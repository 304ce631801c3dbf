//! What listens to the connections of a capture.

ghost use Rattle.std.specs.Prelude.{◌≡◌, ◌≤◌, [], IfErr, IfOk, IsSome, vec_len};
ghost use Rattle.cqlp_text.specs.Outputs.{written};
ghost use Rattle.cqlp_capture_summary.specs.Summaries.{new_summary};
ghost use Rattle.cqlp_capture_exchanges.specs.Forms.{statements_in};
ghost use Rattle.cqlp_capture_exchanges.specs.Prepared.{known_of};
ghost use Rattle.cqlp_capture_exchanges.specs.Tables.{new_table};

use crate::filter::ExchangeFilter;
use crate::form::ExchangeForm;
use crate::pool::ExchangeLimits;
use crate::prepared::Known;
use crate::reporter::Reporter;
use crate::sums::ExchangeSums;
use crate::table::Table;
use cqlp_capture_streams::{ConnectionEvent, Listener, StreamsFault};
use cqlp_capture_summary::Summary;
use cqlp_grammar::SinkFault;
use cqlp_note::Target;
use cqlp_observer::Missed;
use cqlp_statement_file::StatementTexts;
use cqlp_tcp_connections::{ConnectionTotals, Delivery};
use std::alloc::{AllocError, Allocator, Global};
use std::marker::Model;

/// How many bytes of a line wait at most.
const ROOM: usize = 4096;

/// Pairs the requests on the connections of a capture with their responses, and writes each that its filter shows, when the last byte of
/// the response is there. Memory for a connection is taken as it begins, for a message as it waits, and is given back.
#[derive(Drop)]
pub struct Exchanges<O: Target, A: Allocator = Global> {
    table: Table<A>,
    /// When the present packet was captured, in nanoseconds since 1970-01-01 00:00:00 UTC.
    present: Option<u64>,
    reporter: Reporter<O, A>,
}

impl<O: Target, A: Allocator> Model for Exchanges<O, A> {
    ghost use Rattle.cqlp_capture_exchanges.specs.Listening.{Listening, listening};

    ghost Value = { Listening };

    ghost view = { λ e. listening e.table e.present e.reporter };
}

impl<O: Target, A: Allocator + Clone> Exchanges<O, A> {
    ghost use Rattle.cqlp_capture_streams.specs.ConnectionEvents.{Left, New, Of, Packet, connection_event_of};
    ghost use Rattle.cqlp_capture_exchanges.specs.Accounts.{Finishes};
    ghost use Rattle.cqlp_capture_exchanges.specs.Listening.{Hears, new_listening, with_connection_event};

    /// Nothing is watched, these texts of statements are known, and exchanges go to this output in this form. Takes memory for a line, for 256 statements
    /// and for a summary; where it is not granted, the output is given back.
    pub fn new(
        alloc: A,
        limits: ExchangeLimits,
        given: StatementTexts,
        filter: ExchangeFilter,
        form: ExchangeForm,
        out: O,
    ) -> Result<Self, O>
        ensures ok { IfOk result (λ e. e ≡ new_listening limits given filter form (written O.Target out)) }
        ensures err { IfErr result (λ o. written O.Target o ≡ written O.Target out) }
    {
        match take_memory(alloc, limits, given, form) {
            Ok(
                Room {
                    table,
                    buffer,
                    known,
                    summary,
                },
            ) => Ok(Exchanges {
                table,
                present: None,
                reporter: Reporter::new(filter, form, out, buffer, known, summary),
            }),
            Err(AllocError) => Err(out),
        }
    }

    /// Writes what is at the end: the lines of a summary.
    pub fn finish(&mut self) -> Result<(), SinkFault>
        ensures ends { IsSome self.old.account.output.given → Finishes self.old.account result self.new.account }
        ensures table { self.new.table ≡ self.old.table }
    {
        self.reporter.finish()
    }

    /// The output, and what was reported.
    pub fn into_parts(self) -> (O, ExchangeSums)
        ensures output { written O.Target result.0 ≡ self.account.output }
        ensures sums { result.1 ≡ self.account.sums }
    {
        let Exchanges {
            table: _,
            present: _,
            reporter,
        } = self;
        reporter.into_parts()
    }

    /// What was missed of the connections that have left.
    pub fn missed(&self) -> Missed
        ensures { result ≡ self.now.table.missed }
    {
        self.table.missed()
    }

    /// Takes the next event of the connections.
    fn take(&mut self, event: &ConnectionEvent<'_>) -> Result<(), StreamsFault>
        ensures { IsSome self.old.account.output.given → Hears self.old (connection_event_of event.now) result self.new }
    {
        match event {
            ConnectionEvent::Packet { time } => {
                self.note_time(*time);
                Ok(())
            }
            ConnectionEvent::New { number } => self.begin(*number),
            ConnectionEvent::Of { delivered, bytes } => self.hear_delivery(delivered, bytes),
            ConnectionEvent::Left(totals) => self.let_leave(totals),
        }
    }

    fn note_time(&mut self, time: Option<u64>)
        ensures { self.new ≡ with_connection_event self.old (Packet time) }
    {
        self.present = time;
        self.reporter.note_time(time);
    }

    /// Takes memory for the connection with this number, which begins.
    #[cold]
    #[inline(never)]
    fn begin(&mut self, number: u64) -> Result<(), StreamsFault>
        ensures { Hears self.old (New number) result self.new }
    {
        match self.table.begin(number) {
            Ok(()) => Ok(()),
            Err(AllocError) => Err(StreamsFault::NoMemory),
        }
    }

    /// Takes what a direction delivers, out of line: of most packets the time alone is noted first.
    #[inline(never)]
    fn hear_delivery(&mut self, delivered: &Delivery, bytes: &[u8]) -> Result<(), StreamsFault>
        ensures { IsSome self.old.account.output.given → Hears self.old (Of delivered.now bytes.now) result self.new }
    {
        (self.table).hear(self.present, delivered, bytes, &mut self.reporter)
    }

    /// Reports what waits of a connection that leaves, and gives its memory back.
    #[cold]
    #[inline(never)]
    fn let_leave(&mut self, totals: &ConnectionTotals) -> Result<(), StreamsFault>
        ensures { IsSome self.old.account.output.given → Hears self.old (Left totals.now) result self.new }
    {
        self.table.leave(totals, &mut self.reporter)
    }
}

/// A table of no connections, the buffer of a line, room for statements that are prepared, and a summary of those that are asked for.
#[derive(Drop)]
struct Room<A: Allocator> {
    table: Table<A>,
    buffer: Vec<u8, A>,
    known: Known<A>,
    summary: Summary<A>,
}

fn take_memory<A: Allocator + Clone>(
    alloc: A,
    limits: ExchangeLimits,
    given: StatementTexts,
    form: ExchangeForm,
) -> Result<Room<A>, AllocError>
    ensures table { IfOk result (λ p. p.table ≡ new_table limits) }
    ensures buffer { IfOk result (λ p. 128 ≤ vec_len p.buffer) }
    ensures known { IfOk result (λ p. p.known ≡ known_of [] given) }
    ensures summary { IfOk result (λ p. p.summary ≡ new_summary (statements_in form)) }
{
    let table = Table::new(alloc.clone()?, limits)?;
    let buffer = vec![in alloc.clone()?; 0; ROOM]?;
    let known = Known::new(alloc.clone()?, given)?;
    let summary = Summary::new(alloc, form.statements())?;
    Ok(Room {
        table,
        buffer,
        known,
        summary,
    })
}

impl<O: Target, A: Allocator + Clone> Listener for Exchanges<O, A> {
    ghost use Rattle.cqlp_capture_exchanges.specs.Listening.{Listening, StopsAt, with_connection_event};

    ghost View = { Listening };

    ghost view = { λ e. e };

    ghost reports = { λ e. IsSome e.account.output.given };

    ghost after = { with_connection_event };

    ghost faulted = { StopsAt };

    fn hear(&mut self, event: &ConnectionEvent<'_>) -> Result<(), StreamsFault> {
        self.take(event)
    }
}
