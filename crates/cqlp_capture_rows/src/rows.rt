//! What listens to one connection of a capture.

ghost use Rattle.std.specs.Prelude.{◌≡◌, ◌≤◌, ℕ, true, false, List, [], IfErr, IfOk, IsSome, Ok, OnOk, vec_len};
ghost use Rattle.cqlp_text.specs.Outputs.{written};
ghost use Rattle.cqlp_text.specs.Written.{Written};
ghost use Rattle.cqlp_capture_prepared.specs.Keeping.{new_keeping};
ghost use Rattle.cqlp_capture_frames.specs.Directions.{begun};
ghost use Rattle.cqlp_capture_frames.specs.Faults.{Takes};
ghost use Rattle.cqlp_capture_frames.specs.Reportings.{is_memory};
ghost use Rattle.cqlp_capture_rows.specs.OtherConnections.{no_connections};
ghost use Rattle.cqlp_capture_rows.specs.Responses.{new_responses, rules};
ghost use Rattle.cqlp_capture_rows.specs.Listening.{answer_of};

use crate::limits::{EXECUTES, LIMITS, STATEMENTS};
use crate::other_connections::OtherConnections;
use crate::responses::Responses;
use cqlp_capture_frames::{Direction, ReportFault};
use cqlp_capture_prepared::Requests;
use cqlp_capture_streams::{ConnectionEvent, Listener, StreamsFault};
use cqlp_note::{NoMemory, Target};
use cqlp_statement_types::StatementTypes;
use cqlp_tcp_connections::{Delivery, Way};
use cqlp_text::{Buffered, TextWriter};
use std::alloc::{AllocError, Allocator, Global};
use std::marker::Model;

/// How many bytes of text wait at most.
const ROOM: usize = 65_536;

/// Reads the frames of one connection of a capture, and writes the text of the pages among them, each part of it when its last byte is there.
/// A page without metadata has the types that PREPARE said of the statement whose EXECUTE it answers: on its connection, or else on another one, or else
/// those that were given.
///
/// Memory is taken in `new`; after it for the decoder of a frame, some 1.1 MiB, which is given back behind the frame; and for the types of a statement
/// that is prepared, and of a page that answers an EXECUTE: one request each, of `LIMITS.entries` nodes. At most [`STATEMENTS`] statements are known,
/// and the types of one page. Of other connections memory is taken for each as it begins, for the bytes of a PREPARED as they come, for its decoder, and
/// for the types of its statement.
#[derive(Drop)]
pub struct Rows<O: Target, A: Allocator = Global> {
    /// The number of the connection.
    asked: u64,
    requests: Requests,
    direction: Direction<A>,
    responses: Responses<A>,
    others: OtherConnections<A>,
    writer: TextWriter<Buffered<O, A>>,
}

impl<O: Target, A: Allocator> Model for Rows<O, A> {
    ghost use Rattle.std.specs.Prelude.{◌≡◌, []};
    ghost use Rattle.cqlp_text.specs.Outputs.{output};
    ghost use Rattle.cqlp_capture_rows.specs.Listening.{Listening, listening};

    ghost Value = { Listening };

    ghost view = { λ r. listening r.asked r.requests r.direction r.responses r.others (output r.writer.given r.writer.failures) };

    ghost invariant = { λ r. r.writer.waiting ≡ [] };
}

impl<O: Target, A: Allocator> Rows<O, A> {
    /// The output.
    pub fn into_output(self) -> O
        ensures { written O.Target result ≡ self.output }
    {
        let Rows {
            asked: _,
            requests: _,
            direction: _,
            responses: _,
            others: _,
            writer,
        } = self;
        writer.into_inner().into_inner()
    }
}

impl<O: Target, A: Allocator + Clone> Rows<O, A> {
    ghost use Rattle.cqlp_capture_streams.specs.ConnectionEvents.{New, Of};
    ghost use Rattle.cqlp_capture_rows.specs.OtherConnections as other;
    ghost use Rattle.cqlp_capture_rows.specs.Listening.{Changes, Hears, if_asked, leaves, new_listening, overheard, with_connections};

    /// Nothing came of the connection with this number, these types of statements are given, and its pages go to this output. Memory for all but types and
    /// frames is taken here; where it is not granted, the output is given back.
    pub fn new(alloc: A, given: StatementTypes<A>, asked: u64, out: O) -> Result<Self, O>
        ensures ok { IfOk result (λ r. r ≡ new_listening given asked (written O.Target out)) }
        ensures err { IfErr result (λ o. written O.Target o ≡ written O.Target out) }
    {
        match take_memory(alloc, given, asked) {
            Ok((direction, responses, others, buffer)) => Ok(Rows {
                asked,
                requests: Requests::new(false),
                direction,
                responses,
                others,
                writer: TextWriter::new(Buffered::new(out, buffer)),
            }),
            Err(AllocError) => Err(out),
        }
    }

    /// Takes what a direction delivers: of the requests what is known of statements, of the responses their text.
    fn hear_delivery(&mut self, delivered: &Delivery, bytes: &[u8]) -> Result<(), StreamsFault>
        ensures { IsSome self.old.output.given → Hears self.old (Of delivered.now bytes.now) result self.new }
    {
        if delivered.number != self.asked {
            return self.hear_other(delivered, bytes);
        }
        match delivered.way {
            Way::Requests => {
                self.responses
                    .hear_requests(delivered.step, bytes, &mut self.requests);
                Ok(())
            }
            Way::Responses => {
                let put = self.direction.hear(
                    true,
                    delivered.step,
                    delivered.at,
                    bytes,
                    &mut self.responses,
                    &mut self.writer,
                );
                answer_of(pass_on(put, &mut self.writer))
            }
        }
    }

    /// Takes what a direction of another connection delivers: of the responses what is known of statements.
    fn hear_other(&mut self, delivered: &Delivery, bytes: &[u8]) -> Result<(), StreamsFault>
        ensures { Changes self.old (overheard delivered.now bytes.now self.old) result self.new }
    {
        match delivered.way {
            Way::Requests => Ok(()),
            Way::Responses => {
                let heard = self
                    .responses
                    .hear_others(delivered.number, delivered.step, bytes, &mut self.others);
                match heard {
                    Ok(()) => Ok(()),
                    Err(NoMemory) => Err(StreamsFault::NoMemory),
                }
            }
        }
    }

    /// Takes the begin of a connection.
    fn hear_new(&mut self, number: u64) -> Result<(), StreamsFault>
        ensures { Hears self.old (New number) result self.new }
    {
        if number == self.asked {
            return Ok(());
        }
        match self.others.begin(number) {
            Ok(()) => Ok(()),
            Err(AllocError) => Err(StreamsFault::NoMemory),
        }
    }

    /// Takes the end of a connection.
    fn hear_left(&mut self, number: u64) -> Result<(), StreamsFault>
        ensures { IsSome self.old.output.given
            → Changes self.old (if_asked number (leaves self.old) (with_connections (other.leaves number self.old.others) self.old) self.old)
            result self.new }
    {
        if number != self.asked {
            self.others.leave(number);
            return Ok(());
        }
        let put = self.direction.close(&mut self.responses, &mut self.writer);
        answer_of(pass_on(put, &mut self.writer))
    }
}

/// Passes on the text that was put, also where memory was refused.
#[tactic(auto, using(cqlp_capture_frames::proofs::Reportings::passing_fails, cqlp_capture_frames::proofs::Reportings::passing_front_fails))]
fn pass_on<W: Target, A: Allocator>(
    put: Result<(), ReportFault>,
    writer: &mut TextWriter<Buffered<W, A>>,
) -> Result<(), ReportFault>
    ensures text { (before : Written) (text : List ℕ) → Takes is_memory before text put writer.old → Takes is_memory before text result writer.new }
    ensures passed { (before : Written) (text : List ℕ) → Takes is_memory before text put writer.old → writer.new.waiting ≡ [] }
    ensures ok { OnOk result (put ≡ Ok tt) }
{
    match put {
        Ok(()) => Ok(writer.pass_on()?),
        Err(ReportFault::Write) => Err(ReportFault::Write),
        Err(ReportFault::NoMemory) => {
            writer.pass_on()?;
            Err(ReportFault::NoMemory)
        }
    }
}

/// What a listener answers where the text of an event was put so.
fn answer_of(put: Result<(), ReportFault>) -> Result<(), StreamsFault>
    ensures { result ≡ answer_of put }
{
    match put {
        Ok(()) => Ok(()),
        Err(ReportFault::Write) => Err(StreamsFault::Write),
        Err(ReportFault::NoMemory) => Err(StreamsFault::NoMemory),
    }
}

/// A direction and responses of which nothing came, no other connections, and a buffer.
fn take_memory<A: Allocator + Clone>(
    alloc: A,
    given: StatementTypes<A>,
    asked: u64,
) -> Result<(Direction<A>, Responses<A>, OtherConnections<A>, Vec<u8, A>), AllocError>
    ensures direction { IfOk result (λ p. p.0 ≡ begun rules true false) }
    ensures responses { IfOk result (λ p. p.1 ≡ new_responses given asked (new_keeping STATEMENTS EXECUTES)) }
    ensures others { IfOk result (λ p. p.2 ≡ no_connections) }
    ensures buffer { IfOk result (λ p. 128 ≤ vec_len p.3) }
{
    let responses = Responses::new(alloc.clone()?, asked, given)?;
    let direction = Direction::new(alloc.clone()?, LIMITS, true);
    let others = OtherConnections::new(alloc.clone()?)?;
    let buffer = vec![in alloc; 0; ROOM]?;
    Ok((direction, responses, others, buffer))
}

impl<O: Target, A: Allocator + Clone> Listener for Rows<O, A> {
    ghost use Rattle.cqlp_capture_rows.specs.Listening.{Listening, StopsAt, with_connection_event};

    ghost View = { Listening };

    ghost view = { λ r. r };

    ghost reports = { λ r. IsSome r.output.given };

    ghost after = { with_connection_event };

    ghost faulted = { StopsAt };

    #[tactic(auto, using(crate::proofs::Heard::reports_what_it_heard))]
    fn hear(&mut self, event: &ConnectionEvent<'_>) -> Result<(), StreamsFault> {
        match event {
            ConnectionEvent::Packet { .. } => Ok(()),
            ConnectionEvent::New { number } => self.hear_new(*number),
            ConnectionEvent::Of { delivered, bytes } => self.hear_delivery(delivered, bytes),
            ConnectionEvent::Left(totals) => self.hear_left(totals.number),
        }
    }
}
