//! One connection that is watched.

ghost use Rattle.std.specs.Prelude.{◌≡◌, ◌||◌, ◌++◌, IfOk, IsSome, None, OnOk, Some, false};
ghost use Rattle.cqlp_capture_exchanges.specs.Accounts.{ReportedAll};
ghost use Rattle.cqlp_capture_exchanges.specs.Connections.{of_delivery};
ghost use Rattle.cqlp_capture_exchanges.specs.Reports.{is_unread, messages, unread};
ghost use Rattle.cqlp_capture_exchanges.specs.Talks.{bytes_heard, ended, is_responses, remaining, slot, delivery_heard};
ghost use Rattle.cqlp_observer.specs.Watches.{after_end, after_gap};

use crate::connection::Connection;
use crate::report::{ConnectionEnd, is_unread};
use crate::reporter::Reporter;
use cqlp_capture_streams::StreamsFault;
use cqlp_note::Target;
use cqlp_observer::{Kept, Missed, Opening, Paired, Unread, Watch, WatchRoom};
use cqlp_tcp_connections::{Delivery, Way};
use cqlp_tcp_reassembly::StreamStep;
use std::alloc::{AllocError, Allocator, Global};
use std::marker::Model;

/// What is watched of a connection.
#[derive(Drop)]
pub(crate) struct Slot<A: Allocator = Global> {
    watch: Box<Watch<A>, A>,
    /// Whether it was reported that the connection is not read.
    is_reported: bool,
}

impl<A: Allocator> Model for Slot<A> {
    ghost use Rattle.cqlp_capture_exchanges.specs.Talks.{Slot, slot};

    ghost Value = { Slot };

    ghost view = { λ s. slot s.watch.value s.is_reported };
}

impl<A: Allocator + Clone> Slot<A> {
    ghost use Rattle.cqlp_capture_exchanges.specs.Pools.{held_in};
    ghost use Rattle.cqlp_capture_exchanges.specs.Talks.{new_slot};

    /// Nothing was seen of the connection.
    pub(crate) fn new(alloc: A) -> Result<Self, AllocError>
        ensures { IfOk result (λ s. s ≡ new_slot) }
    {
        let watch = Watch::new(alloc.clone()?)?;
        match Box::new(alloc, watch) {
            Ok(watch) => Ok(Slot {
                watch,
                is_reported: false,
            }),
            Err(_) => Err(AllocError),
        }
    }

    /// How much of it waits.
    pub(crate) fn held(&self) -> WatchRoom
        ensures { result ≡ held_in self.now }
    {
        WatchRoom {
            messages: self.watch.waiting(),
            text: self.watch.text(),
        }
    }

    /// What was missed of the connection.
    pub(crate) fn missed(&self) -> Missed
        ensures { result ≡ self.now.watch.missed }
    {
        self.watch.missed()
    }

    /// Takes what its streams deliver while the present packet came at this time, with its bytes; so much may wait.
    pub(crate) fn hear<O: Target>(
        &mut self,
        present: Option<u64>,
        delivered: &Delivery,
        room: WatchRoom,
        bytes: &[u8],
        reporter: &mut Reporter<O, A>,
    ) -> Result<(), StreamsFault>
        ensures reports { ReportedAll (of_delivery delivered.now) (delivery_heard present delivered.now room bytes.now self.old).reports reporter.old
            result reporter.new }
        ensures after { IsSome reporter.old.output.given → OnOk result (self.new ≡ (delivery_heard present delivered.now room bytes.now self.old).after) }
    {
        hear_delivery(
            &mut self.watch,
            &mut self.is_reported,
            present,
            delivered,
            room,
            bytes,
            reporter,
        )
    }

    /// The streams of the connection end: reports what that delivers.
    pub(crate) fn end<O: Target>(
        &mut self,
        connection: &Connection,
        room: WatchRoom,
        reporter: &mut Reporter<O, A>,
    ) -> Result<(), StreamsFault>
        ensures reports { ReportedAll connection.now (ended room self.old).reports reporter.old result reporter.new }
        ensures after { IsSome reporter.old.output.given → OnOk result (self.new ≡ (ended room self.old).after) }
    {
        end_watch(&mut self.watch, connection, room, reporter)
    }

    /// Reports the messages that wait, of a connection that ended so.
    pub(crate) fn let_go<O: Target>(
        &mut self,
        connection: &Connection,
        end: ConnectionEnd,
        reporter: &mut Reporter<O, A>,
    ) -> Result<(), StreamsFault>
        ensures { ReportedAll connection.now (remaining end self.old.watch.waiting) reporter.old result reporter.new }
    {
        let_go(&mut self.watch, connection, end, reporter)
    }
}

/// Takes what the streams of a connection deliver while the present packet came at this time, with its bytes.
fn hear_delivery<O: Target, A: Allocator + Clone>(
    watch: &mut Watch<A>,
    is_reported: &mut bool,
    present: Option<u64>,
    delivered: &Delivery,
    room: WatchRoom,
    bytes: &[u8],
    reporter: &mut Reporter<O, A>,
) -> Result<(), StreamsFault>
    ensures reports { let t = delivery_heard present delivered.now room bytes.now (slot watch.old is_reported.old) in
        ReportedAll (of_delivery delivered.now) t.reports reporter.old result reporter.new }
    ensures after { let t = delivery_heard present delivered.now room bytes.now (slot watch.old is_reported.old) in
        IsSome reporter.old.output.given → OnOk result (slot watch.new is_reported.new ≡ t.after) }
{
    let responses = is_responses(delivered.way);
    let connection = &Connection {
        number: delivered.number,
        ends: delivered.ends,
    };
    match delivered.step {
        StreamStep::Began { syn } => {
            watch.begin(responses, syn);
            Ok(())
        }
        StreamStep::Payload { from, .. } => {
            let piece = Piece {
                responses,
                time: present,
                begins: from == 0,
                bytes,
            };
            hear_bytes(watch, is_reported, connection, piece, room, reporter)
        }
        StreamStep::Held { time, begins } => {
            let piece = Piece {
                responses,
                time,
                begins,
                bytes,
            };
            hear_bytes(watch, is_reported, connection, piece, room, reporter)
        }
        StreamStep::Gap { length, time, .. } => {
            hear_gap(watch, connection, responses, length, time, room, reporter)
        }
        StreamStep::Ended | StreamStep::Reset => {
            end_direction(watch, connection, responses, room, reporter)
        }
        StreamStep::Kept | StreamStep::Done => Ok(()),
    }
}

/// Whether bytes that go this way are those of responses.
fn is_responses(way: Way) -> bool
    ensures { result ≡ is_responses way }
{
    match way {
        Way::Requests => false,
        Way::Responses => true,
    }
}

/// Bytes of one direction, which were captured at this time; the first of them begins a segment or not.
#[derive(Clone, Copy)]
struct Piece<'a> {
    responses: bool,
    time: Option<u64>,
    begins: bool,
    bytes: &'a [u8],
}

/// Takes bytes of one direction.
fn hear_bytes<O: Target, A: Allocator + Clone>(
    watch: &mut Watch<A>,
    is_reported: &mut bool,
    connection: &Connection,
    piece: Piece<'_>,
    room: WatchRoom,
    reporter: &mut Reporter<O, A>,
) -> Result<(), StreamsFault>
    ensures reports { let p = piece.entry in
        let t = bytes_heard p.responses p.time p.begins room p.bytes.now (slot watch.old is_reported.old) in
        ReportedAll connection.now t.reports reporter.old result reporter.new }
    ensures after { let p = piece.entry in
        let t = bytes_heard p.responses p.time p.begins room p.bytes.now (slot watch.old is_reported.old) in
        IsSome reporter.old.output.given → OnOk result (slot watch.new is_reported.new ≡ t.after) }
{
    let Piece {
        responses,
        time,
        begins,
        bytes,
    } = piece;
    let mut unread = Unread::new(bytes, begins);
    let mut reported = None;
    while unread.steps > 0 {
        let Ok(step) = watch.take_into(
            responses,
            unread.bytes,
            time,
            unread.begins,
            room,
            &mut reported,
        ) else {
            return Err(StreamsFault::NoMemory);
        };
        report_step(
            reporter,
            connection,
            time,
            *is_reported,
            step.opening,
            &mut reported,
        )?;
        *is_reported = is_reported_after(*is_reported, step.opening);
        if step.is_done {
            return Ok(());
        }
        unread = unread.after(step.used);
    }
    Ok(())
}

/// Reports what a step of bytes holds that were captured at this time.
fn report_step<O: Target, A: Allocator>(
    reporter: &mut Reporter<O, A>,
    connection: &Connection,
    time: Option<u64>,
    was_reported: bool,
    opening: Opening,
    exchange: &mut Option<Paired<Kept<A>>>,
) -> Result<(), StreamsFault>
    ensures { ReportedAll connection.now (unread time was_reported opening ++ messages None exchange.old) reporter.old result reporter.new }
{
    match reporter.report_opening(connection, time, was_reported, opening) {
        Ok(()) => reporter.report_messages(connection, None, exchange),
        Err(fault) => Err(fault),
    }
}

/// Whether it was reported that a connection is not read, after a direction that begins so, or goes on.
fn is_reported_after(was_reported: bool, opening: Opening) -> bool
    ensures { result ≡ (was_reported || is_unread opening) }
{
    was_reported || is_unread(opening)
}

/// So many bytes of a direction are missing, which passed at this time, where that is known.
fn hear_gap<O: Target, A: Allocator + Clone>(
    watch: &mut Watch<A>,
    connection: &Connection,
    responses: bool,
    length: u64,
    time: Option<u64>,
    room: WatchRoom,
    reporter: &mut Reporter<O, A>,
) -> Result<(), StreamsFault>
    ensures reports { ReportedAll connection.now (messages None (after_gap responses length time room watch.old).reported) reporter.old result reporter.new }
    ensures after { IsSome reporter.old.output.given → OnOk result (watch.new ≡ (after_gap responses length time room watch.old).after) }
{
    let mut exchange = None;
    match watch.gap_into(responses, length, time, room, &mut exchange) {
        Ok(()) => reporter.report_messages(connection, None, &mut exchange),
        Err(AllocError) => Err(StreamsFault::NoMemory),
    }
}

/// No more bytes of either direction come.
fn end_watch<O: Target, A: Allocator + Clone>(
    watch: &mut Watch<A>,
    connection: &Connection,
    room: WatchRoom,
    reporter: &mut Reporter<O, A>,
) -> Result<(), StreamsFault>
    ensures reports { ReportedAll connection.now (ended room (slot watch.old false)).reports reporter.old result reporter.new }
    ensures after { IsSome reporter.old.output.given → OnOk result (watch.new ≡ (ended room (slot watch.old false)).after.watch) }
{
    match end_direction(watch, connection, false, room, reporter) {
        Ok(()) => end_direction(watch, connection, true, room, reporter),
        Err(fault) => Err(fault),
    }
}

/// No more bytes of a direction come.
fn end_direction<O: Target, A: Allocator + Clone>(
    watch: &mut Watch<A>,
    connection: &Connection,
    responses: bool,
    room: WatchRoom,
    reporter: &mut Reporter<O, A>,
) -> Result<(), StreamsFault>
    ensures reports { ReportedAll connection.now (messages None (after_end responses room watch.old).reported) reporter.old result reporter.new }
    ensures after { IsSome reporter.old.output.given → OnOk result (watch.new ≡ (after_end responses room watch.old).after) }
{
    match watch.end(responses, room) {
        Ok(mut exchange) => reporter.report_messages(connection, None, &mut exchange),
        Err(AllocError) => Err(StreamsFault::NoMemory),
    }
}

/// Reports the messages that wait, of a connection that ended so.
fn let_go<O: Target, A: Allocator + Clone>(
    watch: &mut Watch<A>,
    connection: &Connection,
    end: ConnectionEnd,
    reporter: &mut Reporter<O, A>,
) -> Result<(), StreamsFault>
    ensures { ReportedAll connection.now (remaining end watch.old.waiting) reporter.old result reporter.new }
{
    while let Some(exchange) = watch.finish() {
        report_last(reporter, connection, end, exchange)?;
    }
    Ok(())
}

/// Reports messages that waited, of a connection that ended so.
fn report_last<O: Target, A: Allocator>(
    reporter: &mut Reporter<O, A>,
    connection: &Connection,
    end: ConnectionEnd,
    exchange: Paired<Kept<A>>,
) -> Result<(), StreamsFault>
    ensures { ReportedAll connection.now (messages (Some end) (Some exchange)) reporter.old result reporter.new }
{
    let mut waited = Some(exchange);
    reporter.report_messages(connection, Some(end), &mut waited)
}
