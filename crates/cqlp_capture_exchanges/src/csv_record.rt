//! The record of CSV of what is reported of a request, a response, or both.

ghost use Rattle.std.specs.Prelude.{◌≡◌, [], None, option_map};
ghost use Rattle.cqlp_json.specs.Lines.{texts};
ghost use Rattle.cqlp_text.specs.Written.{Writes};
ghost use Rattle.cqlp_observer.specs.declared.paired.Paired.TheVariants.{Exchange, Unanswered};
ghost use Rattle.cqlp_capture_exchanges.specs.CsvRecords.{alone_record, count_fields, csv_text, frame_fields, last_text};
ghost use Rattle.cqlp_capture_exchanges.specs.CsvRecords.{last_fields, message_fields, names_if_first, paired_record, place_text};
ghost use Rattle.cqlp_capture_exchanges.specs.CsvRecords.{protocol_fields, query_fields, record_of, reply_fields, request_text};
ghost use Rattle.cqlp_capture_exchanges.specs.CsvRecords.{response_text, result_fields, statement_fields, stream_fields, unread_record};
ghost use Rattle.cqlp_capture_exchanges.specs.CsvRecords.{known_text, tracing_fields, warned_fields, warnings_fields, where_fields, where_text, with_record};
ghost use Rattle.cqlp_capture_exchanges.specs.Reports.{report_of};
ghost use Rattle.cqlp_capture_exchanges.specs.Statements.{said_of};
ghost use Rattle.cqlp_capture_exchanges.specs.Warnings.{first_of, listed_of, warned_of};

use crate::connection::Connection;
use crate::csv_field::put_fields;
use crate::intervals::note_outcome;
use crate::member::{
    Value, consistency_or_null, flag_or_null, name_or_code, number_or_null, seconds_or_null,
    signed_or_null, utc_or_null, uuid_or_null,
};
use crate::object::{end_or_null, none_whole, protocol_name, version_or_null};
use crate::outcome::Outcome;
use crate::prepared::{Known, named};
use crate::reply::{Reply, error_name, kind_name, message_of, reply_of};
use crate::report::{ConnectionEnd, Report};
use crate::span::{Span, is_whole, time_between, took};
use crate::statement::{Statement, has, statement_of, statements_of};
use crate::warning::{Warning, Warnings, warnings_of};
use crate::warning_texts::put_texts_fields;
use cqlp_capture_summary::Summary;
use cqlp_grammar::SinkFault;
use cqlp_json::put_word;
use cqlp_note::Target;
use cqlp_observer::{Facts, Frame, Kept, Message, Opening, Paired};
use cqlp_text::{Buffered, Pen, TextWriter, opcode_name};
use std::alloc::Allocator;

/// The names of the fields.
const NAMES: &str =
    "told,time,utc,client,node,connection,stream,request,request_bytes,request_is_whole,request_is_compressed,statements,\
    statement,id,statement_is_whole,consistency,page_size,has_paging_state,response,response_bytes,response_is_whole,\
    response_is_compressed,result,error,message,message_is_whole,rows,columns,has_more_pages,warnings,warning,\
    warning_is_whole,warning_texts,warning_texts_are_whole,tracing_id,took,connection_end,protocol,version\r\n";

/// In place of the fields of a request, of a response, and of all between a connection's number and its protocol.
const NO_REQUEST: &[u8] = b",,,,,,,,,,,";

const NO_RESPONSE: &[u8] = b",,,,,,,,,,,,,,,,,";

const NO_MESSAGE: &[u8] = b",,,,,,,,,,,,,,,,,,,,,,,,,,,,,,,";

/// Takes the record of a report of this connection, in a capture whose first packet came at this time, behind one with the names of the fields if it is
/// the first, and passes it on.
pub(crate) fn put_csv<W: Target, A: Allocator, B: Allocator>(
    writer: &mut TextWriter<Buffered<W, A>>,
    known: &Known<B>,
    first: Option<u64>,
    summary: &Summary<A>,
    connection: &Connection,
    report: &Report<'_, B>,
) -> Result<(), SinkFault>
    ensures text { Writes writer.old (csv_text known.now first summary.now connection.now (report_of report.now)) result writer.new }
    ensures passed { writer.new.waiting ≡ [] }
{
    put_text(writer, known, first, summary, connection, report)?;
    writer.pass_on()
}

/// Takes the record with the names of the fields, if there is no other, and passes it on.
pub(crate) fn put_names<W: Target, A: Allocator>(
    writer: &mut TextWriter<Buffered<W, A>>,
    summary: &Summary<A>,
) -> Result<(), SinkFault>
    ensures text { Writes writer.old (names_if_first summary.now) result writer.new }
    ensures passed { writer.new.waiting ≡ [] }
{
    put_names_if_first(writer, summary)?;
    writer.pass_on()
}

/// Counts a record.
pub(crate) fn note_record<A: Allocator>(summary: &mut Summary<A>)
    ensures { summary.new ≡ with_record summary.old }
{
    let outcome = Outcome {
        is_answered: true,
        reply: None,
        is_error: false,
        rows: 0,
        bytes: 0,
        took: None,
        at: None,
    };
    note_outcome(summary, 1, &outcome);
}

fn put_text<P: Pen, A: Allocator, B: Allocator>(
    writer: &mut TextWriter<P>,
    known: &Known<B>,
    first: Option<u64>,
    summary: &Summary<A>,
    connection: &Connection,
    report: &Report<'_, B>,
) -> Result<(), SinkFault>
    ensures { Writes writer.old (csv_text known.now first summary.now connection.now (report_of report.now)) result writer.new }
{
    put_names_if_first(writer, summary)?;
    put_record(writer, known, first, connection, report)
}

fn put_names_if_first<P: Pen, A: Allocator>(
    writer: &mut TextWriter<P>,
    summary: &Summary<A>,
) -> Result<(), SinkFault>
    ensures { Writes writer.old (names_if_first summary.now) result writer.new }
{
    if summary.has_no_others() {
        writer.put_str(NAMES)
    } else {
        writer.put(b"")
    }
}

/// Takes the record of a report.
fn put_record<P: Pen, A: Allocator>(
    writer: &mut TextWriter<P>,
    known: &Known<A>,
    first: Option<u64>,
    connection: &Connection,
    report: &Report<'_, A>,
) -> Result<(), SinkFault>
    ensures { Writes writer.old (record_of known.now first connection.now (report_of report.now)) result writer.new }
{
    match report {
        Report::Messages { paired, end } => {
            put_paired(writer, known, first, connection, *end, paired)
        }
        Report::Unread { time, opening } => put_unread(writer, first, connection, *time, *opening),
    }
}

/// Takes the record of a connection that begins with no frames of version 4.
fn put_unread<P: Pen>(
    writer: &mut TextWriter<P>,
    first: Option<u64>,
    connection: &Connection,
    time: Option<u64>,
    opening: Opening,
) -> Result<(), SinkFault>
    ensures { Writes writer.old (unread_record first connection.now time opening) result writer.new }
{
    put_where(writer, "unread", first, connection, time)?;
    writer.put(NO_MESSAGE)?;
    put_protocol(writer, opening)?;
    writer.put(b"\r\n")
}

fn put_protocol<P: Pen>(writer: &mut TextWriter<P>, opening: Opening) -> Result<(), SinkFault>
    ensures { Writes writer.old (texts (protocol_fields opening)) result writer.new }
{
    put_fields(
        writer,
        &[
            Value::Name(protocol_name(opening)),
            version_or_null(opening),
        ],
    )
}

/// Takes the record of messages, whose connection ended so where that is why they are reported.
fn put_paired<P: Pen, A: Allocator>(
    writer: &mut TextWriter<P>,
    known: &Known<A>,
    first: Option<u64>,
    connection: &Connection,
    end: Option<ConnectionEnd>,
    reported: &Paired<Kept<A>>,
) -> Result<(), SinkFault>
    ensures { Writes writer.old (paired_record known.now first connection.now end reported.now) result writer.new }
{
    match reported {
        Paired::Exchange { request, response } => {
            put_exchange(writer, known, first, connection, request, response)
        }
        Paired::Unanswered { request } => {
            put_unanswered(writer, known, first, connection, end, request)
        }
        Paired::Unasked { response } => put_alone(writer, "unasked", first, connection, response),
        Paired::Event { event } => put_alone(writer, "event", first, connection, event),
    }
}

fn put_exchange<P: Pen, A: Allocator>(
    writer: &mut TextWriter<P>,
    known: &Known<A>,
    first: Option<u64>,
    connection: &Connection,
    request: &Message<Kept<A>>,
    response: &Message<Kept<A>>,
) -> Result<(), SinkFault>
    ensures { Writes writer.old (paired_record known.now first connection.now None (Exchange request.now response.now)) result writer.new }
{
    let took = took(&request.frame, &response.frame);
    put_place(writer, "exchange", first, connection, &request.frame)?;
    put_request(writer, known, request)?;
    put_response(writer, response)?;
    put_last(writer, took, None)
}

fn put_unanswered<P: Pen, A: Allocator>(
    writer: &mut TextWriter<P>,
    known: &Known<A>,
    first: Option<u64>,
    connection: &Connection,
    end: Option<ConnectionEnd>,
    request: &Message<Kept<A>>,
) -> Result<(), SinkFault>
    ensures { Writes writer.old (paired_record known.now first connection.now end (Unanswered request.now)) result writer.new }
{
    put_place(writer, "unanswered", first, connection, &request.frame)?;
    put_request(writer, known, request)?;
    writer.put(NO_RESPONSE)?;
    put_last(writer, None, end)
}

/// Takes the record of a response without a request, or of an event.
fn put_alone<P: Pen, A: Allocator>(
    writer: &mut TextWriter<P>,
    reported: &str,
    first: Option<u64>,
    connection: &Connection,
    response: &Message<Kept<A>>,
) -> Result<(), SinkFault>
    ensures { Writes writer.old (alone_record reported.now first connection.now response.now) result writer.new }
{
    put_place(writer, reported, first, connection, &response.frame)?;
    writer.put(NO_REQUEST)?;
    put_response(writer, response)?;
    put_last(writer, None, None)
}

/// Takes what is reported, when its frame began, and where.
fn put_place<P: Pen>(
    writer: &mut TextWriter<P>,
    reported: &str,
    first: Option<u64>,
    connection: &Connection,
    frame: &Frame,
) -> Result<(), SinkFault>
    ensures { Writes writer.old (place_text reported.now first connection.now frame.now) result writer.new }
{
    put_where(writer, reported, first, connection, frame.begun)?;
    put_stream(writer, frame)
}

fn put_where<P: Pen>(
    writer: &mut TextWriter<P>,
    reported: &str,
    first: Option<u64>,
    connection: &Connection,
    time: Option<u64>,
) -> Result<(), SinkFault>
    ensures { Writes writer.old (where_text reported.now first connection.now time) result writer.new }
{
    put_word(reported, writer)?;
    put_where_fields(writer, first, connection, time)
}

fn put_where_fields<P: Pen>(
    writer: &mut TextWriter<P>,
    first: Option<u64>,
    connection: &Connection,
    time: Option<u64>,
) -> Result<(), SinkFault>
    ensures { Writes writer.old (texts (where_fields first connection.now time)) result writer.new }
{
    let since = time_between(first, time);
    put_fields(
        writer,
        &[
            seconds_or_null(since),
            utc_or_null(time),
            Value::End(connection.ends.client),
            Value::End(connection.ends.node),
            Value::Number(connection.number),
        ],
    )
}

fn put_stream<P: Pen>(writer: &mut TextWriter<P>, frame: &Frame) -> Result<(), SinkFault>
    ensures { Writes writer.old (texts (stream_fields frame.now)) result writer.new }
{
    put_fields(writer, &[Value::Signed(i32::from(frame.header.stream))])
}

/// Takes the end of a record: how long an exchange took, or how the connection of a request without a response ended.
fn put_last<P: Pen>(
    writer: &mut TextWriter<P>,
    time: Option<Span>,
    end: Option<ConnectionEnd>,
) -> Result<(), SinkFault>
    ensures { Writes writer.old (last_text time end) result writer.new }
{
    put_last_fields(writer, time, end)?;
    writer.put(b",,\r\n")
}

fn put_last_fields<P: Pen>(
    writer: &mut TextWriter<P>,
    time: Option<Span>,
    end: Option<ConnectionEnd>,
) -> Result<(), SinkFault>
    ensures { Writes writer.old (texts (last_fields time end)) result writer.new }
{
    put_fields(writer, &[seconds_or_null(time), end_or_null(end)])
}

fn put_request<P: Pen, A: Allocator>(
    writer: &mut TextWriter<P>,
    known: &Known<A>,
    request: &Message<Kept<A>>,
) -> Result<(), SinkFault>
    ensures { Writes writer.old (request_text known.now request.now) result writer.new }
{
    let front = request.kept.front();
    let count = statements_of(&request.frame.header, front);
    let statement = named(known, statement_of(&request.frame.header, front));
    put_frame(writer, &request.frame)?;
    put_count(writer, count)?;
    put_statement(writer, request.kept.is_text_dropped(), &statement)?;
    put_query(writer, &request.kept.facts())
}

fn put_frame<P: Pen>(writer: &mut TextWriter<P>, frame: &Frame) -> Result<(), SinkFault>
    ensures { Writes writer.old (texts (frame_fields frame.now)) result writer.new }
{
    put_fields(
        writer,
        &[
            Value::Name(opcode_name(frame.header.opcode)),
            Value::Number(9 + frame.header.length as u64),
            Value::Flag(is_whole(frame.extent)),
            Value::Flag(has(frame.header.flags, 0x01)),
        ],
    )
}

/// Takes how many statements a BATCH has.
fn put_count<P: Pen>(writer: &mut TextWriter<P>, count: Option<u16>) -> Result<(), SinkFault>
    ensures { Writes writer.old (texts (count_fields count)) result writer.new }
{
    put_fields(writer, &[number_or_null(count)])
}

/// Takes what a request asks to be done.
fn put_statement<P: Pen>(
    writer: &mut TextWriter<P>,
    is_given_up: bool,
    statement: &Option<Statement<'_>>,
) -> Result<(), SinkFault>
    ensures { Writes writer.old (texts (statement_fields is_given_up (option_map said_of statement.now))) result writer.new }
{
    match statement {
        Some(Statement::Text { text, is_whole }) => put_fields(
            writer,
            &[Value::Text(text), Value::Null, Value::Flag(*is_whole)],
        ),
        Some(Statement::Id { id, is_whole }) => put_fields(
            writer,
            &[Value::Null, Value::Hex(id), Value::Flag(*is_whole)],
        ),
        None => put_fields(writer, &[Value::Null, Value::Null, none_whole(is_given_up)]),
    }
}

/// Takes how a request asks for it to be done.
fn put_query<P: Pen>(writer: &mut TextWriter<P>, facts: &Facts) -> Result<(), SinkFault>
    ensures { Writes writer.old (texts (query_fields facts.now)) result writer.new }
{
    put_fields(
        writer,
        &[
            consistency_or_null(facts.consistency),
            signed_or_null(facts.page_size),
            flag_or_null(facts.has_paging_state),
        ],
    )
}

fn put_response<P: Pen, A: Allocator>(
    writer: &mut TextWriter<P>,
    response: &Message<Kept<A>>,
) -> Result<(), SinkFault>
    ensures { Writes writer.old (response_text response.now) result writer.new }
{
    let front = response.kept.front();
    let reply = reply_of(&response.frame.header, front);
    let message = message_of(reply, front);
    put_frame(writer, &response.frame)?;
    put_reply(writer, reply)?;
    put_message(writer, response.kept.is_text_dropped(), &message)?;
    put_known(writer, response)
}

/// Takes what a response is.
fn put_reply<P: Pen>(writer: &mut TextWriter<P>, reply: Reply) -> Result<(), SinkFault>
    ensures { Writes writer.old (texts (reply_fields reply)) result writer.new }
{
    match reply {
        Reply::Result(kind) => {
            put_fields(writer, &[name_or_code(kind_name(kind), kind), Value::Null])
        }
        Reply::Error(code) => {
            put_fields(writer, &[Value::Null, name_or_code(error_name(code), code)])
        }
        Reply::Other(_) => put_fields(writer, &[Value::Null, Value::Null]),
    }
}

/// Takes the message of an ERROR.
fn put_message<P: Pen>(
    writer: &mut TextWriter<P>,
    is_given_up: bool,
    message: &Option<Statement<'_>>,
) -> Result<(), SinkFault>
    ensures { Writes writer.old (texts (message_fields is_given_up (option_map said_of message.now))) result writer.new }
{
    match message {
        Some(Statement::Text { text, is_whole }) => {
            put_fields(writer, &[Value::Text(text), Value::Flag(*is_whole)])
        }
        Some(Statement::Id { .. }) => {
            put_fields(writer, &[Value::Null, none_whole(is_given_up)])
        }
        None => put_fields(writer, &[Value::Null, none_whole(is_given_up)]),
    }
}

/// Takes what is known of a response beside that.
fn put_known<P: Pen, A: Allocator>(
    writer: &mut TextWriter<P>,
    response: &Message<Kept<A>>,
) -> Result<(), SinkFault>
    ensures { Writes writer.old (known_text response.now) result writer.new }
{
    let facts = response.kept.facts();
    let warnings = warnings_of(&response.frame.header, response.kept.announced());
    put_result(writer, &facts)?;
    put_warnings(writer, response.kept.is_text_dropped(), &warnings)?;
    put_tracing(writer, &facts)
}

/// Takes the warnings of a response.
fn put_warnings<P: Pen>(
    writer: &mut TextWriter<P>,
    is_given_up: bool,
    warnings: &Warnings<'_>,
) -> Result<(), SinkFault>
    ensures { Writes writer.old (warnings_fields is_given_up (first_of (listed_of warnings.now))) result writer.new }
{
    match warnings.split_first() {
        Some((first, others)) => put_known_warnings(writer, &first, &others),
        None => put_no_warning(writer, is_given_up),
    }
}

fn put_no_warning<P: Pen>(writer: &mut TextWriter<P>, is_given_up: bool) -> Result<(), SinkFault>
    ensures { Writes writer.old (warnings_fields is_given_up None) result writer.new }
{
    put_fields(
        writer,
        &[
            Value::Null,
            none_whole(is_given_up),
            Value::Null,
            Value::Null,
        ],
    )
}

fn put_known_warnings<P: Pen>(
    writer: &mut TextWriter<P>,
    first: &Warning<'_>,
    others: &Warnings<'_>,
) -> Result<(), SinkFault>
    ensures { Writes writer.old (warned_fields (warned_of first.now) (listed_of others.now)) result writer.new }
{
    put_fields(
        writer,
        &[Value::Text(first.text), Value::Flag(first.is_whole)],
    )?;
    put_texts_fields(writer, first, others)
}

fn put_tracing<P: Pen>(writer: &mut TextWriter<P>, facts: &Facts) -> Result<(), SinkFault>
    ensures { Writes writer.old (texts (tracing_fields facts.now)) result writer.new }
{
    put_fields(writer, &[uuid_or_null(facts.trace_id)])
}

/// Takes what is known of a result, and how many warnings a response has.
fn put_result<P: Pen>(writer: &mut TextWriter<P>, facts: &Facts) -> Result<(), SinkFault>
    ensures { Writes writer.old (texts (result_fields facts.now)) result writer.new }
{
    put_fields(
        writer,
        &[
            signed_or_null(facts.rows),
            signed_or_null(facts.columns),
            flag_or_null(facts.has_more_pages),
            number_or_null(facts.warnings),
        ],
    )
}
