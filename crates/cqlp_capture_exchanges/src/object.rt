//! The JSON object of what is reported of a request, a response, or both.

ghost use Rattle.std.specs.Prelude.{◌≡◌, [], None, option_map};
ghost use Rattle.cqlp_capture_exchanges.specs.Reports.{report_of};
ghost use Rattle.cqlp_json.specs.Lines.{texts};
ghost use Rattle.cqlp_text.specs.Written.{Writes};
ghost use Rattle.cqlp_observer.specs.declared.paired.Paired.TheVariants.{Exchange, Unanswered};
ghost use Rattle.cqlp_capture_exchanges.specs.Objects.{alone_object, count_members, end_or_null, error_members, json_line, last_members};
ghost use Rattle.cqlp_capture_exchanges.specs.Objects.{message_as, message_members, none_whole, paired_object, place_members};
ghost use Rattle.cqlp_capture_exchanges.specs.Objects.{protocol_name, query_members, reply_members, reply_values, request_frame_members};
ghost use Rattle.cqlp_capture_exchanges.specs.Objects.{request_members, response_frame_members, response_members, result_members};
ghost use Rattle.cqlp_capture_exchanges.specs.Objects.{known_members, tracing_members, warned_members, warning_as, warnings_members};
ghost use Rattle.cqlp_capture_exchanges.specs.Objects.{statement_as, statement_members, unread_members, unread_object, version_or_null};
ghost use Rattle.cqlp_capture_exchanges.specs.CsvFields.{field_text, none_whole_field};
ghost use Rattle.cqlp_capture_exchanges.specs.CsvRecords.{end_field, version_field};
ghost use Rattle.cqlp_capture_exchanges.specs.Members.{value_text};
ghost use Rattle.cqlp_capture_exchanges.specs.Statements.{said_of};
ghost use Rattle.cqlp_capture_exchanges.specs.Warnings.{first_of, listed_of, warned_of};

use crate::bound::put_values_members_if;
use crate::connection::Connection;
use crate::details_object::put_details;
use crate::error_details::error_details;
use crate::form::ValuesShown;
use crate::member::{
    Member, Value, consistency_or_null, flag_or_null, name_or_code, number_or_null, put_members,
    seconds_or_null, signed_or_null, utc_or_null, uuid_or_null,
};
use crate::prepared::{Known, named};
use crate::reply::{Reply, error_name, kind_name, message_of, reply_of};
use crate::report::{ConnectionEnd, Report};
use crate::span::{Span, is_whole, time_between, took};
use crate::statement::{Statement, has, statement_of, statements_of};
use crate::warning::{Warning, Warnings, warnings_of};
use crate::warning_texts::put_texts_members;
use cqlp_grammar::SinkFault;
use cqlp_note::Target;
use cqlp_observer::{Facts, Frame, Kept, Message, Opening, Paired};
use cqlp_text::{Buffered, Pen, TextWriter, opcode_name};
use std::alloc::Allocator;

/// Takes the object of a report of this connection, in a capture whose first packet came at this time, in a line of its own, and
/// passes it on.
pub(crate) fn put_json_line<W: Target, A: Allocator, B: Allocator>(
    writer: &mut TextWriter<Buffered<W, A>>,
    known: &Known<B>,
    shown: ValuesShown,
    first: Option<u64>,
    connection: &Connection,
    report: &Report<'_, B>,
) -> Result<(), SinkFault>
    ensures line { Writes writer.old (json_line known.now shown first connection.now (report_of report.now)) result writer.new }
    ensures passed { writer.new.waiting ≡ [] }
{
    put_report(writer, known, shown, first, connection, report)?;
    writer.pass_on()
}

/// Takes the object of a report.
fn put_report<P: Pen, A: Allocator>(
    writer: &mut TextWriter<P>,
    known: &Known<A>,
    shown: ValuesShown,
    first: Option<u64>,
    connection: &Connection,
    report: &Report<'_, A>,
) -> Result<(), SinkFault>
    ensures { Writes writer.old (json_line known.now shown first connection.now (report_of report.now)) result writer.new }
{
    match report {
        Report::Messages { paired, end } => put_paired(
            writer, known, shown, first, connection, *end, paired,
        ),
        Report::Unread { time, opening } => put_unread(writer, first, connection, *time, *opening),
    }
}

/// Takes the object of a connection that begins with no frames of version 4.
fn put_unread<P: Pen>(
    writer: &mut TextWriter<P>,
    first: Option<u64>,
    connection: &Connection,
    time: Option<u64>,
    opening: Opening,
) -> Result<(), SinkFault>
    ensures { Writes writer.old (unread_object first connection.now time opening) result writer.new }
{
    put_opening(writer, first, connection, time, opening)?;
    writer.put(b"}\n")
}

fn put_opening<P: Pen>(
    writer: &mut TextWriter<P>,
    first: Option<u64>,
    connection: &Connection,
    time: Option<u64>,
    opening: Opening,
) -> Result<(), SinkFault>
    ensures { Writes writer.old (texts (unread_members first connection.now time opening)) result writer.new }
{
    let since = time_between(first, time);
    put_members(
        writer,
        &[
            Member("{\"told\":", Value::Name("unread")),
            Member(",\"time\":", seconds_or_null(since)),
            Member(",\"utc\":", utc_or_null(time)),
            Member(",\"client\":", Value::End(connection.ends.client)),
            Member(",\"node\":", Value::End(connection.ends.node)),
            Member(",\"connection\":", Value::Number(connection.number)),
            Member(",\"protocol\":", Value::Name(protocol_name(opening))),
            Member(",\"version\":", version_or_null(opening)),
        ],
    )
}

pub(crate) fn protocol_name(opening: Opening) -> &'static str
    ensures { result.now ≡ protocol_name opening }
{
    match opening {
        Opening::Tls => "TLS",
        Opening::Http => "HTTP",
        Opening::Frames => "CQL",
        Opening::OtherVersion(_) => "CQL",
    }
}

pub(crate) fn version_or_null(opening: Opening) -> Value<'static>
    ensures value { value_text result ≡ version_or_null opening }
    ensures field { field_text result ≡ version_field opening }
{
    match opening {
        Opening::OtherVersion(version) => Value::Number(u64::from(version)),
        Opening::Frames => Value::Null,
        Opening::Tls => Value::Null,
        Opening::Http => Value::Null,
    }
}

/// Takes the object of messages, whose connection ended so where that is why they are reported.
fn put_paired<P: Pen, A: Allocator>(
    writer: &mut TextWriter<P>,
    known: &Known<A>,
    shown: ValuesShown,
    first: Option<u64>,
    connection: &Connection,
    end: Option<ConnectionEnd>,
    reported: &Paired<Kept<A>>,
) -> Result<(), SinkFault>
    ensures { Writes writer.old (paired_object known.now shown first connection.now end reported.now) result writer.new }
{
    match reported {
        Paired::Exchange { request, response } => {
            put_exchange(writer, known, shown, first, connection, request, response)
        }
        Paired::Unanswered { request } => put_unanswered(
            writer, known, shown, first, connection, end, request,
        ),
        Paired::Unasked { response } => put_alone(writer, "unasked", first, connection, response),
        Paired::Event { event } => put_alone(writer, "event", first, connection, event),
    }
}

/// How long an exchange took, and how the connection of a request without a response ended.
#[derive(Clone, Copy)]
struct Last {
    time: Option<Span>,
    end: Option<ConnectionEnd>,
}

impl Last {
    /// Neither is known.
    const NONE: Last = Last {
        time: None,
        end: None,
    };
}

/// Takes the object of a request with its response.
fn put_exchange<P: Pen, A: Allocator>(
    writer: &mut TextWriter<P>,
    known: &Known<A>,
    shown: ValuesShown,
    first: Option<u64>,
    connection: &Connection,
    request: &Message<Kept<A>>,
    response: &Message<Kept<A>>,
) -> Result<(), SinkFault>
    ensures { Writes writer.old (paired_object known.now shown first connection.now None (Exchange request.now response.now)) result writer.new }
{
    let last = Last {
        time: took(&request.frame, &response.frame),
        end: None,
    };
    put_place(writer, "exchange", first, connection, &request.frame)?;
    put_request(writer, known, shown, request)?;
    put_response(writer, response)?;
    put_last(writer, last)?;
    writer.put(b"}\n")
}

/// Takes the object of a request without a response, whose connection ended so where that is why.
fn put_unanswered<P: Pen, A: Allocator>(
    writer: &mut TextWriter<P>,
    known: &Known<A>,
    shown: ValuesShown,
    first: Option<u64>,
    connection: &Connection,
    end: Option<ConnectionEnd>,
    request: &Message<Kept<A>>,
) -> Result<(), SinkFault>
    ensures { Writes writer.old (paired_object known.now shown first connection.now end (Unanswered request.now)) result writer.new }
{
    let last = Last { time: None, end };
    put_place(writer, "unanswered", first, connection, &request.frame)?;
    put_request(writer, known, shown, request)?;
    put_last(writer, last)?;
    writer.put(b"}\n")
}

/// Takes the object of a response without a request, or of an event.
fn put_alone<P: Pen, A: Allocator>(
    writer: &mut TextWriter<P>,
    reported: &str,
    first: Option<u64>,
    connection: &Connection,
    response: &Message<Kept<A>>,
) -> Result<(), SinkFault>
    ensures { Writes writer.old (alone_object reported.now first connection.now response.now) result writer.new }
{
    put_place(writer, reported, first, connection, &response.frame)?;
    put_response(writer, response)?;
    put_last(writer, Last::NONE)?;
    writer.put(b"}\n")
}

/// Takes what is reported, when its frame began, and where.
fn put_place<P: Pen>(
    writer: &mut TextWriter<P>,
    reported: &str,
    first: Option<u64>,
    connection: &Connection,
    frame: &Frame,
) -> Result<(), SinkFault>
    ensures { Writes writer.old (texts (place_members reported.now first connection.now frame.now)) result writer.new }
{
    let since = time_between(first, frame.begun);
    put_members(
        writer,
        &[
            Member("{\"told\":", Value::Name(reported)),
            Member(",\"time\":", seconds_or_null(since)),
            Member(",\"utc\":", utc_or_null(frame.begun)),
            Member(",\"client\":", Value::End(connection.ends.client)),
            Member(",\"node\":", Value::End(connection.ends.node)),
            Member(",\"connection\":", Value::Number(connection.number)),
            Member(
                ",\"stream\":",
                Value::Signed(i32::from(frame.header.stream)),
            ),
        ],
    )
}

fn put_last<P: Pen>(writer: &mut TextWriter<P>, last: Last) -> Result<(), SinkFault>
    ensures { Writes writer.old (texts (last_members last.time last.end)) result writer.new }
{
    put_members(
        writer,
        &[
            Member(",\"took\":", seconds_or_null(last.time)),
            Member(",\"connection_end\":", end_or_null(last.end)),
        ],
    )
}

pub(crate) fn end_or_null(end: Option<ConnectionEnd>) -> Value<'static>
    ensures value { value_text result ≡ end_or_null end }
    ensures field { field_text result ≡ end_field end }
{
    match end {
        None => Value::Null,
        Some(ConnectionEnd::Reset) => Value::Name("reset"),
        Some(ConnectionEnd::Closed) => Value::Name("closed"),
        Some(ConnectionEnd::Open) => Value::Name("open"),
    }
}

fn put_request<P: Pen, A: Allocator>(
    writer: &mut TextWriter<P>,
    known: &Known<A>,
    shown: ValuesShown,
    request: &Message<Kept<A>>,
) -> Result<(), SinkFault>
    ensures { Writes writer.old (request_members known.now shown request.now) result writer.new }
{
    let front = request.kept.front();
    let count = statements_of(&request.frame.header, front);
    let statement = named(known, statement_of(&request.frame.header, front));
    put_request_frame(writer, &request.frame)?;
    put_count(writer, count)?;
    put_statement(writer, request.kept.is_text_dropped(), &statement)?;
    put_values_members_if(writer, known, shown, request)?;
    put_query(writer, &request.kept.facts())
}

/// Takes how many statements a BATCH has.
fn put_count<P: Pen>(writer: &mut TextWriter<P>, count: Option<u16>) -> Result<(), SinkFault>
    ensures { Writes writer.old (texts (count_members count)) result writer.new }
{
    put_members(writer, &[Member(",\"statements\":", number_or_null(count))])
}

/// Takes how a request asks for it to be done.
fn put_query<P: Pen>(writer: &mut TextWriter<P>, facts: &Facts) -> Result<(), SinkFault>
    ensures { Writes writer.old (texts (query_members facts.now)) result writer.new }
{
    put_members(
        writer,
        &[
            Member(",\"consistency\":", consistency_or_null(facts.consistency)),
            Member(",\"page_size\":", signed_or_null(facts.page_size)),
            Member(
                ",\"has_paging_state\":",
                flag_or_null(facts.has_paging_state),
            ),
        ],
    )
}

fn put_request_frame<P: Pen>(writer: &mut TextWriter<P>, frame: &Frame) -> Result<(), SinkFault>
    ensures { Writes writer.old (texts (request_frame_members frame.now)) result writer.new }
{
    put_members(
        writer,
        &[
            Member(
                ",\"request\":",
                Value::Name(opcode_name(frame.header.opcode)),
            ),
            Member(
                ",\"request_bytes\":",
                Value::Number(9 + frame.header.length as u64),
            ),
            Member(
                ",\"request_is_whole\":",
                Value::Flag(is_whole(frame.extent)),
            ),
            Member(
                ",\"request_is_compressed\":",
                Value::Flag(has(frame.header.flags, 0x01)),
            ),
        ],
    )
}

/// Whether all of a text is there that is not there: not, where it was given up.
pub(crate) fn none_whole(is_given_up: bool) -> Value<'static>
    ensures value { value_text result ≡ none_whole is_given_up }
    ensures field { field_text result ≡ none_whole_field is_given_up }
{
    if is_given_up {
        Value::Flag(false)
    } else {
        Value::Null
    }
}

/// Takes what a request asks to be done.
fn put_statement<P: Pen>(
    writer: &mut TextWriter<P>,
    is_given_up: bool,
    statement: &Option<Statement<'_>>,
) -> Result<(), SinkFault>
    ensures { Writes writer.old (texts (statement_members is_given_up (option_map said_of statement.now))) result writer.new }
{
    match statement {
        Some(Statement::Text { text, is_whole }) => {
            put_statement_as(
                writer,
                Value::Text(text),
                Value::Null,
                Value::Flag(*is_whole),
            )
        }
        Some(Statement::Id { id, is_whole }) => {
            put_statement_as(writer, Value::Null, Value::Hex(id), Value::Flag(*is_whole))
        }
        None => put_statement_as(writer, Value::Null, Value::Null, none_whole(is_given_up)),
    }
}

fn put_statement_as<P: Pen>(
    writer: &mut TextWriter<P>,
    text: Value<'_>,
    id: Value<'_>,
    is_whole: Value<'_>,
) -> Result<(), SinkFault>
    ensures { Writes writer.old (texts (statement_as (value_text text.entry) (value_text id.entry) (value_text is_whole.entry))) result writer.new }
{
    put_members(
        writer,
        &[
            Member(",\"statement\":", text),
            Member(",\"id\":", id),
            Member(",\"statement_is_whole\":", is_whole),
        ],
    )
}

fn put_response<P: Pen, A: Allocator>(
    writer: &mut TextWriter<P>,
    response: &Message<Kept<A>>,
) -> Result<(), SinkFault>
    ensures { Writes writer.old (response_members response.now) result writer.new }
{
    let reply = reply_of(&response.frame.header, response.kept.front());
    put_response_frame(writer, &response.frame)?;
    put_reply(writer, reply)?;
    put_error(
        writer,
        response.kept.is_text_dropped(),
        reply,
        response.kept.front(),
    )?;
    put_known(writer, response)
}

/// Takes the message of an ERROR, and what is behind it.
fn put_error<P: Pen>(
    writer: &mut TextWriter<P>,
    is_given_up: bool,
    reply: Reply,
    front: &[u8],
) -> Result<(), SinkFault>
    ensures { Writes writer.old (error_members is_given_up reply front.now) result writer.new }
{
    let message = message_of(reply, front);
    let details = error_details(reply, front);
    put_message(writer, is_given_up, &message)?;
    put_details(writer, &details)
}

/// Takes the message of an ERROR.
fn put_message<P: Pen>(
    writer: &mut TextWriter<P>,
    is_given_up: bool,
    message: &Option<Statement<'_>>,
) -> Result<(), SinkFault>
    ensures { Writes writer.old (texts (message_members is_given_up (option_map said_of message.now))) result writer.new }
{
    match message {
        Some(Statement::Text { text, is_whole }) => {
            put_message_as(writer, Value::Text(text), Value::Flag(*is_whole))
        }
        Some(Statement::Id { .. }) => {
            put_message_as(writer, Value::Null, none_whole(is_given_up))
        }
        None => put_no_message(writer, is_given_up),
    }
}

/// The same where there is none, in one go where that is known, as it mostly is.
fn put_no_message<P: Pen>(writer: &mut TextWriter<P>, is_given_up: bool) -> Result<(), SinkFault>
    ensures { Writes writer.old (texts (message_members is_given_up None)) result writer.new }
{
    if is_given_up {
        put_message_as(writer, Value::Null, Value::Flag(false))
    } else {
        writer.put(b",\"message\":null,\"message_is_whole\":null")
    }
}

fn put_message_as<P: Pen>(
    writer: &mut TextWriter<P>,
    text: Value<'_>,
    is_whole: Value<'_>,
) -> Result<(), SinkFault>
    ensures { Writes writer.old (texts (message_as (value_text text.entry) (value_text is_whole.entry))) result writer.new }
{
    put_members(
        writer,
        &[
            Member(",\"message\":", text),
            Member(",\"message_is_whole\":", is_whole),
        ],
    )
}

/// Takes what is known of a response beside that.
fn put_known<P: Pen, A: Allocator>(
    writer: &mut TextWriter<P>,
    response: &Message<Kept<A>>,
) -> Result<(), SinkFault>
    ensures { Writes writer.old (known_members response.now) result writer.new }
{
    let facts = response.kept.facts();
    let warnings = warnings_of(&response.frame.header, response.kept.announced());
    put_result(writer, &facts)?;
    put_warnings(writer, response.kept.is_text_dropped(), &warnings)?;
    put_tracing(writer, &facts)
}

/// Takes the warnings of a response.
fn put_warnings<P: Pen>(
    writer: &mut TextWriter<P>,
    is_given_up: bool,
    warnings: &Warnings<'_>,
) -> Result<(), SinkFault>
    ensures { Writes writer.old (warnings_members is_given_up (first_of (listed_of warnings.now))) result writer.new }
{
    match warnings.split_first() {
        Some((first, others)) => put_known_warnings(writer, &first, &others),
        None => put_no_warning(writer, is_given_up),
    }
}

fn put_known_warnings<P: Pen>(
    writer: &mut TextWriter<P>,
    first: &Warning<'_>,
    others: &Warnings<'_>,
) -> Result<(), SinkFault>
    ensures { Writes writer.old (warned_members (warned_of first.now) (listed_of others.now)) result writer.new }
{
    put_warning_as(writer, Value::Text(first.text), Value::Flag(first.is_whole))?;
    put_texts_members(writer, first, others)
}

/// The same where there is none, in one go where that is known, as it mostly is.
fn put_no_warning<P: Pen>(writer: &mut TextWriter<P>, is_given_up: bool) -> Result<(), SinkFault>
    ensures { Writes writer.old (warnings_members is_given_up None) result writer.new }
{
    if is_given_up {
        put_warning_as(writer, Value::Null, Value::Flag(false))
    } else {
        writer.put(b",\"warning\":null,\"warning_is_whole\":null")
    }
}

fn put_warning_as<P: Pen>(
    writer: &mut TextWriter<P>,
    text: Value<'_>,
    is_whole: Value<'_>,
) -> Result<(), SinkFault>
    ensures { Writes writer.old (texts (warning_as (value_text text.entry) (value_text is_whole.entry))) result writer.new }
{
    put_members(
        writer,
        &[
            Member(",\"warning\":", text),
            Member(",\"warning_is_whole\":", is_whole),
        ],
    )
}

fn put_tracing<P: Pen>(writer: &mut TextWriter<P>, facts: &Facts) -> Result<(), SinkFault>
    ensures { Writes writer.old (texts (tracing_members facts.now)) result writer.new }
{
    if facts.trace_id.is_none() {
        return writer.put(b",\"tracing_id\":null");
    }
    put_members(
        writer,
        &[Member(",\"tracing_id\":", uuid_or_null(facts.trace_id))],
    )
}

/// Takes what is known of a result, and how many warnings a response has.
fn put_result<P: Pen>(writer: &mut TextWriter<P>, facts: &Facts) -> Result<(), SinkFault>
    ensures { Writes writer.old (texts (result_members facts.now)) result writer.new }
{
    put_members(
        writer,
        &[
            Member(",\"rows\":", signed_or_null(facts.rows)),
            Member(",\"columns\":", signed_or_null(facts.columns)),
            Member(",\"has_more_pages\":", flag_or_null(facts.has_more_pages)),
            Member(",\"warnings\":", number_or_null(facts.warnings)),
        ],
    )
}

fn put_response_frame<P: Pen>(writer: &mut TextWriter<P>, frame: &Frame) -> Result<(), SinkFault>
    ensures { Writes writer.old (texts (response_frame_members frame.now)) result writer.new }
{
    put_members(
        writer,
        &[
            Member(
                ",\"response\":",
                Value::Name(opcode_name(frame.header.opcode)),
            ),
            Member(
                ",\"response_bytes\":",
                Value::Number(9 + frame.header.length as u64),
            ),
            Member(
                ",\"response_is_whole\":",
                Value::Flag(is_whole(frame.extent)),
            ),
            Member(
                ",\"response_is_compressed\":",
                Value::Flag(has(frame.header.flags, 0x01)),
            ),
        ],
    )
}

/// Takes what a response is.
fn put_reply<P: Pen>(writer: &mut TextWriter<P>, reply: Reply) -> Result<(), SinkFault>
    ensures { Writes writer.old (texts (reply_members reply)) result writer.new }
{
    match reply {
        Reply::Result(kind) => {
            put_reply_as(writer, name_or_code(kind_name(kind), kind), Value::Null)
        }
        Reply::Error(code) => {
            put_reply_as(writer, Value::Null, name_or_code(error_name(code), code))
        }
        Reply::Other(_) => put_reply_as(writer, Value::Null, Value::Null),
    }
}

fn put_reply_as<P: Pen>(
    writer: &mut TextWriter<P>,
    kind: Value<'_>,
    error: Value<'_>,
) -> Result<(), SinkFault>
    ensures { Writes writer.old (texts (reply_values (value_text kind.entry) (value_text error.entry))) result writer.new }
{
    put_members(
        writer,
        &[Member(",\"result\":", kind), Member(",\"error\":", error)],
    )
}
