//! The line of what is reported of a request, a response, or both.

ghost use Rattle.std.specs.Prelude.{◌≡◌, [], None, Some};
ghost use Rattle.cqlp_capture_exchanges.specs.Reports.{report_of};
ghost use Rattle.std.specs.Fmt.{signed_decimal};
ghost use Rattle.cqlp_text.specs.Written.{Writes};
ghost use Rattle.cqlp_capture_exchanges.specs.Lines.{begun_text, both_ends, ends_text};
ghost use Rattle.cqlp_capture_exchanges.specs.Lines.{compressed_mark, count_text, counts_text, cut_mark, end_text, error_text, frame_text};
ghost use Rattle.cqlp_capture_exchanges.specs.Lines.{given_up_mark, kind_text, line, more, name_or_number, next_mark, opening_text, page_counts_text};
ghost use Rattle.cqlp_capture_exchanges.specs.Lines.{page_text, pages_mark, paging_text, paired_line, place_text, tracing_text, unread_line, warnings_text};
ghost use Rattle.cqlp_capture_exchanges.specs.Warnings.{warnings_in};
ghost use Rattle.cqlp_capture_exchanges.specs.Lines.{reply_text, request_text, response_text, said_text, statement_text, took_text};
ghost use Rattle.cqlp_capture_exchanges.specs.Prepared.{known_of};
ghost use Rattle.cqlp_capture_exchanges.specs.Statements.{said_of};
ghost use Rattle.std.specs.Prelude.{option_map};
ghost use Rattle.cqlp_observer.specs.declared.opening.Opening.TheVariants.{OtherVersion};
ghost use Rattle.cqlp_observer.specs.declared.paired.Paired.TheVariants.{Exchange, Unanswered, Unasked, Event};
ghost use Rattle.cqlp_capture_exchanges.specs.declared.reply.Reply.TheVariants as reply_as;

use crate::bound::put_values_if;
use crate::connection::Connection;
use crate::details_line::put_numbers;
use crate::end::put_end;
use crate::error_details::error_details;
use crate::form::{LineStyle, ValuesShown};
use crate::level::put_consistency;
use crate::member::{Member, Value, put_members};
use crate::prepared::{Known, named};
use crate::reply::{Reply, error_name, kind_name, message_of, reply_of};
use crate::report::{ConnectionEnd, Report};
use crate::span::{Unit, is_whole, put_time, time_between, took};
use crate::statement::{Statement, has, statement_of, statements_of};
use crate::utc::put_utc;
use crate::warning::warnings_of;
use crate::warning_texts::{WarningForm, put_other_texts};
use cqlp_capture_summary::put_shown_text;
use cqlp_grammar::SinkFault;
use cqlp_note::{Header, Target};
use cqlp_observer::{Facts, Frame, Kept, Message, Opening, Paired};
use cqlp_tcp_connections::Ends;
use cqlp_text::{Buffered, Pen, TextWriter, opcode_name};
use std::alloc::Allocator;

/// Takes the line of a report of this connection in this style, in a capture whose first packet came at this time, and passes it on.
pub(crate) fn put_line<W: Target, A: Allocator, B: Allocator>(
    writer: &mut TextWriter<Buffered<W, A>>,
    known: &Known<B>,
    style: LineStyle,
    first: Option<u64>,
    connection: &Connection,
    report: &Report<'_, B>,
) -> Result<(), SinkFault>
    ensures line { Writes writer.old (line known.now style first connection.now (report_of report.now)) result writer.new }
    ensures passed { writer.new.waiting ≡ [] }
{
    put_report(writer, known, style, first, connection, report)?;
    writer.pass_on()
}

/// Takes the line of a report.
fn put_report<P: Pen, A: Allocator>(
    writer: &mut TextWriter<P>,
    known: &Known<A>,
    style: LineStyle,
    first: Option<u64>,
    connection: &Connection,
    report: &Report<'_, A>,
) -> Result<(), SinkFault>
    ensures { Writes writer.old (line known.now style first connection.now (report_of report.now)) result writer.new }
{
    match report {
        Report::Messages { paired, end } => put_paired(
            writer, known, style, first, connection, *end, paired,
        ),
        Report::Unread { time, opening } => put_unread(
            writer, style, first, connection, *time, *opening,
        ),
    }
}

/// Takes the line of messages, whose connection ended so where that is why they are reported.
fn put_paired<P: Pen, A: Allocator>(
    writer: &mut TextWriter<P>,
    known: &Known<A>,
    style: LineStyle,
    first: Option<u64>,
    connection: &Connection,
    end: Option<ConnectionEnd>,
    exchange: &Paired<Kept<A>>,
) -> Result<(), SinkFault>
    ensures { Writes writer.old (paired_line known.now style first connection.now end exchange.now) result writer.new }
{
    match exchange {
        Paired::Exchange { request, response } => {
            put_exchange(writer, known, style, first, connection, request, response)
        }
        Paired::Unanswered { request } => {
            put_unanswered(writer, known, style, first, connection, end, request)
        }
        Paired::Unasked { response } => put_unasked(writer, style, first, connection, response),
        Paired::Event { event } => put_event(writer, style, first, connection, event),
    }
}

fn put_exchange<P: Pen, A: Allocator>(
    writer: &mut TextWriter<P>,
    known: &Known<A>,
    style: LineStyle,
    first: Option<u64>,
    connection: &Connection,
    request: &Message<Kept<A>>,
    response: &Message<Kept<A>>,
) -> Result<(), SinkFault>
    ensures { Writes writer.old (paired_line known.now style first connection.now None (Exchange request.now response.now)) result writer.new }
{
    put_place(writer, style, first, connection, &request.frame)?;
    put_request(writer, known, style.values, request)?;
    writer.put(b" -> ")?;
    put_response(writer, response)?;
    put_took(writer, &request.frame, &response.frame)
}

fn put_unanswered<P: Pen, A: Allocator>(
    writer: &mut TextWriter<P>,
    known: &Known<A>,
    style: LineStyle,
    first: Option<u64>,
    connection: &Connection,
    end: Option<ConnectionEnd>,
    request: &Message<Kept<A>>,
) -> Result<(), SinkFault>
    ensures { Writes writer.old (paired_line known.now style first connection.now end (Unanswered request.now)) result writer.new }
{
    put_place(writer, style, first, connection, &request.frame)?;
    put_request(writer, known, style.values, request)?;
    writer.put(b" -> nothing")?;
    writer.put_str(end_text(end))?;
    writer.put(b"\n")
}

/// How the connection of a request without a response ended, after a space.
fn end_text(end: Option<ConnectionEnd>) -> &'static str
    ensures { result.now ≡ end_text end }
{
    match end {
        None => "",
        Some(ConnectionEnd::Reset) => " (reset)",
        Some(ConnectionEnd::Closed) => " (closed)",
        Some(ConnectionEnd::Open) => " (open)",
    }
}

fn put_unasked<P: Pen, A: Allocator>(
    writer: &mut TextWriter<P>,
    style: LineStyle,
    first: Option<u64>,
    connection: &Connection,
    response: &Message<Kept<A>>,
) -> Result<(), SinkFault>
    ensures { Writes writer.old (paired_line (known_of [] []) style first connection.now None (Unasked response.now)) result writer.new }
{
    put_place(writer, style, first, connection, &response.frame)?;
    writer.put(b"nothing -> ")?;
    put_response(writer, response)?;
    writer.put(b"\n")
}

fn put_event<P: Pen, A: Allocator>(
    writer: &mut TextWriter<P>,
    style: LineStyle,
    first: Option<u64>,
    connection: &Connection,
    event: &Message<Kept<A>>,
) -> Result<(), SinkFault>
    ensures { Writes writer.old (paired_line (known_of [] []) style first connection.now None (Event event.now)) result writer.new }
{
    put_place(writer, style, first, connection, &event.frame)?;
    put_response(writer, event)?;
    writer.put(b"\n")
}

/// Takes the line of a connection that begins with no frames of version 4.
fn put_unread<P: Pen>(
    writer: &mut TextWriter<P>,
    style: LineStyle,
    first: Option<u64>,
    connection: &Connection,
    time: Option<u64>,
    opening: Opening,
) -> Result<(), SinkFault>
    ensures { Writes writer.old (unread_line style first connection.now time opening) result writer.new }
{
    put_begun(writer, style.is_utc, first, time)?;
    writer.put(b" ")?;
    writer.put_number(connection.number)?;
    put_ends(writer, style.has_ends, &connection.ends)?;
    writer.put(b" unread ")?;
    put_opening(writer, opening)?;
    writer.put(b"\n")
}

/// Takes what is not read, and what would help.
fn put_opening<P: Pen>(writer: &mut TextWriter<P>, opening: Opening) -> Result<(), SinkFault>
    ensures { Writes writer.old (opening_text opening) result writer.new }
{
    match opening {
        Opening::Frames => writer.put(b""),
        Opening::OtherVersion(version) => put_other_version(writer, version),
        Opening::Tls => writer.put(b"TLS: connect without it"),
        Opening::Http => writer.put(b"HTTP: this is not the port of a node"),
    }
}

fn put_other_version<P: Pen>(writer: &mut TextWriter<P>, version: u8) -> Result<(), SinkFault>
    ensures { Writes writer.old (opening_text (OtherVersion version)) result writer.new }
{
    writer.put(b"version ")?;
    writer.put_number(u64::from(version))?;
    writer.put(b": set the driver's protocol version to 4")
}

/// Takes when a frame began, and where.
fn put_place<P: Pen>(
    writer: &mut TextWriter<P>,
    style: LineStyle,
    first: Option<u64>,
    connection: &Connection,
    frame: &Frame,
) -> Result<(), SinkFault>
    ensures { Writes writer.old (place_text style first connection.now frame.now) result writer.new }
{
    put_begun(writer, style.is_utc, first, frame.begun)?;
    writer.put(b" ")?;
    writer.put_number(connection.number)?;
    writer.put(b":")?;
    put_stream(writer, &frame.header)?;
    put_ends(writer, style.has_ends, &connection.ends)?;
    writer.put(b" ")
}

/// Takes when something began, in a capture whose first packet came at this time.
fn put_begun<P: Pen>(
    writer: &mut TextWriter<P>,
    is_utc: bool,
    first: Option<u64>,
    time: Option<u64>,
) -> Result<(), SinkFault>
    ensures { Writes writer.old (begun_text is_utc first time) result writer.new }
{
    if is_utc {
        put_utc(writer, time)
    } else {
        put_time(writer, Unit::Second, time_between(first, time))
    }
}

/// Takes the ends of a connection, where lines have them.
#[tactic(auto, using(crate::proofs::Texts::nothing_taken))]
fn put_ends<P: Pen>(
    writer: &mut TextWriter<P>,
    has_ends: bool,
    ends: &Ends,
) -> Result<(), SinkFault>
    ensures { Writes writer.old (ends_text has_ends ends.now) result writer.new }
{
    if has_ends {
        put_both_ends(writer, ends)
    } else {
        Ok(())
    }
}

fn put_both_ends<P: Pen>(writer: &mut TextWriter<P>, ends: &Ends) -> Result<(), SinkFault>
    ensures { Writes writer.old (both_ends ends.now) result writer.new }
{
    writer.put(b" ")?;
    put_end(writer, ends.client)?;
    writer.put(b" ")?;
    put_end(writer, ends.node)
}

/// Takes a stream id.
fn put_stream<P: Pen>(writer: &mut TextWriter<P>, header: &Header) -> Result<(), SinkFault>
    ensures { Writes writer.old (signed_decimal header.now.stream) result writer.new }
{
    writer.put_signed(i64::from(header.stream))
}

/// Takes how long a response took.
fn put_took<P: Pen>(
    writer: &mut TextWriter<P>,
    request: &Frame,
    response: &Frame,
) -> Result<(), SinkFault>
    ensures { Writes writer.old (took_text request.now response.now) result writer.new }
{
    let took = took(request, response);
    writer.put(b" ")?;
    put_time(writer, Unit::Millisecond, took)?;
    writer.put(b" ms\n")
}

fn put_request<P: Pen, A: Allocator>(
    writer: &mut TextWriter<P>,
    known: &Known<A>,
    shown: ValuesShown,
    request: &Message<Kept<A>>,
) -> Result<(), SinkFault>
    ensures { Writes writer.old (request_text known.now shown request.now) result writer.new }
{
    let front = request.kept.front();
    let count = statements_of(&request.frame.header, front);
    let statement = named(known, statement_of(&request.frame.header, front));
    let facts = request.kept.facts();
    writer.put_str(opcode_name(request.frame.header.opcode))?;
    put_consistency(writer, facts.consistency)?;
    put_count(writer, count)?;
    put_statement(writer, &statement)?;
    writer.put_str(given_up_mark(request.kept.is_text_dropped()))?;
    put_values_if(writer, known, shown, request)?;
    put_paging(writer, &facts)?;
    put_frame(writer, &request.frame)
}

fn put_response<P: Pen, A: Allocator>(
    writer: &mut TextWriter<P>,
    response: &Message<Kept<A>>,
) -> Result<(), SinkFault>
    ensures { Writes writer.old (response_text response.now) result writer.new }
{
    let reply = reply_of(&response.frame.header, response.kept.front());
    let facts = response.kept.facts();
    put_reply(writer, reply)?;
    put_page_counts(writer, &facts)?;
    put_message(writer, reply, response.kept.front())?;
    writer.put_str(given_up_mark(response.kept.is_text_dropped()))?;
    put_warnings(
        writer,
        facts.warnings,
        &response.frame.header,
        response.kept.announced(),
    )?;
    put_tracing(writer, facts.trace_id)?;
    put_frame(writer, &response.frame)
}

/// Takes how many statements a BATCH has.
fn put_count<P: Pen>(writer: &mut TextWriter<P>, count: Option<u16>) -> Result<(), SinkFault>
    ensures { Writes writer.old (count_text count) result writer.new }
{
    match count {
        Some(count) => put_known_count(writer, count),
        None => writer.put(b""),
    }
}

fn put_known_count<P: Pen>(writer: &mut TextWriter<P>, count: u16) -> Result<(), SinkFault>
    ensures { Writes writer.old (count_text (Some count)) result writer.new }
{
    writer.put(b" ")?;
    writer.put_number(u64::from(count))
}

/// Takes how many rows a page is to have, and whether it is one after the first.
fn put_paging<P: Pen>(writer: &mut TextWriter<P>, facts: &Facts) -> Result<(), SinkFault>
    ensures { Writes writer.old (paging_text facts.now) result writer.new }
{
    put_page_size(writer, facts.page_size)?;
    writer.put_str(next_mark(facts.has_paging_state))
}

fn next_mark(has_paging_state: Option<bool>) -> &'static str
    ensures { result.now ≡ next_mark has_paging_state }
{
    match has_paging_state {
        Some(true) => " next",
        Some(false) => "",
        None => "",
    }
}

/// Takes how many rows a page is to have.
fn put_page_size<P: Pen>(writer: &mut TextWriter<P>, size: Option<i32>) -> Result<(), SinkFault>
    ensures { Writes writer.old (page_text size) result writer.new }
{
    match size {
        Some(size) => put_members(writer, &[Member(" page ", Value::Signed(size))]),
        None => writer.put(b""),
    }
}

/// Takes how many rows and columns a result has, and whether more pages follow.
fn put_page_counts<P: Pen>(writer: &mut TextWriter<P>, facts: &Facts) -> Result<(), SinkFault>
    ensures { Writes writer.old (page_counts_text facts.now) result writer.new }
{
    put_counts(writer, facts.rows, facts.columns)?;
    writer.put_str(pages_mark(facts.has_more_pages))
}

fn pages_mark(has_more_pages: Option<bool>) -> &'static str
    ensures { result.now ≡ pages_mark has_more_pages }
{
    match has_more_pages {
        Some(true) => " more",
        Some(false) => "",
        None => "",
    }
}

/// Takes how many rows and columns a result has.
fn put_counts<P: Pen>(
    writer: &mut TextWriter<P>,
    rows: Option<i32>,
    columns: Option<i32>,
) -> Result<(), SinkFault>
    ensures { Writes writer.old (counts_text rows columns) result writer.new }
{
    match (rows, columns) {
        (Some(rows), Some(columns)) => put_members(
            writer,
            &[
                Member(" ", Value::Signed(rows)),
                Member("x", Value::Signed(columns)),
            ],
        ),
        _ => writer.put(b""),
    }
}

/// Takes the message of an ERROR, and how many nodes it counts.
fn put_message<P: Pen>(
    writer: &mut TextWriter<P>,
    reply: Reply,
    front: &[u8],
) -> Result<(), SinkFault>
    ensures { Writes writer.old (error_text reply front.now) result writer.new }
{
    match reply {
        Reply::Error(code) => put_error_message(writer, code, front),
        Reply::Result(_) => writer.put(b""),
        Reply::Other(_) => writer.put(b""),
    }
}

fn put_error_message<P: Pen>(
    writer: &mut TextWriter<P>,
    code: u32,
    front: &[u8],
) -> Result<(), SinkFault>
    ensures { Writes writer.old (error_text (reply_as.Error code) front.now) result writer.new }
{
    let reply = Reply::Error(code);
    let message = message_of(reply, front);
    let details = error_details(reply, front);
    put_statement(writer, &message)?;
    put_numbers(writer, &details)
}

/// Takes how many warnings a response has, and their texts.
fn put_warnings<P: Pen>(
    writer: &mut TextWriter<P>,
    count: Option<u16>,
    header: &Header,
    announced: &[u8],
) -> Result<(), SinkFault>
    ensures { Writes writer.old (warnings_text count (warnings_in header.now announced.now)) result writer.new }
{
    match count {
        Some(count) => put_known_warnings(writer, count, header, announced),
        None => writer.put(b""),
    }
}

fn put_known_warnings<P: Pen>(
    writer: &mut TextWriter<P>,
    count: u16,
    header: &Header,
    announced: &[u8],
) -> Result<(), SinkFault>
    ensures { Writes writer.old (warnings_text (Some count) (warnings_in header.now announced.now)) result writer.new }
{
    let warnings = warnings_of(header, announced);
    writer.put(b" warnings ")?;
    writer.put_number(u64::from(count))?;
    put_other_texts(writer, WarningForm::Line, &warnings)
}

/// Takes the tracing id of a response.
fn put_tracing<P: Pen>(writer: &mut TextWriter<P>, id: Option<[u8; 16]>) -> Result<(), SinkFault>
    ensures { Writes writer.old (tracing_text id) result writer.new }
{
    match id {
        Some(id) => put_trace_id(writer, id),
        None => writer.put(b""),
    }
}

fn put_trace_id<P: Pen>(writer: &mut TextWriter<P>, id: [u8; 16]) -> Result<(), SinkFault>
    ensures { Writes writer.old (tracing_text (Some id)) result writer.new }
{
    writer.put(b" tracing ")?;
    writer.put_uuid(id)
}

/// Takes how many bytes a frame has, and what is missing of it.
fn put_frame<P: Pen>(writer: &mut TextWriter<P>, frame: &Frame) -> Result<(), SinkFault>
    ensures { Writes writer.old (frame_text frame.now) result writer.new }
{
    writer.put(b" ")?;
    writer.put_number(9 + frame.header.length as u64)?;
    writer.put_str(cut_mark(is_whole(frame.extent)))?;
    writer.put_str(compressed_mark(has(frame.header.flags, 0x01)))
}

fn cut_mark(is_whole: bool) -> &'static str
    ensures { result.now ≡ cut_mark is_whole }
{
    if is_whole { "" } else { " cut" }
}

fn compressed_mark(is_compressed: bool) -> &'static str
    ensures { result.now ≡ compressed_mark is_compressed }
{
    if is_compressed { " compressed" } else { "" }
}

/// Takes what a request asks to be done, after a space.
fn put_statement<P: Pen>(
    writer: &mut TextWriter<P>,
    statement: &Option<Statement<'_>>,
) -> Result<(), SinkFault>
    ensures { Writes writer.old (statement_text (option_map said_of statement.now)) result writer.new }
{
    match statement {
        Some(said) => put_said(writer, said),
        None => writer.put(b""),
    }
}

fn put_said<P: Pen>(writer: &mut TextWriter<P>, statement: &Statement<'_>) -> Result<(), SinkFault>
    ensures { Writes writer.old (said_text (said_of statement.now)) result writer.new }
{
    match statement {
        Statement::Text { text, is_whole } => put_text(writer, text, *is_whole),
        Statement::Id { id, is_whole } => put_id(writer, id, *is_whole),
    }
}

ghost use Rattle.cqlp_capture_exchanges.specs.Statements.{Text, Id};

fn put_text<P: Pen>(writer: &mut TextWriter<P>, text: &str, is_whole: bool) -> Result<(), SinkFault>
    ensures { Writes writer.old (said_text (Text text.now is_whole)) result writer.new }
{
    writer.put(b" \"")?;
    put_shown_text(writer, text)?;
    writer.put(b"\"")?;
    writer.put_str(more(is_whole))
}

pub(crate) fn put_id<P: Pen>(
    writer: &mut TextWriter<P>,
    id: &[u8],
    is_whole: bool,
) -> Result<(), SinkFault>
    ensures { Writes writer.old (said_text (Id id.now is_whole)) result writer.new }
{
    writer.put(b" ")?;
    writer.put_hex(id)?;
    writer.put_str(more(is_whole))
}

/// What is in place of a text that was given up.
fn given_up_mark(is_given_up: bool) -> &'static str
    ensures { result.now ≡ given_up_mark is_given_up }
{
    if is_given_up { " .." } else { "" }
}

/// What comes behind a text that is not whole.
fn more(is_whole: bool) -> &'static str
    ensures { result.now ≡ more is_whole }
{
    if is_whole { "" } else { ".." }
}

/// Takes what a response is.
fn put_reply<P: Pen>(writer: &mut TextWriter<P>, reply: Reply) -> Result<(), SinkFault>
    ensures { Writes writer.old (reply_text reply) result writer.new }
{
    match reply {
        Reply::Result(kind) => put_kind(writer, kind_name(kind), kind),
        Reply::Error(code) => put_error(writer, code),
        Reply::Other(opcode) => writer.put_str(opcode_name(opcode)),
    }
}

fn put_error<P: Pen>(writer: &mut TextWriter<P>, code: u32) -> Result<(), SinkFault>
    ensures { Writes writer.old (reply_text (reply_as.Error code)) result writer.new }
{
    writer.put(b"ERROR ")?;
    put_name(writer, error_name(code), code)
}

/// Takes the name of a kind, or where it has none the number's four bytes.
fn put_kind<P: Pen>(
    writer: &mut TextWriter<P>,
    name: Option<&'static str>,
    kind: u32,
) -> Result<(), SinkFault>
    ensures { Writes writer.old (kind_text (option_map (λ s. s.now) name.entry) kind) result writer.new }
{
    match name {
        Some(name) => writer.put_str(name),
        None => put_unknown_kind(writer, kind),
    }
}

fn put_unknown_kind<P: Pen>(writer: &mut TextWriter<P>, kind: u32) -> Result<(), SinkFault>
    ensures { Writes writer.old (kind_text None kind) result writer.new }
{
    writer.put(b"RESULT ")?;
    writer.put_hex_text(&kind.to_be_bytes())
}

/// Takes a name, or where there is none the number's four bytes.
pub(crate) fn put_name<P: Pen>(
    writer: &mut TextWriter<P>,
    name: Option<&'static str>,
    number: u32,
) -> Result<(), SinkFault>
    ensures { Writes writer.old (name_or_number (option_map (λ s. s.now) name.entry) number) result writer.new }
{
    match name {
        Some(name) => writer.put_str(name),
        None => writer.put_hex_text(&number.to_be_bytes()),
    }
}
