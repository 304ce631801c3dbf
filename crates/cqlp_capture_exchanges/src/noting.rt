//! Requests with what came of them, counted in a summary.

ghost use Rattle.std.specs.Prelude.{◌≡◌, ◌&&◌, length, nat_le, option_map};
ghost use Rattle.cqlp_capture_summary.specs.Summaries.{noted_request};
ghost use Rattle.cqlp_capture_exchanges.specs.Reports.{report_of};
ghost use Rattle.cqlp_capture_exchanges.specs.Forms.{noted_in};
ghost use Rattle.cqlp_capture_exchanges.specs.Notings.{answered_by, id_request, is_batch, nanoseconds_in, noted_as, opcode_request, request_as};
ghost use Rattle.cqlp_capture_exchanges.specs.Notings.{rows_in, table_of, text_request, unanswered, with_attribute, with_paired};
ghost use Rattle.cqlp_capture_exchanges.specs.Notings.{with_report, with_request, with_request_by, with_table};
ghost use Rattle.cqlp_capture_exchanges.specs.Statements.{said_of};

use crate::attribute::{append_attribute, append_id};
use crate::batch_name::{MOST, batch_name};
use crate::connection::Connection;
use crate::csv_record::note_record;
use crate::filter::is_failure;
use crate::form::ExchangeForm;
use crate::histogram::note_by_time;
use crate::intervals::note_in_interval;
use crate::label::Label;
use crate::naming::Naming;
use crate::outcome::Outcome;
use crate::prepared::{Known, named};
use crate::reply::reply_of;
use crate::report::Report;
use crate::span::{Span, took};
use crate::statement::{Statement, statement_of};
use crate::summary_by::{Attribute, SummaryBy};
use crate::table_name::table_name;
use cqlp_capture_summary::{Occurrence, Summary};
use cqlp_note::Opcode;
use cqlp_observer::{Kept, Message, Paired};
use cqlp_text::opcode_name;
use std::alloc::Allocator;

/// Counts what is reported, where a summary is the form.
pub(crate) fn note<A: Allocator, B: Allocator>(
    summary: &mut Summary<A>,
    form: ExchangeForm,
    known: &Known<B>,
    connection: &Connection,
    report: &Report<'_, B>,
)
    ensures { summary.new ≡ noted_in form known.now connection.now (report_of report.now) summary.old }
{
    match form {
        ExchangeForm::Lines(_) => {}
        ExchangeForm::Json(_) => {}
        ExchangeForm::Csv => note_record(summary),
        ExchangeForm::Summary(by) => note_report(summary, by, known, connection, report),
        ExchangeForm::SummaryJson(by) => note_report(summary, by, known, connection, report),
        ExchangeForm::Intervals(seconds, _) => note_in_interval(summary, seconds, report),
        ExchangeForm::Histogram => note_by_time(summary, report),
    }
}

/// Counts a request with what came of it.
fn note_report<A: Allocator, B: Allocator>(
    summary: &mut Summary<A>,
    by: SummaryBy,
    known: &Known<B>,
    connection: &Connection,
    report: &Report<'_, B>,
)
    ensures { summary.new ≡ with_report by known.now connection.now (report_of report.now) summary.old }
{
    match report {
        Report::Messages { paired, .. } => note_paired(summary, by, known, connection, paired),
        Report::Unread { .. } => {}
    }
}

fn note_paired<A: Allocator, B: Allocator>(
    summary: &mut Summary<A>,
    by: SummaryBy,
    known: &Known<B>,
    connection: &Connection,
    paired: &Paired<Kept<B>>,
)
    ensures { summary.new ≡ with_paired by known.now connection.now paired.now summary.old }
{
    match paired {
        Paired::Exchange { request, response } => {
            let outcome = answered_by(request, response);
            note_by(summary, by, known, connection, request, &outcome);
        }
        Paired::Unanswered { request } => {
            let outcome = unanswered(request);
            note_by(summary, by, known, connection, request, &outcome);
        }
        Paired::Unasked { .. } | Paired::Event { .. } => {}
    }
}

pub(crate) fn answered_by<B: Allocator>(
    request: &Message<Kept<B>>,
    response: &Message<Kept<B>>,
) -> Outcome
    ensures { result ≡ answered_by request.now response.now }
{
    Outcome {
        is_answered: true,
        reply: Some(reply_of(&response.frame.header, response.kept.front())),
        is_error: is_failure(&response.frame),
        rows: rows_in(response.kept.facts().rows),
        bytes: (9 + request.frame.header.length as u64) + (9 + response.frame.header.length as u64),
        took: nanoseconds_in(took(&request.frame, &response.frame)),
        at: request.frame.begun,
    }
}

pub(crate) fn unanswered<B: Allocator>(request: &Message<Kept<B>>) -> Outcome
    ensures { result ≡ unanswered request.now }
{
    Outcome {
        is_answered: false,
        reply: None,
        is_error: false,
        rows: 0,
        bytes: 9 + request.frame.header.length as u64,
        took: None,
        at: request.frame.begun,
    }
}

/// Counts a request on this connection by what is asked for.
fn note_by<A: Allocator, B: Allocator>(
    summary: &mut Summary<A>,
    by: SummaryBy,
    known: &Known<B>,
    connection: &Connection,
    request: &Message<Kept<B>>,
    outcome: &Outcome,
)
    ensures { summary.new ≡ with_request_by by known.now connection.now request.now outcome.now summary.old }
{
    match by {
        SummaryBy::Statement(naming) => note_request(summary, naming, known, request, outcome),
        SummaryBy::Table => note_table(summary, known, request, outcome),
        SummaryBy::Attribute(attribute) => {
            note_attribute(summary, attribute, connection, request, outcome);
        }
    }
}

/// Counts a request under the table that its statement names, or under its opcode.
fn note_table<A: Allocator, B: Allocator>(
    summary: &mut Summary<A>,
    known: &Known<B>,
    request: &Message<Kept<B>>,
    outcome: &Outcome,
)
    ensures { summary.new ≡ with_table known.now request.now outcome.now summary.old }
{
    let own = statement_of(&request.frame.header, request.kept.front());
    match table_of(named(known, own)) {
        Some(name) => note_as(summary, Naming::Literal, name.as_slice(), true, outcome),
        None => note_opcode(summary, Naming::Literal, request, outcome),
    }
}

/// The table that a statement names, if its text is known.
fn table_of(statement: Option<Statement<'_>>) -> Option<Label>
    ensures { option_map (λ l. l.text) result ≡ table_of (option_map said_of statement.entry) }
{
    match statement {
        Some(Statement::Text { text, is_whole }) => table_name(text.as_bytes(), is_whole),
        _ => None,
    }
}

/// Counts a request under an attribute of it.
fn note_attribute<A: Allocator, B: Allocator>(
    summary: &mut Summary<A>,
    attribute: Attribute,
    connection: &Connection,
    request: &Message<Kept<B>>,
    outcome: &Outcome,
)
    ensures { summary.new ≡ with_attribute attribute connection.now request.now outcome.now summary.old }
{
    let mut label = Label::new();
    let appended = append_attribute(attribute, connection, request, outcome, &mut label);
    note_as(
        summary,
        Naming::Literal,
        label.as_slice(),
        appended.is_ok(),
        outcome,
    );
}

/// Counts a request under its statement.
fn note_request<A: Allocator, B: Allocator>(
    summary: &mut Summary<A>,
    naming: Naming,
    known: &Known<B>,
    request: &Message<Kept<B>>,
    outcome: &Outcome,
)
    ensures { summary.new ≡ with_request naming known.now request.now outcome.now summary.old }
{
    let own = statement_of(&request.frame.header, request.kept.front());
    match named(known, own) {
        Some(Statement::Text { text, is_whole }) => {
            note_text(summary, naming, text, is_whole, request, outcome);
        }
        Some(Statement::Id { id, is_whole }) => note_id(summary, id, is_whole, request, outcome),
        None => note_opcode(summary, naming, request, outcome),
    }
}

/// Counts a request under the text of its statement, after a word where it is the first one of a BATCH.
fn note_text<A: Allocator, B: Allocator>(
    summary: &mut Summary<A>,
    naming: Naming,
    text: &str,
    is_whole: bool,
    request: &Message<Kept<B>>,
    outcome: &Outcome,
)
    ensures { summary.new ≡ noted_as naming (text_request text.now is_whole request.now outcome.now) summary.old }
{
    if is_batch(request.frame.header.opcode) {
        let name = batch_name(text.as_bytes());
        note_as(
            summary,
            naming,
            name.as_slice(),
            has_all(text, is_whole),
            outcome,
        );
    } else {
        note_as(summary, naming, text.as_bytes(), is_whole, outcome);
    }
}

/// Whether the name of a BATCH has all of its first statement's text.
fn has_all(text: &str, is_whole: bool) -> bool
    ensures { result ≡ (is_whole && nat_le (length text.now) 250) }
{
    is_whole && text.len() <= MOST
}

/// Counts a request under its opcode and the id of its statement, whose text is not known.
fn note_id<A: Allocator, B: Allocator>(
    summary: &mut Summary<A>,
    id: &[u8],
    is_whole: bool,
    request: &Message<Kept<B>>,
    outcome: &Outcome,
)
    ensures { summary.new ≡ noted_request (id_request id.now is_whole request.now outcome.now) summary.old }
{
    let mut label = Label::new();
    let appended = append_id(request.frame.header.opcode, id, is_whole, &mut label);
    note_as(
        summary,
        Naming::Literal,
        label.as_slice(),
        appended.is_ok(),
        outcome,
    );
}

/// Counts a request under its opcode, where its statement is not known.
fn note_opcode<A: Allocator, B: Allocator>(
    summary: &mut Summary<A>,
    naming: Naming,
    request: &Message<Kept<B>>,
    outcome: &Outcome,
)
    ensures { summary.new ≡ noted_as naming (opcode_request request.now outcome.now) summary.old }
{
    let name = opcode_name(request.frame.header.opcode);
    note_as(summary, naming, name.as_bytes(), true, outcome);
}

/// Counts a request under a name.
fn note_as<A: Allocator>(
    summary: &mut Summary<A>,
    naming: Naming,
    name: &[u8],
    is_whole_name: bool,
    outcome: &Outcome,
)
    ensures { summary.new ≡ noted_as naming (request_as name.now is_whole_name outcome.now) summary.old }
{
    let occurrence = Occurrence {
        name,
        is_whole_name,
        is_error: outcome.is_error,
        rows: outcome.rows,
        bytes: outcome.bytes,
        took: outcome.took,
    };
    match naming {
        Naming::Fingerprint => {
            summary.note_by_fingerprint(&occurrence, outcome.is_answered, outcome.at);
        }
        Naming::Literal => summary.note_request(&occurrence, outcome.is_answered, outcome.at),
    }
}

fn is_batch(opcode: Opcode) -> bool
    ensures { result ≡ is_batch opcode }
{
    opcode == Opcode::Batch
}

/// Rows, where it is known that there are some.
fn rows_in(rows: Option<i32>) -> u64
    ensures { result ≡ rows_in rows }
{
    match rows {
        Some(rows) if rows > 0 => u64::from(rows.unsigned_abs()),
        _ => 0,
    }
}

/// How long something took, where the clock did not go back.
fn nanoseconds_in(time: Option<Span>) -> Option<u64>
    ensures { result ≡ nanoseconds_in time }
{
    match time {
        Some(span) if !span.is_before => Some(span.nanoseconds),
        _ => None,
    }
}
