//! What is reported of connections, on its way to an output.

ghost use Rattle.std.specs.Prelude.{◌≡◌, [], ◌∷◌, IsSome};
ghost use Rattle.cqlp_text.specs.Written.{Writes};
ghost use Rattle.cqlp_capture_summary.specs.Lines.{summary_text};
ghost use Rattle.cqlp_capture_exchanges.specs.SummaryObjects.{summary_objects};
ghost use Rattle.cqlp_capture_exchanges.specs.Forms.{ending_of, text_of};
ghost use Rattle.cqlp_text.specs.Outputs.{written};
ghost use Rattle.cqlp_capture_exchanges.specs.Reports.{report_of};

use crate::connection::Connection;
use crate::csv_record::{put_csv, put_names};
use crate::filter::ExchangeFilter;
use crate::form::ExchangeForm;
use crate::histogram::put_histogram;
use crate::intervals::{put_if_over, put_interval};
use crate::lines::put_line;
use crate::noting::note;
use crate::object::put_json_line;
use crate::prepared::Known;
use crate::report::{ConnectionEnd, Report, is_unread};
use crate::summary_objects::put_summary_objects;
use crate::sums::ExchangeSums;
use cqlp_capture_streams::StreamsFault;
use cqlp_capture_summary::Summary;
use cqlp_grammar::SinkFault;
use cqlp_note::Target;
use cqlp_observer::{Kept, Opening, Paired};
use cqlp_text::{Buffered, TextWriter};
use std::alloc::{Allocator, Global};
use std::marker::Model;

/// Counts what is reported of connections, and writes what is shown. Takes no memory.
#[derive(Drop)]
pub(crate) struct Reporter<O: Target, A: Allocator = Global> {
    filter: ExchangeFilter,
    form: ExchangeForm,
    /// When the first packet with a segment was captured of which that is known.
    first: Option<u64>,
    known: Known<A>,
    summary: Summary<A>,
    sums: ExchangeSums,
    writer: TextWriter<Buffered<O, A>>,
}

impl<O: Target, A: Allocator> Model for Reporter<O, A> {
    ghost use Rattle.std.specs.Prelude.{◌≡◌, []};
    ghost use Rattle.cqlp_text.specs.Outputs.{output};
    ghost use Rattle.cqlp_capture_exchanges.specs.Accounts.{Account, account};

    ghost Value = { Account };

    ghost view = { λ t. account t.filter t.form t.first t.known t.summary t.sums (output t.writer.given t.writer.failures) };

    ghost invariant = { λ t. t.writer.waiting ≡ [] };
}

impl<O: Target, A: Allocator> Reporter<O, A> {
    ghost use Rattle.std.specs.Prelude.{◌≤◌, vec_len};
    ghost use Rattle.cqlp_capture_exchanges.specs.Accounts.{Finishes, ReportsOne, ReportedAll, account, no_sums, since};
    ghost use Rattle.cqlp_capture_exchanges.specs.Reports.{Unread, messages, unread};

    /// Of an output, with nothing reported. A line waits in the buffer until it is whole, as far as there is room for it.
    pub(crate) fn new(
        filter: ExchangeFilter,
        form: ExchangeForm,
        out: O,
        buffer: Vec<u8, A>,
        known: Known<A>,
        summary: Summary<A>,
    ) -> Self
        requires { 128 ≤ vec_len buffer }
        ensures { result ≡ account filter form None known summary no_sums (written O.Target out) }
    {
        Reporter {
            filter,
            form,
            first: None,
            known,
            summary,
            sums: ExchangeSums::none(),
            writer: TextWriter::new(Buffered::new(out, buffer)),
        }
    }

    /// The output and the sums.
    pub(crate) fn into_parts(self) -> (O, ExchangeSums)
        ensures output { written O.Target result.0 ≡ self.output }
        ensures sums { result.1 ≡ self.sums }
    {
        let Reporter {
            filter: _,
            form: _,
            first: _,
            known: _,
            summary: _,
            sums,
            writer,
        } = self;
        (writer.into_inner().into_inner(), sums)
    }

    /// Notes when a packet was captured, if it is the first of which that is known.
    pub(crate) fn note_time(&mut self, time: Option<u64>)
        ensures { self.new ≡ since time self.old }
    {
        self.first = self.first.or(time);
    }

    /// Takes a report of this connection.
    #[tactic(auto, using(crate::proofs::Accounts::reported_shown))]
    fn take_report(
        &mut self,
        connection: &Connection,
        report: &Report<'_, A>,
    ) -> Result<(), SinkFault>
        ensures { IsSome self.old.output.given → ReportsOne connection.now (report_of report.now) self.old result self.new }
    {
        self.sums.count(report);
        if self
            .filter
            .shows(&self.known, self.first, connection, report)
        {
            let answer = put_report(
                &mut self.writer,
                self.form,
                &self.known,
                self.first,
                &self.summary,
                connection,
                report,
            );
            note(
                &mut self.summary,
                self.form,
                &self.known,
                connection,
                report,
            );
            answer
        } else {
            Ok(())
        }
    }

    /// Writes what is at the end.
    pub(crate) fn finish(&mut self) -> Result<(), SinkFault>
        ensures { IsSome self.old.output.given → Finishes self.old result self.new }
    {
        put_ending(&mut self.writer, self.form, &self.summary)
    }

    /// Reports messages, if there are some, and learns from them; where they are reported since their connection is finished, also how that ended.
    /// They are large, so they stay where they are unless they are kept.
    pub(crate) fn report_messages(
        &mut self,
        connection: &Connection,
        end: Option<ConnectionEnd>,
        exchange: &mut Option<Paired<Kept<A>>>,
    ) -> Result<(), StreamsFault>
        ensures { ReportedAll connection.now (messages end exchange.old) self.old result self.new }
    {
        let taken = match &*exchange {
            Some(paired) => self.take_report(connection, &Report::Messages { paired, end }),
            None => return Ok(()),
        };
        match taken {
            Ok(()) => {
                self.known.learn(exchange);
                Ok(())
            }
            Err(SinkFault) => Err(StreamsFault::Write),
        }
    }

    /// Reports that a connection is not read, if a direction begins so at this time, unless that was reported.
    pub(crate) fn report_opening(
        &mut self,
        connection: &Connection,
        time: Option<u64>,
        was_reported: bool,
        opening: Opening,
    ) -> Result<(), StreamsFault>
        ensures { ReportedAll connection.now (unread time was_reported opening) self.old result self.new }
    {
        if was_reported {
            Ok(())
        } else if is_unread(opening) {
            self.report_unread(connection, time, opening)
        } else {
            Ok(())
        }
    }

    /// Reports that a connection is not read, whose direction begins so at this time.
    fn report_unread(
        &mut self,
        connection: &Connection,
        time: Option<u64>,
        opening: Opening,
    ) -> Result<(), StreamsFault>
        ensures { ReportedAll connection.now (Unread time opening ∷ []) self.old result self.new }
    {
        match self.take_report(connection, &Report::Unread { time, opening }) {
            Ok(()) => Ok(()),
            Err(SinkFault) => Err(StreamsFault::Write),
        }
    }
}

/// Takes what is written of a report of this connection, after what is in the summary so far, and passes it on.
#[tactic(auto, using(crate::proofs::Texts::nothing_taken))]
fn put_report<W: Target, A: Allocator, B: Allocator>(
    writer: &mut TextWriter<Buffered<W, A>>,
    form: ExchangeForm,
    known: &Known<B>,
    first: Option<u64>,
    summary: &Summary<A>,
    connection: &Connection,
    report: &Report<'_, B>,
) -> Result<(), SinkFault>
    requires { writer.old.waiting ≡ [] }
    ensures text { Writes writer.old (text_of form known.now first summary.now connection.now (report_of report.now)) result writer.new }
    ensures passed { writer.new.waiting ≡ [] }
{
    match form {
        ExchangeForm::Lines(style) => put_line(writer, known, style, first, connection, report),
        ExchangeForm::Json(shown) => {
            put_json_line(writer, known, shown, first, connection, report)
        }
        ExchangeForm::Csv => put_csv(writer, known, first, summary, connection, report),
        ExchangeForm::Summary(_) => Ok(()),
        ExchangeForm::SummaryJson(_) => Ok(()),
        ExchangeForm::Intervals(seconds, shown) => {
            put_if_over(writer, shown, seconds, summary, report)
        }
        ExchangeForm::Histogram => Ok(()),
    }
}

/// Takes what is written at the end, and passes it on.
#[tactic(auto, using(crate::proofs::Texts::nothing_taken))]
fn put_ending<W: Target, A: Allocator>(
    writer: &mut TextWriter<Buffered<W, A>>,
    form: ExchangeForm,
    summary: &Summary<A>,
) -> Result<(), SinkFault>
    requires { writer.old.waiting ≡ [] }
    ensures text { Writes writer.old (ending_of form summary.now) result writer.new }
    ensures passed { writer.new.waiting ≡ [] }
{
    match form {
        ExchangeForm::Lines(_) => Ok(()),
        ExchangeForm::Json(_) => Ok(()),
        ExchangeForm::Csv => put_names(writer, summary),
        ExchangeForm::Summary(by) => put_summary(writer, by.heading(), summary),
        ExchangeForm::SummaryJson(by) => put_objects(writer, by.heading(), summary),
        ExchangeForm::Intervals(seconds, shown) => put_interval(writer, shown, seconds, summary),
        ExchangeForm::Histogram => put_histogram(writer, summary),
    }
}

/// Takes the lines of a summary, with this heading above the names, and passes them on.
fn put_summary<W: Target, A: Allocator>(
    writer: &mut TextWriter<Buffered<W, A>>,
    heading: &str,
    summary: &Summary<A>,
) -> Result<(), SinkFault>
    ensures text { Writes writer.old (summary_text heading.now summary.now) result writer.new }
    ensures passed { writer.new.waiting ≡ [] }
{
    summary.put(writer, heading)?;
    writer.pass_on()
}

/// Takes the objects of a summary of these names, and passes them on.
fn put_objects<W: Target, A: Allocator>(
    writer: &mut TextWriter<Buffered<W, A>>,
    by: &str,
    summary: &Summary<A>,
) -> Result<(), SinkFault>
    ensures text { Writes writer.old (summary_objects by.now summary.now) result writer.new }
    ensures passed { writer.new.waiting ≡ [] }
{
    put_summary_objects(writer, by, summary)?;
    writer.pass_on()
}
