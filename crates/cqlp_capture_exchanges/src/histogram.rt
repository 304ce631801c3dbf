//! Requests with what came of them, counted by how long they took.

ghost use Rattle.std.specs.Prelude.{◌≡◌, []};
ghost use Rattle.cqlp_text.specs.Written.{Writes};
ghost use Rattle.cqlp_capture_summary.specs.Histograms.{histogram_text};
ghost use Rattle.cqlp_capture_summary.specs.Summaries.{noted_request};
ghost use Rattle.cqlp_capture_exchanges.specs.Histograms.{nameless, with_report_by_time};
ghost use Rattle.cqlp_capture_exchanges.specs.Reports.{report_of};

use crate::intervals::outcome_in;
use crate::outcome::Outcome;
use crate::report::Report;
use cqlp_capture_summary::{Occurrence, Summary};
use cqlp_grammar::SinkFault;
use cqlp_note::Target;
use cqlp_text::{Buffered, TextWriter};
use std::alloc::Allocator;

/// Counts the request of a report, if it has one.
pub(crate) fn note_by_time<A: Allocator, B: Allocator>(
    summary: &mut Summary<A>,
    report: &Report<'_, B>,
)
    ensures { summary.new ≡ with_report_by_time (report_of report.now) summary.old }
{
    match outcome_in(report) {
        Some(outcome) => note_outcome(summary, &outcome),
        None => {}
    }
}

fn note_outcome<A: Allocator>(summary: &mut Summary<A>, outcome: &Outcome)
    ensures { summary.new ≡ noted_request (nameless outcome.now) summary.old }
{
    let occurrence = Occurrence {
        name: b"",
        is_whole_name: true,
        is_error: outcome.is_error,
        rows: outcome.rows,
        bytes: outcome.bytes,
        took: outcome.took,
    };
    summary.note_request(&occurrence, outcome.is_answered, outcome.at);
}

/// Takes how many requests took how long, and passes it on.
pub(crate) fn put_histogram<W: Target, A: Allocator>(
    writer: &mut TextWriter<Buffered<W, A>>,
    summary: &Summary<A>,
) -> Result<(), SinkFault>
    ensures text { Writes writer.old (histogram_text summary.now.others) result writer.new }
    ensures passed { writer.new.waiting ≡ [] }
{
    summary.put_histogram(writer)?;
    writer.pass_on()
}
