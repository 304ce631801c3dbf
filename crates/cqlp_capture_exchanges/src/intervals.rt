//! Requests with what came of them, counted by the interval of time in which they were over.

ghost use Rattle.std.specs.Prelude.{◌≡◌, [], None, Some};
ghost use Rattle.cqlp_text.specs.Written.{Writes};
ghost use Rattle.cqlp_capture_summary.specs.Intervals.{noted_in_interval};
ghost use Rattle.cqlp_capture_exchanges.specs.Intervals.{interval_as, outcome_in, outcome_of, over_at, over_request, text_before, text_if_over};
ghost use Rattle.cqlp_capture_exchanges.specs.Intervals.{with_report_in_interval};
ghost use Rattle.cqlp_capture_exchanges.specs.Reports.{report_of};

use crate::form::IntervalsAs;
use crate::interval_objects::put_interval_object;
use crate::noting::{answered_by, unanswered};
use crate::outcome::Outcome;
use crate::report::Report;
use cqlp_capture_summary::{Occurrence, Summary};
use cqlp_grammar::SinkFault;
use cqlp_note::Target;
use cqlp_observer::{Kept, Paired};
use cqlp_text::{Buffered, Pen, TextWriter};
use std::alloc::Allocator;

/// What came of the request of a report, if it has one.
pub(crate) fn outcome_in<B: Allocator>(report: &Report<'_, B>) -> Option<Outcome>
    ensures { result ≡ outcome_in (report_of report.now) }
{
    match report {
        Report::Messages { paired, .. } => outcome_of(paired),
        Report::Unread { .. } => None,
    }
}

fn outcome_of<B: Allocator>(paired: &Paired<Kept<B>>) -> Option<Outcome>
    ensures { result ≡ outcome_of paired.now }
{
    match paired {
        Paired::Exchange { request, response } => Some(answered_by(request, response)),
        Paired::Unanswered { request } => Some(unanswered(request)),
        Paired::Unasked { .. } | Paired::Event { .. } => None,
    }
}

/// When the last byte of the response came, where it is known how long that took.
fn over_at(outcome: &Outcome) -> Option<u64>
    ensures { result ≡ over_at outcome.now }
{
    match (outcome.at, outcome.took) {
        (Some(at), Some(took)) => Some(at.saturating_add(took)),
        (Some(_), None) | (None, _) => None,
    }
}

/// Counts the request of a report, if it has one, in the interval in which it was over.
pub(crate) fn note_in_interval<A: Allocator, B: Allocator>(
    summary: &mut Summary<A>,
    seconds: u32,
    report: &Report<'_, B>,
)
    ensures { summary.new ≡ with_report_in_interval seconds (report_of report.now) summary.old }
{
    match outcome_in(report) {
        Some(outcome) => note_outcome(summary, seconds, &outcome),
        None => {}
    }
}

pub(crate) fn note_outcome<A: Allocator>(summary: &mut Summary<A>, seconds: u32, outcome: &Outcome)
    ensures { summary.new ≡ noted_in_interval seconds (over_request outcome.now) summary.old }
{
    let occurrence = Occurrence {
        name: b"",
        is_whole_name: true,
        is_error: outcome.is_error,
        rows: outcome.rows,
        bytes: outcome.bytes,
        took: outcome.took,
    };
    summary.note_in_interval(seconds, &occurrence, outcome.is_answered, over_at(outcome));
}

/// Before the request of a report, takes what is written of the interval that is over, or above all of them, and passes it on.
#[tactic(auto, using(crate::proofs::Texts::nothing_taken))]
pub(crate) fn put_if_over<W: Target, A: Allocator, B: Allocator>(
    writer: &mut TextWriter<Buffered<W, A>>,
    shown: IntervalsAs,
    seconds: u32,
    summary: &Summary<A>,
    report: &Report<'_, B>,
) -> Result<(), SinkFault>
    requires { writer.old.waiting ≡ [] }
    ensures text { Writes writer.old (text_before shown seconds (report_of report.now) summary.now) result writer.new }
    ensures passed { writer.new.waiting ≡ [] }
{
    match outcome_in(report) {
        Some(outcome) => put_before(writer, shown, seconds, summary, &outcome),
        None => Ok(()),
    }
}

#[tactic(auto, using(crate::proofs::Texts::nothing_taken))]
fn put_before<W: Target, A: Allocator>(
    writer: &mut TextWriter<Buffered<W, A>>,
    shown: IntervalsAs,
    seconds: u32,
    summary: &Summary<A>,
    outcome: &Outcome,
) -> Result<(), SinkFault>
    requires { writer.old.waiting ≡ [] }
    ensures text { Writes writer.old (text_if_over shown seconds (Some outcome.now) summary.now) result writer.new }
    ensures passed { writer.new.waiting ≡ [] }
{
    if summary.is_over(seconds, over_at(outcome)) {
        put_interval(writer, shown, seconds, summary)
    } else {
        Ok(())
    }
}

/// Takes what is written of the interval that is counted, or where none is above all of them, and passes it on.
pub(crate) fn put_interval<W: Target, A: Allocator>(
    writer: &mut TextWriter<Buffered<W, A>>,
    shown: IntervalsAs,
    seconds: u32,
    summary: &Summary<A>,
) -> Result<(), SinkFault>
    ensures text { Writes writer.old (interval_as shown seconds summary.now.others) result writer.new }
    ensures passed { writer.new.waiting ≡ [] }
{
    put_as(writer, shown, seconds, summary)?;
    writer.pass_on()
}

fn put_as<P: Pen, A: Allocator>(
    writer: &mut TextWriter<P>,
    shown: IntervalsAs,
    seconds: u32,
    summary: &Summary<A>,
) -> Result<(), SinkFault>
    ensures { Writes writer.old (interval_as shown seconds summary.now.others) result writer.new }
{
    match shown {
        IntervalsAs::Lines => summary.put_interval(writer, seconds),
        IntervalsAs::Json => put_interval_object(writer, seconds, &summary.others()),
    }
}
