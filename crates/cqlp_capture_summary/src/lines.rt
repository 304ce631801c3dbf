//! The lines of a summary.

ghost use Rattle.std.specs.Prelude.{◌≡◌, ◌<◌, length};
ghost use Rattle.cqlp_text.specs.Written.{Writes};
ghost use Rattle.cqlp_capture_summary.specs.Lines.{counts_text, figures_line, header, known_and_others, line_at, line_if, lines, lines_of_rank, missing_text};
ghost use Rattle.cqlp_capture_summary.specs.Lines.{more, name_text, others_line, request_counts_text, some_missing_text, text_front, time_with, times_text};
ghost use Rattle.cqlp_capture_summary.specs.Names.{name};
ghost use Rattle.cqlp_capture_summary.specs.Order.{AreRanks};

use crate::columns::{put_number_column, put_share, put_text_column, put_time_column, share_of};
use crate::name::Name;
use crate::order::{rank_at, ranks_of};
use crate::shown::put_shown_text;
use crate::tally::{Figures, Tally, Times};
use cqlp_grammar::SinkFault;
use cqlp_text::{Pen, TextWriter};

/// What is above the columns but for the last.
const HEADER: &str =
    "     %    time_ms    count errors unanswered      rows       bytes   p50_ms   p95_ms   p99_ms    max_ms ";

/// Takes the line above the columns, whose last has this heading, a line for each of the names that are distinguished, and one for all others if
/// there are any.
pub(crate) fn put_summary<P: Pen>(
    writer: &mut TextWriter<P>,
    heading: &str,
    names: &[Name],
    weights: &[u64],
    tallies: &[Tally],
    others: &Tally,
) -> Result<(), SinkFault>
    requires lengths { length names.now ≡ length tallies.now }
    requires weights { length weights.now ≡ length tallies.now }
    ensures { Writes writer.old (known_and_others heading.now names.now weights.now tallies.now others.now) result writer.new }
{
    let total = time_with(others.time(), tallies);
    put_header(writer, heading)?;
    put_lines(writer, total, names, weights, tallies)?;
    put_others(writer, total, others)
}

/// Takes the line above the columns, whose last has this heading.
fn put_header<P: Pen>(writer: &mut TextWriter<P>, heading: &str) -> Result<(), SinkFault>
    ensures { Writes writer.old (header heading.now) result writer.new }
{
    writer.put_str(HEADER)?;
    writer.put_str(heading)?;
    writer.put(b"\n")
}

/// A time and those of all statements, in nanoseconds.
fn time_with(time: u64, tallies: &[Tally]) -> u64
    ensures { result ≡ time_with time tallies.now }
{
    let mut sum = time;
    for tally in tallies {
        sum = sum.saturating_add(tally.time());
    }
    sum
}

/// Takes the lines of the statements, in their order.
fn put_lines<P: Pen>(
    writer: &mut TextWriter<P>,
    total: u64,
    names: &[Name],
    weights: &[u64],
    tallies: &[Tally],
) -> Result<(), SinkFault>
    requires lengths { length names.now ≡ length tallies.now }
    requires weights { length weights.now ≡ length tallies.now }
    ensures { Writes writer.old (lines total names.now weights.now tallies.now) result writer.new }
{
    let ranks = ranks_of(tallies);
    for rank in 0..tallies.len() {
        put_rank(writer, total, names, weights, tallies, &ranks, rank)?;
    }
    Ok(())
}

/// Takes the line of the statement of a rank.
fn put_rank<P: Pen>(
    writer: &mut TextWriter<P>,
    total: u64,
    names: &[Name],
    weights: &[u64],
    tallies: &[Tally],
    ranks: &[usize],
    rank: usize,
) -> Result<(), SinkFault>
    requires lengths { length names.now ≡ length tallies.now }
    requires weights { length weights.now ≡ length tallies.now }
    requires ranks { AreRanks ranks.now tallies.now }
    ensures { Writes writer.old (lines_of_rank total names.now weights.now tallies.now rank) result writer.new }
{
    for place in 0..tallies.len() {
        put_if(writer, total, names, weights, tallies, ranks, rank, place)?;
    }
    Ok(())
}

/// Takes the line of a statement that has a rank.
fn put_if<P: Pen>(
    writer: &mut TextWriter<P>,
    total: u64,
    names: &[Name],
    weights: &[u64],
    tallies: &[Tally],
    ranks: &[usize],
    rank: usize,
    place: usize,
) -> Result<(), SinkFault>
    requires lengths { length names.now ≡ length tallies.now }
    requires weights { length weights.now ≡ length tallies.now }
    requires ranks { AreRanks ranks.now tallies.now }
    requires within { place < length tallies.now }
    ensures { Writes writer.old (line_if total names.now weights.now tallies.now rank place) result writer.new }
{
    if rank_at(ranks, tallies, place) == rank {
        put_at(writer, total, names, weights, tallies, place)
    } else {
        writer.put(b"")
    }
}

/// Takes the line of the statement at a place.
fn put_at<P: Pen>(
    writer: &mut TextWriter<P>,
    total: u64,
    names: &[Name],
    weights: &[u64],
    tallies: &[Tally],
    place: usize,
) -> Result<(), SinkFault>
    requires lengths { length names.now ≡ length tallies.now }
    requires weights { length weights.now ≡ length tallies.now }
    requires within { place < length tallies.now }
    ensures { Writes writer.old (line_at total names.now weights.now tallies.now place) result writer.new }
{
    let name = &names[place];
    let tally = &tallies[place];
    let missing = weights[place].saturating_sub(tally.time());
    put_line(
        writer,
        total,
        name.as_slice(),
        name.is_whole(),
        missing,
        &tally.figures(),
    )
}

/// Takes the line of the statements that are not distinguished, if there are any.
fn put_others<P: Pen>(
    writer: &mut TextWriter<P>,
    total: u64,
    others: &Tally,
) -> Result<(), SinkFault>
    ensures { Writes writer.old (others_line total others.now) result writer.new }
{
    if others.count() == 0 {
        return writer.put(b"");
    }
    put_line(writer, total, b"others", true, 0, &others.figures())
}

fn put_line<P: Pen>(
    writer: &mut TextWriter<P>,
    total: u64,
    bytes: &[u8],
    is_whole: bool,
    missing: u64,
    figures: &Figures,
) -> Result<(), SinkFault>
    ensures { Writes writer.old (figures_line total (name bytes.now is_whole) missing figures.now) result writer.new }
{
    put_share(writer, share_of(figures.time, total))?;
    put_counts(writer, figures)?;
    put_times(writer, figures.times)?;
    put_missing(writer, missing)?;
    put_name(writer, bytes, is_whole)
}

fn put_counts<P: Pen>(writer: &mut TextWriter<P>, figures: &Figures) -> Result<(), SinkFault>
    ensures { Writes writer.old (counts_text figures.now) result writer.new }
{
    put_time_column(writer, 6, figures.time)?;
    put_request_counts(writer, figures)
}

/// Takes how many requests there were, and what came of them.
pub(crate) fn put_request_counts<P: Pen>(
    writer: &mut TextWriter<P>,
    figures: &Figures,
) -> Result<(), SinkFault>
    ensures { Writes writer.old (request_counts_text figures.now) result writer.new }
{
    put_number_column(writer, 8, figures.count)?;
    put_number_column(writer, 6, figures.errors)?;
    put_number_column(writer, 10, figures.unanswered)?;
    put_number_column(writer, 9, figures.rows)?;
    put_number_column(writer, 11, figures.bytes)
}

pub(crate) fn put_times<P: Pen>(
    writer: &mut TextWriter<P>,
    times: Option<Times>,
) -> Result<(), SinkFault>
    ensures { Writes writer.old (times_text times) result writer.new }
{
    match times {
        Some(times) => put_known_times(writer, times),
        None => put_no_times(writer),
    }
}

ghost use Rattle.std.specs.Prelude.{None, Some};

fn put_known_times<P: Pen>(writer: &mut TextWriter<P>, times: Times) -> Result<(), SinkFault>
    ensures { Writes writer.old (times_text (Some times)) result writer.new }
{
    put_time_column(writer, 4, times.median)?;
    put_time_column(writer, 4, times.percentile_95)?;
    put_time_column(writer, 4, times.percentile_99)?;
    put_time_column(writer, 5, times.greatest)
}

fn put_no_times<P: Pen>(writer: &mut TextWriter<P>) -> Result<(), SinkFault>
    ensures { Writes writer.old (times_text None) result writer.new }
{
    put_text_column(writer, 8, b"-")?;
    put_text_column(writer, 8, b"-")?;
    put_text_column(writer, 8, b"-")?;
    put_text_column(writer, 9, b"-")
}

/// Writes what may be missing, if there is any.
fn put_missing<P: Pen>(writer: &mut TextWriter<P>, missing: u64) -> Result<(), SinkFault>
    ensures { Writes writer.old (missing_text missing) result writer.new }
{
    if missing == 0 {
        return writer.put(b"");
    }
    put_some_missing(writer, missing)
}

fn put_some_missing<P: Pen>(writer: &mut TextWriter<P>, missing: u64) -> Result<(), SinkFault>
    ensures { Writes writer.old (some_missing_text missing) result writer.new }
{
    writer.put(b" (up to")?;
    put_time_column(writer, 1, missing)?;
    writer.put(b" ms more)")
}

/// Takes a name and the end of its line.
fn put_name<P: Pen>(
    writer: &mut TextWriter<P>,
    bytes: &[u8],
    is_whole: bool,
) -> Result<(), SinkFault>
    ensures { Writes writer.old (name_text (name bytes.now is_whole)) result writer.new }
{
    writer.put(b" ")?;
    put_shown_text(writer, text_front(bytes))?;
    writer.put_str(more(is_whole))?;
    writer.put(b"\n")
}

/// The longest front of bytes that is UTF-8.
pub(crate) fn text_front(bytes: &[u8]) -> &str
    ensures { result.now ≡ text_front bytes.now }
{
    match str::from_utf8(bytes) {
        Ok(text) => text,
        // SAFETY: the bytes up to there are UTF-8.
        Err(error) => unsafe { str::from_utf8_unchecked(&bytes[..error.valid_up_to()]) },
    }
}

/// What comes behind a name that is not whole.
fn more(is_whole: bool) -> &'static str
    ensures { result.now ≡ more is_whole }
{
    if is_whole { "" } else { ".." }
}
