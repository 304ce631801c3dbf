//! A summary as JSON: an object a line for each name, with the buckets of its times.

ghost use Rattle.std.specs.Prelude.{◌≡◌, ◌==◌, ◌&&◌, ◌≤◌, ◌<◌, length, option_map, true, Some};
ghost use Rattle.cqlp_json.specs.Lines.{texts};
ghost use Rattle.cqlp_text.specs.Written.{Writes};
ghost use Rattle.cqlp_capture_exchanges.specs.Members.{value_text};
ghost use Rattle.cqlp_capture_exchanges.specs.SummaryObjects.{bucket_text, buckets_text, count_members, known_objects, object, object_at, others_object};
ghost use Rattle.cqlp_capture_exchanges.specs.SummaryObjects.{pair_members, percentile_members, seconds_of, separator, some_bucket, summary_objects};
ghost use Rattle.cqlp_capture_exchanges.specs.SummaryObjects.{text_or_null, time_members};

use crate::member::{Member, Value, put_members, utc_or_null};
use crate::span::Span;
use cqlp_capture_summary::{Figures, Summary, Times, greatest_in};
use cqlp_grammar::SinkFault;
use cqlp_text::{Pen, TextWriter};
use std::alloc::Allocator;

/// Writes an object for each name that is distinguished, in the order of the table, and one for all others if there are any. `by` is what they are names of.
pub fn put_summary_objects<P: Pen, A: Allocator>(
    writer: &mut TextWriter<P>,
    by: &str,
    summary: &Summary<A>,
) -> Result<(), SinkFault>
    ensures { Writes writer.old (summary_objects by.now summary.now) result writer.new }
{
    put_known(writer, by, summary)?;
    put_others(writer, by, summary)
}

fn put_known<P: Pen, A: Allocator>(
    writer: &mut TextWriter<P>,
    by: &str,
    summary: &Summary<A>,
) -> Result<(), SinkFault>
    ensures { Writes writer.old (known_objects by.now summary.now) result writer.new }
{
    for place in 0..summary.len() {
        put_at(writer, by, summary, place)?;
    }
    Ok(())
}

/// Writes the object of the name at a place.
fn put_at<P: Pen, A: Allocator>(
    writer: &mut TextWriter<P>,
    by: &str,
    summary: &Summary<A>,
    place: usize,
) -> Result<(), SinkFault>
    requires { place < length summary.now.names }
    ensures { Writes writer.old (object_at by.now summary.now place) result writer.new }
{
    let Some(row) = summary.row(place) else {
        unreachable!()
    };
    put_object(
        writer,
        by,
        Some(row.text()),
        row.is_whole_name,
        row.missing,
        &row.figures,
        row.buckets,
    )
}

fn put_others<P: Pen, A: Allocator>(
    writer: &mut TextWriter<P>,
    by: &str,
    summary: &Summary<A>,
) -> Result<(), SinkFault>
    ensures { Writes writer.old (others_object by.now summary.now) result writer.new }
{
    let figures = summary.others();
    if figures.count == 0 {
        return writer.put(b"");
    }
    put_object(
        writer,
        by,
        None,
        true,
        0,
        &figures,
        summary.others_buckets(),
    )
}

fn put_object<P: Pen>(
    writer: &mut TextWriter<P>,
    by: &str,
    text: Option<&str>,
    is_whole: bool,
    missing: u64,
    figures: &Figures,
    buckets: &[u64],
) -> Result<(), SinkFault>
    requires { length buckets.now ≡ 1920 }
    ensures { Writes writer.old (object by.now (option_map (λ t. t.now) text.entry) is_whole missing figures.now buckets.now) result writer.new }
{
    put_counts(writer, by, text, is_whole, figures)?;
    put_time_sums(writer, missing, figures)?;
    put_times(writer, figures.times)?;
    writer.put(b",\"buckets\":[")?;
    put_buckets(writer, buckets)?;
    writer.put(b"]}\n")
}

fn put_counts<'a, P: Pen>(
    writer: &mut TextWriter<P>,
    by: &'a str,
    text: Option<&'a str>,
    is_whole: bool,
    figures: &Figures,
) -> Result<(), SinkFault>
    ensures { Writes writer.old (texts (count_members by.now (option_map (λ t. t.now) text.entry) is_whole figures.now)) result writer.new }
{
    put_members(
        writer,
        &[
            Member("{\"by\":", Value::Name(by)),
            Member(",\"name\":", text_or_null(text)),
            Member(",\"name_is_whole\":", Value::Flag(is_whole)),
            Member(",\"count\":", Value::Number(figures.count)),
            Member(",\"errors\":", Value::Number(figures.errors)),
            Member(",\"unanswered\":", Value::Number(figures.unanswered)),
            Member(",\"rows\":", Value::Number(figures.rows)),
            Member(",\"bytes\":", Value::Number(figures.bytes)),
        ],
    )
}

fn text_or_null(text: Option<&str>) -> Value<'_>
    ensures { value_text result ≡ text_or_null (option_map (λ t. t.now) text.entry) }
{
    match text {
        Some(text) => Value::Text(text),
        None => Value::Null,
    }
}

fn put_time_sums<P: Pen>(
    writer: &mut TextWriter<P>,
    missing: u64,
    figures: &Figures,
) -> Result<(), SinkFault>
    ensures { Writes writer.old (texts (time_members missing figures.now)) result writer.new }
{
    put_members(
        writer,
        &[
            Member(",\"first\":", utc_or_null(figures.first)),
            Member(",\"last\":", utc_or_null(figures.last)),
            Member(",\"time\":", seconds(figures.time)),
            Member(",\"missing\":", seconds(missing)),
        ],
    )
}

pub(crate) fn put_times<P: Pen>(
    writer: &mut TextWriter<P>,
    times: Option<Times>,
) -> Result<(), SinkFault>
    ensures { Writes writer.old (texts (percentile_members times)) result writer.new }
{
    match times {
        Some(times) => put_known_times(writer, times),
        None => put_members(
            writer,
            &[
                Member(",\"p50\":", Value::Null),
                Member(",\"p95\":", Value::Null),
                Member(",\"p99\":", Value::Null),
                Member(",\"max\":", Value::Null),
            ],
        ),
    }
}

fn put_known_times<P: Pen>(writer: &mut TextWriter<P>, times: Times) -> Result<(), SinkFault>
    ensures { Writes writer.old (texts (percentile_members (Some times))) result writer.new }
{
    put_members(
        writer,
        &[
            Member(",\"p50\":", seconds(times.median)),
            Member(",\"p95\":", seconds(times.percentile_95)),
            Member(",\"p99\":", seconds(times.percentile_99)),
            Member(",\"max\":", seconds(times.greatest)),
        ],
    )
}

/// Nanoseconds as seconds.
fn seconds(nanoseconds: u64) -> Value<'static>
    ensures { value_text result ≡ seconds_of nanoseconds }
{
    Value::Seconds(Span {
        is_before: false,
        nanoseconds,
    })
}

/// Writes an array for each bucket that has times: the greatest time that it may have, and how many it has.
fn put_buckets<P: Pen>(writer: &mut TextWriter<P>, buckets: &[u64]) -> Result<(), SinkFault>
    requires { length buckets.now ≤ 1920 }
    ensures { Writes writer.old (buckets_text true 0 buckets.now) result writer.new }
{
    let mut is_first = true;
    for bucket in 0..buckets.len() {
        put_bucket(writer, is_first, bucket, buckets[bucket])?;
        is_first = is_still_first(is_first, buckets[bucket]);
    }
    Ok(())
}

/// Whether no bucket is written yet, after one with this count.
fn is_still_first(is_first: bool, count: u64) -> bool
    ensures { result ≡ (is_first && count == 0) }
{
    is_first && count == 0
}

fn put_bucket<P: Pen>(
    writer: &mut TextWriter<P>,
    is_first: bool,
    bucket: usize,
    count: u64,
) -> Result<(), SinkFault>
    requires { bucket < 1920 }
    ensures { Writes writer.old (bucket_text is_first bucket count) result writer.new }
{
    if count == 0 {
        return writer.put(b"");
    }
    put_some_bucket(writer, is_first, bucket, count)
}

fn put_some_bucket<P: Pen>(
    writer: &mut TextWriter<P>,
    is_first: bool,
    bucket: usize,
    count: u64,
) -> Result<(), SinkFault>
    requires { bucket < 1920 }
    ensures { Writes writer.old (some_bucket is_first bucket count) result writer.new }
{
    let greatest = greatest_in(bucket);
    writer.put_str(separator(is_first))?;
    put_pair(writer, greatest, count)?;
    writer.put(b"]")
}

/// What separates a bucket from those before.
fn separator(is_first: bool) -> &'static str
    ensures { result.now ≡ separator is_first }
{
    if is_first { "" } else { "," }
}

fn put_pair<P: Pen>(writer: &mut TextWriter<P>, greatest: u64, count: u64) -> Result<(), SinkFault>
    ensures { Writes writer.old (texts (pair_members greatest count)) result writer.new }
{
    put_members(
        writer,
        &[
            Member("[", seconds(greatest)),
            Member(",", Value::Number(count)),
        ],
    )
}
