//! An interval as JSON: an object in a line, where something is counted in it.

ghost use Rattle.std.specs.Prelude.{◌≡◌};
ghost use Rattle.cqlp_json.specs.Lines.{texts};
ghost use Rattle.cqlp_text.specs.Written.{Writes};
ghost use Rattle.cqlp_capture_exchanges.specs.IntervalObjects.{begin_members, begin_or_null, count_members, interval_object, rate_member};
ghost use Rattle.cqlp_capture_exchanges.specs.IntervalObjects.{some_interval};
ghost use Rattle.cqlp_capture_exchanges.specs.Members.{value_text};

use crate::member::{Member, Value, put_members};
use crate::summary_objects::put_times;
use cqlp_capture_summary::{Figures, begin_of, width_of};
use cqlp_grammar::SinkFault;
use cqlp_text::{Pen, TextWriter};

/// Takes the object of an interval of so many seconds, if something is counted in it.
pub(crate) fn put_interval_object<P: Pen>(
    writer: &mut TextWriter<P>,
    seconds: u32,
    figures: &Figures,
) -> Result<(), SinkFault>
    ensures { Writes writer.old (interval_object seconds figures.now) result writer.new }
{
    if figures.count == 0 {
        return writer.put(b"");
    }
    put_some(writer, seconds, figures)
}

fn put_some<P: Pen>(
    writer: &mut TextWriter<P>,
    seconds: u32,
    figures: &Figures,
) -> Result<(), SinkFault>
    ensures { Writes writer.old (some_interval seconds figures.now) result writer.new }
{
    put_begin(writer, seconds, figures.last)?;
    put_rate(writer, seconds, figures.count)?;
    put_counts(writer, figures)?;
    put_times(writer, figures.times)?;
    writer.put(b"}\n")
}

/// Takes when the interval began that a time is in.
fn put_begin<P: Pen>(
    writer: &mut TextWriter<P>,
    seconds: u32,
    last: Option<u64>,
) -> Result<(), SinkFault>
    ensures { Writes writer.old (texts (begin_members seconds last)) result writer.new }
{
    put_members(
        writer,
        &[Member("{\"begin\":", begin_or_null(seconds, last))],
    )
}

fn begin_or_null(seconds: u32, last: Option<u64>) -> Value<'static>
    ensures { value_text result ≡ begin_or_null seconds last }
{
    match last {
        Some(time) => Value::Utc(begin_of(seconds, time) * 1_000_000_000),
        None => Value::Null,
    }
}

/// Takes how many there were in a second, of so many in an interval.
fn put_rate<P: Pen>(writer: &mut TextWriter<P>, seconds: u32, count: u64) -> Result<(), SinkFault>
    ensures { Writes writer.old (rate_member seconds count) result writer.new }
{
    let width = width_of(seconds);
    writer.put(b",\"per_s\":")?;
    writer.put_number(count / width)?;
    writer.put(b".")?;
    writer.put_digits(3, count % width * 1_000 / width)
}

fn put_counts<P: Pen>(writer: &mut TextWriter<P>, figures: &Figures) -> Result<(), SinkFault>
    ensures { Writes writer.old (texts (count_members figures.now)) result writer.new }
{
    put_members(
        writer,
        &[
            Member(",\"count\":", Value::Number(figures.count)),
            Member(",\"errors\":", Value::Number(figures.errors)),
            Member(",\"unanswered\":", Value::Number(figures.unanswered)),
            Member(",\"rows\":", Value::Number(figures.rows)),
            Member(",\"bytes\":", Value::Number(figures.bytes)),
        ],
    )
}
