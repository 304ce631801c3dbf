//! Times that lie apart.

ghost use Rattle.std.specs.Prelude.{◌≡◌, ◌≤◌, ◌+◌};
ghost use Rattle.cqlp_text.specs.Written.{Writes};
ghost use Rattle.cqlp_capture_exchanges.specs.Spans.{is_short, is_whole, time_between, took};
ghost use Rattle.cqlp_capture_exchanges.specs.Times.{fraction, nanoseconds_in, places_of, sign, span_text, time_text};

use cqlp_grammar::SinkFault;
use cqlp_observer::{Extent, Frame};
use cqlp_text::{Pen, TextWriter};

/// How far a time lies behind another one, or before it.
#[derive(Clone, Copy)]
pub(crate) struct Span {
    pub(crate) is_before: bool,
    pub(crate) nanoseconds: u64,
}

/// What times are written in.
#[derive(Clone, Copy)]
pub(crate) enum Unit {
    Second,
    Millisecond,
}

impl Unit {
    /// How many nanoseconds it has.
    fn nanoseconds(self) -> u64
        ensures { result ≡ nanoseconds_in self }
    {
        match self {
            Unit::Second => 1_000_000_000,
            Unit::Millisecond => 1_000_000,
        }
    }

    /// How many digits after the point microseconds are.
    fn places(self) -> usize
        ensures is { result ≡ places_of self }
        ensures few { result ≤ 6 }
    {
        match self {
            Unit::Second => 6,
            Unit::Millisecond => 3,
        }
    }
}

/// How far the second time lies behind the first, where both are known.
pub(crate) fn time_between(from: Option<u64>, to: Option<u64>) -> Option<Span>
    ensures { result ≡ time_between from to }
{
    match (from, to) {
        (Some(from), Some(to)) if to < from => Some(Span {
            is_before: true,
            nanoseconds: from - to,
        }),
        (Some(from), Some(to)) => Some(Span {
            is_before: false,
            nanoseconds: to - from,
        }),
        _ => None,
    }
}

/// Whether all of a frame was captured.
pub(crate) fn is_whole(extent: Extent) -> bool
    ensures { result ≡ is_whole extent }
{
    extent == Extent::Whole
}

/// Whether a frame's direction ended before its last byte.
pub(crate) fn is_short(extent: Extent) -> bool
    ensures { result ≡ is_short extent }
{
    extent == Extent::Short
}

/// How long a response took: from the request's first byte to its own last one, if that came.
pub(crate) fn took(request: &Frame, response: &Frame) -> Option<Span>
    ensures { result ≡ took request.now response.now }
{
    if is_short(response.extent) {
        None
    } else {
        time_between(request.begun, response.ended)
    }
}

/// Takes a time in a unit, to the microsecond, or where that is not exact, to the nanosecond. `-` where it is not known.
pub(crate) fn put_time<P: Pen>(
    writer: &mut TextWriter<P>,
    unit: Unit,
    time: Option<Span>,
) -> Result<(), SinkFault>
    ensures { Writes writer.old (time_text unit time) result writer.new }
{
    match time {
        Some(span) => put_span(writer, unit, span),
        None => writer.put(b"-"),
    }
}

fn put_span<P: Pen>(writer: &mut TextWriter<P>, unit: Unit, span: Span) -> Result<(), SinkFault>
    ensures { Writes writer.old (span_text unit span) result writer.new }
{
    let whole = span.nanoseconds / unit.nanoseconds();
    let rest = span.nanoseconds % unit.nanoseconds();
    writer.put_str(sign(span.is_before))?;
    writer.put_number(whole)?;
    writer.put(b".")?;
    put_fraction(writer, unit.places(), rest)
}

pub(crate) fn sign(is_before: bool) -> &'static str
    ensures { result.now ≡ sign is_before }
{
    if is_before { "-" } else { "" }
}

/// Takes nanoseconds below a unit of time, whose microseconds are so many digits.
pub(crate) fn put_fraction<P: Pen>(
    writer: &mut TextWriter<P>,
    places: usize,
    nanoseconds: u64,
) -> Result<(), SinkFault>
    requires { places ≤ 6 }
    ensures { Writes writer.old (fraction places nanoseconds) result writer.new }
{
    if nanoseconds % 1_000 == 0 {
        writer.put_digits(places, nanoseconds / 1_000)
    } else {
        writer.put_digits(places + 3, nanoseconds)
    }
}
