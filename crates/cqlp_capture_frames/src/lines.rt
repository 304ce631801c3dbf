//! Lines of a direction of a connection, which begin with its number, and `>` for requests, `<` for responses.

ghost use Rattle.std.specs.Prelude.{◌≡◌};
ghost use Rattle.cqlp_text.specs.Written.{Writes};
ghost use Rattle.cqlp_capture_frames.specs.Lines.{arrow, compressed_line, gap_end, gap_line, place_text, refused_line, unread_line};

use cqlp_grammar::SinkFault;
use cqlp_note::Reason;
use cqlp_tcp_reassembly::GapCause;
use cqlp_text::{Pen, TextWriter, reason_name};

/// The direction of a connection that a line is of.
#[derive(Clone, Copy)]
pub struct LinePlace {
    /// The number of the connection.
    pub number: u64,
    pub responses: bool,
}

fn arrow(responses: bool) -> &'static str
    ensures { result.now ≡ arrow responses }
{
    if responses { " < " } else { " > " }
}

/// Takes the number of the connection, and the direction.
pub fn put_place<P: Pen>(writer: &mut TextWriter<P>, place: LinePlace) -> Result<(), SinkFault>
    ensures { Writes writer.old (place_text place) result writer.new }
{
    writer.put_number(place.number)?;
    writer.put_str(arrow(place.responses))
}

/// Takes the line of a frame that is refused at an offset.
pub fn put_refused<P: Pen>(
    writer: &mut TextWriter<P>,
    place: LinePlace,
    at: u64,
    why: Reason,
) -> Result<(), SinkFault>
    ensures { Writes writer.old (refused_line place at why) result writer.new }
{
    put_place(writer, place)?;
    writer.put_number(at)?;
    writer.put(b" refused ")?;
    writer.put_str(reason_name(why))?;
    writer.put(b"\n")
}

/// Takes the line of a compressed frame that begins at an offset.
pub fn put_compressed<P: Pen>(
    writer: &mut TextWriter<P>,
    place: LinePlace,
    at: u64,
) -> Result<(), SinkFault>
    ensures { Writes writer.old (compressed_line place at) result writer.new }
{
    put_place(writer, place)?;
    writer.put_number(at)?;
    writer.put(b" compressed\n")
}

/// Takes the line of a frame that begins at an offset and is not read, as there is no room for its decoder.
pub fn put_unread<P: Pen>(
    writer: &mut TextWriter<P>,
    place: LinePlace,
    at: u64,
) -> Result<(), SinkFault>
    ensures { Writes writer.old (unread_line place at) result writer.new }
{
    put_place(writer, place)?;
    writer.put_number(at)?;
    writer.put(b" unread\n")
}

/// Takes the line of a gap at an offset.
pub fn put_gap<P: Pen>(
    writer: &mut TextWriter<P>,
    place: LinePlace,
    at: u64,
    length: u64,
    cause: GapCause,
) -> Result<(), SinkFault>
    ensures { Writes writer.old (gap_line place at length cause) result writer.new }
{
    put_place(writer, place)?;
    writer.put_number(at)?;
    writer.put(b" gap ")?;
    writer.put_number(length)?;
    writer.put_str(gap_end(cause))
}

/// How the line of a gap ends: their packet was cut by the snap length, or no packet has the bytes.
fn gap_end(cause: GapCause) -> &'static str
    ensures { result.now ≡ gap_end cause }
{
    match cause {
        GapCause::Lost => "\n",
        GapCause::Snapped => " snapped\n",
    }
}
