//! Lines of pages.

ghost use Rattle.std.specs.Prelude.{◌≡◌};
ghost use Rattle.std.specs.Fmt.{signed_decimal};
ghost use Rattle.cqlp_text.specs.Written.{Writes};
ghost use Rattle.cqlp_capture_rows.specs.Spots.{page_line};

use cqlp_grammar::SinkFault;
use cqlp_note::Header;
use cqlp_text::{Pen, TextWriter};

/// A place in the responses of a connection.
#[derive(Clone, Copy)]
pub(crate) struct Spot {
    /// The number of the connection.
    pub(crate) number: u64,
    /// How many bytes and bytes of gaps lie before it.
    pub(crate) at: u64,
}

/// Where a frame begins, and its header.
#[derive(Clone, Copy)]
pub(crate) struct FrameSpot {
    pub(crate) spot: Spot,
    pub(crate) header: Header,
}

/// Takes the line of the page of the frame that begins there.
pub(crate) fn put_page_line<P: Pen>(
    writer: &mut TextWriter<P>,
    begun: FrameSpot,
) -> Result<(), SinkFault>
    ensures { Writes writer.old (page_line begun) result writer.new }
{
    writer.put_number(begun.spot.number)?;
    writer.put(b":")?;
    put_stream(writer, begun)?;
    writer.put(b" ")?;
    writer.put_number(begun.spot.at)?;
    writer.put(b"\n")
}

fn put_stream<P: Pen>(writer: &mut TextWriter<P>, begun: FrameSpot) -> Result<(), SinkFault>
    ensures { Writes writer.old (signed_decimal begun.header.stream) result writer.new }
{
    writer.put_signed(i64::from(begun.header.stream))
}
