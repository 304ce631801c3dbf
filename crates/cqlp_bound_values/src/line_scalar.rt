//! Scalars in a line.

ghost use Rattle.cqlp_kind.specs.Contents.{value_of};
ghost use Rattle.cqlp_text.specs.Written.{Writes};
ghost use Rattle.cqlp_bound_values.specs.Texts.{line_scalar, quoted};

use cqlp_capture_summary::put_shown_text;
use cqlp_grammar::SinkFault;
use cqlp_kind::Scalar;
use cqlp_text::{Pen, TextWriter};

/// Takes a scalar as a cell of `cqlp rows`, but a text as a terminal may show it.
///
/// # Errors
///
/// The fault of the pen.
pub(crate) fn put_line_scalar<P: Pen>(
    writer: &mut TextWriter<P>,
    scalar: &Scalar<'_>,
) -> Result<(), SinkFault>
    ensures { Writes writer.old (line_scalar (value_of scalar.now)) result writer.new }
{
    match *scalar {
        Scalar::Ascii(text) => put_quoted(writer, text),
        Scalar::Varchar(text) => put_quoted(writer, text),
        Scalar::Custom(_)
        | Scalar::Bigint(_)
        | Scalar::Blob(_)
        | Scalar::Boolean(_)
        | Scalar::Counter(_)
        | Scalar::Decimal { .. }
        | Scalar::Double(_)
        | Scalar::Float(_)
        | Scalar::Int(_)
        | Scalar::Timestamp(_)
        | Scalar::Uuid(_)
        | Scalar::Varint(_)
        | Scalar::Timeuuid(_)
        | Scalar::Inet(_)
        | Scalar::Date(_)
        | Scalar::Time(_)
        | Scalar::Smallint(_)
        | Scalar::Tinyint(_)
        | Scalar::Raw(_) => writer.put_cell(scalar),
    }
}

fn put_quoted<P: Pen>(writer: &mut TextWriter<P>, text: &str) -> Result<(), SinkFault>
    ensures { Writes writer.old (quoted text.now) result writer.new }
{
    writer.put(b"\"")?;
    put_shown_text(writer, text)?;
    writer.put(b"\"")
}
