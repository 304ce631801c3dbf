//! Fields of records of CSV.

ghost use Rattle.std.specs.List.{flat_map};
ghost use Rattle.cqlp_text.specs.Written.{Writes};
ghost use Rattle.cqlp_capture_exchanges.specs.CsvFields.{field_text, text_field, value_field};

use crate::member::{Value, put_value};
use cqlp_capture_summary::put_shown_in_field;
use cqlp_grammar::SinkFault;
use cqlp_text::{Pen, TextWriter};

/// Takes fields, each behind a comma.
pub(crate) fn put_fields<P: Pen>(
    writer: &mut TextWriter<P>,
    values: &[Value<'_>],
) -> Result<(), SinkFault>
    ensures { Writes writer.old (flat_map value_field values.now) result writer.new }
{
    for value in values {
        writer.put(b",")?;
        put_field(writer, value)?;
    }
    Ok(())
}

/// Takes a value as JSON has it, but for texts; and nothing where there is none.
fn put_field<P: Pen>(writer: &mut TextWriter<P>, value: &Value<'_>) -> Result<(), SinkFault>
    ensures { Writes writer.old (field_text value.now) result writer.new }
{
    match value {
        Value::Null => writer.put(b""),
        Value::Text(text) => put_text_field(writer, text),
        Value::Flag(_)
        | Value::Number(_)
        | Value::Signed(_)
        | Value::Seconds(_)
        | Value::Utc(_)
        | Value::End(_)
        | Value::Name(_)
        | Value::Hex(_)
        | Value::Uuid(_) => put_value(writer, value),
    }
}

fn put_text_field<P: Pen>(writer: &mut TextWriter<P>, text: &str) -> Result<(), SinkFault>
    ensures { Writes writer.old (text_field text.now) result writer.new }
{
    writer.put(b"\"")?;
    put_shown_in_field(writer, text)?;
    writer.put(b"\"")
}
