//! A consistency level in a line.

ghost use Rattle.std.specs.Prelude.{◌≡◌, Some, option_map};
ghost use Rattle.cqlp_text.specs.Written.{Writes};
ghost use Rattle.cqlp_capture_exchanges.specs.Levels.{consistency_text, short_name};

use crate::reply::consistency_name;
use cqlp_grammar::SinkFault;
use cqlp_text::{Pen, TextWriter};

/// Takes a consistency level, after a space.
pub(crate) fn put_consistency<P: Pen>(
    writer: &mut TextWriter<P>,
    level: Option<u16>,
) -> Result<(), SinkFault>
    ensures { Writes writer.old (consistency_text level) result writer.new }
{
    match level {
        Some(level) => put_level(writer, level),
        None => writer.put(b""),
    }
}

pub(crate) fn put_level<P: Pen>(writer: &mut TextWriter<P>, level: u16) -> Result<(), SinkFault>
    ensures { Writes writer.old (consistency_text (Some level)) result writer.new }
{
    writer.put(b" ")?;
    put_short_name(writer, consistency_name(level), level)
}

/// Takes a name, or where there is none the number's two bytes.
fn put_short_name<P: Pen>(
    writer: &mut TextWriter<P>,
    name: Option<&'static str>,
    number: u16,
) -> Result<(), SinkFault>
    ensures { Writes writer.old (short_name (option_map (λ s. s.now) name.entry) number) result writer.new }
{
    match name {
        Some(name) => writer.put_str(name),
        None => writer.put_hex_text(&number.to_be_bytes()),
    }
}
