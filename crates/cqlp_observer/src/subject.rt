//! What a message is about, by its first field.

ghost use Rattle.std.specs.Prelude.{◌≡◌};
ghost use Rattle.cqlp_note.specs.Heading.{has as has_bit};
ghost use Rattle.cqlp_observer.specs.Subjects.{SaysSubject, subject_notation};

use crate::kept::LONGEST_FRONT;
use cqlp_note::{Header, Notation, Opcode, WholeField, front_field};

/// The first field of a message, if that says what the message is about, and lies whole in the message's first bytes: of a QUERY or a PREPARE its
/// text, of an EXECUTE the id of its statement, of an ERROR its code and of a RESULT its kind. Sections 4.1.4, 4.1.5, 4.1.6, 4.2.1 and 4.2.5 of
/// `native_protocol_v4.spec`. `None` also where the body is compressed, by the header's flags.
pub fn subject_of<'a>(header: &Header, front: &'a [u8]) -> Option<WholeField<'a>>
    ensures { SaysSubject header.now front.now result }
{
    match subject_notation(header) {
        Some(notation) => front_field(notation, LONGEST_FRONT as u32, LONGEST_FRONT as u64, front),
        None => None,
    }
}

/// How that field is written.
fn subject_notation(header: &Header) -> Option<Notation>
    ensures { result ≡ subject_notation header.now }
{
    if has(header.flags, 0x01) {
        return None;
    }
    match header.opcode {
        Opcode::Query | Opcode::Prepare => Some(Notation::Text32),
        Opcode::Execute => Some(Notation::Bytes16),
        Opcode::Error | Opcode::Result => Some(Notation::Int),
        _ => None,
    }
}

/// Whether some bit of these is set.
pub(crate) fn has(flags: u8, bits: u8) -> bool
    ensures { result ≡ has_bit flags bits }
{
    flags & bits > 0
}
