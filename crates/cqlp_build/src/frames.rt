//! Frames.

ghost use Rattle.std.specs.Prelude.{◌≡◌, ◌&&◌, [], ◌∷◌, true, map, option_map, string_bytes};
ghost use Rattle.cqlp_note.specs.declared.field.Field.TheVariants as field;
ghost use Rattle.cqlp_note.specs.declared.field.Notation.TheVariants as notation;
ghost use Rattle.cqlp_note.specs.Field.{Uuid};
ghost use Rattle.cqlp_note.specs.Heading.{answers, has as has_bit};
ghost use Rattle.cqlp_message.specs.Agreement.{there_if};
ghost use Rattle.cqlp_message.specs.Bodies as body;
ghost use Rattle.cqlp_message.specs.Frames.{frame_parts};
ghost use Rattle.cqlp_message.specs.Owned.{bytes_of, frame_of, texts_of};
ghost use Rattle.cqlp_message.specs.Parts.{Field_is};
ghost use Rattle.cqlp_build.specs.Building.{BeginsWith};
ghost use Rattle.cqlp_build.specs.CellSizes.{IsSized};
ghost use Rattle.cqlp_build.specs.FrameEvents.{Builds, IsSound};
ghost use Rattle.cqlp_build.specs.Emitted.{payload_parts, emitted};

use crate::held::{FrameEvents, has_flag};
use crate::lists::Wanted;
use cqlp_message::Frame;
use cqlp_note::{Field, Header};

impl FrameEvents {
    /// Takes the frame of this header.
    pub fn frame(&mut self, header: &Header) -> Frame
        ensures is { Builds (λ f. emitted (frame_parts f)) (BeginsWith header.now) (frame_of result) self.old self.new }
        ensures sized { IsSound self.new → IsSized self.new.cells_size (frame_of result).message }
    {
        self.check(!has_flag(header.flags, 0x01));
        let tracing = self.tracing_if(announces(header, 0x02));
        let warnings = self.warnings_if(announces(header, 0x08));
        let payload = self.payload_if(has_flag(header.flags, 0x04));
        let message = self.message(header.opcode);
        Frame {
            flags: header.flags,
            stream: header.stream,
            tracing,
            warnings,
            payload,
            message,
        }
    }

    /// Takes the id of a trace, if it is to be there.
    fn tracing_if(&mut self, there: bool) -> Option<[u8; 16]>
        ensures { Builds (λ o. emitted (body.where_some (λ id. Field_is field.TraceId notation.Uuid (Uuid id) ∷ []) o))
            (λ o. there_if there o ≡ true) result self.old self.new }
    {
        if there {
            Some(self.uuid(Field::TraceId))
        } else {
            None
        }
    }

    /// Takes the warnings, if they are to be there.
    fn warnings_if(&mut self, there: bool) -> Option<Vec<String>>
        ensures { Builds (λ o. emitted (body.where_some (body.texts field.Warnings field.Warning) o))
            (λ o. there_if there o ≡ true) (option_map texts_of result) self.old self.new }
    {
        if there {
            Some(self.texts(Field::Warnings, Field::Warning))
        } else {
            None
        }
    }

    /// Takes the custom payload, if it is to be there.
    fn payload_if(&mut self, there: bool) -> Option<Vec<(String, Option<Vec<u8>>)>>
        ensures { Builds
            (λ o. emitted (body.where_some
            (body.counted field.PayloadItems payload_parts) o))
            (λ o. there_if there o ≡ true)
            (option_map (λ is. map (λ i. (string_bytes i.0, bytes_of i.1)) is.items) result) self.old self.new }
    {
        if there {
            Some(self.counted(Field::PayloadItems, Wanted::PLAIN))
        } else {
            None
        }
    }
}

/// Whether it is a response's, and has some of these flags.
fn announces(header: &Header, bits: u8) -> bool
    ensures { result ≡ (answers header.now.opcode && has_bit header.now.flags bits) }
{
    header.opcode.is_response() && has_flag(header.flags, bits)
}
