//! The parts of frames, written.

ghost use Rattle.std.specs.Prelude.{◌≡◌, length};
ghost use Rattle.cqlp_message.specs.PartRefs.{part_of};
ghost use Rattle.cqlp_message.specs.Parts.{part_bytes, part_size};
ghost use Rattle.cqlp_encode.specs.Progress.{PutsWithin};

use crate::staged::Staged;
use crate::types::put_tree;
use crate::values::put_value;
use cqlp_message::{PartRef, TakesParts};
use cqlp_note::Target;

impl<'a, W: Target> TakesParts for Staged<'a, W> {
    ghost use Rattle.cqlp_encode.specs.Progress as progress;
    ghost use Rattle.cqlp_encode.specs.Progress.{HasTakenParts};

    ghost Before = { progress.Before };

    ghost taken = { HasTakenParts };

    #[inline(always)]
    fn take(&mut self, part: PartRef<'_>) {
        self.put_part(part);
    }
}

impl<'a, W: Target> Staged<'a, W> {
    /// Takes a part.
    #[inline(always)]
    fn put_part(&mut self, part: PartRef<'_>)
        ensures puts { PutsWithin (part_size (part_of part.entry)) self.old (part_bytes (part_of part.entry)) self.new }
        ensures size { length (part_bytes (part_of part.entry)) ≡ part_size (part_of part.entry) }
    {
        match part {
            PartRef::Cell { value, .. } => put_value(self, value),
            _ => self.put_any_part(part),
        }
    }

    /// The same of a part that is mostly no cell.
    #[tactic(auto, using(crate::proofs::Contents::whole))]
    fn put_any_part(&mut self, part: PartRef<'_>)
        ensures puts { PutsWithin (part_size (part_of part.entry)) self.old (part_bytes (part_of part.entry)) self.new }
        ensures size { length (part_bytes (part_of part.entry)) ≡ part_size (part_of part.entry) }
    {
        match part {
            PartRef::Byte(_, value) => self.put_byte(value),
            PartRef::Short(_, value) => self.put_short(value),
            PartRef::Int(_, value) => self.put_int(value),
            PartRef::Long(_, value) => self.put_long(value),
            PartRef::Uuid(_, id) => self.put_uuid(*id),
            PartRef::Count16(_, count) => self.put_count16(count),
            PartRef::Count32(_, count) => self.put_count32(count),
            PartRef::Text(_, text) => self.put_text(text),
            PartRef::LongText(_, text) => self.put_content(text.as_bytes()),
            PartRef::ShortBytes(_, content) => self.put_short_content(content),
            PartRef::Bytes(_, bytes) => self.put_bytes(bytes),
            PartRef::Bound(_, value) => self.put_bound(value),
            PartRef::Inet(_, address, port) => self.put_inet(&address, port),
            PartRef::Type(tree) => put_tree(self, tree),
            PartRef::Cell { value, .. } => put_value(self, value),
        }
    }
}
