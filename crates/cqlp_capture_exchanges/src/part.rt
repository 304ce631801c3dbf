//! Parts of the texts of statements.

ghost use Rattle.std.specs.Prelude.{◌≡◌, ◌≤◌, drop, length, take};
ghost use Rattle.cqlp_capture_exchanges.specs.Parts.{is_front, is_part};

/// Whether a text has a part.
#[tactic(auto, using(crate::proofs::Parts::one_further))]
pub(crate) fn is_part(part: &[u8], text: &[u8]) -> bool
    ensures { result ≡ is_part part.now text.now }
{
    for at in 0..text.len() {
        if is_front_at(part, text, at) {
            return true;
        }
    }
    part.is_empty()
}

/// Whether a text goes on with a part from a place on.
#[tactic(auto, unfolding(crate::specs::Parts::is_front))]
fn is_front_at(part: &[u8], text: &[u8], at: usize) -> bool
    requires { at ≤ length text.now }
    ensures { result ≡ is_front part.now (drop at text.now) }
{
    text[at..].starts_with(part)
}

/// How many bytes of a part count at most.
const ROOM: usize = 256;

/// A text that statements are to have, as far as its first 256 bytes: those of no statement are longer.
#[derive(Clone, Copy)]
pub struct StatementPart {
    /// These bytes, and after them zeros.
    bytes: [u8; ROOM],
    length: usize,
}

impl StatementPart {
    ghost use Rattle.cqlp_capture_exchanges.specs.Parts.{bytes_of, part_of};

    /// Those of this text.
    pub fn of(text: &str) -> StatementPart
        ensures { result ≡ part_of text.now }
    {
        let front = front_of(text.as_bytes());
        let length = front.len();
        let mut bytes = [0; ROOM];
        bytes[..length].copy_from_slice(front);
        StatementPart { bytes, length }
    }

    pub(crate) fn as_slice(&self) -> &[u8]
        ensures { result.now ≡ bytes_of self.now }
    {
        &self.bytes[..self.length.min(ROOM)]
    }
}

/// The first bytes of a text.
fn front_of(text: &[u8]) -> &[u8]
    ensures front { result.now ≡ take 256 text.now }
    ensures few { length result.now ≤ 256 }
{
    &text[..ROOM.min(text.len())]
}
