//! What a header says of its frame's body.

ghost use Rattle.std.specs.Prelude.{◌≡◌, ◌≤◌, ◌↔◌, false, IfSome, IsSome};
ghost use Rattle.cqlp_note.specs.Heading.{has};
ghost use Rattle.cqlp_note.specs.declared.header.TheConstants.Header.{LONGEST_BODY};

use cqlp_note::Header;

/// What a header says of its frame's body, which a core does not look at: lawful flags and a lawful length. Section 2 of
/// `native_protocol_v4.spec`.
#[derive(Clone, Copy, Debug)]
pub struct Body {
    flags: u8,
    length: u32,
    ghost plain: { has flags 0x01 ≡ false },
    ghost bounded: { length ≤ LONGEST_BODY },
}

impl Body {
    /// A body of this many bytes, whose header has these flags. None where the flag 01, compression, is set, or where there
    /// are more bytes than [`Header::LONGEST_BODY`].
    #[must_use]
    pub fn new(flags: u8, length: u32) -> Option<Body>
        ensures says { IfSome result (λ body. (body.flags ≡ flags) × (body.length ≡ length)) }
        ensures lawful { IsSome result ↔ ((has flags 0x01 ≡ false) × (length ≤ LONGEST_BODY)) }
    {
        let compressed = flags & 0x01 > 0;
        if compressed || length > Header::LONGEST_BODY {
            return None;
        }
        Some(Body { flags, length })
    }

    /// The header's flags.
    #[must_use]
    pub fn flags(&self) -> u8
        ensures { result ≡ self.now.flags }
    {
        self.flags
    }

    /// The bytes of the body.
    #[must_use]
    pub fn length(&self) -> u32
        ensures { result ≡ self.now.length }
    {
        self.length
    }
}
