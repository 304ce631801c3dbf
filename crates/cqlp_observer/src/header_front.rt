//! The first bytes of a frame, out of pieces.

ghost use Rattle.std.specs.Prelude.{◌≡◌, ◌≤◌, ◌==◌, ◌-◌, ◌++◌, [], length, take, IfSome};
ghost use Rattle.cqlp_observer.specs.Heads.{head_of};

use cqlp_note::Header;
use std::marker::Model;

/// At most as many bytes as a header has.
#[derive(Drop)]
pub(crate) struct HeaderFront {
    bytes: [u8; 9],
    len: u8,
}

impl Model for HeaderFront {
    ghost use Rattle.std.specs.Prelude.{List, ℕ, ◌≤◌, take};

    ghost Value = { List ℕ };

    ghost view = { λ front. take front.len front.bytes };

    ghost invariant = { λ front. front.len ≤ 9 };
}

impl HeaderFront {
    ghost use Rattle.cqlp_observer.specs.Heads.{head_within};

    #[inline(always)]
    pub(crate) fn new() -> Self
        ensures { result ≡ [] }
    {
        HeaderFront {
            bytes: [0; 9],
            len: 0,
        }
    }

    #[inline(always)]
    pub(crate) fn len(&self) -> usize
        ensures { result ≡ length self.now }
    {
        self.len.into()
    }

    /// These bytes, and as many of the input as there is room for.
    #[inline(always)]
    pub(crate) fn with(&self, input: &[u8]) -> Self
        ensures { result ≡ self.now ++ take (9 - length self.now) input.now }
    {
        let old = usize::from(self.len);
        let moved = input.len().min(9 - old);
        let len = old + moved;
        let mut bytes = self.bytes;
        bytes[old..len].copy_from_slice(&input[..moved]);
        HeaderFront {
            bytes,
            len: len as u8,
        }
    }

    /// The header that the bytes are, in this direction, if they are nine.
    #[inline(always)]
    pub(crate) fn head(&self, responses: bool) -> Option<Header>
        ensures { result ≡ head_within responses self.now }
    {
        if self.len < 9 {
            return None;
        }
        read_head(&self.bytes, responses)
    }
}

/// The header that nine bytes are in this direction. Its frame may be compressed.
#[inline(always)]
pub(crate) fn read_head(bytes: &[u8; 9], responses: bool) -> Option<Header>
    ensures { result ≡ head_of responses bytes.now }
{
    let flags = bytes[1];
    let mut plain = *bytes;
    plain[1] = flags & 0xFE;
    match Header::read(&plain, 0) {
        Ok(header) if header.response == responses => Some(Header { flags, ..header }),
        _ => None,
    }
}

/// The first nine bytes.
#[inline(always)]
pub(crate) fn first_nine(bytes: &[u8]) -> &[u8; 9]
    requires { 9 ≤ length bytes.now }
    ensures { result.now ≡ take 9 bytes.now }
{
    bytes.first_chunk().unwrap()
}
