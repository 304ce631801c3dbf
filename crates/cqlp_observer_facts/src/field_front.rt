//! The first bytes of a field, out of pieces.

ghost use Rattle.std.specs.Prelude.{◌≡◌, ◌≤◌, ◌==◌, ◌++◌, [], ◌∷◌, suc, length, take};

use std::marker::Model;

/// At most 15 bytes: a field that is longer is whole.
#[derive(Drop)]
pub(crate) struct FieldFront {
    bytes: [u8; 16],
    len: usize,
}

impl Model for FieldFront {
    ghost use Rattle.std.specs.Prelude.{List, ℕ, ◌≤◌, take};

    ghost Value = { List ℕ };

    ghost view = { λ front. take front.len front.bytes };

    ghost invariant = { λ front. front.len ≤ 15 };
}

impl FieldFront {
    #[inline(always)]
    pub(crate) fn new() -> Self
        ensures { result ≡ [] }
    {
        FieldFront {
            bytes: [0; 16],
            len: 0,
        }
    }

    /// No bytes.
    #[inline(always)]
    pub(crate) fn clear(&mut self)
        ensures { self.new ≡ [] }
    {
        self.len = 0;
    }

    /// The first so many of these bytes.
    #[inline(always)]
    pub(crate) fn of(bytes: [u8; 16], len: usize) -> Self
        requires { len ≤ 15 }
        ensures { result ≡ take len bytes }
    {
        FieldFront { bytes, len }
    }

    #[inline(always)]
    pub(crate) fn is_empty(&self) -> bool
        ensures { result ≡ (length self.now == 0) }
    {
        self.len == 0
    }

    /// These bytes and one more, and how many they are then.
    #[inline(always)]
    pub(crate) fn with(&self, byte: u8) -> ([u8; 16], usize)
        ensures bytes { take result.1 result.0 ≡ self.now ++ byte ∷ [] }
        ensures few { result.1 ≤ 16 }
        ensures count { result.1 ≡ suc (length self.now) }
    {
        let mut bytes = self.bytes;
        bytes[self.len] = byte;
        (bytes, self.len + 1)
    }
}
