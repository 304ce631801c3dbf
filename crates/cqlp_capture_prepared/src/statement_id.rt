//! The ids of statements.

ghost use Rattle.std.specs.Prelude.{◌≡◌};
ghost use Rattle.cqlp_capture_prepared.specs.Keeping.{short_enough};

use std::marker::Model;

/// The id that a PREPARED response gives to a statement, at most [`StatementId::MOST`] bytes of it: a \[short bytes\], section 4.2.5.4 of
/// `native_protocol_v4.spec`.
#[derive(Drop)]
pub struct StatementId {
    bytes: [u8; 64],
    len: usize,
}

impl Model for StatementId {
    ghost use Rattle.std.specs.Prelude.{List, ℕ, ◌≤◌, take};

    ghost Value = { List ℕ };

    ghost view = { λ id. take id.len id.bytes };

    ghost invariant = { λ id. id.len ≤ 64 };
}

impl StatementId {
    /// How many bytes an id has at most.
    pub const MOST: usize = 64;

    /// The id of these bytes. `None` where they are more than [`StatementId::MOST`].
    pub fn new(id: &[u8]) -> Option<Self>
        ensures { result ≡ short_enough id.now }
    {
        if id.len() > Self::MOST {
            return None;
        }
        let mut bytes = [0; 64];
        bytes[..id.len()].copy_from_slice(id);
        Some(StatementId {
            bytes,
            len: id.len(),
        })
    }

    pub fn as_slice(&self) -> &[u8]
        ensures { result.now ≡ self.now }
    {
        &self.bytes[..self.len]
    }
}

ghost use Rattle.std.specs.Str.{bytes_eq};
ghost use Rattle.std.specs.Cmp.{partial_equiv_from_equiv};
ghost use Rattle.std.specs.Cmp.Lexicographic.{nat_list_eq_equiv};

impl PartialEq for StatementId {
    ghost eq = { bytes_eq };

    ghost laws = { partial_equiv_from_equiv nat_list_eq_equiv };

    fn eq(&self, other: &Self) -> bool {
        self.as_slice() == other.as_slice()
    }
}

impl Eq for StatementId {
    ghost laws = { nat_list_eq_equiv };
}
