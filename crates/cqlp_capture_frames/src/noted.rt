//! Bytes that only proofs read. They take no memory, and noting them does nothing.

ghost use Rattle.std.specs.Prelude.{◌≡◌, ℕ, List, [], ◌++◌};
ghost use Rattle.std.specs.Borrow.{ftrue};

use std::marker::{Model, PhantomData};

/// Bytes that were noted, one piece after the other. Contracts read them as `bytes`.
#[derive(Drop)]
pub(crate) struct Noted {
    marker: PhantomData<u8>,
    pub(crate) ghost bytes: { List ℕ },
}

impl Model for Noted {
    ghost also_owns = { λ _. ftrue };
}

impl Noted {
    /// Nothing was noted.
    pub(crate) fn new() -> Noted
        ensures { result.bytes ≡ [] }
    {
        Noted {
            marker: PhantomData,
        }
    }

    /// These come after those that were noted.
    pub(crate) fn note(&mut self, _bytes: &[u8])
        ensures { self.new.bytes ≡ self.old.bytes ++ _bytes.now }
    {}
}
