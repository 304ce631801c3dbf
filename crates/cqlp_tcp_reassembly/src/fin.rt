//! Where FIN lies.

ghost use Rattle.std.specs.Prelude.{◌≡◌, ◌+◌, ◌<◌, ◌^◌, None, Some};

use std::marker::Model;

/// The position of FIN, if that has come.
#[derive(Drop)]
pub(crate) struct FinPosition {
    /// One more than it, or 0.
    next: u64,
}

impl Model for FinPosition {
    ghost use Rattle.std.specs.Prelude.{ℕ, Option};
    ghost use Rattle.cqlp_tcp_reassembly.specs.Streams.{fin_before};

    ghost Value = { Option ℕ };

    ghost view = { λ p. fin_before p.next };
}

impl FinPosition {
    /// It has not come.
    pub(crate) fn none() -> Self
        ensures { result ≡ None }
    {
        FinPosition { next: 0 }
    }

    /// It has come.
    pub(crate) fn at(position: u64) -> Self
        requires { position + 1 < 2 ^ 64 }
        ensures { result ≡ Some position }
    {
        FinPosition { next: position + 1 }
    }

    pub(crate) fn get(&self) -> Option<u64>
        ensures { result ≡ self.now }
    {
        if self.next == 0 {
            None
        } else {
            Some(self.next - 1)
        }
    }
}
