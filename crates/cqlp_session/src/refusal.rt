//! Why a core is not made.

use std::alloc::AllocError;
use thiserror::Error;

/// Why a core is not made.
#[derive(Clone, Copy, Debug, PartialEq, Eq, Error)]
pub enum SlotsOrMemory {
    /// The number of slots is 0, or more than the 32,768 stream ids from 0 to 32,767. Section 2.3.
    #[error("the number of slots is not from 1 to 32768")]
    BadSlots,
    /// Memory for the slots was refused.
    #[error("no memory")]
    NoMemory,
}

impl From<AllocError> for SlotsOrMemory {
    ghost use Rattle.cqlp_session.specs.declared.refusal.SlotsOrMemory.TheVariants.{NoMemory};
    ghost use Rattle.std.specs.Prelude.{◌≡◌};

    ghost from_gives = { λ _ e. e ≡ NoMemory };

    fn from(_: AllocError) -> Self {
        SlotsOrMemory::NoMemory
    }
}
