//! Why nothing can be kept.

use std::alloc::AllocError;
use thiserror::Error;

/// Why the types of statements cannot be kept.
#[derive(Clone, Copy, Debug, PartialEq, Eq, Drop, Error)]
pub enum NewPreparedError {
    #[error("a limit is 0")]
    BadLimit,
    #[error("no memory")]
    NoMemory,
}

impl From<AllocError> for NewPreparedError {
    ghost use Rattle.cqlp_capture_prepared.specs.declared.error.NewPreparedError.TheVariants.{NoMemory};
    ghost use Rattle.std.specs.Prelude.{◌≡◌};

    ghost from_gives = { λ _ e. e ≡ NoMemory };

    fn from(_: AllocError) -> NewPreparedError {
        NewPreparedError::NoMemory
    }
}
