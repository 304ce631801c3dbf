//! Why no value was read.

ghost use Rattle.std.specs.Prelude.{◌≡◌};
ghost use Rattle.cqlp_read_value.specs.declared.error.ReadError.TheVariants.{NoMemory};

use cqlp_note::Refusal;
use std::alloc::{AllocError, AllocFailed};
use thiserror::Error;

/// Why no value was read of bytes.
#[derive(Clone, Copy, Debug, PartialEq, Eq, Error)]
pub enum ReadError {
    /// The bytes are refused at this offset in them.
    #[error("{0:?}")]
    Refused(Refusal),
    /// In the type a `Plain` is of the kind `Raw` or of one that has parameters, so it is the type of no cell.
    #[error("the type of a cell is not formed")]
    Unformed,
    /// Memory was refused.
    #[error("no memory")]
    NoMemory,
}

impl From<AllocError> for ReadError {
    ghost from_gives = { λ _ e. e ≡ NoMemory };

    fn from(_: AllocError) -> Self {
        ReadError::NoMemory
    }
}

impl<T: Drop> From<AllocFailed<T>> for ReadError {
    ghost from_gives = { λ _ e. e ≡ NoMemory };

    fn from(_: AllocFailed<T>) -> Self {
        ReadError::NoMemory
    }
}
