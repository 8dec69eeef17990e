//! Why bytes could not be read.

ghost use Rattle.std.specs.Prelude.{◌≡◌};
ghost use Rattle.ssz_codec.specs.declared.fault.SszFault.TheVariants.{NoMemory};

use std::alloc::{AllocError, AllocFailed};
use thiserror::Error;

/// Why a value could not be read from bytes.
#[derive(Clone, Copy, Debug, PartialEq, Eq, Error)]
pub enum SszFault {
    /// No value within the limits has these bytes as its writing.
    #[error("no value within the limits is written so")]
    NotAWriting,
    /// There was no memory for the value.
    #[error("out of memory")]
    NoMemory,
}

impl From<AllocError> for SszFault {
    ghost from_gives = { λ _ e. e ≡ NoMemory };

    fn from(_refused: AllocError) -> SszFault {
        SszFault::NoMemory
    }
}

impl<T: Drop> From<AllocFailed<T>> for SszFault {
    ghost from_gives = { λ _ e. e ≡ NoMemory };

    fn from(_refused: AllocFailed<T>) -> SszFault {
        SszFault::NoMemory
    }
}
