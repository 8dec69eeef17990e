//! Why a call to the outside fails.

ghost use Rattle.std.specs.Prelude.{◌≡◌};
ghost use Rattle.bc_outside.specs.declared.trouble.Trouble.TheVariants.{NoMemory};

use std::alloc::{AllocError, AllocFailed};
use thiserror::Error;

/// Why a call to a [`Shelf`](crate::Shelf) or a [`Sink`](crate::Sink) gave nothing.
#[derive(Clone, Copy, Debug, PartialEq, Eq, Error)]
pub enum Trouble {
    /// The outside failed, and counted a fault.
    #[error("the call failed")]
    Failed,
    /// Memory ran out.
    #[error("out of memory")]
    NoMemory,
}

impl From<AllocError> for Trouble {
    ghost from_gives = { λ _ trouble. trouble ≡ NoMemory };

    fn from(_: AllocError) -> Self {
        Trouble::NoMemory
    }
}

impl<T: Drop> From<AllocFailed<T>> for Trouble {
    ghost from_gives = { λ _ trouble. trouble ≡ NoMemory };

    fn from(_: AllocFailed<T>) -> Self {
        Trouble::NoMemory
    }
}
