//! Why a handler of the store did not accept an event.
//!
//! The handlers of fork choice answer these; what the state transition answers becomes one of them by `?`.

ghost use Rattle.std.specs.Prelude.{◌≡◌};

use crate::refusal::Refusal;
use crate::stop::{Limit, NoMemory, Stop, limited, out_of_memory, refused};
use std::alloc::{AllocError, AllocFailed};
use thiserror::Error;

/// Why the root of a block that would be accepted is no name for it alone.
#[derive(Clone, Copy, Debug, PartialEq, Eq)]
pub enum ClashKind {
    /// The block's root is zero.
    ZeroBlock,
    /// The block's state root is zero.
    ZeroState,
    /// The root belongs to a kept block with another content: the one with this number in order of first acceptance,
    /// the genesis block being 0.
    Kept(u32),
}

/// Why an event is not accepted. The store is as before it.
#[derive(Clone, Copy, Debug, PartialEq, Eq, Error)]
pub enum StoreStop {
    /// The first check that failed.
    #[error(fmt = refused)]
    Refused(Refusal),
    /// A bound of this program.
    #[error(fmt = limited)]
    Limit(Limit),
    /// The block would be accepted, and its root is no name for it alone.
    #[error("clash: {0:?}")]
    Clash(ClashKind),
    /// Memory was refused.
    #[error(fmt = out_of_memory)]
    NoMemory,
}

impl From<AllocError> for StoreStop {
    ghost use Rattle.bc_words.specs.declared.store_stop.StoreStop.TheVariants as stores;
    ghost use Rattle.std.specs.Prelude.{◌≡◌};

    ghost from_gives = { λ _ e. e ≡ stores.NoMemory };

    fn from(_refused: AllocError) -> StoreStop {
        StoreStop::NoMemory
    }
}

impl<T: Drop> From<AllocFailed<T>> for StoreStop {
    ghost use Rattle.bc_words.specs.declared.store_stop.StoreStop.TheVariants as stores;
    ghost use Rattle.std.specs.Prelude.{◌≡◌};

    ghost from_gives = { λ _ e. e ≡ stores.NoMemory };

    fn from(_refused: AllocFailed<T>) -> StoreStop {
        StoreStop::NoMemory
    }
}

impl From<NoMemory> for StoreStop {
    ghost use Rattle.bc_words.specs.declared.store_stop.StoreStop.TheVariants as stores;
    ghost use Rattle.std.specs.Prelude.{◌≡◌};

    ghost from_gives = { λ _ e. e ≡ stores.NoMemory };

    fn from(_refused: NoMemory) -> StoreStop {
        StoreStop::NoMemory
    }
}

impl From<Refusal> for StoreStop {
    ghost use Rattle.bc_words.specs.declared.store_stop.StoreStop.TheVariants as stores;
    ghost use Rattle.std.specs.Prelude.{◌≡◌};

    ghost from_gives = { λ refusal e. e ≡ stores.Refused refusal };

    fn from(refusal: Refusal) -> StoreStop {
        StoreStop::Refused(refusal)
    }
}

impl From<ClashKind> for StoreStop {
    ghost use Rattle.bc_words.specs.declared.store_stop.StoreStop.TheVariants as stores;
    ghost use Rattle.std.specs.Prelude.{◌≡◌};

    ghost from_gives = { λ kind e. e ≡ stores.Clash kind };

    fn from(kind: ClashKind) -> StoreStop {
        StoreStop::Clash(kind)
    }
}

impl From<Stop> for StoreStop {
    ghost use Rattle.bc_words.specs.Events.{store_stop};
    ghost use Rattle.std.specs.Prelude.{◌≡◌};

    ghost from_gives = { λ stop e. e ≡ store_stop stop };

    fn from(stop: Stop) -> StoreStop {
        match stop {
            Stop::Refused(refusal) => StoreStop::Refused(refusal),
            Stop::Limit(limit) => StoreStop::Limit(limit),
            Stop::NoMemory => StoreStop::NoMemory,
        }
    }
}
