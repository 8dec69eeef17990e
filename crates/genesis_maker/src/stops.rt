//! Why no genesis is made.

ghost use Rattle.std.specs.Prelude.{◌≡◌};
ghost use Rattle.genesis_maker.specs.declared.stops.MakeStop.TheVariants as makes;

use bc_words::{NoMemory, Stop};
use spec_genesis::DepositsFault;
use thiserror::Error;

/// Why deposits make no genesis.
#[derive(Clone, Copy, Debug, PartialEq, Eq, Error)]
pub enum MakeStop {
    /// The first deposit whose amount doesn't fit into the balance of its key, from 0.
    #[error("the amount of deposit {0} does not fit into the balance of its key")]
    Overflow(u64),
    /// Memory was refused.
    #[error("out of memory")]
    NoMemory,
}

/// Why a file of deposits makes no genesis.
#[derive(Clone, Copy, Debug, PartialEq, Eq, Error)]
pub enum DepositsStop {
    /// The first fault of the file.
    #[error("{0}")]
    Fault(DepositsFault),
    /// Memory was refused.
    #[error("out of memory")]
    NoMemory,
}

/// Why a deposit isn't processed, and which one it is, from 0.
#[derive(Clone, Copy)]
pub(crate) struct StoppedAt {
    /// The deposit.
    pub(crate) index: u64,
    /// Why.
    pub(crate) stop: Stop,
}

impl From<NoMemory> for MakeStop {
    ghost from_gives = { λ _ e. e ≡ makes.NoMemory };

    fn from(_refused: NoMemory) -> MakeStop {
        MakeStop::NoMemory
    }
}
