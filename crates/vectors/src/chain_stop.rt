//! Why a block isn't added.

use bc_words::{NoMemory, Stop};
use forensics::BookStop;
use thiserror::Error;

/// Why a chain isn't begun, or a block isn't added to it.
#[derive(Clone, Copy, Debug, PartialEq, Eq, Error)]
pub enum ChainStop {
    /// The state begins no chain.
    #[error("the state begins no chain")]
    NoBeginning,
    /// The block isn't on the end of the chain.
    #[error("the block is not on the end of the chain")]
    NotOnTop,
    /// The root of the block or of the state behind it is zero.
    #[error("a root is zero")]
    ZeroRoot,
    /// There are as many blocks as there may be.
    #[error("too many blocks")]
    Full,
    /// The state transition stopped.
    #[error("{0}")]
    Step(Stop),
    /// The book stopped.
    #[error("{0}")]
    Book(BookStop),
    /// Memory was refused.
    #[error("out of memory")]
    NoMemory,
}

impl From<NoMemory> for ChainStop {
    fn from(_refused: NoMemory) -> ChainStop {
        ChainStop::NoMemory
    }
}

impl From<Stop> for ChainStop {
    fn from(stop: Stop) -> ChainStop {
        ChainStop::Step(stop)
    }
}

impl From<BookStop> for ChainStop {
    fn from(stop: BookStop) -> ChainStop {
        ChainStop::Book(stop)
    }
}
