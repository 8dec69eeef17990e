//! What is wrong with a state or an epoch whose duties are asked for.

use bc_words::Refusal;
use thiserror::Error;

/// Why a file of a state and an epoch have no duties to tell, the first that holds.
#[derive(Clone, Copy, Debug, PartialEq, Eq, Error)]
pub enum DutiesFault {
    /// The file has more than 2^30 bytes.
    #[error("the file has more than 1073741824 bytes")]
    TooLong,
    /// The bytes are no state.
    #[error("the bytes are no state")]
    NotAWriting,
    /// The state has a part that no state of a chain has.
    #[error("the state is not sound")]
    Unsound,
    /// The epoch is neither the state's current one nor the next.
    #[error("the epoch is neither the state's current one nor the next")]
    Epoch,
    /// A number doesn't fit in 64 bits, or nobody is active to propose.
    #[error("refused {} {}", .0.number(), .0.name())]
    Refused(Refusal),
}
