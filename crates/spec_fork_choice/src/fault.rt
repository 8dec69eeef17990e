//! What is wrong with an anchor.
//!
//! The bytes of a state and of its block come from files, and the fault goes to the run's status.

use thiserror::Error;

/// Why fork choice can't begin at a state and its block: the first of these that holds.
#[derive(Clone, Copy, Debug, PartialEq, Eq, Error)]
pub enum AnchorFault {
    /// The state's file has more than 2^30 bytes.
    #[error("the file has more than 1073741824 bytes")]
    StateTooLong,
    /// The bytes are no state's writing.
    #[error("the bytes are no state of the preset")]
    StateNotAWriting,
    /// The block's file has more than 2^22 bytes.
    #[error("the file has more than 4194304 bytes")]
    BlockTooLong,
    /// The bytes are no block's writing.
    #[error("the bytes are no block without its signature")]
    BlockNotAWriting,
    /// The state's slot, which is this one, isn't its epoch's first.
    #[error("the state's slot {0} is not the first of its epoch")]
    EpochStart(u64),
    /// The state's slot, which is the first of these, isn't the block's, which is the second.
    #[error("the state is of slot {0}, and the block of slot {1}")]
    BlockSlot(u64, u64),
    /// The state has a part that no state of a chain has.
    #[error("the state is not sound")]
    Unsound,
    /// The state's root, which is the first of these, isn't the state root that the block names, which is the second.
    #[error("the block's state root is not the state's root")]
    StateRoot([u8; 32], [u8; 32]),
    /// The root of the state's latest header, which is the first of these, isn't the block's root, which is the second.
    #[error("the state's latest block is another one")]
    Header([u8; 32], [u8; 32]),
    /// The genesis time, which is the first of these, and the slot's seconds, of which the slot is the second, don't fit in 64 bits.
    #[error("the genesis time {0} and the seconds up to slot {1} do not fit in 64 bits")]
    Time(u64, u64),
}
