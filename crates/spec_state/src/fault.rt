//! What is wrong with a genesis state.

use thiserror::Error;

/// What is wrong with a validator of a genesis state: the first of these that holds.
#[derive(Clone, Copy, Debug, PartialEq, Eq, Error)]
pub enum ValidatorFault {
    /// It is slashed.
    #[error("it is slashed")]
    Slashed,
    /// Its exit epoch is set.
    #[error("its exit epoch is set")]
    ExitEpoch,
    /// Its withdrawable epoch is set.
    #[error("its withdrawable epoch is set")]
    WithdrawableEpoch,
    /// Its activation epoch is neither 0 nor unset.
    #[error("its activation epoch is neither 0 nor unset")]
    ActivationEpoch,
    /// Its effective balance is above the maximum.
    #[error("its effective balance is above the maximum")]
    EffectiveBalance,
}

/// The first part of a genesis file that is wrong.
#[derive(Clone, Copy, Debug, PartialEq, Eq, Error)]
pub enum GenesisFault {
    /// The file has more than 2^30 bytes.
    #[error("the file has more than 1073741824 bytes")]
    TooLong,
    /// The bytes are no state's writing.
    #[error("the bytes are no state of the preset")]
    NotAWriting,
    /// The slot isn't 0.
    #[error("the slot is not 0")]
    Slot,
    /// The latest block header isn't that of the empty block.
    #[error("the latest block header is not that of an empty block")]
    Header,
    /// A checkpoint isn't zero.
    #[error("a checkpoint is not zero")]
    Checkpoints,
    /// A justification bit is set.
    #[error("a justification bit is set")]
    Bits,
    /// A slashed balance isn't 0.
    #[error("a slashed balance is not 0")]
    Slashings,
    /// A pending attestation, an eth1 vote or a historical root is there.
    #[error("a list of attestations, votes or historical roots is not empty")]
    Lists,
    /// There aren't as many balances as validators.
    #[error("there are not as many balances as validators")]
    Balances,
    /// The first validator that is wrong.
    #[error("validator {0}: {1}")]
    Validator(u64, ValidatorFault),
}
