//! An offence: two votes that nobody may cast both.

use crate::vote::Vote;

/// How two votes break a rule (beacon-chain.md, `is_slashable_attestation_data`).
#[derive(Clone, Copy, Debug, PartialEq, Eq)]
pub enum OffenceKind {
    /// Two votes for one target epoch.
    Double,
    /// One vote begins before the other and ends behind it.
    Surround,
}

/// The offence of a validator.
#[derive(Clone, Copy)]
pub struct Offence {
    /// The validator's index.
    pub validator: u64,
    /// What it is.
    pub kind: OffenceKind,
    /// The vote that is printed first: of a double the earlier one, of a surround the surrounding one.
    pub first: Vote,
    /// The other one.
    pub second: Vote,
}
