//! What justification and finalisation change in a state.

use beacon_types::Checkpoint;

/// The justification bits and the three checkpoints of a state (beacon-chain.md, "BeaconState").
#[derive(Clone, Copy, Debug, PartialEq, Eq)]
pub struct Justification {
    /// Whether the current epoch, the one before it, and so on, are justified.
    pub bits: [bool; 4],
    /// The checkpoint that was justified last while the previous epoch ran.
    pub previous: Checkpoint,
    /// The checkpoint that was justified last.
    pub current: Checkpoint,
    /// The checkpoint that was finalised last.
    pub finalized: Checkpoint,
}
