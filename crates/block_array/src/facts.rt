//! What fork choice needs of the state behind a block.

use beacon_types::Checkpoint;

/// The current justified and the finalized checkpoint of a state.
#[derive(Clone, Copy)]
pub struct Facts {
    /// The current justified checkpoint.
    pub justified: Checkpoint,
    /// The finalized checkpoint.
    pub finalized: Checkpoint,
}
