//! What the votes of an epoch bring and cost each validator.

use ssz_codec::Items;

/// Rewards and penalties of each validator, in Gwei, in order of index (beacon-chain.md, "Rewards and penalties").
#[derive(Drop)]
pub struct Deltas {
    /// What is added to each balance.
    pub rewards: Items<u64>,
    /// What is taken from each balance then.
    pub penalties: Items<u64>,
}
