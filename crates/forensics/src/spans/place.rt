//! Where an attestation stands.

use hash_tree::Root;

/// Where an attestation stands in two histories: its votes have this in common, beside what they vote for.
#[derive(Clone, Copy)]
pub struct Place {
    /// The history: 0 for the first, 1 for the second.
    pub which: u8,
    /// The number of the event that accepted the block which carries it.
    pub event: u32,
    /// Its place in the block's body.
    pub position: u32,
    /// The block's root.
    pub block_root: Root,
}
