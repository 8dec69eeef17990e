//! A vote, and where it stands.

use beacon_types::AttestationData;
use hash_tree::Root;

/// The vote of one attester of an attestation, with the place of that attestation.
#[derive(Clone, Copy)]
pub struct Vote {
    /// The history that carries it: 0 for the first, 1 for the second.
    pub which: u8,
    /// The number of the event that accepted the block which carries it.
    pub event: u32,
    /// The place of the attestation in the block's body, from 0.
    pub position: u32,
    /// The block's root.
    pub block_root: Root,
    /// The index of the validator that votes.
    pub validator: u64,
    /// What it votes for.
    pub content: AttestationData,
}
