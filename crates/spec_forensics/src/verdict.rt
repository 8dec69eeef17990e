//! What two histories on one genesis come to.

use hash_tree::Root;

/// The verdict on two histories: the first of these that applies.
#[derive(Clone, Copy, Debug, PartialEq, Eq)]
pub enum Verdict {
    /// One of them finalised nothing, or one finalised block is the other or its ancestor.
    Agree,
    /// The total active balance of genesis, in Gwei, is below two increments.
    Small(u64),
    /// The validators of a history, 0 or 1, moved: the first block and the first epoch within it at whose processing they aren't those
    /// of genesis.
    Moved {
        /// The history.
        which: u8,
        /// The root of the block.
        root: Root,
        /// The epoch that was processed.
        epoch: u64,
    },
    /// They finalised blocks apart.
    Conflict {
        /// What the offenders that are active at genesis have there, in Gwei.
        balance: u64,
        /// The total active balance of genesis, in Gwei.
        total: u64,
    },
}
