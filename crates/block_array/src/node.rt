//! A block as fork choice sees it, and a vote for one.

use crate::facts::Facts;
use hash_tree::Root;

/// A block: its parent's number, its slot, its root, and facts of the state behind it. The first one has no parent.
#[derive(Clone, Copy)]
pub struct Node {
    /// The number of the parent.
    pub parent: Option<u32>,
    /// The slot.
    pub slot: u64,
    /// The root.
    pub root: Root,
    /// The checkpoints of the state behind the block.
    pub facts: Facts,
}

/// The last vote of a validator (fork-choice.md, "LatestMessage").
#[derive(Clone, Copy)]
pub struct Message {
    /// The epoch of its target.
    pub epoch: u64,
    /// The number of the node that it is for.
    pub node: u32,
}
