//! Links between checkpoints, and what validators made of them.

use beacon_types::Checkpoint;

/// A vote from a justified checkpoint to a later one (the Casper FFG paper, "link").
#[derive(Clone, Copy)]
pub struct Link {
    /// Where it begins.
    pub source: Checkpoint,
    /// Where it ends.
    pub target: Checkpoint,
}

/// A link, and the validators that voted for it.
#[derive(Clone, Copy)]
pub struct VotedLink<'a> {
    /// The link.
    pub link: Link,
    /// The indices of its validators.
    pub validators: &'a [u64],
}
