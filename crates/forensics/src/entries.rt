//! What a verdict reads of the blocks of a history: an entry for each, and chains that are followed through the entries.
//!
//! A chain is followed backwards in one pass, since each block is behind its parent. No pass takes memory.

ghost use Rattle.std.specs.Prelude.{◌≡◌, None, length, reverse};
ghost use Rattle.beacon_types.specs.Equality.{same_root};
ghost use Rattle.forensics.specs.inside.Entries.{reaches, move_or, earliest, finalizing};

use beacon_state::State;
use beacon_types::{BeaconBlock, Checkpoint, same_checkpoint};
use hash_tree::Root;

/// What is kept of an accepted block.
#[derive(Clone, Copy)]
pub(crate) struct Entry {
    /// Its root.
    pub(crate) root: Root,
    /// That of its parent.
    pub(crate) parent: Root,
    /// The finalised checkpoint of the state behind it.
    pub(crate) finalized: Checkpoint,
    /// The epoch of the first state entered on the way to it at which the validators aren't those of genesis.
    pub(crate) moved: Option<u64>,
}

/// The entry of a block, by the state behind it. Its root has 32 bytes.
pub(crate) fn entry_of(root: Root, block: &BeaconBlock, state: &State, moved: Option<u64>) -> Entry
    ensures root { length root ≡ 32 }
    ensures exact { result ≡ record { root = root; parent = block.now.parent_root; finalized = state.now.finalized_checkpoint; moved = moved } }
{
    let parent = block.parent_root;
    let finalized = state.finalized_checkpoint();
    Entry {
        root,
        parent,
        finalized,
        moved,
    }
}

/// Whether an entry is that of a root.
fn has_root(entry: &Entry, root: &Root) -> bool
    ensures { result ≡ same_root entry.now.root root.now }
{
    entry.root == *root
}

/// Whether a root is that of a block or of one of its ancestors, genesis among them.
#[tactic(auto, using(crate::proofs::Chained::walks))]
pub(crate) fn is_on_chain(
    entries: &[Entry],
    genesis_root: &Root,
    block: Root,
    ancestor: &Root,
) -> bool
    ensures { result ≡ reaches genesis_root.now ancestor.now (reverse entries.now) block }
{
    let mut root = block;
    for i in (0..entries.len()).rev() {
        let entry = &entries[i];
        if has_root(entry, &root) {
            if has_root(entry, ancestor) {
                return true;
            }
            root = entry.parent;
        }
    }
    *genesis_root == *ancestor
}

/// The move of a block, and else one that was found.
#[tactic(auto, unfolding(crate::specs::inside::Entries::move_or))]
fn move_or(entry: &Entry, found: Option<(Root, u64)>) -> Option<(Root, u64)>
    ensures { result ≡ move_or entry.now entry.now.moved found }
{
    match entry.moved {
        Some(epoch) => Some((entry.root, epoch)),
        None => found,
    }
}

/// The first block on the chain to a block, and the epoch, at which the validators moved: an earlier move overwrites a later one.
#[tactic(auto, using(crate::proofs::Chained::walks))]
pub(crate) fn earliest_move(entries: &[Entry], block: Root) -> Option<(Root, u64)>
    ensures { result ≡ earliest (reverse entries.now) block None }
{
    let mut root = block;
    let mut found = None;
    for i in (0..entries.len()).rev() {
        let entry = &entries[i];
        if has_root(entry, &root) {
            found = move_or(entry, found);
            root = entry.parent;
        }
    }
    found
}

/// The root of the first block whose state has a finalised checkpoint.
#[tactic(auto, using(crate::proofs::Chained::searching))]
pub(crate) fn finalizing_root(entries: &[Entry], finalized: &Checkpoint) -> Option<Root>
    ensures { result ≡ finalizing entries.now finalized.now }
{
    for place in 0..entries.len() {
        let entry = &entries[place];
        if same_checkpoint(&entry.finalized, finalized) {
            return Some(entry.root);
        }
    }
    None
}
