//! Ancestors of kept blocks (fork-choice.md, "get_ancestor"), walked to in the array of nodes.

ghost use Rattle.std.specs.Prelude.{◌≡◌, ◌<◌, ◌≤◌, length, slice_index_or, [], Some};
ghost use Rattle.beacon_types.specs.Equality.{same_root};
ghost use Rattle.spec_fork_choice.specs.Slots.{start_slot_of};
ghost use Rattle.spec_fork_choice.specs.GetAncestor.{get_ancestor};
ghost use Rattle.spec_fork_choice.specs.Store.{first_slot};
ghost use Rattle.fork_store.specs.Arrays.{AreNodesOf, node_number};

use crate::kept_blocks::node_number;
use crate::slots::start_slot;
use crate::store_fields::StoreFields;
use beacon_types::Checkpoint;
use block_array::BlockArray;
use hash_tree::Root;

/// The root at a place.
#[tactic(auto, using(crate::proofs::Heads::reading))]
pub fn root_at(roots: &[Root], place: usize) -> Root
    requires { place < length roots.now }
    ensures { result ≡ slice_index_or roots.now place [] }
{
    match roots.get(place) {
        Some(root) => *root,
        None => unreachable!(),
    }
}

/// The block at a slot on the chain of a kept block, or the last one before it (fork-choice.md, `get_ancestor`), by the numbers
/// of parents in the array. The slot isn't before the first kept block, so that the walk doesn't go below that. It may be any first slot of
/// an epoch, so that it has 128 bits; no block is as late as 2^64.
#[tactic(auto, using(crate::proofs::Walks::walking, crate::proofs::Walks::ending))]
pub fn ancestor_of(
    store: &StoreFields,
    array: &BlockArray,
    node: u32,
    root: Root,
    slot: u128,
) -> Root
    requires nodes { AreNodesOf store.now.blocks array.now.nodes }
    requires number { Some node ≡ node_number store.now.blocks root }
    requires late { first_slot store.now.blocks ≤ slot }
    ensures { result ≡ get_ancestor store.now root slot }
{
    store.is_sound();
    if slot > u128::from(u64::MAX) {
        return root;
    }
    let ancestor = array.ancestor(node, slot as u64);
    root_at(store.blocks().roots(), ancestor as usize)
}

/// The same of a root, which may be no kept block's: then it is the root itself.
#[tactic(auto, using(crate::proofs::Walks::walk_nowhere))]
fn get_ancestor(store: &StoreFields, array: &BlockArray, root: Root, slot: u128) -> Root
    requires nodes { AreNodesOf store.now.blocks array.now.nodes }
    requires late { first_slot store.now.blocks ≤ slot }
    ensures { result ≡ get_ancestor store.now root slot }
{
    match node_number(store.blocks(), root) {
        Some(node) => ancestor_of(store, array, node, root, slot),
        None => root,
    }
}

/// Whether a block is behind a checkpoint: whether its ancestor at the first slot of the checkpoint's epoch is the
/// checkpoint's block. That slot isn't before the first kept block.
pub fn is_behind(
    store: &StoreFields,
    array: &BlockArray,
    root: Root,
    checkpoint: Checkpoint,
) -> bool
    requires nodes { AreNodesOf store.now.blocks array.now.nodes }
    requires late { first_slot store.now.blocks ≤ start_slot_of store.now checkpoint }
    ensures { result ≡ same_root (get_ancestor store.now root (start_slot_of store.now checkpoint)) checkpoint.root }
{
    get_ancestor(store, array, root, start_slot(store, checkpoint)) == checkpoint.root
}
