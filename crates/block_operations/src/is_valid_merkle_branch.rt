//! Whether a branch leads from a leaf to a root (beacon-chain.md, "is_valid_merkle_branch").

ghost use Rattle.std.specs.Prelude.{◌≡◌, ◌+◌};
ghost use Rattle.beacon_types.specs.Containers.{deposit_contract_tree_depth};
ghost use Rattle.spec_blocks.specs.IsValidMerkleBranch.{is_valid_merkle_branch, node_above as node_of, hash_with_sibling as parent};

use hash_tree::{Root, hash_pair};

/// The hash of a node and its sibling, which stands left of it where the node's place in its level is odd.
#[tactic(auto, unfolding(spec_blocks::specs::IsValidMerkleBranch::hash_with_sibling))]
fn hash_with_sibling(value: &Root, sibling: &Root, place: u64) -> Root
    ensures { result ≡ parent value.now sibling.now place }
{
    if place % 2 == 1 {
        hash_pair(sibling, value)
    } else {
        hash_pair(value, sibling)
    }
}

/// The node above the leaf with an index that the whole branch leads to.
fn node_above(leaf: Root, branch: &[Root; 33], index: u64) -> Root
    ensures { result ≡ node_of leaf branch.now (deposit_contract_tree_depth + 1) index }
{
    let mut value = leaf;
    let mut place = index;
    for sibling in branch {
        value = hash_with_sibling(&value, sibling, place);
        place /= 2;
    }
    value
}

/// Whether a deposit's branch leads from the leaf with an index to the root (beacon-chain.md, `is_valid_merkle_branch`, at the
/// depth of the deposit contract's tree and one more for the number of deposits). It takes no memory.
#[tactic(auto, unfolding(spec_blocks::specs::IsValidMerkleBranch::is_valid_merkle_branch))]
pub fn branch_holds(leaf: Root, proof: &[Root; 33], index: u64, root: Root) -> bool
    ensures { result ≡ is_valid_merkle_branch leaf proof.now (deposit_contract_tree_depth + 1) index root }
{
    node_above(leaf, proof, index) == root
}
