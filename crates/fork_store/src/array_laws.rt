//! What the array of a store gives is what the store's own definitions give.
//!
//! The array comes from the store, whose blocks go by their places there; walks, weights, the filtered tree and the head go out
//! as roots.

ghost use Rattle.std.specs.Prelude.{◌≡◌, ◌≤◌, ℕ, List, map, Some};
ghost use Rattle.block_array.specs.PlainArray.{PlainArray, root_at};
ghost use Rattle.block_array.specs.FilterBlockTree.{get_filtered_block_tree as filtered_nodes};
ghost use Rattle.block_array.specs.GetAncestor.{get_ancestor as node_ancestor};
ghost use Rattle.block_array.specs.GetHead.{get_head as node_head};
ghost use Rattle.block_array.specs.GetLatestAttestingBalance.{get_latest_attesting_balance as node_weight};
ghost use Rattle.spec_fork_choice.specs.Store.{Store, first_slot};
ghost use Rattle.spec_fork_choice.specs.FilterBlockTree.{get_filtered_block_tree};
ghost use Rattle.spec_fork_choice.specs.GetAncestor.{get_ancestor};
ghost use Rattle.spec_fork_choice.specs.GetHead.{get_head};
ghost use Rattle.spec_fork_choice.specs.GetLatestAttestingBalance.{get_latest_attesting_balance};
ghost use Rattle.fork_store.specs.Arrays.{IsArrayOf, node_number};
ghost use Rattle.fork_store.specs.Stores.{IsStore};

/// The ancestor, at a slot that is no earlier than the first kept block, and the weight of a kept block are those of its node, the roots of the filtered tree are those of the filtered
/// nodes, and the head is the root of the head's node.
#[tactic(auto, using(crate::proofs::Arrays::agreeing))]
pub fn array_agrees()
    ensures ancestor { (store : Store) (array : PlainArray) → IsArrayOf store array → IsStore store → (root : List ℕ) (n : ℕ) → node_number store.blocks root ≡ Some n → (slot : ℕ) → first_slot store.blocks ≤ slot → get_ancestor store root slot ≡ root_at array.nodes (node_ancestor array.nodes n slot) }
    ensures weight { (store : Store) (array : PlainArray) → IsArrayOf store array → IsStore store → (root : List ℕ) (n : ℕ) → node_number store.blocks root ≡ Some n → get_latest_attesting_balance store root ≡ node_weight array n }
    ensures filtered { (store : Store) (array : PlainArray) → IsArrayOf store array → IsStore store → map (λ kept. kept.root) (get_filtered_block_tree store) ≡ map (root_at array.nodes) (filtered_nodes array) }
    ensures head { (store : Store) (array : PlainArray) → IsArrayOf store array → IsStore store → get_head store ≡ root_at array.nodes (node_head array) }
{}
