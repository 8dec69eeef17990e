//! Hash steps: the hash of two nodes, or the mixing of a length, each of which is counted.

ghost use Rattle.std.specs.Prelude.{◌≡◌, ℕ, ◌+◌, ◌*◌, ◌-◌, ◌≤◌, ◌^◌, List, length, IfOk, OnOk};
ghost use Rattle.hash_tree.specs.Merkle.{merkle_root, mix_in_length as mixed_in};
ghost use Rattle.hash_tree.specs.Pairs.{parents};
ghost use Rattle.tree_nodes.specs.inside.Nodes.{AreHalves, AreMade, IsPairOf};
ghost use Rattle.tree_nodes.specs.inside.Lifts.{Lifts};

use crate::node::Node;
use bc_words::{NoMemory, Steps};
use hash_tree::{Leaf, Root, hash_layer, hash_pair, mix_in_length, zero_hash};
use std::alloc::Global;
use std::sync::ledger::Ledger;

/// The tree over two halves, where memory was refused for neither. A step then.
pub(crate) fn pair_step<T: Leaf + Drop, L: Ledger>(
    left: Result<Node<T>, NoMemory>,
    right: Result<Node<T>, NoMemory>,
    alloc: Global,
    steps: &mut Steps<L>,
) -> Result<Node<T>, NoMemory>
    requires { AreMade AreHalves left right }
    ensures pair { IfOk result (IsPairOf left right) }
    ensures steps { OnOk result (steps.new ≡ steps.old + 1) }
    ensures at_most { steps.new ≤ steps.old + 1 }
{
    let left = left?;
    let right = right?;
    steps.tick();
    Node::pair(left, right, alloc)
}

/// Writes the parents of a layer of nodes. A step for each.
pub(crate) fn layer_step<L: Ledger>(nodes: &[Root], above: &mut [Root], steps: &mut Steps<L>)
    requires { length nodes.now ≡ 2 * length above.old }
    ensures parents { above.new ≡ parents nodes.now }
    ensures steps { steps.new ≡ steps.old + length above.old }
{
    'above: for _ in 0..above.len() {
        steps.tick();
    }
    hash_layer(nodes, above);
}

/// The root of a tree of a greater depth over the same items.
pub(crate) fn lift_steps<L: Ledger>(root: Root, low: u32, depth: u32, steps: &mut Steps<L>) -> Root
    requires order { low ≤ depth }
    requires deep { depth ≤ 40 }
    ensures lifts { Lifts low depth root result }
    ensures steps { steps.new ≡ steps.old + (depth - low) }
{
    let mut top = root;
    'levels: for level in low..depth {
        steps.tick();
        top = hash_pair(&top, &zero_hash(level));
    }
    top
}

/// The same, where nothing is counted.
pub(crate) fn lift(root: Root, low: u32, depth: u32) -> Root
    requires order { low ≤ depth }
    requires deep { depth ≤ 40 }
    ensures { Lifts low depth root result }
{
    let mut top = root;
    'levels: for level in low..depth {
        top = hash_pair(&top, &zero_hash(level));
    }
    top
}

/// The root of a list, from that of its tree.
pub fn mix_step<L: Ledger>(root: &Root, length: u64, steps: &mut Steps<L>) -> Root
    ensures mixed { result ≡ mixed_in root.now length }
    ensures steps { steps.new ≡ steps.old + 1 }
{
    steps.tick();
    mix_in_length(root, length)
}
