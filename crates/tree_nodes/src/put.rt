//! A tree like another one with one item changed, or with one more.
//!
//! The nodes of one path are made anew, and all others are shared. Where every item changes, the tree is built layer by
//! layer. Where some do, what the tree becomes is planned, and then its new pairs are hashed.

ghost use Rattle.std.specs.Prelude.{◌≡◌, ◌+◌, ◌*◌, ◌<◌, ◌≤◌, ◌^◌, [], ◌∷◌, length, map, IfOk, OnOk};
ghost use Rattle.tree_nodes.specs.Changes.{AreChanges, changed};
ghost use Rattle.tree_nodes.specs.inside.Puts.{put_at, Grows, Reaches};

use crate::build::leaves_of;
use crate::layers::layered;
use crate::node::{NewLeaf, Node, half_width};
use crate::plan::plan_all;
use crate::several::{settle_apart, settle_one};
use crate::taking::next_of;
use crate::work::pair_step;
use bc_words::{NoMemory, Steps};
use hash_tree::Leaf;
use std::alloc::Global;
use std::sync::ledger::Ledger;

/// From how many changes on the pairs of a layer are hashed by one call: so many are hashed side by side.
pub(crate) const LANES: usize = 8;

/// The tree of a depth whose first leaf is this one, and which has no other. A step for each level.
fn sprout<T: Leaf + Drop, L: Ledger>(
    leaf: NewLeaf<T>,
    depth: u32,
    alloc: Global,
    steps: &mut Steps<L>,
) -> Result<Node<T>, NoMemory>
    requires { depth ≤ 40 }
    ensures one { IfOk result (λ node. node ≡ (depth, leaf ∷ [])) }
    ensures steps { OnOk result (steps.new ≡ steps.old + depth) }
    ensures at_most { steps.new ≤ steps.old + depth }
{
    if depth == 0 {
        return Ok(leaf.node());
    }
    let left = sprout(leaf, depth - 1, alloc, steps);
    pair_step(left, Ok(Node::absent(depth - 1)), alloc, steps)
}

/// The tree with a leaf at a place: in the place of the one that is there, or behind the last. A step for each level.
pub(crate) fn put<T: Leaf + Drop, L: Ledger>(
    node: &Node<T>,
    depth: u32,
    at: u64,
    leaf: NewLeaf<T>,
    alloc: Global,
    steps: &mut Steps<L>,
) -> Result<Node<T>, NoMemory>
    requires same { depth ≡ node.now.0 }
    requires low { depth ≤ 40 }
    requires fits { length node.now.1 ≤ 2 ^ depth }
    requires room { at < 2 ^ depth }
    requires place { at ≤ length node.now.1 }
    ensures put { IfOk result (λ new. new ≡ (depth, put_at node.now.1 at leaf)) }
    ensures steps { OnOk result (steps.new ≡ steps.old + depth) }
    ensures at_most { steps.new ≤ steps.old + depth }
{
    let Some((left, right)) = node.halves() else {
        return sprout(leaf, depth, alloc, steps);
    };
    let half = half_width(depth);
    if at < half {
        let left = put(left, depth - 1, at, leaf, alloc, steps);
        return pair_step(left, right.share(), alloc, steps);
    }
    let right = put(right, depth - 1, at - half, leaf, alloc, steps);
    pair_step(left.share(), right, alloc, steps)
}

/// How deep a tree is once an item is put at a place, which may be the one behind its leaves.
pub(crate) fn depth_with(depth: u32, at: u64) -> u32
    requires { depth ≤ 40 }
    ensures { Grows depth at result }
{
    if at < leaves_of(depth) {
        return depth;
    }
    depth + 1
}

/// The tree with a leaf at a place, which may be the one behind the last of a full tree: that becomes the left half of one
/// that is a level deeper. A step for each level.
pub(crate) fn put_or_grow<T: Leaf + Drop, L: Ledger>(
    node: &Node<T>,
    depth: u32,
    grown: u32,
    at: u64,
    leaf: NewLeaf<T>,
    alloc: Global,
    steps: &mut Steps<L>,
) -> Result<Node<T>, NoMemory>
    requires same { depth ≡ node.now.0 }
    requires fits { length node.now.1 ≤ 2 ^ depth }
    requires place { at ≤ length node.now.1 }
    requires low { depth ≤ 40 }
    requires grows { Grows depth at grown }
    ensures put { IfOk result (λ new. new ≡ (grown, put_at node.now.1 at leaf)) }
    ensures steps { OnOk result (steps.new ≡ steps.old + grown) }
    ensures at_most { steps.new ≤ steps.old + grown }
{
    if grown == depth {
        return put(node, depth, at, leaf, alloc, steps);
    }
    let right = sprout(leaf, depth, alloc, steps);
    pair_step(node.share(), right, alloc, steps)
}

/// The items of the changes.
pub fn new_items<T: Drop>(changes: Vec<(u64, T)>, alloc: Global) -> Result<Vec<T>, NoMemory>
    ensures { IfOk result (λ items. items.items ≡ map (λ change. change.1) changes.items) }
{
    let count = changes.len();
    let mut items = Vec::with_capacity(alloc, count)?;
    let mut rest = changes.into_iter();
    'items: for k in 0..count {
        items.push(next_of(&mut rest).1)?;
    }
    Ok(items)
}

/// The tree with the changes made. Each node is made anew once: at most a step for each level and change, and no more than
/// there are inner nodes. Where every item changes, the tree is built layer by layer, and where there are enough changes to hash
/// side by side, the pairs of a layer are hashed by one call.
pub(crate) fn put_all<T: Leaf + Drop, L: Ledger>(
    node: &Node<T>,
    depth: u32,
    len: u64,
    changes: Vec<(u64, T)>,
    alloc: Global,
    steps: &mut Steps<L>,
) -> Result<Node<T>, NoMemory>
    requires same { depth ≡ node.now.0 }
    requires low { depth ≤ 40 }
    requires len_is { len ≡ length node.now.1 }
    requires fits { length node.now.1 ≤ 2 ^ depth }
    requires some { 0 < length changes.items }
    requires places { AreChanges 0 (length node.now.1) changes.items }
    ensures put { IfOk result (λ new. new ≡ (depth, changed node.now.1 changes.items)) }
    ensures work { steps.new ≤ steps.old + length changes.items * depth }
    ensures nodes { steps.new + 1 ≤ steps.old + 2 ^ depth }
{
    let count = changes.len();
    if count as u64 == len {
        let items = new_items(changes, alloc)?;
        return layered(items, depth, alloc, steps);
    }
    let plan = plan_all(node, depth, changes, alloc)?;
    if count < LANES {
        return settle_apart(plan, alloc, steps);
    }
    settle_one(plan, depth, alloc, steps)
}

/// Whether the last change is at this place or behind.
pub fn reaches<T>(changes: &[(u64, T)], from: u64) -> bool
    ensures { Reaches from changes.now result }
{
    let count = changes.len();
    count > 0 && changes[count - 1].0 >= from
}
