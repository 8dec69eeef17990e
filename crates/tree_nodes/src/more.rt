//! A tree with more items behind its last.
//!
//! New leaves come from `tree`, with a tree that may become deeper by them. What it becomes is planned, so that the nodes at
//! its end are made once for all of them, and then its new pairs are hashed.

ghost use Rattle.std.specs.Prelude.{◌≡◌, ◌+◌, ◌-◌, ◌*◌, ◌<◌, ◌≤◌, ◌^◌, ◌++◌, length, take, drop, IfOk, OnOk};
ghost use Rattle.std.specs.Vec.Iter.{into_iter_items};
ghost use Rattle.tree_nodes.specs.inside.Grown.{GrownHalves, IsLeast};

use crate::node::{NewLeaf, Node, half_width};
use crate::plan::Plan;
use crate::put::LANES;
use crate::several::{settle_apart, settle_one};
use crate::taking::next_of;
use bc_words::{NoMemory, Steps};
use hash_tree::Leaf;
use std::alloc::Global;
use std::sync::ledger::Ledger;
use std::vec::IntoIter;

/// The two halves of a tree that is not a leaf. One that is to be deeper is the left half.
fn split<T: Leaf + Drop>(
    node: &Node<T>,
    low: u32,
    depth: u32,
) -> Result<(Node<T>, Node<T>), NoMemory>
    requires same { low ≡ node.now.0 }
    requires order { low ≤ depth }
    requires inner { 0 < depth }
    requires deep { depth ≤ 40 }
    requires fits { length node.now.1 ≤ 2 ^ low }
    ensures { IfOk result (λ halves. GrownHalves node.now depth halves.0 halves.1) }
{
    if low < depth {
        return Ok((node.share()?, Node::absent(depth - 1)));
    }
    match node.halves() {
        Some((left, right)) => Ok((left.share()?, right.share()?)),
        None => Ok((Node::absent(depth - 1), Node::absent(depth - 1))),
    }
}

/// The plan of the tree of this depth with so many of the leaves behind its last item, which are taken off. Each node is made
/// anew once: at most a pair for each level and leaf.
fn plan_more<T: Leaf + Drop>(
    node: &Node<T>,
    low: u32,
    depth: u32,
    len: u64,
    count: u64,
    leaves: &mut IntoIter<NewLeaf<T>, Global>,
    alloc: Global,
) -> Result<Plan<T>, NoMemory>
    requires same { low ≡ node.now.0 }
    requires order { low ≤ depth }
    requires deep { depth ≤ 40 }
    requires len_is { len ≡ length node.now.1 }
    requires fits { len ≤ 2 ^ low }
    requires room { len + count ≤ 2 ^ depth }
    requires some { count ≤ length (into_iter_items leaves.old) }
    requires least { low < depth → IsLeast depth len count }
    ensures more { IfOk result (λ plan. plan.0 ≡ (depth, node.now.1 ++ take count (into_iter_items leaves.old))) }
    ensures rest { OnOk result (into_iter_items leaves.new ≡ drop count (into_iter_items leaves.old)) }
    ensures work { IfOk result (λ plan. plan.1 ≤ count * depth) }
{
    if count == 0 {
        return Ok(Plan::made(node.share()?));
    }
    if depth == 0 {
        return Ok(Plan::made(next_of(leaves).node()));
    }
    let (left, right) = split(node, low, depth)?;
    let below = depth - 1;
    let half = half_width(depth);
    let len_left = len.min(half);
    let first = count.min(half - len_left);
    let front = plan_more(&left, low.min(below), below, len_left, first, leaves, alloc)?;
    let back = plan_more(
        &right,
        below,
        below,
        len - len_left,
        count - first,
        leaves,
        alloc,
    )?;
    Plan::pair(front, back, alloc)
}

/// The tree of this depth, which may be greater, with the leaves behind its last item. At most a step for each level and
/// leaf. Where there are enough leaves to hash side by side, the pairs of a layer are hashed by one call.
pub(crate) fn add_all<T: Leaf + Drop, L: Ledger>(
    node: &Node<T>,
    low: u32,
    depth: u32,
    len: u64,
    leaves: Vec<NewLeaf<T>>,
    alloc: Global,
    steps: &mut Steps<L>,
) -> Result<Node<T>, NoMemory>
    requires same { low ≡ node.now.0 }
    requires order { low ≤ depth }
    requires deep { depth ≤ 40 }
    requires len_is { len ≡ length node.now.1 }
    requires fits { len ≤ 2 ^ low }
    requires room { len + length leaves.items ≤ 2 ^ depth }
    requires least { low < depth → IsLeast depth len (length leaves.items) }
    ensures more { IfOk result (λ new. new ≡ (depth, node.now.1 ++ leaves.items)) }
    ensures work { steps.new ≤ steps.old + length leaves.items * depth }
{
    let count = leaves.len();
    let mut rest = leaves.into_iter();
    let plan = plan_more(node, low, depth, len, count as u64, &mut rest, alloc)?;
    if count < LANES {
        return settle_apart(plan, alloc, steps);
    }
    settle_one(plan, depth, alloc, steps)
}
