//! What a tree becomes by many changes, before its new pairs are hashed.
//!
//! Changes come from `put`, with leaves of `new_leaves`. A plan says which nodes are kept, which leaves are new, and which pairs
//! are made of them, so that `several` can hash the pairs of a layer by one call.

ghost use Rattle.std.specs.Prelude.{◌≡◌, suc, ◌+◌, ◌*◌, ◌<◌, ◌≤◌, ◌^◌, ◌++◌, length, IfOk, OnOk};
ghost use Rattle.tree_nodes.specs.Changes.{AreChanges, changed};
ghost use Rattle.tree_nodes.specs.inside.Nodes.{AreHalves};
ghost use Rattle.tree_nodes.specs.inside.Plans.{planned, IsPlan};
ghost use Rattle.tree_nodes.specs.inside.Puts.{before, changed_in};

use crate::new_leaves::new_leaves;
use crate::node::{NewLeaf, Node, half_width};
use crate::put::reaches;
use bc_words::NoMemory;
use hash_tree::Leaf;
use std::alloc::Global;
use std::marker::Model;

/// A tree that is to be, which contracts see as the tree, and how many of its pairs are still to be hashed.
#[cycle(plan)]
#[derive(Drop)]
pub(crate) struct Plan<T: Leaf + Drop> {
    stage: Stage<T>,
}

/// A node that is there, or a pair that is to be.
#[cycle(plan)]
#[derive(Drop)]
pub(crate) enum Stage<T: Leaf + Drop> {
    Made(Node<T>),
    Paired(Box<Halves<T>>),
}

/// The two halves of a pair.
#[cycle(plan)]
#[derive(Drop)]
pub(crate) struct Halves<T: Leaf + Drop> {
    pub(crate) left: Plan<T>,
    pub(crate) right: Plan<T>,
}

impl<T: Leaf + Drop> Model for Plan<T> {
    ghost use Rattle.std.specs.Prelude.{ℕ, List};

    ghost Value = { (ℕ × List T) × ℕ };

    ghost use Rattle.tree_nodes.specs.inside.Plans.{planned, IsPlan};

    ghost view = { λ plan. planned plan.stage };

    ghost invariant = { λ plan. IsPlan plan.stage };

    ghost size = { λ plan. plan.0.0 };

    ghost use Rattle.std.proofs.Common.{arith};

    ghost size_decreases = { λ plan h. Prim.grind arith };
}

impl<T: Leaf + Drop> Plan<T> {
    /// A node that is there.
    pub(crate) fn made(node: Node<T>) -> Plan<T>
        ensures { result ≡ (node, 0) }
    {
        Plan {
            stage: Stage::Made(node),
        }
    }

    /// A pair of two halves.
    pub(crate) fn pair(left: Plan<T>, right: Plan<T>, alloc: Global) -> Result<Plan<T>, NoMemory>
        requires { AreHalves left.0 right.0 }
        ensures { IfOk result (λ plan. plan ≡ ((suc left.0.0, left.0.1 ++ right.0.1), suc (left.1 + right.1))) }
    {
        let halves = Box::new(alloc, Halves { left, right })?;
        Ok(Plan {
            stage: Stage::Paired(halves),
        })
    }

    /// What it is made of.
    pub(crate) fn open(self) -> Stage<T>
        ensures same { planned result ≡ self }
        ensures plan { IsPlan result }
    {
        self.stage
    }
}

/// The plan of the tree, whose first place is `from`, with the changes made that are there or behind. They are taken off the
/// list, whose last ones they are. Each node is made anew once: at most a pair for each level and change, and no more than
/// there are inner nodes.
pub(crate) fn plan_many<T: Leaf + Drop>(
    node: &Node<T>,
    depth: u32,
    from: u64,
    changes: &mut Vec<(u64, NewLeaf<T>)>,
    alloc: Global,
) -> Result<Plan<T>, NoMemory>
    requires same { depth ≡ node.now.0 }
    requires low { depth ≤ 40 }
    requires fits { length node.now.1 ≤ 2 ^ depth }
    requires within { from + 2 ^ depth ≤ 2 ^ 40 }
    requires places { AreChanges 0 (from + length node.now.1) changes.old.items }
    ensures put { IfOk result (λ plan. plan.0 ≡ (depth, changed_in from node.now.1 changes.old.items)) }
    ensures rest { OnOk result (changes.new.items ≡ before from changes.old.items) }
    ensures fewer { length changes.new.items ≤ length changes.old.items }
    ensures work { IfOk result (λ plan. plan.1 + length changes.new.items * depth ≤ length changes.old.items * depth) }
    ensures nodes { IfOk result (λ plan. plan.1 + 1 ≤ 2 ^ depth) }
{
    if !reaches(changes, from) {
        return Ok(Plan::made(node.share()?));
    }
    if depth == 0 {
        return match changes.pop() {
            Some((_at, leaf)) => Ok(Plan::made(leaf.node())),
            None => unreachable!(),
        };
    }
    let Some((left, right)) = node.halves() else {
        unreachable!()
    };
    let middle = from + half_width(depth);
    let right = plan_many(right, depth - 1, middle, changes, alloc)?;
    let left = plan_many(left, depth - 1, from, changes, alloc)?;
    Plan::pair(left, right, alloc)
}

/// The plan of the tree with the changes made. Roots of the new leaves are made side by side.
pub(crate) fn plan_all<T: Leaf + Drop>(
    node: &Node<T>,
    depth: u32,
    changes: Vec<(u64, T)>,
    alloc: Global,
) -> Result<Plan<T>, NoMemory>
    requires same { depth ≡ node.now.0 }
    requires low { depth ≤ 40 }
    requires fits { length node.now.1 ≤ 2 ^ depth }
    requires places { AreChanges 0 (length node.now.1) changes.items }
    ensures put { IfOk result (λ plan. plan.0 ≡ (depth, changed node.now.1 changes.items)) }
    ensures work { IfOk result (λ plan. plan.1 ≤ length changes.items * depth) }
    ensures nodes { IfOk result (λ plan. plan.1 + 1 ≤ 2 ^ depth) }
{
    let mut leaves = new_leaves(changes, alloc)?;
    plan_many(node, depth, 0, &mut leaves, alloc)
}
