//! Plans of trees, whose pairs are hashed layer by layer.
//!
//! Plans come from `plan`. The pairs of a layer that change are hashed by one call, however far apart they are, and nodes that
//! are there go between them into their places.

ghost use Rattle.std.specs.Prelude.{◌≡◌, ℕ, ◌+◌, ◌*◌, ◌%◌, ◌≤◌, ◌∷◌, ◌++◌, [], List, Option, length, IfOk, OnOk};
ghost use Rattle.std.specs.Vec.Iter.{into_iter_items};
ghost use Rattle.tree_nodes.specs.inside.Layers.{paired, ArePaired};
ghost use Rattle.tree_nodes.specs.inside.Plans.{trees, pairs, gaps, filled, AreDeep, AreOpen};

use crate::layers::join_step;
use crate::node::Node;
use crate::plan::{Halves, Plan, Stage};
use crate::taking::next_of;
use crate::work::pair_step;
use bc_words::{NoMemory, Steps};
use hash_tree::Leaf;
use std::alloc::Global;
use std::sync::ledger::Ledger;
use std::vec::IntoIter;

/// Puts the halves of a pair behind the others.
fn push_halves<T: Leaf + Drop>(pair: Halves<T>, halves: &mut Vec<Plan<T>>) -> Result<(), NoMemory>
    ensures { OnOk result (halves.new.items ≡ (halves.old.items ++ pair.left ∷ []) ++ pair.right ∷ []) }
{
    halves.push(pair.left)?;
    halves.push(pair.right)?;
    Ok(())
}

/// Puts a plan behind those that are open: its node, or a spot without one and the two halves of its pair.
fn open_one<T: Leaf + Drop>(
    plan: Plan<T>,
    spots: &mut Vec<Option<Node<T>>>,
    halves: &mut Vec<Plan<T>>,
) -> Result<(), NoMemory>
    ensures { OnOk result ((plans : List _) → AreOpen plans spots.old.items halves.old.items → AreOpen (plans ++ plan ∷ []) spots.new.items halves.new.items) }
{
    match plan.open() {
        Stage::Made(node) => Ok(spots.push(Some(node))?),
        Stage::Paired(pair) => {
            spots.push(None)?;
            push_halves(Box::into_inner(pair), halves)
        }
    }
}

/// The nodes of the plans that are there, and the halves of their pairs.
fn open_all<T: Leaf + Drop>(
    plans: Vec<Plan<T>>,
    alloc: Global,
) -> Result<(Vec<Option<Node<T>>>, Vec<Plan<T>>), NoMemory>
    ensures { IfOk result (λ opened. AreOpen plans.items opened.0.items opened.1.items) }
{
    let count = plans.len();
    let mut spots = Vec::with_capacity(alloc, count)?;
    let mut halves = Vec::new(alloc);
    let mut rest = plans.into_iter();
    'plans: for k in 0..count {
        open_one(next_of(&mut rest), &mut spots, &mut halves)?;
    }
    Ok((spots, halves))
}

/// The node of a spot, or the next of the others where it has none.
fn node_at<T: Leaf + Drop>(spot: Option<Node<T>>, others: &mut IntoIter<Node<T>, Global>) -> Node<T>
    requires { gaps (spot ∷ []) ≤ length (into_iter_items others.old) }
    ensures node { (spots : List (Option _)) → filled (spot ∷ spots) (into_iter_items others.old) ≡ result ∷ filled spots (into_iter_items others.new) }
    ensures count { length (into_iter_items others.old) ≡ gaps (spot ∷ []) + length (into_iter_items others.new) }
{
    match spot {
        Some(node) => node,
        None => next_of(others),
    }
}

/// The nodes of the spots, where those that have none are given the others in order.
fn fill<T: Leaf + Drop>(
    spots: Vec<Option<Node<T>>>,
    others: Vec<Node<T>>,
    alloc: Global,
) -> Result<Vec<Node<T>>, NoMemory>
    requires { gaps spots.items ≡ length others.items }
    ensures { IfOk result (λ nodes. nodes.items ≡ filled spots.items others.items) }
{
    let count = spots.len();
    let mut nodes = Vec::with_capacity(alloc, count)?;
    let mut others = others.into_iter();
    let mut rest = spots.into_iter();
    'spots: for k in 0..count {
        nodes.push(node_at(next_of(&mut rest), &mut others))?;
    }
    Ok(nodes)
}

/// The trees that the plans become, which are of this depth. A step for each of their pairs, and all pairs of a layer are
/// hashed by one call.
fn settle<T: Leaf + Drop, L: Ledger>(
    plans: Vec<Plan<T>>,
    depth: u32,
    alloc: Global,
    steps: &mut Steps<L>,
) -> Result<Vec<Node<T>>, NoMemory>
    requires { AreDeep depth plans.items }
    ensures made { IfOk result (λ nodes. nodes.items ≡ trees plans.items) }
    ensures steps { steps.new ≤ steps.old + pairs plans.items }
{
    let (spots, halves) = open_all(plans, alloc)?;
    let count = halves.len();
    if count == 0 {
        return fill(spots, Vec::new(alloc), alloc);
    }
    let below = settle(halves, depth - 1, alloc, steps)?;
    let joined = join_step(below, alloc, steps)?;
    fill(spots, joined, alloc)
}

/// The tree that a plan becomes. A step for each of its pairs.
pub(crate) fn settle_one<T: Leaf + Drop, L: Ledger>(
    plan: Plan<T>,
    depth: u32,
    alloc: Global,
    steps: &mut Steps<L>,
) -> Result<Node<T>, NoMemory>
    requires { plan.0.0 ≡ depth }
    ensures made { IfOk result (λ node. node ≡ plan.0) }
    ensures steps { steps.new ≤ steps.old + plan.1 }
{
    let mut plans = Vec::new(alloc);
    plans.push(plan)?;
    let mut nodes = settle(plans, depth, alloc, steps)?;
    match nodes.pop() {
        Some(node) => Ok(node),
        None => unreachable!(),
    }
}

/// The same, where each pair is hashed by itself.
pub(crate) fn settle_apart<T: Leaf + Drop, L: Ledger>(
    plan: Plan<T>,
    alloc: Global,
    steps: &mut Steps<L>,
) -> Result<Node<T>, NoMemory>
    ensures made { IfOk result (λ node. node ≡ plan.0) }
    ensures steps { steps.new ≤ steps.old + plan.1 }
{
    match plan.open() {
        Stage::Made(node) => Ok(node),
        Stage::Paired(pair) => {
            let pair = Box::into_inner(pair);
            let left = settle_apart(pair.left, alloc, steps);
            let right = settle_apart(pair.right, alloc, steps);
            pair_step(left, right, alloc, steps)
        }
    }
}
