//! Trees that are built layer by layer.
//!
//! Items come from `tree`. The parents of a whole layer are hashed by one call over its roots, and the nodes above are made
//! with the roots that they have.

ghost use Rattle.std.specs.Prelude.{◌≡◌, ℕ, suc, ◌+◌, ◌*◌, ◌/◌, ◌%◌, ◌<◌, ◌≤◌, ◌^◌, ◌++◌, length, map, IfOk, OnOk};
ghost use Rattle.std.specs.Vec.Iter.{into_iter_items};
ghost use Rattle.hash_tree.specs.Pairs.{parents};
ghost use Rattle.tree_nodes.specs.inside.Layers.{leaves, held, paired, node_roots, IsLayer, ArePaired};

use crate::node::Node;
use crate::taking::next_of;
use crate::work::layer_step;
use bc_words::{NoMemory, Steps};
use hash_tree::{Leaf, Root};
use std::alloc::Global;
use std::marker::Brand;
use std::sync::ledger::{Blank, Ledger};
use std::vec::IntoIter;

/// How many items are made leaves at a time, so that what is beside items and leaves is small.
pub(crate) const BATCH: usize = 64;

/// The next of the items that are left, so many as are wanted.
fn take_items<T: Drop>(
    rest: &mut IntoIter<T, Global>,
    count: usize,
    alloc: Global,
) -> Result<Vec<T>, NoMemory>
    requires { count ≤ length (into_iter_items rest.old) }
    ensures taken { IfOk result (λ batch. batch.items ++ into_iter_items rest.new ≡ into_iter_items rest.old) }
    ensures count { IfOk result (λ batch. length batch.items ≡ count) }
{
    let mut batch = Vec::with_capacity(alloc, count)?;
    'items: for k in 0..count {
        batch.push(next_of(rest))?;
    }
    Ok(batch)
}

/// Puts the leaves of the items, whose roots are known, behind the nodes.
fn add_leaves<T: Leaf + Drop>(
    nodes: &mut Vec<Node<T>>,
    items: Vec<T>,
    roots: &[Root],
    alloc: Global,
) -> Result<(), NoMemory>
    requires { roots.now ≡ map T.root_of items.items }
    ensures { OnOk result (nodes.new.items ≡ nodes.old.items ++ leaves items.items) }
{
    let mut rest = items.into_iter();
    'leaves: for k in 0..roots.len() {
        nodes.push(Node::known(next_of(&mut rest), roots[k], alloc)?)?;
    }
    Ok(())
}

/// Puts the leaves of the items behind the nodes. Roots are made side by side.
fn add_batch<T: Leaf + Drop>(
    nodes: &mut Vec<Node<T>>,
    items: Vec<T>,
    alloc: Global,
) -> Result<(), NoMemory>
    ensures { OnOk result (nodes.new.items ≡ nodes.old.items ++ leaves items.items) }
{
    let mut roots = vec![in alloc; [0u8; 32]; items.len()]?;
    T::write_roots(&items, &mut roots);
    add_leaves(nodes, items, &roots, alloc)
}

/// The leaves of the items. Each batch of items is given up as its leaves are made.
fn leaf_nodes<T: Leaf + Drop>(items: Vec<T>, alloc: Global) -> Result<Vec<Node<T>>, NoMemory>
    ensures { IfOk result (λ nodes. nodes.items ≡ leaves items.items) }
{
    let mut left = items.len();
    let mut nodes = Vec::with_capacity(alloc, left)?;
    let mut rest = items.into_iter();
    'batches: while left > 0 {
        let count = left.min(BATCH);
        let batch = take_items(&mut rest, count, alloc)?;
        add_batch(&mut nodes, batch, alloc)?;
        left -= count;
    }
    Ok(nodes)
}

/// The roots of the nodes, each of which is kept.
fn roots_of<T: Leaf + Drop>(nodes: &[Node<T>], alloc: Global) -> Result<Vec<Root>, NoMemory>
    ensures { IfOk result (λ roots. roots.items ≡ node_roots T.root_of nodes.now) }
{
    let mut roots = Vec::with_capacity(alloc, nodes.len())?;
    'roots: for k in 0..nodes.len() {
        roots.push(nodes[k].root())?;
    }
    Ok(roots)
}

/// The trees over two nodes each, whose roots are known.
fn join<T: Leaf + Drop>(
    nodes: Vec<Node<T>>,
    above: &[Root],
    alloc: Global,
) -> Result<Vec<Node<T>>, NoMemory>
    requires halves { ArePaired nodes.items }
    requires even { length nodes.items ≡ 2 * length above.now }
    requires roots { above.now ≡ parents (node_roots T.root_of nodes.items) }
    ensures { IfOk result (λ joined. joined.items ≡ paired nodes.items) }
{
    let mut joined = Vec::with_capacity(alloc, above.len())?;
    let mut rest = nodes.into_iter();
    'pairs: for k in 0..above.len() {
        let left = next_of(&mut rest);
        let right = next_of(&mut rest);
        joined.push(Node::rooted(left, right, above[k], alloc)?)?;
    }
    Ok(joined)
}

/// The trees over two nodes each, which are hashed by one call. A step for each.
pub(crate) fn join_step<T: Leaf + Drop, L: Ledger>(
    nodes: Vec<Node<T>>,
    alloc: Global,
    steps: &mut Steps<L>,
) -> Result<Vec<Node<T>>, NoMemory>
    requires halves { ArePaired nodes.items }
    requires even { length nodes.items % 2 ≡ 0 }
    ensures joined { IfOk result (λ joined. joined.items ≡ paired nodes.items) }
    ensures steps { 2 * steps.new ≤ 2 * steps.old + length nodes.items }
{
    let roots = roots_of(&nodes, alloc)?;
    let mut above = vec![in alloc; [0u8; 32]; nodes.len() / 2]?;
    layer_step(&roots, &mut above, steps);
    // The nodes above are made in what the roots took.
    drop(roots);
    join(nodes, &above, alloc)
}

/// Puts a node without items behind an odd number of nodes.
fn make_even<T: Leaf + Drop>(nodes: &mut Vec<Node<T>>, depth: u32) -> Result<(), NoMemory>
    requires low { depth ≤ 40 }
    requires layer { IsLayer depth nodes.old.items }
    ensures layer { OnOk result (IsLayer depth nodes.new.items) }
    ensures held { OnOk result (held nodes.new.items ≡ held nodes.old.items) }
    ensures even { OnOk result (length nodes.new.items ≡ 2 * ((length nodes.old.items + 1) / 2)) }
{
    if nodes.len() % 2 == 1 {
        nodes.push(Node::absent(depth))?;
    }
    Ok(())
}

/// Makes the layer above. A step for each of its nodes.
fn climb<T: Leaf + Drop, L: Ledger>(
    nodes: Vec<Node<T>>,
    depth: u32,
    alloc: Global,
    steps: &mut Steps<L>,
) -> Result<Vec<Node<T>>, NoMemory>
    requires low { depth ≤ 40 }
    requires layer { IsLayer depth nodes.items }
    ensures layer { IfOk result (λ above. IsLayer (suc depth) above.items) }
    ensures held { IfOk result (λ above. held above.items ≡ held nodes.items) }
    ensures count { IfOk result (λ above. length above.items ≡ (length nodes.items + 1) / 2) }
    ensures steps { steps.new ≤ steps.old + (length nodes.items + 1) / 2 }
{
    let mut nodes = nodes;
    make_even(&mut nodes, depth)?;
    join_step(nodes, alloc, steps)
}

/// The tree of this depth over the items, of which there is one or more. A step for each of its inner nodes that has items.
pub(crate) fn layered<T: Leaf + Drop, L: Ledger>(
    items: Vec<T>,
    depth: u32,
    alloc: Global,
    steps: &mut Steps<L>,
) -> Result<Node<T>, NoMemory>
    requires low { depth ≤ 40 }
    requires some { 0 < length items.items }
    requires fits { length items.items ≤ 2 ^ depth }
    ensures built { IfOk result (λ node. node ≡ (depth, items.items)) }
    ensures work { steps.new ≤ steps.old + length items.items * depth }
    ensures nodes { steps.new + 1 ≤ steps.old + 2 ^ depth }
{
    let mut nodes = leaf_nodes(items, alloc)?;
    'layers: for level in 0..depth {
        nodes = climb(nodes, level, alloc, steps)?;
    }
    match nodes.pop() {
        Some(node) => Ok(node),
        None => unreachable!(),
    }
}

/// The same for any number of items, with a counter of its own, which nothing reads.
fn built_apart<T: Leaf + Drop, L: Ledger>(
    items: Vec<T>,
    depth: u32,
    alloc: Global,
    blank: Blank,
) -> Result<Node<T>, NoMemory>
    requires name { blank.name ≡ L.name }
    requires parts { blank.parts ≡ L.parts }
    requires some { 0 < blank.parts }
    requires low { depth ≤ 40 }
    requires fits { length items.items ≤ 2 ^ depth }
    ensures { IfOk result (λ node. node ≡ (depth, items.items)) }
{
    if items.is_empty() {
        return Ok(Node::absent(depth));
    }
    let mut steps = Steps::<L>::new(blank);
    layered(items, depth, alloc, &mut steps)
}

/// The tree of this depth over the items, where nothing is counted.
pub(crate) fn build<T: Leaf + Drop>(
    items: Vec<T>,
    depth: u32,
    alloc: Global,
) -> Result<Node<T>, NoMemory>
    requires low { depth ≤ 40 }
    requires fits { length items.items ≤ 2 ^ depth }
    ensures { IfOk result (λ node. node ≡ (depth, items.items)) }
{
    built_apart::<T, Brand>(items, depth, alloc, Blank::new(1))
}
