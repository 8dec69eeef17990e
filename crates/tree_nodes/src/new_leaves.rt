//! The new leaves of a tree that many changes are made of, with their roots.
//!
//! Changes come from `put`, and their leaves go to `plan`. Roots are made side by side, as those of the leaves in `layers` are.

ghost use Rattle.std.specs.Prelude.{◌≡◌, ◌≤◌, ◌∷◌, ◌++◌, [], length, map, zip, IfOk, OnOk};
ghost use Rattle.std.specs.Vec.Iter.{into_iter_items};

use crate::layers::BATCH;
use crate::node::NewLeaf;
use crate::taking::next_of;
use bc_words::NoMemory;
use hash_tree::{Leaf, Root};
use std::alloc::Global;
use std::vec::IntoIter;

/// The places and the items of the next of the changes that are left, so many as are wanted.
fn split_changes<T: Drop>(
    rest: &mut IntoIter<(u64, T), Global>,
    count: usize,
    alloc: Global,
) -> Result<(Vec<u64>, Vec<T>), NoMemory>
    requires { count ≤ length (into_iter_items rest.old) }
    ensures taken { IfOk result (λ split. zip split.0.items split.1.items ++ into_iter_items rest.new ≡ into_iter_items rest.old) }
    ensures places { IfOk result (λ split. length split.0.items ≡ count) }
    ensures items { IfOk result (λ split. length split.1.items ≡ count) }
{
    let mut places = Vec::with_capacity(alloc, count)?;
    let mut items = Vec::with_capacity(alloc, count)?;
    'changes: for k in 0..count {
        let (at, item) = next_of(rest);
        places.push(at)?;
        items.push(item)?;
    }
    Ok((places, items))
}

/// Puts the leaf of an item, whose root is known, behind the others, with its place.
fn push_known<T: Leaf + Drop>(
    leaves: &mut Vec<(u64, NewLeaf<T>)>,
    at: u64,
    item: T,
    root: Root,
    alloc: Global,
) -> Result<(), NoMemory>
    requires { root ≡ T.root_of item }
    ensures { OnOk result (leaves.new.items ≡ leaves.old.items ++ (at, item) ∷ []) }
{
    let leaf = NewLeaf::known(item, root, alloc)?;
    leaves.push((at, leaf))?;
    Ok(())
}

/// Puts the leaves of the items, whose roots are known, behind the others, each with its place.
fn add_known<T: Leaf + Drop>(
    leaves: &mut Vec<(u64, NewLeaf<T>)>,
    places: &[u64],
    items: Vec<T>,
    roots: &[Root],
    alloc: Global,
) -> Result<(), NoMemory>
    requires places { length places.now ≡ length items.items }
    requires roots { roots.now ≡ map T.root_of items.items }
    ensures { OnOk result (leaves.new.items ≡ leaves.old.items ++ zip places.now items.items) }
{
    let mut rest = items.into_iter();
    'leaves: for k in 0..roots.len() {
        push_known(leaves, places[k], next_of(&mut rest), roots[k], alloc)?;
    }
    Ok(())
}

/// Puts the leaves of the items behind the others, each with its place. Roots are made side by side.
fn add_changes<T: Leaf + Drop>(
    leaves: &mut Vec<(u64, NewLeaf<T>)>,
    places: &[u64],
    items: Vec<T>,
    alloc: Global,
) -> Result<(), NoMemory>
    requires { length places.now ≡ length items.items }
    ensures { OnOk result (leaves.new.items ≡ leaves.old.items ++ zip places.now items.items) }
{
    let mut roots = vec![in alloc; [0u8; 32]; items.len()]?;
    T::write_roots(&items, &mut roots);
    add_known(leaves, places, items, &roots, alloc)
}

/// The leaves of the changes, each with its place.
pub(crate) fn new_leaves<T: Leaf + Drop>(
    changes: Vec<(u64, T)>,
    alloc: Global,
) -> Result<Vec<(u64, NewLeaf<T>)>, NoMemory>
    ensures { IfOk result (λ leaves. leaves.items ≡ changes.items) }
{
    let mut left = changes.len();
    let mut leaves = Vec::with_capacity(alloc, left)?;
    let mut rest = changes.into_iter();
    'batches: while left > 0 {
        let count = left.min(BATCH);
        let (places, items) = split_changes(&mut rest, count, alloc)?;
        add_changes(&mut leaves, &places, items, alloc)?;
        left -= count;
    }
    Ok(leaves)
}
