//! The items of a tree in order.
//!
//! A walk keeps its path, the nodes that are still to be visited, of which there is one for each level at most, and what is left
//! of the leaves in which it stands. Each node of the tree is visited once, and none of those below one that keeps its leaves. It
//! takes no memory.

ghost use Rattle.std.specs.Prelude.{◌≡◌, ◌-◌, ◌<◌, ◌≤◌, ◌∷◌, [], length, map};
ghost use Rattle.std.specs.Iterator.{YieldsFirstRef, item_count};
ghost use Rattle.tree_nodes.specs.inside.Walks.{IsPath, Enters, Joins, ahead, waiting, standing};

use crate::node::{Item, Kind, Node};
use hash_tree::Leaf;
use std::marker::Model;
use std::rc::Rc;
use std::slice;

/// How many nodes a path has room for: the first, and one for each level.
const ROOM: usize = 41;

/// The items of a list in order. Contracts see what is left of them.
#[derive(Drop)]
pub struct Iter<'a, T: Leaf + Drop> {
    path: [&'a Node<T>; ROOM],
    from: usize,
    leaves: &'a [Rc<Item<T>>],
}

impl<'a, T: Leaf + Drop> Model for Iter<'a, T> {
    ghost use Rattle.std.specs.Prelude.{List, map};

    ghost Value = { List T };

    ghost use Rattle.tree_nodes.specs.inside.Walks.{IsPath, ahead, standing};

    ghost view = { λ walk. standing (map (λ leaf. leaf.value.item) walk.leaves.now) walk.from walk.path };

    ghost invariant = { λ walk. IsPath walk.from (ahead walk.from walk.path) };
}

/// Puts a node on the path, before the others.
fn lay<'a, T: Leaf + Drop>(path: &mut [&'a Node<T>], from: usize, node: &'a Node<T>)
    requires room { length path.old ≡ 41 }
    requires some { 0 < from }
    requires begun { from ≤ 41 }
    ensures room { length path.new ≡ 41 }
    ensures laid { ahead (from - 1) path.new ≡ node.now ∷ ahead from path.old }
{
    path[from - 1] = node;
}

/// The first leaves of a node, which is before those of the path. The nodes behind them are put on the path, whose new first
/// place goes with them.
fn enter<'a, T: Leaf + Drop>(
    node: &'a Node<T>,
    path: &mut [&'a Node<T>],
    from: usize,
) -> (&'a [Rc<Item<T>>], usize)
    requires room { length path.old ≡ 41 }
    requires begun { from ≤ 41 }
    requires low { node.now.0 ≤ from }
    requires joins { Joins node.now (ahead from path.old) }
    requires path { IsPath from (ahead from path.old) }
    ensures room { length path.new ≡ 41 }
    ensures path { IsPath result.1 (ahead result.1 path.new) }
    ensures enters { Enters (map (λ leaf. leaf.value.item) result.0.now) node.now.1 (waiting from path.old) (waiting result.1 path.new) }
{
    match &node.kind {
        Kind::Absent(_) => (&[], from),
        Kind::Item(leaf) => (slice::from_ref(leaf), from),
        Kind::Pair(pair) => {
            lay(path, from, &pair.right);
            enter(&pair.left, path, from - 1)
        }
        Kind::Broad(broad) => (&broad.leaves, from),
    }
}

/// The first leaves of the nodes of the path, whose new first place goes with them. None exactly where they have none.
fn first<'a, T: Leaf + Drop>(path: &mut [&'a Node<T>], from: usize) -> (&'a [Rc<Item<T>>], usize)
    requires room { length path.old ≡ 41 }
    requires path { IsPath from (ahead from path.old) }
    ensures room { length path.new ≡ 41 }
    ensures path { IsPath result.1 (ahead result.1 path.new) }
    ensures enters { Enters (map (λ leaf. leaf.value.item) result.0.now) (waiting from path.old) [] (waiting result.1 path.new) }
{
    if from >= ROOM {
        return (&[], from);
    }
    let node = path[from];
    enter(node, path, from + 1)
}

/// The first item of the leaves, or of the nodes of the path where there are no leaves. The leaves that are left go with it, and
/// the path's new first place.
fn step<'a, T: Leaf + Drop>(
    leaves: &'a [Rc<Item<T>>],
    path: &mut [&'a Node<T>],
    from: usize,
) -> (Option<&'a T>, &'a [Rc<Item<T>>], usize)
    requires room { length path.old ≡ 41 }
    requires path { IsPath from (ahead from path.old) }
    ensures room { length path.new ≡ 41 }
    ensures path { IsPath result.2 (ahead result.2 path.new) }
    ensures gives { YieldsFirstRef (λ left. left) (standing (map (λ leaf. leaf.value.item) leaves.now) from path.old) result.0 (standing (map (λ leaf. leaf.value.item) result.1.now) result.2 path.new) }
{
    if let Some((leaf, rest)) = leaves.split_first() {
        return (Some(&leaf.item), rest, from);
    }
    let (leaves, from) = first(path, from);
    match leaves.split_first() {
        Some((leaf, rest)) => (Some(&leaf.item), rest, from),
        None => (None, leaves, from),
    }
}

impl<'a, T: Leaf + Drop> Iter<'a, T> {
    /// The items of a tree.
    pub(crate) fn over(root: &'a Node<T>) -> Iter<'a, T>
        requires { root.now.0 ≤ 40 }
        ensures { result ≡ root.now.1 }
    {
        Iter {
            path: [root; ROOM],
            from: ROOM - 1,
            leaves: &[],
        }
    }
}

impl<'a, T: Leaf + Drop> Iterator for Iter<'a, T> {
    type Item = &'a T;

    ghost next_gives = { YieldsFirstRef (λ left. left) };

    ghost remaining = { item_count (λ left. left) };

    fn next(&mut self) -> Option<&'a T> {
        let begin = self.from;
        let stood = self.leaves;
        let (item, leaves, from) = step(stood, &mut self.path, begin);
        self.leaves = leaves;
        self.from = from;
        item
    }
}
