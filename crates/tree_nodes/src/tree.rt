//! A tree over the items in its first leaves, which grows by one item at a time.
//!
//! Both lists keep one: that of values has an item in each leaf, and that of numbers a chunk of four. Nodes are kept for the
//! smallest tree that has room for the items, so that an item is found by few steps; the root of the whole tree, whose
//! depth is that of the list's limit, is kept beside it.

ghost use Rattle.std.specs.Prelude.{◌≡◌, ◌+◌, ◌*◌, ◌<◌, ◌≤◌, ◌^◌, [], ◌∷◌, ◌++◌, length, map, replicate, slice_get, IfOk, OnOk};
ghost use Rattle.std.specs.Option.{option_map};
ghost use Rattle.bc_words.specs.Outcome.{Becomes};
ghost use Rattle.hash_tree.specs.Merkle.{merkle_root};
ghost use Rattle.tree_nodes.specs.Changes.{AreChanges, changed};
ghost use Rattle.tree_nodes.specs.inside.Puts.{put_at};

use crate::build::{depth_over, leaves_of};
use crate::find::find;
use crate::iter::Iter;
use crate::layers::{build, layered};
use crate::more::add_all;
use crate::node::{NewLeaf, Node};
use crate::put::{depth_with, put_all, put_or_grow};
use crate::repeated::repeat_item;
use crate::work::{lift, lift_steps};
use bc_words::{NoMemory, Steps};
use hash_tree::{Leaf, Root};
use std::alloc::Global;
use std::marker::Model;
use std::sync::ledger::Ledger;

/// Contracts see a tree as its depth and its items.
pub struct Tree<T: Leaf + Drop> {
    node: Node<T>,
    low: u32,
    depth: u32,
    len: u64,
    top: Root,
    alloc: Global,
}

// Written by hand, so that a call that lets a tree go is one call, wherever it stands.
impl<T: Leaf + Drop> Drop for Tree<T> {
    fn drop(self) {
        let Tree {
            node,
            low: _,
            depth: _,
            len: _,
            top: _,
            alloc: _,
        } = self;
        drop(node);
    }
}

impl<T: Leaf + Drop> Model for Tree<T> {
    ghost use Rattle.std.specs.Prelude.{ℕ, List};

    ghost Value = { ℕ × List T };

    ghost use Rattle.tree_nodes.specs.inside.Kept.{IsTree};

    ghost view = { λ tree. (tree.depth, tree.node.1) };

    ghost invariant = { λ tree. IsTree T.root_of tree.node tree.low tree.depth tree.len tree.top };
}

impl<T: Leaf + Drop> Tree<T> {
    /// The tree of this depth over the items, whose nodes are hashed layer by layer.
    pub fn of(items: Vec<T>, depth: u32) -> Result<Tree<T>, NoMemory>
        requires low { depth ≤ 40 }
        requires fits { length items.items ≤ 2 ^ depth }
        ensures { IfOk result (λ tree. tree ≡ (depth, items.items)) }
    {
        let alloc = *items.allocator();
        let len = items.len() as u64;
        let low = depth_over(len, depth);
        let node = build(items, low, alloc)?;
        let top = lift(node.root(), low, depth);
        Ok(Tree {
            node,
            low,
            depth,
            len,
            top,
            alloc,
        })
    }

    /// The tree of this depth in which each leaf is the item. A level has one node.
    pub fn repeated(item: T, depth: u32, alloc: Global) -> Result<Tree<T>, NoMemory>
        requires { depth ≤ 40 }
        ensures { IfOk result (λ tree. tree ≡ (depth, replicate (2 ^ depth) item)) }
    {
        let node = repeat_item(item, depth, alloc)?;
        let top = node.root();
        Ok(Tree {
            node,
            low: depth,
            depth,
            len: leaves_of(depth),
            top,
            alloc,
        })
    }

    /// How many items there are.
    pub fn len(&self) -> u64
        ensures len { result ≡ length self.now.1 }
        ensures fits { length self.now.1 ≤ 2 ^ self.now.0 }
        ensures low { self.now.0 ≤ 40 }
    {
        self.len
    }

    /// The item at a place. None exactly where the place is not below the length.
    pub fn get(&self, at: u64) -> Option<&T>
        ensures { option_map (λ x. x.now) result ≡ slice_get self.now.1 at }
    {
        find(&self.node, self.low, at)
    }

    /// The root. It is kept.
    pub fn top(&self) -> Root
        ensures { result ≡ merkle_root self.now.0 (map T.root_of self.now.1) }
    {
        self.top
    }

    /// The item at a place: in the place of the one that is there, or behind the last. A step for each level. Where memory
    /// is refused, the tree is as before.
    pub fn put<L: Ledger>(&mut self, at: u64, item: T, steps: &mut Steps<L>) -> Result<(), NoMemory>
        requires place { at ≤ length self.old.1 }
        requires room { at < 2 ^ self.old.0 }
        ensures put { Becomes result self.old self.new (self.old.0, put_at self.old.1 at item) }
        ensures steps { OnOk result (steps.new ≡ steps.old + self.old.0) }
        ensures at_most { steps.new ≤ steps.old + self.old.0 }
    {
        let root = item.root();
        self.put_known(at, item, root, steps)
    }

    /// The same, where the item's root is known, so that it isn't made anew.
    pub fn put_known<L: Ledger>(
        &mut self,
        at: u64,
        item: T,
        root: Root,
        steps: &mut Steps<L>,
    ) -> Result<(), NoMemory>
        requires place { at ≤ length self.old.1 }
        requires room { at < 2 ^ self.old.0 }
        requires root { root ≡ T.root_of item }
        ensures put { Becomes result self.old self.new (self.old.0, put_at self.old.1 at item) }
        ensures steps { OnOk result (steps.new ≡ steps.old + self.old.0) }
        ensures at_most { steps.new ≤ steps.old + self.old.0 }
    {
        let low = depth_with(self.low, at);
        let leaf = NewLeaf::known(item, root, self.alloc)?;
        let node = put_or_grow(&self.node, self.low, low, at, leaf, self.alloc, steps)?;
        self.top = lift_steps(node.root(), low, self.depth, steps);
        self.node = node;
        self.low = low;
        self.len = self.len.max(at + 1);
        Ok(())
    }

    /// Other items at many places. At most a step for each level and change. Where memory is refused, the tree is as
    /// before.
    pub fn put_many<L: Ledger>(
        &mut self,
        changes: Vec<(u64, T)>,
        steps: &mut Steps<L>,
    ) -> Result<(), NoMemory>
        requires places { AreChanges 0 (length self.old.1) changes.items }
        ensures put { Becomes result self.old self.new (self.old.0, changed self.old.1 changes.items) }
        ensures at_most { steps.new ≤ steps.old + length changes.items * self.old.0 }
        ensures nodes { steps.new ≤ steps.old + (2 * length self.old.1 + self.old.0) }
    {
        let count = changes.len();
        if count == 0 {
            return Ok(());
        }
        let node = put_all(&self.node, self.low, self.len, changes, self.alloc, steps)?;
        self.top = lift_steps(node.root(), self.low, self.depth, steps);
        self.node = node;
        Ok(())
    }

    /// More items behind the last, whose roots are known. Each node is made anew once: at most a step for each level and
    /// item. Where memory is refused, the tree is as before.
    pub fn push_many<L: Ledger>(
        &mut self,
        leaves: Vec<NewLeaf<T>>,
        steps: &mut Steps<L>,
    ) -> Result<(), NoMemory>
        requires room { length self.old.1 + length leaves.items ≤ 2 ^ self.old.0 }
        ensures push { Becomes result self.old self.new (self.old.0, self.old.1 ++ leaves.items) }
        ensures at_most { steps.new ≤ steps.old + length leaves.items * self.old.0 }
    {
        let count = leaves.len();
        if count == 0 {
            return Ok(());
        }
        let len = self.len + count as u64;
        let low = depth_over(len, self.depth);
        let node = add_all(
            &self.node, self.low, low, self.len, leaves, self.alloc, steps,
        )?;
        self.top = lift_steps(node.root(), low, self.depth, steps);
        self.node = node;
        self.low = low;
        self.len = len;
        Ok(())
    }

    /// Other items at all places, of which there is one or more: the tree is built layer by layer. At most a step for each
    /// level and item. Where memory is refused, the tree is as before.
    pub fn put_every<L: Ledger>(
        &mut self,
        items: Vec<T>,
        steps: &mut Steps<L>,
    ) -> Result<(), NoMemory>
        requires some { 0 < length items.items }
        requires every { length items.items ≡ length self.old.1 }
        ensures put { Becomes result self.old self.new (self.old.0, items.items) }
        ensures at_most { steps.new ≤ steps.old + length items.items * self.old.0 }
        ensures nodes { steps.new ≤ steps.old + (2 * length self.old.1 + self.old.0) }
    {
        let node = layered(items, self.low, self.alloc, steps)?;
        self.top = lift_steps(node.root(), self.low, self.depth, steps);
        self.node = node;
        Ok(())
    }

    /// The items in order.
    pub fn iter(&self) -> Iter<'_, T>
        ensures { result ≡ self.now.1 }
    {
        Iter::over(&self.node)
    }

    /// An equal tree, whose nodes are those of this one.
    pub fn share(&self) -> Result<Tree<T>, NoMemory>
        ensures { IfOk result (λ tree. tree ≡ self.now) }
    {
        Ok(Tree {
            node: self.node.share()?,
            low: self.low,
            depth: self.depth,
            len: self.len,
            top: self.top,
            alloc: self.alloc,
        })
    }
}
