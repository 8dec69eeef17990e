//! A list of values with a root each.
//!
//! Items come from the state above. The tree of their roots is kept with them, so that the root of the list is there without
//! work, or for one hash where an item was set since, and a change costs one path.

ghost use Rattle.std.specs.Prelude.{◌≡◌, ◌+◌, ◌*◌, ◌<◌, ◌≤◌, ◌^◌, [], ◌∷◌, ◌++◌, length, map, replicate, slice_get, slice_set, IfOk, OnOk};
ghost use Rattle.std.specs.Option.{option_map};
ghost use Rattle.bc_words.specs.Outcome.{Pushes, Becomes, checked_push};
ghost use Rattle.hash_tree.specs.Merkle.{merkleize, mix_in_length as mixed_in, depth_of as depth_for};
ghost use Rattle.tree_nodes.specs.Changes.{AreChanges, changed};

use bc_words::{NoMemory, PushStop, Steps};
use hash_tree::{Leaf, Root, depth_of, mix_in_length};
use std::alloc::Global;
use std::marker::Model;
use std::sync::ledger::Ledger;
use tree_nodes::{Iter, NewLeaf, Tree, mix_step};

/// The items in order, of which there may be so many. Contracts see the list and its limit.
#[derive(Drop)]
pub struct SharedList<T: Leaf + Drop> {
    tree: Tree<T>,
    limit: u64,
    /// The root with the length mixed in, where it was made and nothing is set since.
    root: Option<Root>,
}

impl<T: Leaf + Drop> Model for SharedList<T> {
    ghost use Rattle.shared_tree.specs.Lists.{Limited};

    ghost Value = { Limited T };

    ghost use Rattle.shared_tree.specs.inside.Kept.{IsKept};

    ghost view = { λ list. record { limit = list.limit; items = list.tree.1 } };

    ghost invariant = { λ list. IsKept T.root_of list.tree list.limit list.root };
}

impl<T: Leaf + Drop> SharedList<T> {
    /// The list of these items. It hashes each inner node of the tree once.
    pub fn from_vec(items: Vec<T>, limit: u64) -> Result<SharedList<T>, NoMemory>
        requires low { limit ≤ 2 ^ 40 }
        requires fits { length items.items ≤ limit }
        ensures { IfOk result (λ list. list ≡ record { limit = limit; items = items.items }) }
    {
        let tree = Tree::of(items, depth_of(limit))?;
        let root = mix_in_length(&tree.top(), tree.len());
        Ok(SharedList {
            tree,
            limit,
            root: Some(root),
        })
    }

    /// The list that is full of one item. Each level of its tree has one node.
    pub fn full_of(item: T, limit: u64, alloc: Global) -> Result<SharedList<T>, NoMemory>
        requires low { limit ≤ 2 ^ 40 }
        requires whole { 2 ^ depth_for limit ≡ limit }
        ensures { IfOk result (λ list. list ≡ record { limit = limit; items = replicate limit item }) }
    {
        let tree = Tree::repeated(item, depth_of(limit), alloc)?;
        let root = mix_in_length(&tree.top(), tree.len());
        Ok(SharedList {
            tree,
            limit,
            root: Some(root),
        })
    }

    /// How many items there are.
    pub fn len(&self) -> u64
        ensures { result ≡ length self.now.items }
    {
        self.tree.len()
    }

    /// How many items there may be.
    pub fn limit(&self) -> u64
        ensures limit { result ≡ self.now.limit }
        ensures fits { length self.now.items ≤ self.now.limit }
        ensures low { self.now.limit ≤ 2 ^ 40 }
    {
        self.limit
    }

    /// The item at a place. None exactly where the place is not below the length.
    pub fn get(&self, i: u64) -> Option<&T>
        ensures { option_map (λ x. x.now) result ≡ slice_get self.now.items i }
    {
        self.tree.get(i)
    }

    /// The root of the list (simple-serialize.md, "Merkleization"). It is kept, but where an item was set since: there the
    /// length is mixed into the kept top.
    pub fn root(&self) -> Root
        ensures { result ≡ mixed_in (merkleize (map T.root_of self.now.items) self.now.limit) (length self.now.items) }
    {
        match self.root {
            Some(root) => root,
            None => mix_in_length(&self.tree.top(), self.tree.len()),
        }
    }

    /// The root before the length is mixed in, which is that of a vector. It is kept.
    #[tactic(auto, unfolding(hash_tree::specs::Merkle::merkleize))]
    pub fn top(&self) -> Root
        ensures { result ≡ merkleize (map T.root_of self.now.items) self.now.limit }
    {
        self.tree.top()
    }

    /// Another item at a place. A step for each level of the tree; the length is mixed in where the root is asked for. Where
    /// memory is refused, the list is as before and the item is dropped.
    pub fn set<L: Ledger>(&mut self, i: u64, value: T, steps: &mut Steps<L>) -> Result<(), NoMemory>
        requires { i < length self.old.items }
        ensures set { Becomes result self.old self.new (record self.old { items = slice_set self.old.items i value }) }
        ensures steps { OnOk result (steps.new ≡ steps.old + depth_for self.old.limit) }
        ensures at_most { steps.new ≤ steps.old + depth_for self.old.limit }
    {
        self.tree.put(i, value, steps)?;
        self.root = None;
        Ok(())
    }

    /// Other items at many places. Each node is made anew once: at most a step for each level of the tree and change, and
    /// one for the length, and no more than the tree over the items has nodes, and one for each level above. Where memory is
    /// refused, the list is as before and the items are dropped.
    pub fn set_many<L: Ledger>(
        &mut self,
        changes: Vec<(u64, T)>,
        steps: &mut Steps<L>,
    ) -> Result<(), NoMemory>
        requires places { AreChanges 0 (length self.old.items) changes.items }
        ensures set { Becomes result self.old self.new (record self.old { items = changed self.old.items changes.items }) }
        ensures at_most { steps.new ≤ steps.old + (length changes.items * depth_for self.old.limit + 1) }
        ensures nodes { steps.new ≤ steps.old + (2 * length self.old.items + depth_for self.old.limit + 1) }
    {
        self.tree.put_many(changes, steps)?;
        self.root = Some(mix_step(&self.tree.top(), self.tree.len(), steps));
        Ok(())
    }

    /// One more item at the end. Full exactly where there are as many as there may be. A step for each level of the tree,
    /// and one for the length. After a stop the list is as before and the item is dropped.
    pub fn push<L: Ledger>(&mut self, value: T, steps: &mut Steps<L>) -> Result<(), PushStop>
        ensures pushes { Pushes result self.old.items self.new.items (checked_push self.old.limit self.old.items value) }
        ensures limit { self.new.limit ≡ self.old.limit }
        ensures steps { OnOk result (steps.new ≡ steps.old + (depth_for self.old.limit + 1)) }
        ensures at_most { steps.new ≤ steps.old + (depth_for self.old.limit + 1) }
    {
        let root = value.root();
        self.push_known(value, root, steps)
    }

    /// The same, where the item's root is known, so that it isn't made anew.
    pub fn push_known<L: Ledger>(
        &mut self,
        value: T,
        root: Root,
        steps: &mut Steps<L>,
    ) -> Result<(), PushStop>
        requires { root ≡ T.root_of value }
        ensures pushes { Pushes result self.old.items self.new.items (checked_push self.old.limit self.old.items value) }
        ensures limit { self.new.limit ≡ self.old.limit }
        ensures steps { OnOk result (steps.new ≡ steps.old + (depth_for self.old.limit + 1)) }
        ensures at_most { steps.new ≤ steps.old + (depth_for self.old.limit + 1) }
    {
        let len = self.tree.len();
        if len >= self.limit {
            return Err(PushStop::Full);
        }
        self.tree.put_known(len, value, root, steps)?;
        self.root = Some(mix_step(&self.tree.top(), len + 1, steps));
        Ok(())
    }

    /// More items at the end, whose roots are known. Each node is made anew once: at most a step for each level of the tree and
    /// item, and one for the length. Where memory is refused, the list is as before and the items are dropped.
    pub fn push_many<L: Ledger>(
        &mut self,
        leaves: Vec<NewLeaf<T>>,
        steps: &mut Steps<L>,
    ) -> Result<(), NoMemory>
        requires fits { length self.old.items + length leaves.items ≤ self.old.limit }
        ensures push { Becomes result self.old self.new (record self.old { items = self.old.items ++ leaves.items }) }
        ensures at_most { steps.new ≤ steps.old + (length leaves.items * depth_for self.old.limit + 1) }
    {
        if leaves.is_empty() {
            return Ok(());
        }
        self.tree.push_many(leaves, steps)?;
        self.root = Some(mix_step(&self.tree.top(), self.tree.len(), steps));
        Ok(())
    }

    /// The items in order. An iterator is seen as what is left of them.
    pub fn iter(&self) -> Iter<'_, T>
        ensures items { result ≡ self.now.items }
        ensures few { length result ≤ 2 ^ 40 }
    {
        self.tree.iter()
    }

    /// An equal list, whose nodes are those of this one.
    pub fn share(&self) -> Result<SharedList<T>, NoMemory>
        ensures { IfOk result (λ list. list ≡ self.now) }
    {
        Ok(SharedList {
            tree: self.tree.share()?,
            limit: self.limit,
            root: self.root,
        })
    }
}
