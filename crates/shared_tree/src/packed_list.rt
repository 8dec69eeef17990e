//! A list of numbers, packed four to a chunk.
//!
//! Numbers come from the state above. The tree of their chunks is kept, so that the root of the list is there without work,
//! and a change costs one path.

ghost use Rattle.std.specs.Prelude.{◌≡◌, ℕ, ◌+◌, ◌*◌, ◌/◌, ◌<◌, ◌≤◌, ◌^◌, [], ◌∷◌, length, slice_get, slice_set, Some, IfOk, OnOk};
ghost use Rattle.std.specs.List.{AllByRecursion};
ghost use Rattle.bc_words.specs.Outcome.{Pushes, Becomes, checked_push};
ghost use Rattle.hash_tree.specs.Merkle.{depth_of as depth_for};
ghost use Rattle.ssz_codec.specs.Basic.{uint64};
ghost use Rattle.ssz_codec.specs.Lists.{leaf_count, list_codec, vector_codec};
ghost use Rattle.tree_nodes.specs.Changes.{AreChanges, changed};
ghost use Rattle.shared_tree.specs.inside.Fours.{packed, numbers_in};
ghost use Rattle.tree_nodes.specs.inside.Puts.{put_at};

use crate::chunked::chunk_changes;
use crate::four::{Four, chunk_at, pack};
use crate::numbers::Numbers;
use bc_words::{NoMemory, PushStop, Steps};
use hash_tree::{Root, depth_of, mix_in_length};
use std::marker::Model;
use std::sync::ledger::Ledger;
use tree_nodes::{Tree, mix_step, new_items};

/// The numbers in order, of which there may be so many. Contracts see the list and its limit.
#[derive(Drop)]
pub struct PackedList {
    tree: Tree<Four>,
    len: u64,
    limit: u64,
    root: Root,
}

impl Model for PackedList {
    ghost use Rattle.std.specs.Prelude.{ℕ};
    ghost use Rattle.shared_tree.specs.Lists.{Limited};

    ghost Value = { Limited ℕ };

    ghost use Rattle.shared_tree.specs.inside.Fours.{numbers_in};
    ghost use Rattle.shared_tree.specs.inside.Kept.{IsPacked};

    ghost view = { λ list. record { limit = list.limit; items = numbers_in list.len list.tree.1 } };

    ghost invariant = { λ list. IsPacked list.tree list.len list.limit list.root };
}

/// How many chunks the tree of a list has room for, of which there may be so many numbers.
fn chunk_limit(limit: u64) -> u64
    requires { limit ≤ 2 ^ 40 }
    ensures exact { result ≡ leaf_count uint64 limit }
    ensures low { result ≤ 2 ^ 40 }
    ensures enough { (limit + 3) / 4 ≡ result }
{
    (8 * limit + 31) / 32
}

/// The number at a place: in the place of the one that is there, or behind the last. Where memory is refused, the tree is
/// as before.
fn put_number<L: Ledger>(
    tree: &mut Tree<Four>,
    len: u64,
    at: u64,
    number: u64,
    steps: &mut Steps<L>,
) -> Result<(), NoMemory>
    requires len_is { len ≡ length (numbers_in len tree.old.1) }
    requires packs { tree.old.1 ≡ packed (numbers_in len tree.old.1) }
    requires place { at ≤ len }
    requires room { at / 4 < 2 ^ tree.old.0 }
    ensures number { number < 2 ^ 64 }
    ensures put { Becomes result tree.old tree.new (tree.old.0, packed (put_at (numbers_in len tree.old.1) at number)) }
    ensures steps { OnOk result (steps.new ≡ steps.old + tree.old.0) }
    ensures at_most { steps.new ≤ steps.old + tree.old.0 }
{
    let chunk = at / 4;
    if chunk >= tree.len() {
        return tree.put(chunk, Four::first(&[number]), steps);
    }
    let four = chunk_at(tree, chunk).with(at % 4, number);
    tree.put(chunk, four, steps)
}

impl PackedList {
    /// The list of these numbers. It hashes each inner node of the tree once.
    pub fn from_vec(items: Vec<u64>, limit: u64) -> Result<PackedList, NoMemory>
        requires low { limit ≤ 2 ^ 40 }
        requires fits { length items.items ≤ limit }
        ensures { IfOk result (λ list. list ≡ record { limit = limit; items = items.items }) }
    {
        let len = items.len() as u64;
        let fours = pack(*items.allocator(), &items)?;
        drop(items);
        let tree = Tree::of(fours, depth_of(chunk_limit(limit)))?;
        let root = mix_in_length(&tree.top(), len);
        Ok(PackedList {
            tree,
            len,
            limit,
            root,
        })
    }

    /// How many numbers there are, each of which is below 2 ^ 64.
    pub fn len(&self) -> u64
        ensures len { result ≡ length self.now.items }
        ensures within { AllByRecursion uint64.Within self.now.items }
    {
        self.len
    }

    /// How many numbers there may be.
    pub fn limit(&self) -> u64
        ensures limit { result ≡ self.now.limit }
        ensures fits { length self.now.items ≤ self.now.limit }
        ensures low { self.now.limit ≤ 2 ^ 40 }
    {
        self.limit
    }

    /// The number at a place. None exactly where the place is not below the length.
    pub fn get(&self, i: u64) -> Option<u64>
        ensures { result ≡ slice_get self.now.items i }
    {
        if i >= self.len {
            return None;
        }
        Some(chunk_at(&self.tree, i / 4).get(i % 4))
    }

    /// The root of the list (simple-serialize.md, "Merkleization"). It is kept.
    pub fn root(&self) -> Root
        ensures { result ≡ (list_codec uint64 self.now.limit).hash_tree_root self.now.items }
    {
        self.root
    }

    /// The root before the length is mixed in, which is that of a vector. It is kept.
    #[tactic(auto, unfolding(hash_tree::specs::Merkle::merkleize))]
    pub fn top(&self) -> Root
        ensures { result ≡ (vector_codec uint64 self.now.limit).hash_tree_root self.now.items }
    {
        self.tree.top()
    }

    /// Another number at a place. A step for each level of the tree, and one for the length. Where memory is refused, the
    /// list is as before.
    pub fn set<L: Ledger>(
        &mut self,
        i: u64,
        value: u64,
        steps: &mut Steps<L>,
    ) -> Result<(), NoMemory>
        requires { i < length self.old.items }
        ensures set { Becomes result self.old self.new (record self.old { items = slice_set self.old.items i value }) }
        ensures steps { OnOk result (steps.new ≡ steps.old + (depth_for (leaf_count uint64 self.old.limit) + 1)) }
        ensures at_most { steps.new ≤ steps.old + (depth_for (leaf_count uint64 self.old.limit) + 1) }
    {
        put_number(&mut self.tree, self.len, i, value, steps)?;
        self.root = mix_step(&self.tree.top(), self.len, steps);
        Ok(())
    }

    /// Other numbers at many places: each chunk that has one is changed once.
    fn set_chunks<L: Ledger>(
        &mut self,
        changes: Vec<(u64, u64)>,
        steps: &mut Steps<L>,
    ) -> Result<(), NoMemory>
        requires places { AreChanges 0 (length self.old.items) changes.items }
        ensures set { Becomes result self.old self.new (record self.old { items = changed self.old.items changes.items }) }
        ensures at_most { steps.new ≤ steps.old + (length changes.items * depth_for (leaf_count uint64 self.old.limit) + 1) }
        ensures nodes { steps.new ≤ steps.old + (2 * leaf_count uint64 (length self.old.items) + depth_for (leaf_count uint64 self.old.limit) + 1) }
    {
        let alloc = *changes.allocator();
        let chunks = chunk_changes(&self.tree, self.len, changes, alloc)?;
        self.tree.put_many(chunks, steps)?;
        self.root = mix_step(&self.tree.top(), self.len, steps);
        Ok(())
    }

    /// Other numbers at all places, of which there is one or more: their tree is built layer by layer.
    fn set_every<L: Ledger>(
        &mut self,
        numbers: Vec<u64>,
        steps: &mut Steps<L>,
    ) -> Result<(), NoMemory>
        requires some { 0 < length numbers.items }
        requires every { length numbers.items ≡ length self.old.items }
        ensures set { Becomes result self.old self.new (record self.old { items = numbers.items }) }
        ensures at_most { steps.new ≤ steps.old + (length numbers.items * depth_for (leaf_count uint64 self.old.limit) + 1) }
        ensures nodes { steps.new ≤ steps.old + (2 * leaf_count uint64 (length self.old.items) + depth_for (leaf_count uint64 self.old.limit) + 1) }
    {
        let fours = pack(*numbers.allocator(), &numbers)?;
        self.tree.put_every(fours, steps)?;
        self.root = mix_step(&self.tree.top(), self.len, steps);
        Ok(())
    }

    /// Other numbers at many places. Each node is made anew once: at most a step for each level of the tree and change, and
    /// one for the length, and no more than the tree over the chunks has nodes, and one for each level above. Where every
    /// number changes, the tree is built layer by layer. Where memory is refused, the list is as before.
    pub fn set_many<L: Ledger>(
        &mut self,
        changes: Vec<(u64, u64)>,
        steps: &mut Steps<L>,
    ) -> Result<(), NoMemory>
        requires places { AreChanges 0 (length self.old.items) changes.items }
        ensures set { Becomes result self.old self.new (record self.old { items = changed self.old.items changes.items }) }
        ensures at_most { steps.new ≤ steps.old + (length changes.items * depth_for (leaf_count uint64 self.old.limit) + 1) }
        ensures nodes { steps.new ≤ steps.old + (2 * leaf_count uint64 (length self.old.items) + depth_for (leaf_count uint64 self.old.limit) + 1) }
    {
        if self.len > 0 && changes.len() as u64 == self.len {
            let alloc = *changes.allocator();
            let numbers = new_items(changes, alloc)?;
            return self.set_every(numbers, steps);
        }
        self.set_chunks(changes, steps)
    }

    /// One more number at the end. Full exactly where there are as many as there may be. A step for each level of the tree,
    /// and one for the length. After a stop the list is as before.
    pub fn push<L: Ledger>(&mut self, value: u64, steps: &mut Steps<L>) -> Result<(), PushStop>
        ensures pushes { Pushes result self.old.items self.new.items (checked_push self.old.limit self.old.items value) }
        ensures limit { self.new.limit ≡ self.old.limit }
        ensures steps { OnOk result (steps.new ≡ steps.old + (depth_for (leaf_count uint64 self.old.limit) + 1)) }
        ensures at_most { steps.new ≤ steps.old + (depth_for (leaf_count uint64 self.old.limit) + 1) }
    {
        if self.len >= self.limit {
            return Err(PushStop::Full);
        }
        put_number(&mut self.tree, self.len, self.len, value, steps)?;
        self.len += 1;
        self.root = mix_step(&self.tree.top(), self.len, steps);
        Ok(())
    }

    /// The numbers in order. An iterator is seen as what is left of them.
    pub fn iter(&self) -> Numbers<'_>
        ensures items { result ≡ self.now.items }
        ensures few { length result ≤ 2 ^ 40 }
    {
        Numbers::over(&self.tree, self.len)
    }

    /// An equal list, whose nodes are those of this one.
    pub fn share(&self) -> Result<PackedList, NoMemory>
        ensures { IfOk result (λ list. list ≡ self.now) }
    {
        Ok(PackedList {
            tree: self.tree.share()?,
            len: self.len,
            limit: self.limit,
            root: self.root,
        })
    }
}
