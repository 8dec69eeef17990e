//! The values of a list or a vector of the state, each of which is one that its codec has, in a tree that shares its nodes
//! and keeps its root.
//!
//! Values come from reading and from those who change the state, and go to getters, writing and roots.

ghost use Rattle.std.specs.Prelude.{◌≡◌, ◌+◌, ◌<◌, ◌≤◌, ◌^◌, [], ◌++◌, length, slice_get, slice_set, IfOk};
ghost use Rattle.std.specs.List.{AllByRecursion};
ghost use Rattle.std.specs.Option.{option_map};
ghost use Rattle.bc_words.specs.Outcome.{Pushes, Becomes, checked_push};
ghost use Rattle.ssz_codec.specs.Lists.{vector_codec, fixed_size_list, variable_size_list};
ghost use Rattle.tree_nodes.specs.Changes.{AreChanges, changed};

use crate::differences::differences;
use crate::in_range::InRange;
use crate::uniform::full_of_one;
use bc_words::{NoMemory, PushStop, Steps};
use hash_tree::{Leaf, Root};
use shared_tree::SharedList;
use ssz_codec::{FixedSsz, Items};
use std::alloc::Global;
use std::marker::{Brand, Model};
use std::sync::ledger::{Blank, Ledger};
use tree_nodes::NewLeaf;

/// The values in order, and how many there may be: of a vector, how many there are.
#[derive(Drop)]
pub struct Values<T: InRange> {
    list: SharedList<T>,
    alloc: Global,
}

impl<T: InRange> Model for Values<T> {
    ghost use Rattle.std.specs.List.{AllByRecursion};
    ghost use Rattle.shared_tree.specs.Lists.{Limited};

    ghost Value = { Limited T };

    ghost view = { λ s. s.list };

    ghost invariant = { λ s. AllByRecursion T.Ssz.codec.Within s.list.items };
}

/// Sets an item of a list. The steps that it takes are counted by a counter of its own, which nothing reads.
fn set_item<T: Leaf + Drop, L: Ledger>(
    list: &mut SharedList<T>,
    i: u64,
    value: T,
    blank: Blank,
) -> Result<(), NoMemory>
    requires name { blank.name ≡ L.name }
    requires parts { blank.parts ≡ L.parts }
    requires some { 0 < blank.parts }
    requires place { i < length list.old.items }
    ensures { Becomes result list.old list.new (record list.old { items = slice_set list.old.items i value }) }
{
    let mut steps = Steps::<L>::new(blank);
    list.set(i, value, &mut steps)
}

/// Puts one more item, whose root is known, at the end of a list, with a counter of its own.
fn push_item<T: Leaf + Drop, L: Ledger>(
    list: &mut SharedList<T>,
    value: T,
    root: Root,
    blank: Blank,
) -> Result<(), PushStop>
    requires name { blank.name ≡ L.name }
    requires parts { blank.parts ≡ L.parts }
    requires some { 0 < blank.parts }
    requires root { root ≡ T.root_of value }
    ensures pushes { Pushes result list.old.items list.new.items (checked_push list.old.limit list.old.items value) }
    ensures limit { list.new.limit ≡ list.old.limit }
{
    let mut steps = Steps::<L>::new(blank);
    list.push_known(value, root, &mut steps)
}

/// Sets many items of a list, with a counter of its own.
fn set_items<T: Leaf + Drop, L: Ledger>(
    list: &mut SharedList<T>,
    changes: Vec<(u64, T)>,
    blank: Blank,
) -> Result<(), NoMemory>
    requires name { blank.name ≡ L.name }
    requires parts { blank.parts ≡ L.parts }
    requires some { 0 < blank.parts }
    requires places { AreChanges 0 (length list.old.items) changes.items }
    ensures { Becomes result list.old list.new (record list.old { items = changed list.old.items changes.items }) }
{
    let mut steps = Steps::<L>::new(blank);
    list.set_many(changes, &mut steps)
}

/// Puts more items, whose roots are known, at the end of a list, with a counter of its own.
fn push_items<T: Leaf + Drop, L: Ledger>(
    list: &mut SharedList<T>,
    leaves: Vec<NewLeaf<T>>,
    blank: Blank,
) -> Result<(), NoMemory>
    requires name { blank.name ≡ L.name }
    requires parts { blank.parts ≡ L.parts }
    requires some { 0 < blank.parts }
    requires fits { length list.old.items + length leaves.items ≤ list.old.limit }
    ensures { Becomes result list.old list.new (record list.old { items = list.old.items ++ leaves.items }) }
{
    let mut steps = Steps::<L>::new(blank);
    list.push_many(leaves, &mut steps)
}

/// Makes a list of these items. Where there are as many as before, the nodes over those that are the same are kept, and else
/// the tree is built anew.
fn replace_items<T: InRange>(
    list: &mut SharedList<T>,
    items: Vec<T>,
    alloc: Global,
) -> Result<(), NoMemory>
    requires { length items.items ≤ list.old.limit }
    ensures { Becomes result list.old list.new (record list.old { items = items.items }) }
{
    if items.len() as u64 == list.len() {
        let changes = differences(alloc, list, &items)?;
        return set_items::<T, Brand>(list, changes, Blank::new(1));
    }
    let limit = list.limit();
    *list = SharedList::from_vec(items, limit)?;
    Ok(())
}

/// The list of values that were read. Where it is full of one value, as the vectors of roots of a genesis are, the nodes of a level are one.
fn list_of<T: InRange>(values: Vec<T>, limit: u64, alloc: Global) -> Result<SharedList<T>, NoMemory>
    requires low { limit ≤ 2 ^ 40 }
    requires fits { length values.items ≤ limit }
    ensures { IfOk result (λ list. list ≡ record { limit = limit; items = values.items }) }
{
    if let Some(value) = full_of_one(&values, limit) {
        let copy = value.copied()?;
        return SharedList::full_of(copy, limit, alloc);
    }
    SharedList::from_vec(values, limit)
}

impl<T: InRange> Values<T> {
    /// The values that were read, of which there may be so many. Each inner node of their tree is hashed once at most.
    pub fn from_items(items: Items<T>, limit: u64) -> Result<Values<T>, NoMemory>
        requires within { AllByRecursion T.Ssz.codec.Within items }
        requires low { limit ≤ 2 ^ 40 }
        requires fits { length items ≤ limit }
        ensures { IfOk result (λ values. values ≡ record { limit = limit; items = items }) }
    {
        let values = items.into_vec();
        let alloc = *values.allocator();
        let list = list_of(values, limit, alloc)?;
        Ok(Values { list, alloc })
    }

    /// The list that they stand in.
    pub fn list(&self) -> &SharedList<T>
        ensures { result.now ≡ self.now }
    {
        &self.list
    }

    /// How many there are. Each of them is one that its codec has.
    pub fn len(&self) -> u64
        ensures len { result ≡ length self.now.items }
        ensures within { AllByRecursion T.Ssz.codec.Within self.now.items }
    {
        self.list.len()
    }

    /// The value at a place. None exactly where the place is not below the length.
    pub fn get(&self, i: u64) -> Option<&T>
        ensures { option_map (λ x. x.now) result ≡ slice_get self.now.items i }
    {
        self.list.get(i)
    }

    /// Writes another value at a place. Where memory is refused, they are as before.
    #[tactic(auto, using(crate::proofs::Within::all_set))]
    pub fn set(&mut self, i: u64, value: T) -> Result<(), NoMemory>
        requires { i < length self.old.items }
        ensures { Becomes result self.old self.new (record self.old { items = slice_set self.old.items i value }) }
    {
        value.in_range();
        set_item::<T, Brand>(&mut self.list, i, value, Blank::new(1))
    }

    /// One more value at the end, where there are fewer than the limit. After a stop they are as before.
    pub fn push(&mut self, value: T) -> Result<(), PushStop>
        ensures pushes { Pushes result self.old.items self.new.items (checked_push self.old.limit self.old.items value) }
        ensures limit { self.new.limit ≡ self.old.limit }
        ensures fits { length self.new.items ≤ self.new.limit }
    {
        let root = value.root();
        self.push_known(value, root)
    }

    /// The same, where the value's root is known, so that it isn't made anew.
    #[tactic(auto, unfolding(bc_words::specs::Outcome::checked_push), using(crate::proofs::Within::all_push))]
    pub fn push_known(&mut self, value: T, root: Root) -> Result<(), PushStop>
        requires { root ≡ T.Ssz.codec.hash_tree_root value }
        ensures pushes { Pushes result self.old.items self.new.items (checked_push self.old.limit self.old.items value) }
        ensures limit { self.new.limit ≡ self.old.limit }
        ensures fits { length self.new.items ≤ self.new.limit }
    {
        value.in_range();
        let pushed = push_item::<T, Brand>(&mut self.list, value, root, Blank::new(1));
        let _limit = self.list.limit();
        pushed
    }

    /// Writes other values at many places. Only the paths to them are made anew. Where memory is refused, they are as before.
    pub fn set_many(&mut self, changes: Vec<(u64, T)>) -> Result<(), NoMemory>
        requires { AreChanges 0 (length self.old.items) changes.items }
        ensures { Becomes result self.old self.new (record self.old { items = changed self.old.items changes.items }) }
    {
        for change in &changes {
            change.1.in_range();
        }
        set_items::<T, Brand>(&mut self.list, changes, Blank::new(1))
    }

    /// More values at the end, whose roots are known. The paths to them are made anew once. Where memory is refused, they are
    /// as before.
    pub fn push_many(&mut self, leaves: Vec<NewLeaf<T>>) -> Result<(), NoMemory>
        requires { length self.old.items + length leaves.items ≤ self.old.limit }
        ensures { Becomes result self.old self.new (record self.old { items = self.old.items ++ leaves.items }) }
    {
        for leaf in &leaves {
            leaf.item().in_range();
        }
        push_items::<T, Brand>(&mut self.list, leaves, Blank::new(1))
    }

    /// Writes other values in the place of all of them. Where there are as many, only the paths to those that differ are made
    /// anew. Where memory is refused, they are as before.
    pub fn replace(&mut self, values: Vec<T>) -> Result<(), NoMemory>
        requires { length values.items ≤ self.old.limit }
        ensures { Becomes result self.old self.new (record self.old { items = values.items }) }
    {
        for value in &values {
            value.in_range();
        }
        replace_items(&mut self.list, values, self.alloc)
    }

    /// No values, of which there may be as many.
    pub fn none(&self) -> Result<Values<T>, NoMemory>
        ensures { IfOk result (λ values. values ≡ record self.now { items = [] }) }
    {
        let list = SharedList::from_vec(Vec::new(self.alloc), self.list.limit())?;
        Ok(Values {
            list,
            alloc: self.alloc,
        })
    }

    /// The same values, in the same nodes.
    pub fn share(&self) -> Result<Values<T>, NoMemory>
        ensures { IfOk result (λ values. values ≡ self.now) }
    {
        let list = self.list.share()?;
        Ok(Values {
            list,
            alloc: self.alloc,
        })
    }

    /// Copies of all of them in one piece, for writing.
    pub fn copied(&self, alloc: Global) -> Result<Vec<T>, NoMemory>
        ensures { IfOk result (λ values. values.items ≡ self.now.items) }
    {
        let mut values = Vec::new(alloc);
        for i in 0..self.len() {
            match self.get(i) {
                Some(value) => values.push(value.copied()?)?,
                None => unreachable!(),
            }
        }
        Ok(values)
    }

    /// The root of the list of values of variable size (simple-serialize.md, "Merkleization"). It is kept.
    pub fn variable_list_root(&self) -> Root
        ensures { result ≡ (variable_size_list T.Ssz.codec self.now.limit).hash_tree_root self.now.items }
    {
        self.list.root()
    }
}

impl<T: InRange + FixedSsz> Values<T> {
    /// The root of the list of values of fixed size (simple-serialize.md, "Merkleization"). It is kept.
    pub fn list_root(&self) -> Root
        ensures { result ≡ (fixed_size_list T.Ssz.codec self.now.limit).hash_tree_root self.now.items }
    {
        self.list.root()
    }

    /// The root of the vector of as many values as there may be. It is kept.
    pub fn vector_root(&self) -> Root
        ensures { result ≡ (vector_codec T.Ssz.codec self.now.limit).hash_tree_root self.now.items }
    {
        self.list.top()
    }
}
