//! The numbers of a list or a vector of the state, in a tree that shares its nodes and keeps its root.
//!
//! Numbers come from reading and from those who change the state, and go to getters, writing and roots.

ghost use Rattle.std.specs.Prelude.{◌≡◌, ◌<◌, ◌≤◌, ◌^◌, length, slice_get, slice_set, IfOk};
ghost use Rattle.std.specs.List.{AllByRecursion};
ghost use Rattle.bc_words.specs.Outcome.{Pushes, Becomes, checked_push};
ghost use Rattle.ssz_codec.specs.Basic.{uint64};
ghost use Rattle.ssz_codec.specs.Lists.{vector_codec, list_codec};
ghost use Rattle.tree_nodes.specs.Changes.{AreChanges, changed};

use crate::differences::few_differences;
use bc_words::{NoMemory, PushStop, Steps};
use hash_tree::Root;
use shared_tree::PackedList;
use ssz_codec::Items;
use std::alloc::Global;
use std::marker::{Brand, Model};
use std::sync::ledger::{Blank, Ledger};

/// The numbers in order, and how many there may be: of a vector, how many there are.
#[derive(Drop)]
pub struct Numbers {
    list: PackedList,
}

impl Model for Numbers {
    ghost use Rattle.std.specs.Prelude.{ℕ};
    ghost use Rattle.shared_tree.specs.Lists.{Limited};

    ghost Value = { Limited ℕ };

    ghost view = { λ s. s.list };
}

/// Sets a number of a list. The steps that it takes are counted by a counter of its own, which nothing reads.
fn set_number<L: Ledger>(
    list: &mut PackedList,
    i: u64,
    number: u64,
    blank: Blank,
) -> Result<(), NoMemory>
    requires name { blank.name ≡ L.name }
    requires parts { blank.parts ≡ L.parts }
    requires some { 0 < blank.parts }
    requires place { i < length list.old.items }
    ensures { Becomes result list.old list.new (record list.old { items = slice_set list.old.items i number }) }
{
    let mut steps = Steps::<L>::new(blank);
    list.set(i, number, &mut steps)
}

/// Puts one more number at the end of a list, with a counter of its own.
fn push_number<L: Ledger>(list: &mut PackedList, number: u64, blank: Blank) -> Result<(), PushStop>
    requires name { blank.name ≡ L.name }
    requires parts { blank.parts ≡ L.parts }
    requires some { 0 < blank.parts }
    ensures pushes { Pushes result list.old.items list.new.items (checked_push list.old.limit list.old.items number) }
    ensures limit { list.new.limit ≡ list.old.limit }
{
    let mut steps = Steps::<L>::new(blank);
    list.push(number, &mut steps)
}

/// Sets many numbers of a list, with a counter of its own.
fn set_numbers<L: Ledger>(
    list: &mut PackedList,
    changes: Vec<(u64, u64)>,
    blank: Blank,
) -> Result<(), NoMemory>
    requires name { blank.name ≡ L.name }
    requires parts { blank.parts ≡ L.parts }
    requires some { 0 < blank.parts }
    requires places { AreChanges 0 (length list.old.items) changes.items }
    ensures { Becomes result list.old list.new (record list.old { items = changed list.old.items changes.items }) }
{
    let mut steps = Steps::<L>::new(blank);
    list.set_many(changes, &mut steps)
}

/// Makes a list of these numbers. Where there are as many as before and few differ, the nodes over those that are the same are
/// kept, and else the tree is built anew.
fn replace_numbers(list: &mut PackedList, numbers: Vec<u64>) -> Result<(), NoMemory>
    requires { length numbers.items ≤ list.old.limit }
    ensures { Becomes result list.old list.new (record list.old { items = numbers.items }) }
{
    if numbers.len() as u64 == list.len() {
        let few = few_differences(*numbers.allocator(), list, &numbers)?;
        if let Some(changes) = few {
            return set_numbers::<Brand>(list, changes, Blank::new(1));
        }
    }
    let limit = list.limit();
    *list = PackedList::from_vec(numbers, limit)?;
    Ok(())
}

impl Numbers {
    /// The numbers that were read, of which there may be so many. Each inner node of their tree is hashed once.
    pub fn from_items(items: Items<u64>, limit: u64) -> Result<Numbers, NoMemory>
        requires low { limit ≤ 2 ^ 40 }
        requires fits { length items ≤ limit }
        ensures { IfOk result (λ numbers. numbers ≡ record { limit = limit; items = items }) }
    {
        let list = PackedList::from_vec(items.into_vec(), limit)?;
        Ok(Numbers { list })
    }

    /// The list that they stand in.
    pub fn list(&self) -> &PackedList
        ensures { result.now ≡ self.now }
    {
        &self.list
    }

    /// How many there are. Each of them is below 2^64.
    pub fn len(&self) -> u64
        ensures len { result ≡ length self.now.items }
        ensures within { AllByRecursion uint64.Within self.now.items }
    {
        self.list.len()
    }

    /// The number at a place. None exactly where the place is not below the length.
    pub fn get(&self, i: u64) -> Option<u64>
        ensures { result ≡ slice_get self.now.items i }
    {
        self.list.get(i)
    }

    /// Writes another number at a place. Where memory is refused, they are as before.
    pub fn set(&mut self, i: u64, number: u64) -> Result<(), NoMemory>
        requires { i < length self.old.items }
        ensures { Becomes result self.old self.new (record self.old { items = slice_set self.old.items i number }) }
    {
        set_number::<Brand>(&mut self.list, i, number, Blank::new(1))
    }

    /// One more number at the end, where there are fewer than the limit. After a stop they are as before.
    pub fn push(&mut self, number: u64) -> Result<(), PushStop>
        ensures pushes { Pushes result self.old.items self.new.items (checked_push self.old.limit self.old.items number) }
        ensures limit { self.new.limit ≡ self.old.limit }
        ensures fits { length self.new.items ≤ self.new.limit }
    {
        let pushed = push_number::<Brand>(&mut self.list, number, Blank::new(1));
        let _limit = self.list.limit();
        pushed
    }

    /// Writes other numbers at many places. Only the paths to them are made anew. Where memory is refused, they are as before.
    pub fn set_many(&mut self, changes: Vec<(u64, u64)>) -> Result<(), NoMemory>
        requires { AreChanges 0 (length self.old.items) changes.items }
        ensures { Becomes result self.old self.new (record self.old { items = changed self.old.items changes.items }) }
    {
        set_numbers::<Brand>(&mut self.list, changes, Blank::new(1))
    }

    /// Writes other numbers in the place of all of them. Where there are as many and few differ, only the paths to those are made
    /// anew. Where memory is refused, they are as before.
    pub fn replace(&mut self, numbers: Vec<u64>) -> Result<(), NoMemory>
        requires { length numbers.items ≤ self.old.limit }
        ensures { Becomes result self.old self.new (record self.old { items = numbers.items }) }
    {
        replace_numbers(&mut self.list, numbers)
    }

    /// The same numbers, in the same nodes.
    pub fn share(&self) -> Result<Numbers, NoMemory>
        ensures { IfOk result (λ numbers. numbers ≡ self.now) }
    {
        let list = self.list.share()?;
        Ok(Numbers { list })
    }

    /// All of them in one piece, for writing.
    pub fn copied(&self, alloc: Global) -> Result<Vec<u64>, NoMemory>
        ensures { IfOk result (λ numbers. numbers.items ≡ self.now.items) }
    {
        let mut numbers = Vec::new(alloc);
        for i in 0..self.len() {
            match self.get(i) {
                Some(number) => numbers.push(number)?,
                None => unreachable!(),
            }
        }
        Ok(numbers)
    }

    /// The root of the list (simple-serialize.md, "Merkleization"). It is kept.
    pub fn list_root(&self) -> Root
        ensures { result ≡ (list_codec uint64 self.now.limit).hash_tree_root self.now.items }
    {
        self.list.root()
    }

    /// The root of the vector of as many numbers as there may be. It is kept.
    pub fn vector_root(&self) -> Root
        ensures { result ≡ (vector_codec uint64 self.now.limit).hash_tree_root self.now.items }
    {
        self.list.top()
    }
}
