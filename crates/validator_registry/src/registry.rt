//! The registry of validators in groups of sixteen, whose tree is shared and keeps its root (beacon-chain.md, "Registry").
//!
//! Validators come from the state above, and the root goes back to it.

ghost use Rattle.std.specs.Prelude.{◌≡◌, ◌+◌, ◌*◌, ◌<◌, ◌≤◌, ◌^◌, [], ◌∷◌, ◌++◌, length, slice_get, slice_set, IfOk, OnOk};
ghost use Rattle.bc_words.specs.Outcome.{Pushes, Becomes, checked_push};
ghost use Rattle.tree_nodes.specs.Changes.{AreChanges};
ghost use Rattle.tree_nodes.specs.inside.Lifts.{Lifts};
ghost use Rattle.validator_registry.specs.Registries.{registry_root, with_balances};
ghost use Rattle.validator_registry.specs.inside.Groups.{joined, IsTreeOf};

use crate::building::{cut, depth_over, doubled, tree_of};
use crate::entry::Entry;
use crate::group::Group;
use crate::group_changes::group_changes;
use crate::validators::Validators;
use bc_words::{NoMemory, PushStop, Steps};
use beacon_types::Validator;
use hash_tree::{Root, hash_pair, zero_hash};
use std::alloc::Global;
use std::marker::{Brand, Model};
use std::sync::ledger::{Blank, Ledger};
use tree_nodes::{Tree, mix_step};

/// How many validators there may be (`VALIDATOR_REGISTRY_LIMIT`).
const LIMIT: u64 = 1 << 40;

/// The validators in order, which contracts see as their list.
#[derive(Drop)]
pub struct Registry {
    tree: Tree<Group>,
    depth: u32,
    len: u64,
    root: Root,
    alloc: Global,
}

impl Model for Registry {
    ghost use Rattle.std.specs.Prelude.{List};
    ghost use Rattle.beacon_types.specs.declared.validator.Validator.{Validator};

    ghost Value = { List Validator };

    ghost use Rattle.validator_registry.specs.inside.Groups.{joined, IsRegistry};

    ghost view = { λ registry. joined registry.tree.1 };

    ghost invariant = { λ registry. IsRegistry registry.tree registry.depth registry.len registry.root };
}

/// The root of a tree with 2 ^ 40 leaves over the same chunks as one of a lower depth. A step for each level.
fn lifted<L: Ledger>(root: Root, low: u32, steps: &mut Steps<L>) -> Root
    requires { low ≤ 40 }
    ensures lifts { Lifts low 40 root result }
    ensures steps { steps.new + low ≡ steps.old + 40 }
{
    let mut top = root;
    'levels: for level in low..40 {
        steps.tick();
        top = hash_pair(&top, &zero_hash(level));
    }
    top
}

/// The root of the validators, of which there are so many, by the tree of their groups. A step for each level above the tree, and
/// one for the length.
fn root_over<L: Ledger>(tree: &Tree<Group>, depth: u32, len: u64, steps: &mut Steps<L>) -> Root
    requires tree { IsTreeOf (joined tree.now.1) tree.now depth }
    requires len { len ≡ length (joined tree.now.1) }
    ensures root { result ≡ registry_root (joined tree.now.1) }
    ensures steps { steps.new + depth ≡ steps.old + 37 }
{
    let top = lifted(tree.top(), depth + 4, steps);
    mix_step(&top, len, steps)
}

/// The registry of these validators, with a counter of its own.
fn made<L: Ledger>(validators: Vec<Validator>, blank: Blank) -> Result<Registry, NoMemory>
    requires name { blank.name ≡ L.name }
    requires parts { blank.parts ≡ L.parts }
    requires some { 0 < blank.parts }
    requires fits { length validators.items ≤ 2 ^ 40 }
    ensures { IfOk result (λ registry. registry ≡ validators.items) }
{
    let alloc = *validators.allocator();
    let mut steps = Steps::<L>::new(blank);
    let len = validators.len() as u64;
    let groups = cut(&validators, alloc)?;
    drop(validators);
    let depth = depth_over(groups.len() as u64);
    let tree = tree_of(groups, depth, alloc, &mut steps)?;
    let root = root_over(&tree, depth, len, &mut steps);
    Ok(Registry {
        tree,
        depth,
        len,
        root,
        alloc,
    })
}

/// The tree and its depth, with room for one more validator: as it is, or twice as large. At most three steps for each validator.
fn with_room<L: Ledger>(
    tree: &Tree<Group>,
    depth: u32,
    len: u64,
    alloc: Global,
    steps: &mut Steps<L>,
) -> Result<(Tree<Group>, u32), NoMemory>
    requires tree { IsTreeOf (joined tree.now.1) tree.now depth }
    requires len { len ≡ length (joined tree.now.1) }
    requires room { len < 2 ^ 40 }
    ensures tree { IfOk result (λ more. IsTreeOf (joined tree.now.1) more.0 more.1) }
    ensures room { IfOk result (λ more. len < 16 * length more.0.1) }
    ensures at_most { steps.new ≤ steps.old + 3 * len }
{
    if len < 16 * tree.len() {
        return Ok((tree.share()?, depth));
    }
    Ok((doubled(tree, depth, alloc, steps)?, depth + 1))
}

/// Puts one more validator behind the last, of which there are so many.
fn put_behind<L: Ledger>(
    tree: &mut Tree<Group>,
    depth: u32,
    len: u64,
    validator: &Validator,
    alloc: Global,
    steps: &mut Steps<L>,
) -> Result<(), NoMemory>
    requires tree { IsTreeOf (joined tree.old.1) tree.old depth }
    requires len { len ≡ length (joined tree.old.1) }
    requires room { len < 16 * length tree.old.1 }
    ensures tree { OnOk result (IsTreeOf (joined tree.old.1 ++ validator.now ∷ []) tree.new depth) }
    ensures steps { OnOk result (steps.new ≡ steps.old + depth) }
    ensures at_most { steps.new ≤ steps.old + depth }
{
    match tree.get(len / 16) {
        Some(group) => {
            let more = group.with_more(validator, alloc)?;
            tree.put(len / 16, more, steps)?;
            Ok(())
        }
        None => unreachable!(),
    }
}

impl Registry {
    /// The registry of these validators. It hashes each of them once, and each node of the tree.
    pub fn from_vec(validators: Vec<Validator>) -> Result<Registry, NoMemory>
        requires { length validators.items ≤ 2 ^ 40 }
        ensures { IfOk result (λ registry. registry ≡ validators.items) }
    {
        made::<Brand>(validators, Blank::new(1))
    }

    /// How many validators there are.
    pub fn len(&self) -> u64
        ensures len { result ≡ length self.now }
        ensures fits { result ≤ 2 ^ 40 }
    {
        self.len
    }

    /// The validator at a place. None exactly where the place is not below the length.
    pub fn get(&self, i: u64) -> Option<Entry<'_>>
        ensures { result ≡ slice_get self.now i }
    {
        match self.tree.get(i / 16) {
            Some(group) => group.get((i % 16) as usize),
            None => None,
        }
    }

    /// The root of the list (simple-serialize.md, "Merkleization"). It is kept.
    pub fn root(&self) -> Root
        ensures { result ≡ registry_root self.now }
    {
        self.root
    }

    /// The validators in order. An iterator is seen as what is left of them.
    pub fn iter(&self) -> Validators<'_>
        ensures { result ≡ self.now }
    {
        Validators::over(&self.tree)
    }

    /// Another validator at a place. Its group is hashed anew, with a step for each level above it and one for the length. Where
    /// memory is refused, the registry is as before.
    pub fn set<L: Ledger>(
        &mut self,
        i: u64,
        validator: &Validator,
        steps: &mut Steps<L>,
    ) -> Result<(), NoMemory>
        requires { i < length self.old }
        ensures set { Becomes result self.old self.new (slice_set self.old i validator.now) }
        ensures steps { OnOk result (steps.new ≡ steps.old + 37) }
        ensures at_most { steps.new ≤ steps.old + 37 }
    {
        let group = match self.tree.get(i / 16) {
            Some(group) => group.with((i % 16) as usize, validator, self.alloc)?,
            None => unreachable!(),
        };
        self.tree.put(i / 16, group, steps)?;
        self.root = root_over(&self.tree, self.depth, self.len, steps);
        Ok(())
    }

    /// Other effective balances at many places, in Gwei. Each group in which one changes is hashed anew, and shares all but the
    /// balances; with at most a step for each level above the groups and change, and one for the length, and none where nothing
    /// changes. Where memory is refused, the registry is as before.
    pub fn set_effective_balances<L: Ledger>(
        &mut self,
        changes: Vec<(u64, u64)>,
        steps: &mut Steps<L>,
    ) -> Result<(), NoMemory>
        requires { AreChanges 0 (length self.old) changes.items }
        ensures set { Becomes result self.old self.new (with_balances self.old changes.items) }
        ensures at_most { steps.new ≤ steps.old + (length changes.items * 36 + 37) }
    {
        if changes.is_empty() {
            return Ok(());
        }
        let groups = group_changes(&self.tree, changes, self.alloc)?;
        self.tree.put_many(groups, steps)?;
        self.root = root_over(&self.tree, self.depth, self.len, steps);
        Ok(())
    }

    /// One more validator at the end. Full exactly where there are 2 ^ 40. After a stop the registry is as before. It takes the
    /// steps of a `set`; where each group is full, the tree is made twice as large before, with at most three steps for each
    /// validator.
    pub fn push<L: Ledger>(
        &mut self,
        validator: &Validator,
        steps: &mut Steps<L>,
    ) -> Result<(), PushStop>
        ensures pushes { Pushes result self.old self.new (checked_push (2 ^ 40) self.old validator.now) }
        ensures at_most { steps.new ≤ steps.old + (3 * length self.old + 37) }
    {
        if self.len >= LIMIT {
            return Err(PushStop::Full);
        }
        let (mut tree, depth) = with_room(&self.tree, self.depth, self.len, self.alloc, steps)?;
        put_behind(&mut tree, depth, self.len, validator, self.alloc, steps)?;
        self.len += 1;
        self.root = root_over(&tree, depth, self.len, steps);
        self.tree = tree;
        self.depth = depth;
        Ok(())
    }

    /// An equal registry, whose nodes are those of this one.
    pub fn share(&self) -> Result<Registry, NoMemory>
        ensures { IfOk result (λ registry. registry ≡ self.now) }
    {
        Ok(Registry {
            tree: self.tree.share()?,
            depth: self.depth,
            len: self.len,
            root: self.root,
            alloc: self.alloc,
        })
    }
}
