//! The registry of the state, each of whose validators is one that its codec has.
//!
//! Validators come from reading and from those who change the state, and go to getters, writing and roots.

ghost use Rattle.std.specs.Prelude.{ℕ, ◌≡◌, ◌<◌, ◌≤◌, ◌^◌, length, slice_get, slice_set, IfOk};
ghost use Rattle.std.specs.List.{AllByRecursion};
ghost use Rattle.bc_words.specs.Outcome.{Pushes, Becomes, checked_push};
ghost use Rattle.ssz_codec.specs.Basic.{uint64};
ghost use Rattle.beacon_types.specs.Containers.{validator_codec};
ghost use Rattle.tree_nodes.specs.Changes.{AreChanges};
ghost use Rattle.validator_registry.specs.Registries.{registry_root, with_balances};

use crate::in_range::InRange;
use bc_words::{NoMemory, PushStop, Steps};
use beacon_types::Validator;
use hash_tree::Root;
use ssz_codec::Items;
use std::alloc::Global;
use std::marker::{Brand, Model};
use std::sync::ledger::{Blank, Ledger};
use validator_registry::{Entry, Registry};

/// The validators in order.
#[derive(Drop)]
pub struct Validators {
    registry: Registry,
}

impl Model for Validators {
    ghost use Rattle.std.specs.Prelude.{List};
    ghost use Rattle.std.specs.List.{AllByRecursion};
    ghost use Rattle.beacon_types.specs.declared.validator.Validator.{Validator};
    ghost use Rattle.beacon_types.specs.Containers.{validator_codec};

    ghost Value = { List Validator };

    ghost view = { λ s. s.registry };

    ghost invariant = { λ s. AllByRecursion validator_codec.Within s.registry };
}

/// Sets a validator of a registry. The steps that it takes are counted by a counter of its own, which nothing reads.
fn set_validator<L: Ledger>(
    registry: &mut Registry,
    i: u64,
    validator: &Validator,
    blank: Blank,
) -> Result<(), NoMemory>
    requires name { blank.name ≡ L.name }
    requires parts { blank.parts ≡ L.parts }
    requires some { 0 < blank.parts }
    requires place { i < length registry.old }
    ensures { Becomes result registry.old registry.new (slice_set registry.old i validator.now) }
{
    let mut steps = Steps::<L>::new(blank);
    registry.set(i, validator, &mut steps)
}

/// Puts one more validator at the end of a registry, with a counter of its own.
fn push_validator<L: Ledger>(
    registry: &mut Registry,
    validator: &Validator,
    blank: Blank,
) -> Result<(), PushStop>
    requires name { blank.name ≡ L.name }
    requires parts { blank.parts ≡ L.parts }
    requires some { 0 < blank.parts }
    ensures { Pushes result registry.old registry.new (checked_push (2 ^ 40) registry.old validator.now) }
{
    let mut steps = Steps::<L>::new(blank);
    registry.push(validator, &mut steps)
}

/// Writes other effective balances in a registry, with a counter of its own.
fn set_balances<L: Ledger>(
    registry: &mut Registry,
    changes: Vec<(u64, u64)>,
    blank: Blank,
) -> Result<(), NoMemory>
    requires name { blank.name ≡ L.name }
    requires parts { blank.parts ≡ L.parts }
    requires some { 0 < blank.parts }
    requires places { AreChanges 0 (length registry.old) changes.items }
    ensures { Becomes result registry.old registry.new (with_balances registry.old changes.items) }
{
    let mut steps = Steps::<L>::new(blank);
    registry.set_effective_balances(changes, &mut steps)
}

/// The law that what an effective balance changes to is below 2^64. It does nothing when it runs.
fn change_in_range(change: &(u64, u64))
    ensures { uint64.Within change.now.1 }
{
    let _balance = change.1;
}

/// The law that what effective balances change to is below 2^64. It does nothing when it runs.
fn balances_in_range(changes: &[(u64, u64)])
    ensures { AllByRecursion (λ (change : ℕ × ℕ). uint64.Within change.1) changes.now }
{
    for change in changes {
        change_in_range(change);
    }
}

impl Validators {
    /// The validators that were read. Each of them is hashed once, and each node of their tree.
    pub fn from_items(items: Items<Validator>) -> Result<Validators, NoMemory>
        requires within { AllByRecursion validator_codec.Within items }
        requires fits { length items ≤ 2 ^ 40 }
        ensures { IfOk result (λ validators. validators ≡ items) }
    {
        let registry = Registry::from_vec(items.into_vec())?;
        Ok(Validators { registry })
    }

    /// The registry that they stand in.
    pub fn registry(&self) -> &Registry
        ensures { result.now ≡ self.now }
    {
        &self.registry
    }

    /// How many there are. Each of them is one that its codec has.
    pub fn len(&self) -> u64
        ensures len { result ≡ length self.now }
        ensures fits { result ≤ 2 ^ 40 }
        ensures within { AllByRecursion validator_codec.Within self.now }
    {
        self.registry.len()
    }

    /// The validator at a place. None exactly where the place is not below the length.
    pub fn get(&self, i: u64) -> Option<Entry<'_>>
        ensures { result ≡ slice_get self.now i }
    {
        self.registry.get(i)
    }

    /// Writes another validator at a place. Where memory is refused, they are as before.
    #[tactic(auto, using(crate::proofs::Within::all_set))]
    pub fn set(&mut self, i: u64, validator: &Validator) -> Result<(), NoMemory>
        requires { i < length self.old }
        ensures { Becomes result self.old self.new (slice_set self.old i validator.now) }
    {
        validator.in_range();
        set_validator::<Brand>(&mut self.registry, i, validator, Blank::new(1))
    }

    /// One more validator at the end, where there are fewer than 2 ^ 40. After a stop they are as before.
    #[tactic(auto, unfolding(bc_words::specs::Outcome::checked_push), using(crate::proofs::Within::all_push))]
    pub fn push(&mut self, validator: &Validator) -> Result<(), PushStop>
        ensures pushes { Pushes result self.old self.new (checked_push (2 ^ 40) self.old validator.now) }
        ensures fits { length self.new ≤ 2 ^ 40 }
    {
        validator.in_range();
        let pushed = push_validator::<Brand>(&mut self.registry, validator, Blank::new(1));
        let _len = self.registry.len();
        pushed
    }

    /// Writes other effective balances at many places, in Gwei. Validators with other balances share all else. Where memory is
    /// refused, they are as before.
    pub fn set_effective_balances(&mut self, changes: Vec<(u64, u64)>) -> Result<(), NoMemory>
        requires { AreChanges 0 (length self.old) changes.items }
        ensures { Becomes result self.old self.new (with_balances self.old changes.items) }
    {
        balances_in_range(&changes);
        set_balances::<Brand>(&mut self.registry, changes, Blank::new(1))
    }

    /// Writes other validators in the place of all of them. Where memory is refused, they are as before.
    pub fn replace(&mut self, validators: Vec<Validator>) -> Result<(), NoMemory>
        requires { length validators.items ≤ 2 ^ 40 }
        ensures { Becomes result self.old self.new validators.items }
    {
        for validator in &validators {
            validator.in_range();
        }
        self.registry = Registry::from_vec(validators)?;
        Ok(())
    }

    /// The same validators, in the same nodes.
    pub fn share(&self) -> Result<Validators, NoMemory>
        ensures { IfOk result (λ validators. validators ≡ self.now) }
    {
        let registry = self.registry.share()?;
        Ok(Validators { registry })
    }

    /// Copies of all of them in one piece, for writing.
    pub fn copied(&self, alloc: Global) -> Result<Vec<Validator>, NoMemory>
        ensures { IfOk result (λ validators. validators.items ≡ self.now) }
    {
        let mut validators = Vec::new(alloc);
        for i in 0..self.len() {
            match self.get(i) {
                Some(entry) => validators.push(entry.validator())?,
                None => unreachable!(),
            }
        }
        Ok(validators)
    }

    /// The root of the list (simple-serialize.md, "Merkleization"). It is kept.
    pub fn root(&self) -> Root
        ensures { result ≡ registry_root self.now }
    {
        self.registry.root()
    }
}
