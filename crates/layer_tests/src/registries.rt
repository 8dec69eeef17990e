//! The registry in groups against the list of the same validators. Each call succeeds with ample memory.

ghost use Rattle.std.specs.Prelude.{◌≡◌, ◌<◌, ◌≤◌, ◌^◌, length, IfOk};

use bc_words::{NoMemory, PushStop, Steps};
use beacon_types::Validator;
use hash_tree::Root;
use ssz_codec::list_root;
use std::alloc::Global;
use std::marker::Brand;
use std::sync::ledger::{Blank, Ledger};
use std::test::Fail;
use validator_registry::{Entry, Registry};

/// How many validators a registry may have.
const LIMIT: u64 = 1 << 40;

/// A validator that differs from one of another number in its key and in its balance.
fn validator_of(number: u8) -> Validator {
    Validator {
        pubkey: [number; 48],
        withdrawal_credentials: [7; 32],
        effective_balance: u64::from(number),
        slashed: false,
        activation_eligibility_epoch: 0,
        activation_epoch: 0,
        exit_epoch: u64::MAX,
        withdrawable_epoch: u64::MAX,
    }
}

/// The first validators, so many.
fn first_validators(alloc: Global, count: u8) -> Result<Vec<Validator>, NoMemory>
    ensures { IfOk result (λ all. length all.items ≡ count) }
{
    let mut all = Vec::new(alloc);
    'all: for k in 0..count {
        all.push(validator_of(k))?;
    }
    Ok(all)
}

/// The root of a list of these validators.
fn root_of(validators: &[Validator]) -> Root
    requires { length validators.now ≤ 2 ^ 40 }
{
    list_root(validators, LIMIT)
}

/// The whole validator of an entry.
fn whole(entry: Option<Entry<'_>>) -> Option<Validator> {
    match entry {
        Some(entry) => Some(entry.validator()),
        None => None,
    }
}

/// Whether the registry has these validators, by their places and in order.
fn has_each(registry: &Registry, validators: &[Validator]) -> bool {
    let mut walk = registry.iter();
    'each: for k in 0..validators.len() {
        let validator = Some(validators[k]);
        if whole(registry.get(k as u64)) != validator || whole(walk.next()) != validator {
            return false;
        }
    }
    walk.next().is_none()
}

/// Whether the registry has these validators and their root.
fn has(registry: &Registry, validators: &[Validator]) -> bool
    requires { length validators.now ≤ 2 ^ 40 }
{
    let count = validators.len() as u64;
    has_each(registry, validators)
        && registry.root() == root_of(validators)
        && registry.len() == count
        && registry.get(count).is_none()
}

/// Whether an empty registry has the validators that are pushed: its tree is made twice as large for the seventeenth and the
/// thirty-third.
fn validators_are_pushed<L: Ledger>(alloc: Global, steps: &mut Steps<L>) -> Result<bool, PushStop> {
    let mut registry = Registry::from_vec(Vec::new(alloc))?;
    'pushes: for k in 0..33 {
        registry.push(&validator_of(k), steps)?;
    }
    let all = first_validators(alloc, 33)?;
    Ok(has(&registry, &all))
}

/// Sets one of 33 validators, and three effective balances.
fn set_some<L: Ledger>(
    alloc: Global,
    registry: &mut Registry,
    steps: &mut Steps<L>,
) -> Result<(), NoMemory>
    requires { length registry.old ≡ 33 }
{
    registry.set(16, &validator_of(99), steps)?;
    let changes = vec![in alloc; (0, 5), (15, 6), (32, 7)]?;
    registry.set_effective_balances(changes, steps)
}

/// The 33 validators, of which some were set.
fn some_set(alloc: Global) -> Result<Vec<Validator>, NoMemory>
    ensures { IfOk result (λ all. length all.items ≡ 33) }
{
    let mut all = first_validators(alloc, 33)?;
    all[16] = validator_of(99);
    all[0].effective_balance = 5;
    all[15].effective_balance = 6;
    all[32].effective_balance = 7;
    Ok(all)
}

/// Whether a registry has what was set, and one that shares its groups is as before.
fn validators_are_set<L: Ledger>(alloc: Global, steps: &mut Steps<L>) -> Result<bool, NoMemory> {
    let mut registry = Registry::from_vec(first_validators(alloc, 33)?)?;
    let other = registry.share()?;
    set_some(alloc, &mut registry, steps)?;
    let set = has(&registry, &some_set(alloc)?);
    let same = has(&other, &first_validators(alloc, 33)?);
    Ok(set && same)
}

/// Whether both hold.
fn registries_change<L: Ledger>(alloc: Global, blank: Blank) -> Result<bool, PushStop>
    requires name { blank.name ≡ L.name }
    requires parts { blank.parts ≡ L.parts }
    requires some { 0 < blank.parts }
{
    let mut steps = Steps::<L>::new(blank);
    let pushed = validators_are_pushed(alloc, &mut steps)?;
    let set = validators_are_set(alloc, &mut steps)?;
    Ok(pushed && set)
}

#[test]
fn registries_have_the_roots_of_their_validators(rt: HostRuntime) -> Result<(), Fail> {
    assert!(rt; registries_change::<Brand>(rt.alloc(), Blank::new(1))?);
    Ok(())
}
