//! Every effective balance of a registry of 262,144 validators set at once, and every place of a list of as many numbers, against
//! making the registry and the list of these anew.

ghost use Rattle.std.specs.Prelude.{◌≡◌, ◌<◌, ◌≤◌, ◌^◌, length, IfOk};
ghost use Rattle.tree_nodes.specs.Changes.{AreChanges};

use crate::ratio::{Time, now, tell_number, tell_ratio, time_since};
use anyhow::Result;
use bc_words::{NoMemory, Steps};
use beacon_types::Validator;
use hash_tree::Root;
use shared_tree::PackedList;
use std::alloc::Global;
use std::marker::Brand;
use std::sync::ledger::{Blank, Ledger};
use std::time::CpuClock;
use validator_registry::Registry;

/// How many items there are.
const ITEMS: u64 = 262_144;

/// How many numbers there may be.
const LIMIT: u64 = 1 << 40;

/// A validator with a balance.
fn validator_with(balance: u64) -> Validator {
    Validator {
        pubkey: [3; 48],
        withdrawal_credentials: [4; 32],
        effective_balance: balance,
        slashed: false,
        activation_eligibility_epoch: 0,
        activation_epoch: 0,
        exit_epoch: u64::MAX,
        withdrawable_epoch: u64::MAX,
    }
}

/// So many validators.
fn validators(alloc: Global) -> Result<Vec<Validator>, NoMemory>
    ensures { IfOk result (λ items. length items.items ≡ 262144) }
{
    let mut items = Vec::new(alloc);
    for i in 0..ITEMS {
        items.push(validator_with(i))?;
    }
    Ok(items)
}

/// So many numbers.
fn numbers(alloc: Global) -> Result<Vec<u64>, NoMemory>
    ensures { IfOk result (λ items. length items.items ≡ 262144) }
{
    let mut items = Vec::new(alloc);
    for i in 0..ITEMS {
        items.push(i)?;
    }
    Ok(items)
}

/// A change of each place to a number.
#[tactic(auto, using(crate::proofs::Places::every_place))]
fn number_changes(alloc: Global) -> Result<Vec<(u64, u64)>, NoMemory>
    ensures { IfOk result (λ changes. AreChanges 0 262144 changes.items) }
{
    let mut changes = Vec::new(alloc);
    for i in 0..ITEMS {
        changes.push((i, i + 1))?;
    }
    Ok(changes)
}

/// The time in which every effective balance of the registry is set.
fn time_set<L: Ledger>(
    rt: &(impl AllocGlobal + CpuClock),
    registry: &mut Registry,
    blank: Blank,
) -> Result<Time, NoMemory>
    requires name { blank.name ≡ L.name }
    requires parts { blank.parts ≡ L.parts }
    requires some { 0 < blank.parts }
    requires all { length registry.old ≡ 262144 }
{
    let mut steps = Steps::<L>::new(blank);
    let changes = number_changes(rt.alloc())?;
    let begin = now(rt);
    registry.set_effective_balances(changes, &mut steps)?;
    Ok(time_since(rt, begin))
}

/// The same of numbers.
fn time_set_numbers<L: Ledger>(
    rt: &(impl AllocGlobal + CpuClock),
    list: &mut PackedList,
    blank: Blank,
) -> Result<Time, NoMemory>
    requires name { blank.name ≡ L.name }
    requires parts { blank.parts ≡ L.parts }
    requires some { 0 < blank.parts }
    requires all { length list.old.items ≡ 262144 }
{
    let mut steps = Steps::<L>::new(blank);
    let changes = number_changes(rt.alloc())?;
    let begin = now(rt);
    list.set_many(changes, &mut steps)?;
    Ok(time_since(rt, begin))
}

/// Prints how long each item of a list was set, and how long the list was made.
fn tell(rt: &impl Print, what: &str, whole: Time, measure: Time, root: &Root) -> Result<()> {
    tell_ratio(rt, what, whole, measure).and(tell_number(
        rt,
        "first byte of the root",
        u64::from(root[0]),
    ))
}

/// Sets each effective balance of a registry that was made in this time, and prints both times.
fn measure_setting(
    rt: &(impl AllocGlobal + Print + CpuClock),
    registry: &mut Registry,
    measure: Time,
) -> Result<()>
    requires all { length registry.old ≡ 262144 }
{
    let what = "every effective balance of 262144 validators set, against their registry made anew";
    match time_set::<Brand>(rt, registry, Blank::new(1)) {
        Ok(whole) => tell(rt, what, whole, measure, &registry.root()),
        Err(stop) => Err(stop.into()),
    }
}

/// The same of numbers.
fn measure_setting_numbers(
    rt: &(impl AllocGlobal + Print + CpuClock),
    list: &mut PackedList,
    measure: Time,
) -> Result<()>
    requires all { length list.old.items ≡ 262144 }
{
    let what = "every one of 262144 numbers set, against their list made anew";
    match time_set_numbers::<Brand>(rt, list, Blank::new(1)) {
        Ok(whole) => tell(rt, what, whole, measure, &list.root()),
        Err(stop) => Err(stop.into()),
    }
}

/// Makes a registry of validators, sets each effective balance, and prints both times.
fn measure_validators(rt: &(impl AllocGlobal + Print + CpuClock)) -> Result<()> {
    let items = validators(rt.alloc())?;
    let begin = now(rt);
    match Registry::from_vec(items) {
        Ok(mut registry) => measure_setting(rt, &mut registry, time_since(rt, begin)),
        Err(stop) => Err(stop.into()),
    }
}

/// Makes a list of numbers, sets each, and prints both times.
fn measure_numbers(rt: &(impl AllocGlobal + Print + CpuClock)) -> Result<()> {
    let items = numbers(rt.alloc())?;
    let begin = now(rt);
    match PackedList::from_vec(items, LIMIT) {
        Ok(mut list) => measure_setting_numbers(rt, &mut list, time_since(rt, begin)),
        Err(stop) => Err(stop.into()),
    }
}

/// Measures both.
pub fn measure(rt: &(impl AllocGlobal + Print + CpuClock)) -> Result<()> {
    measure_validators(rt)?;
    measure_numbers(rt)
}
