//! A pass over the registry and the balances of a state of 262,144 validators by their iterators, against a pass over vectors of
//! the same.

use crate::ratio::{Time, now, tell_joined, tell_ratio, time_since};
use crate::states::{Shape, read_mainnet};
use anyhow::Result;
use beacon_state::State;
use beacon_types::Validator;
use std::alloc::{AllocError, Global};
use std::time::CpuClock;

/// How many validators there are.
const VALIDATORS: u32 = 262_144;

/// How often each pass is made.
const PASSES: u32 = 20;

/// A pass over the registry of the state, joined so that none is left out.
fn pass_tree(state: &State) -> u64 {
    let mut joined = 0u64;
    for validator in state.registry().iter() {
        joined = joined.wrapping_add(validator.effective_balance() ^ validator.exit_epoch());
    }
    joined
}

/// A pass over a vector of validators.
fn pass_vector(validators: &[Validator]) -> u64 {
    let mut joined = 0u64;
    for validator in validators {
        joined = joined.wrapping_add(validator.effective_balance ^ validator.exit_epoch);
    }
    joined
}

/// A pass over the balances of the state.
fn pass_balances(state: &State) -> u64 {
    let mut joined = 0u64;
    for balance in state.balance_list().iter() {
        joined = joined.wrapping_add(balance);
    }
    joined
}

/// A pass over a vector of numbers.
fn pass_numbers(numbers: &[u64]) -> u64 {
    let mut joined = 0u64;
    for number in numbers {
        joined = joined.wrapping_add(*number);
    }
    joined
}

/// A pass that walks from the first node to each validator.
fn pass_walks(state: &State) -> u64 {
    let mut joined = 0u64;
    for index in 0..state.validators_len() {
        if let Some(validator) = state.validators_at(index) {
            joined = joined.wrapping_add(validator.effective_balance() ^ validator.exit_epoch());
        }
    }
    joined
}

/// The registry of the state in a vector.
fn registry_of(alloc: Global, state: &State) -> Result<Vec<Validator>, AllocError> {
    let mut validators = Vec::new(alloc);
    for validator in state.registry().iter() {
        validators.push(validator.validator())?;
    }
    Ok(validators)
}

/// The balances of the state in a vector.
fn balances_of(alloc: Global, state: &State) -> Result<Vec<u64>, AllocError> {
    let mut balances = Vec::new(alloc);
    for balance in state.balance_list().iter() {
        balances.push(balance)?;
    }
    Ok(balances)
}

/// What is passed over.
#[derive(Clone, Copy)]
enum Pass<'a> {
    /// The registry of a state by its iterator.
    Registry(&'a State),
    /// The same by a walk to each validator.
    Walks(&'a State),
    /// A vector of validators.
    Vector(&'a [Validator]),
    /// The balances of a state by their iterator.
    Balances(&'a State),
    /// A vector of numbers.
    Numbers(&'a [u64]),
}

/// One pass.
fn pass_once(pass: Pass<'_>) -> u64 {
    match pass {
        Pass::Registry(state) => pass_tree(state),
        Pass::Walks(state) => pass_walks(state),
        Pass::Vector(validators) => pass_vector(validators),
        Pass::Balances(state) => pass_balances(state),
        Pass::Numbers(numbers) => pass_numbers(numbers),
    }
}

/// The time of so many passes, and what they are joined to.
fn time_pass(rt: &impl CpuClock, pass: Pass<'_>) -> (Time, u64) {
    let begin = now(rt);
    let mut joined = 0;
    for _ in 0..PASSES {
        joined ^= pass_once(pass);
    }
    (time_since(rt, begin), joined)
}

/// Passes over both registries, and prints their times.
fn time_registry(
    rt: &(impl Print + CpuClock),
    state: &State,
    validators: &[Validator],
) -> Result<()> {
    let (tree, first) = time_pass(rt, Pass::Registry(state));
    let (vector, second) = time_pass(rt, Pass::Vector(validators));
    let (walked, third) = time_pass(rt, Pass::Walks(state));
    let joined = first ^ second ^ third;
    let what = "20 passes over 262144 validators, against a vector";
    let walks = "a walk to each of them, against these passes";
    tell_joined(rt, what, tree, vector, joined).and(tell_ratio(rt, walks, walked, tree))
}

/// Passes over the balances of both, and prints their times.
fn time_balances(rt: &(impl Print + CpuClock), state: &State, balances: &[u64]) -> Result<()> {
    let (whole, first) = time_pass(rt, Pass::Balances(state));
    let (measure, second) = time_pass(rt, Pass::Numbers(balances));
    let what = "20 passes over 262144 balances, against a vector";
    tell_joined(rt, what, whole, measure, first ^ second)
}

/// Makes the vectors, and passes over all.
fn time_passes(rt: &(impl AllocGlobal + Print + CpuClock), state: &State) -> Result<()> {
    let validators = registry_of(rt.alloc(), state)?;
    let balances = balances_of(rt.alloc(), state)?;
    time_registry(rt, state, &validators).and(time_balances(rt, state, &balances))
}

/// Reads the state, passes over it, and prints the times.
pub fn measure(rt: &(impl AllocGlobal + Print + CpuClock)) -> Result<()> {
    match read_mainnet(rt, &Shape::at_genesis(VALIDATORS)) {
        Ok(reading) => time_passes(rt, &reading.state),
        Err(error) => Err(error),
    }
}
