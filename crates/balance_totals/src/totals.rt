//! The list of active validators, and the total balance of a set.
//!
//! What a state keeps of the active validators is read there. Where it keeps nothing, they are found by a walk over the registry.

ghost use Rattle.std.specs.Prelude.{◌≡◌, ◌<◌, ◌≤◌, ◌^◌, ℕ, length, max, slice_index, IfOk, IfSome};
ghost use Rattle.bc_words.specs.Outcome.{GivesExactly, done, checked_add, checked_sum_by};
ghost use Rattle.committees.specs.Committees.{IsWithoutRepeats};
ghost use Rattle.spec_state.specs.Misc.{effective_balance};
ghost use Rattle.spec_state.specs.Accessors.{get_active_validator_indices, get_total_balance};
ghost use Rattle.active_sets.specs.inside.Active.{balance_in};
ghost use Rattle.balance_totals.specs.inside.Sums.{IsNextSum};

use crate::validators::effective_at;
use active_sets::is_active_entry;
use bc_words::{NoMemory, Stop, checked_add};
use beacon_state::State;
use committees::Lookup;
use std::alloc::Global;

/// Those who are active at an epoch, as one walk over the registry finds them.
#[derive(Drop)]
struct Listing {
    /// Their indices, in order.
    indices: Vec<u64>,
    /// The sum of their effective balances, in Gwei, where it fits.
    balance: Option<u64>,
}

/// A sum with one more summand, where both sums fit.
fn with_summand(sum: Option<u64>, summand: u64) -> Option<u64>
    ensures { IsNextSum sum summand result }
{
    match sum {
        Some(sum) => checked_add(sum, summand).ok(),
        None => None,
    }
}

/// The validators that are active at the epoch, from a walk over the registry.
#[tactic(auto, using(crate::proofs::ActiveLeft::listing))]
fn listed(alloc: Global, state: &State, epoch: u64) -> Result<Listing, NoMemory>
    ensures indices { IfOk result (λ listing. listing.indices.items ≡ get_active_validator_indices state.now epoch) }
    ensures balance { IfOk result (λ listing. IfSome listing.balance (λ balance. balance_in state.now.validators epoch ≡ done balance)) }
{
    let mut indices = Vec::new(alloc);
    let mut balance = Some(0);
    let registry = state.registry();
    let _count = registry.len();
    let validators = registry.iter();
    for (index, validator) in validators.enumerate() {
        if is_active_entry(&validator, epoch) {
            indices.push(index as u64)?;
            balance = with_summand(balance, validator.effective_balance());
        }
    }
    Ok(Listing { indices, balance })
}

/// The indices of the validators that are active at the epoch, in order (beacon-chain.md,
/// `get_active_validator_indices`).
pub fn active(alloc: Global, state: &State, epoch: u64) -> Result<Vec<u64>, NoMemory>
    ensures { IfOk result (λ indices. indices.items ≡ get_active_validator_indices state.now epoch) }
{
    match state.active_list(epoch) {
        Some(kept) => Ok(Vec::from_slice(alloc, kept)?),
        None => Ok(listed(alloc, state, epoch)?.indices),
    }
}

/// The state keeps the indices of the validators that are active at the epoch and, where it fits, the sum of their effective balances,
/// and goes on with the indices that it has. Where memory is refused nothing changes.
pub fn keep_active(alloc: Global, state: &mut State, epoch: u64) -> Result<(), NoMemory>
    ensures { state.new ≡ state.old }
{
    if state.active_list(epoch).is_some() {
        return Ok(());
    }
    let Listing { indices, balance } = listed(alloc, state, epoch)?;
    state.keep_active_list(alloc, epoch, indices)?;
    if let Some(balance) = balance {
        state.note_active_balance(epoch, balance);
    }
    Ok(())
}

/// How many validators are active at the epoch, counted in a walk over the registry.
#[tactic(auto, using(crate::proofs::ActiveLeft::counting))]
fn counted(state: &State, epoch: u64) -> u64
    ensures { result ≡ length (get_active_validator_indices state.now epoch) }
{
    active_are_indices(state, epoch);
    let mut count = 0;
    for validator in state.registry().iter() {
        if is_active_entry(&validator, epoch) {
            count += 1;
        }
    }
    count
}

/// How many validators are active at the epoch: as many as the list of `get_active_validator_indices` has.
pub fn count_active(state: &State, epoch: u64) -> u64
    ensures { result ≡ length (get_active_validator_indices state.now epoch) }
{
    match state.active_list(epoch) {
        Some(kept) => kept.len() as u64,
        None => counted(state, epoch),
    }
}

/// The law that the active validators of an epoch are at most 2^40 indices of the registry, none twice. It does nothing
/// when it runs.
pub fn active_are_indices(state: &State, epoch: u64)
    ensures fits { length (get_active_validator_indices state.now epoch) ≤ 2 ^ 40 }
    ensures in_registry { let indices = get_active_validator_indices state.now epoch in (k : ℕ) → k < length indices → slice_index indices k < length state.now.validators }
    ensures without_repeats { IsWithoutRepeats (get_active_validator_indices state.now epoch) }
{
    Lookup::preset(state).bounds();
    let _count = state.validators_len();
}

/// A sum with the effective balance of the validator with an index, in Gwei. Refused exactly where it does not fit.
fn with_balance(sum: u64, state: &State, index: u64) -> Result<u64, Stop>
    ensures { GivesExactly result (checked_add sum (effective_balance state.now.validators index)) }
{
    checked_add(sum, effective_at(state, index))
}

/// The sum of the effective balances of the validators with these indices, in Gwei.
#[tactic(auto, using(bc_words::proofs::Sums::sum_by_number))]
fn sum_of(state: &State, indices: &[u64]) -> Result<u64, Stop>
    ensures { GivesExactly result (checked_sum_by (effective_balance state.now.validators) indices.now) }
{
    let mut sum = 0;
    for index in indices {
        sum = with_balance(sum, state, *index)?;
    }
    Ok(sum)
}

/// A total, in Gwei, of which the sum is known: at least one increment.
fn total_by(state: &State, sum: u64) -> u64
    ensures { result ≡ max state.now.preset.effective_balance_increment sum }
{
    state.preset().effective_balance_increment.max(sum)
}

/// The total effective balance of the validators with these indices, in Gwei: at least one increment
/// (beacon-chain.md, `get_total_balance`). Refused exactly where the sum does not fit.
#[tactic(auto, unfolding(spec_state::specs::Accessors::get_total_balance))]
pub fn total_of(state: &State, indices: &[u64]) -> Result<u64, Stop>
    ensures { GivesExactly result (get_total_balance state.now indices.now) }
{
    let sum = sum_of(state, indices)?;
    Ok(total_by(state, sum))
}

/// The sum of the effective balances of the validators that are active at the epoch, in Gwei, from a walk over the registry.
#[tactic(auto, using(crate::proofs::ActiveLeft::summing))]
fn summed(state: &State, epoch: u64) -> Result<u64, Stop>
    ensures { GivesExactly result (checked_sum_by (effective_balance state.now.validators) (get_active_validator_indices state.now epoch)) }
{
    let mut sum = 0;
    for validator in state.registry().iter() {
        if is_active_entry(&validator, epoch) {
            sum = checked_add(sum, validator.effective_balance())?;
        }
    }
    Ok(sum)
}

/// The sum of the effective balances of the validators that are active at the epoch, in Gwei.
#[tactic(auto, using(crate::proofs::ActiveLeft::noted))]
fn sum_active(state: &State, epoch: u64) -> Result<u64, Stop>
    ensures { GivesExactly result (checked_sum_by (effective_balance state.now.validators) (get_active_validator_indices state.now epoch)) }
{
    match state.active_balance(epoch) {
        Some(sum) => Ok(sum),
        None => summed(state, epoch),
    }
}

/// The state keeps the sum of the effective balances of the validators that are active at the epoch, where it keeps their list and
/// the sum fits.
#[tactic(auto, using(crate::proofs::ActiveLeft::noted))]
pub fn note_total(state: &mut State, epoch: u64)
    ensures { state.new ≡ state.old }
{
    if let Ok(sum) = sum_active(state, epoch) {
        state.note_active_balance(epoch, sum);
    }
}

/// The total effective balance of the validators that are active at the epoch, in Gwei (beacon-chain.md,
/// `get_total_active_balance`, where it is the current one). Refused exactly where the sum does not fit.
#[tactic(auto, unfolding(spec_state::specs::Accessors::get_total_balance))]
pub fn total_active(state: &State, epoch: u64) -> Result<u64, Stop>
    ensures { GivesExactly result (get_total_balance state.now (get_active_validator_indices state.now epoch)) }
{
    let sum = sum_active(state, epoch)?;
    Ok(total_by(state, sum))
}
