//! The penalties of the slashed (beacon-chain.md, "process_slashings").

ghost use Rattle.std.specs.Prelude.{◌≡◌, ◌≤◌, ◌+◌, ◌/◌, ◌==◌, ◌&&◌, length, slice_get, slice_index, Some, IfOk};
ghost use Rattle.bc_words.specs.Outcome.{Changes, GivesBy, GivesExactly, checked_mul, checked_sum};
ghost use Rattle.spec_state.specs.Accessors.{get_current_epoch};
ghost use Rattle.spec_epochs.specs.Each.{checked_map, validator_indices};
ghost use Rattle.spec_epochs.specs.ProcessSlashings.{process_slashings, penalized_balance};
ghost use Rattle.epoch_processing.specs.inside.Penalties.{penalized};

use crate::balances::next_balance;
use balance_totals::{current_epoch, total_active};
use bc_words::{Refusal, Stop, checked_add, checked_mul};
use beacon_state::{Entry, State};
use std::alloc::Global;

/// What was slashed in the latest epoch that has this place, in Gwei, or 0 where there is none.
fn slashed_at(state: &State, i: u64) -> u64
    ensures { result ≡ slice_index state.now.slashings i }
{
    state.slashings_at(i).unwrap_or(0)
}

/// What was slashed in the latest epochs, in Gwei. Refused exactly where the sum does not fit.
#[tactic(auto, using(bc_words::proofs::Sums::sum_by_number))]
fn slashed_lately(state: &State) -> Result<u64, Stop>
    ensures { GivesExactly result (checked_sum state.now.slashings) }
{
    let mut sum = 0;
    for i in 0..state.slashings_len() {
        sum = checked_add(sum, slashed_at(state, i))?;
    }
    Ok(sum)
}

/// Whether a validator pays at the epoch: it is slashed, and half way to its withdrawal.
#[tactic(auto, using(bc_preset::proofs::Bounds::preset_bounds))]
fn pays(state: &State, validator: &Entry) -> bool
    ensures { let half = state.now.preset.epochs_per_slashings_vector / 2 in
        result ≡ (validator.now.slashed && (get_current_epoch state.now + half == validator.now.withdrawable_epoch)) }
{
    let half = state.preset().epochs_per_slashings_vector / 2;
    validator.slashed() && current_epoch(state) + half == validator.withdrawable_epoch()
}

/// A penalty in whole increments, in Gwei. Refused exactly where the product doesn't fit.
fn whole_penalty(numerator: u64, total: u64, increment: u64) -> Result<u64, Stop>
    requires { 1 ≤ total }
    ensures { GivesExactly result (checked_mul (numerator / total) increment) }
{
    checked_mul(numerator / total, increment)
}

/// What penalties are reckoned by, in Gwei: what was slashed lately, multiplied and at most the total, and the total active balance.
#[derive(Clone, Copy)]
struct Slashed {
    adjusted: u64,
    total: u64,
}

/// The balance of a validator without its penalty, in Gwei. Its balance stands at its index, where there is one.
#[tactic(auto, unfolding(spec_epochs::specs::ProcessSlashings::penalized_balance), using(bc_preset::proofs::Bounds::preset_bounds))]
fn penalized_balance(
    state: &State,
    slashed: &Slashed,
    index: u64,
    validator: &Entry,
    balance: Option<u64>,
) -> Result<u64, Stop>
    requires total { 1 ≤ slashed.now.total }
    requires validator { slice_get state.now.validators index ≡ Some validator.now }
    requires balance { slice_get state.now.balances index ≡ balance }
    ensures { GivesExactly result (penalized_balance state.now slashed.now.adjusted slashed.now.total index) }
{
    let Some(balance) = balance else {
        return Err(Stop::Refused(Refusal::IndexRange));
    };
    if !pays(state, validator) {
        return Ok(balance);
    }
    let increment = state.preset().effective_balance_increment;
    let numerator = checked_mul(validator.effective_balance() / increment, slashed.adjusted)?;
    let penalty = whole_penalty(numerator, slashed.total, increment)?;
    Ok(balance.saturating_sub(penalty))
}

/// The balances of all validators without their penalties, in Gwei, in order of index.
#[tactic(auto, unfolding(spec_epochs::specs::Each::validator_indices), using(crate::proofs::MadeLeft::making, balance_totals::proofs::LeftOf::first_left))]
fn penalized_balances(alloc: Global, state: &State, slashed: &Slashed) -> Result<Vec<u64>, Stop>
    requires { 1 ≤ slashed.now.total }
    ensures exact { GivesBy (λ all. all.items) result (checked_map (penalized_balance state.now slashed.now.adjusted slashed.now.total) (validator_indices state.now)) }
    ensures few { IfOk result (λ all. length all.items ≤ state.now.preset.validator_registry_limit) }
{
    let mut all = Vec::with_capacity(alloc, state.validators_len() as usize)?;
    let mut balances = state.balance_list().iter();
    let validators = state.registry().iter();
    for (index, validator) in validators.enumerate() {
        let balance = next_balance(&mut balances);
        let penalized = penalized_balance(state, slashed, index as u64, &validator, balance)?;
        all.push(penalized)?;
    }
    Ok(all)
}

/// Takes their penalties from the balances. Where nothing was slashed lately nobody pays, and none is looked at.
#[tactic(auto, unfolding(crate::specs::inside::Penalties::penalized), using(crate::proofs::Unpaid::nothing_taken))]
fn penalize(alloc: Global, state: &mut State, slashed: &Slashed) -> Result<(), Stop>
    requires { 1 ≤ slashed.now.total }
    ensures { Changes result state.old state.new (penalized state.old slashed.now.adjusted slashed.now.total) }
{
    if slashed.adjusted == 0 && state.validators_len() == state.balances_len() {
        return Ok(());
    }
    let balances = penalized_balances(alloc, state, slashed)?;
    state.set_balances(balances)?;
    Ok(())
}

/// Takes from each slashed validator that is half way to its withdrawal its part of what was slashed lately
/// (beacon-chain.md, `process_slashings`). Refused as an overflow exactly where a sum or product does not fit.
#[tactic(auto, unfolding(spec_epochs::specs::ProcessSlashings::process_slashings, crate::specs::inside::Penalties::penalized), using(bc_preset::proofs::Bounds::preset_bounds, spec_epochs::proofs::Totals::least_total))]
pub fn process_slashings(alloc: Global, state: &mut State) -> Result<(), Stop>
    ensures { Changes result state.old state.new (process_slashings state.old) }
{
    let total = total_active(state, current_epoch(state))?;
    let slashed = slashed_lately(state)?;
    let multiplied = checked_mul(slashed, state.preset().proportional_slashing_multiplier)?;
    let adjusted = multiplied.min(total);
    penalize(alloc, state, &Slashed { adjusted, total })
}
