//! Those who are let in.
//!
//! A rank is the epoch since which a validator waits, and its index. The ranks of all who wait are collected in one pass and
//! sorted; the first behind as many as the churn limit is the bar, and a second pass lets in all who rank before it. Where
//! nobody waits there is no second pass.

ghost use Rattle.std.specs.Prelude.{◌≡◌, ◌++◌, ◌+◌, ◌<◌, ◌∷◌, [], ℕ, IfOk, OnOk, Some, drop, slice_get};
ghost use Rattle.spec_state.specs.Predicates.{is_eligible_for_activation};
ghost use Rattle.spec_epochs.specs.ProcessRegistryUpdates.{with_activations};
ghost use Rattle.epoch_processing.specs.inside.Exits.{earliest_exit};
ghost use Rattle.epoch_processing.specs.inside.Ranks.{ranks_from, before, before_bar, activated, let_in_from, IsQueue, IsBar};

use crate::ejections::earliest_exit;
use bc_preset::Config;
use bc_preset::constants::FAR_FUTURE_EPOCH;
use bc_words::NoMemory;
use beacon_state::{Entry, State};
use beacon_types::Validator;
use block_operations::churn_limit;
use std::alloc::Global;

/// Whether what made a validator eligible is final, and it isn't activated (beacon-chain.md, `is_eligible_for_activation`).
#[tactic(auto, unfolding(spec_state::specs::Predicates::is_eligible_for_activation))]
fn is_waiting(state: &State, validator: &Entry) -> bool
    ensures { result ≡ is_eligible_for_activation state.now validator.now }
{
    validator.activation_eligibility_epoch() <= state.finalized_checkpoint().epoch
        && validator.activation_epoch() == FAR_FUTURE_EPOCH
}

/// Adds the rank of a validator where it waits.
#[tactic(auto, using(crate::proofs::Ranks::rank_alone, crate::proofs::Ranks::no_rank))]
fn note_rank(
    ranks: &mut Vec<(u64, u64)>,
    state: &State,
    index: u64,
    validator: &Entry,
) -> Result<(), NoMemory>
    ensures { OnOk result (ranks.new.items ≡ ranks.old.items ++ ranks_from state.now index (validator.now ∷ [])) }
{
    if is_waiting(state, validator) {
        ranks.push((validator.activation_eligibility_epoch(), index))?;
    }
    Ok(())
}

/// The ranks of all who wait, in order of index.
#[tactic(auto, using(crate::proofs::Ranks::rank_next, crate::proofs::Ranks::ranks_end))]
fn ranks(alloc: Global, state: &State) -> Result<Vec<(u64, u64)>, NoMemory>
    ensures { IfOk result (λ ranks. ranks.items ≡ ranks_from state.now 0 state.now.validators) }
{
    // As many are gone through, which a number holds.
    let _count = state.validators_len();
    let mut ranks = Vec::new(alloc);
    let validators = state.registry().iter();
    for (index, validator) in validators.enumerate() {
        note_rank(&mut ranks, state, index as u64, &validator)?;
    }
    Ok(ranks)
}

/// The ranks of all who wait, the first to be let in first.
fn activation_queue(alloc: Global, state: &State) -> Result<Vec<(u64, u64)>, NoMemory>
    ensures { IfOk result (λ ranks. IsQueue state.now ranks.items) }
{
    let mut ranks = ranks(alloc, state)?;
    ranks.sort()?;
    Ok(ranks)
}

/// The rank at a place, where there is one.
fn rank_at(ranks: &[(u64, u64)], place: u64) -> Option<(u64, u64)>
    ensures { result ≡ slice_get ranks.now place }
{
    ranks.get(place as usize).copied()
}

/// The rank before which all are let in, or None where all are.
#[tactic(auto, using(crate::proofs::Ranks::bar_of))]
fn bar(state: &State, config: &Config, queue: &[(u64, u64)]) -> Option<(u64, u64)>
    requires { IsQueue state.now queue.now }
    ensures { IsBar state.now config.now result }
{
    rank_at(queue, churn_limit(state, config))
}

/// Whether a rank comes before another.
#[tactic(auto, unfolding(crate::specs::inside::Ranks::before))]
fn is_before(rank: (u64, u64), other: (u64, u64)) -> bool
    ensures { result ≡ before rank other }
{
    rank.0 < other.0 || rank.0 == other.0 && rank.1 < other.1
}

/// Whether a rank comes before the bar, where there is one.
#[tactic(auto, unfolding(crate::specs::inside::Ranks::before_bar))]
fn is_before_bar(bar: Option<(u64, u64)>, rank: (u64, u64)) -> bool
    ensures { result ≡ before_bar bar rank }
{
    match bar {
        Some(bar) => is_before(rank, bar),
        None => true,
    }
}

/// The validator is active from the epoch on where it waits and its rank comes before the bar.
#[tactic(auto, unfolding(crate::specs::inside::Ranks::activated), using(crate::proofs::Ranks::let_in_here, crate::proofs::Ranks::not_waiting, crate::proofs::Ranks::not_before_bar, balance_totals::proofs::LeftOf::set_behind))]
fn let_in(
    state: &mut State,
    index: u64,
    validator: &Entry,
    bar: Option<(u64, u64)>,
    epoch: u64,
) -> Result<(), NoMemory>
    requires { slice_get state.old.validators index ≡ Some validator.now }
    ensures step { OnOk result (let_in_from state.new bar epoch (index + 1) ≡ let_in_from state.old bar epoch index) }
    ensures behind { drop (index + 1) state.new.validators ≡ drop (index + 1) state.old.validators }
{
    let rank = (validator.activation_eligibility_epoch(), index);
    if !is_waiting(state, validator) || !is_before_bar(bar, rank) {
        return Ok(());
    }
    let activated = Validator {
        activation_epoch: epoch,
        ..validator.validator()
    };
    state.set_validators_at(index, activated)
}

/// All who wait and rank before the bar are active from the epoch on. The registry is gone through as it was before, which
/// none who is let in changes for those behind.
#[tactic(auto, using(crate::proofs::Ranks::let_in_end, balance_totals::proofs::LeftOf::first_left, balance_totals::proofs::LeftOf::others_left, balance_totals::proofs::LeftOf::nothing_left))]
fn let_all_in(state: &mut State, bar: Option<(u64, u64)>, epoch: u64) -> Result<(), NoMemory>
    ensures { OnOk result (state.new ≡ let_in_from state.old bar epoch 0) }
{
    let registry = state.registry().share()?;
    let validators = registry.iter();
    for (index, validator) in validators.enumerate() {
        let_in(state, index as u64, &validator, bar, epoch)?;
    }
    Ok(())
}

/// As many of those who wait as the churn limit are let in, by the epoch since which they wait and then by index. Where nobody
/// waits nothing is counted. It leaves anything in the state where memory is refused.
#[tactic(auto, using(crate::proofs::Ranks::all_dequeued, crate::proofs::Ranks::none_dequeued))]
pub(crate) fn activate(alloc: Global, state: &mut State, config: &Config) -> Result<(), NoMemory>
    ensures { OnOk result (state.new ≡ record state.old { validators = with_activations state.old config.now (earliest_exit state.old) }) }
{
    let queue = activation_queue(alloc, state)?;
    if queue.is_empty() {
        return Ok(());
    }
    let bar = bar(state, config, &queue);
    let epoch = earliest_exit(state);
    let_all_in(state, bar, epoch)
}
