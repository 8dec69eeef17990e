//! Rewards and penalties of a state (beacon-chain.md, "process_rewards_and_penalties").

ghost use Rattle.std.specs.Prelude.{◌≡◌, ◌≤◌, length, IfOk};
ghost use Rattle.bc_words.specs.Outcome.{Changes, GivesBy, GivesExactly, bind, done};
ghost use Rattle.spec_state.specs.Accessors.{get_previous_epoch};
ghost use Rattle.spec_state.specs.Soundness.{IsSoundWithinEpoch};
ghost use Rattle.spec_epochs.specs.ProcessRewardsAndPenalties.{process_rewards_and_penalties};
ghost use Rattle.balance_totals.specs.inside.Stakes.{stakes_of};
ghost use Rattle.epoch_rewards.specs.declared.matching.Vote.{Vote};
ghost use Rattle.epoch_rewards.specs.declared.matching.Vote.TheVariants as votes;
ghost use Rattle.epoch_rewards.specs.inside.Marks.{flagged};
ghost use Rattle.epoch_rewards.specs.inside.Statuses.{flags_of, entries_of, statuses_of};
ghost use Rattle.epoch_rewards.specs.inside.Components.{AreWeights};
ghost use Rattle.epoch_rewards.specs.inside.Divisor.{divisor_of};
ghost use Rattle.epoch_rewards.specs.inside.InclusionRewards.{all_gains};
ghost use Rattle.epoch_rewards.specs.inside.Paid.{all_paid, all_rewarded, paid_balances};

use crate::amounts::all_amounts;
use crate::get_attestation_component_deltas::{Weights, needed_balance, weights_of};
use crate::get_inclusion_delay_deltas::proposer_gains;
use crate::is_in_inactivity_leak::is_in_inactivity_leak;
use crate::matching::Vote;
use crate::paid::Paid;
use crate::table::Status;
use balance_totals::{Stake, current_epoch, total_active};
use bc_words::{Stop, isqrt};
use beacon_state::State;
use std::alloc::Global;

/// The balances of all validators after their rewards and penalties, in Gwei, by how each attested and by what each vote is
/// reckoned by. The stakes are the state's.
fn paid_by_weights(
    alloc: Global,
    state: &State,
    stakes: &[Stake],
    statuses: &[Status],
    source: Weights,
    target: Weights,
    head: Weights,
    divisor: Result<u64, Stop>,
) -> Result<Vec<u64>, Stop>
    requires stakes { stakes.now ≡ stakes_of state.now }
    requires source { AreWeights state.now source }
    requires target { AreWeights state.now target }
    requires head { AreWeights state.now head }
    requires divisor { GivesExactly divisor (divisor_of state.now) }
    ensures exact { let who = λ (vote : Vote). flagged state.now (flags_of vote statuses.now) in let entries = entries_of statuses.now in
        GivesBy (λ balances. balances.items) result (bind (all_gains state.now entries (who votes.Source))
        (λ gains. paid_balances state.now (who votes.Source) (who votes.Target) (who votes.Head) source target head entries gains)) }
    ensures few { IfOk result (λ balances. length balances.items ≤ state.now.preset.validator_registry_limit) }
{
    let gains = proposer_gains(alloc, state, stakes, divisor, statuses)?;
    let paid = Paid {
        statuses,
        source,
        target,
        head,
        gains: &gains,
    };
    all_amounts(alloc, state, stakes, statuses, divisor, &paid)
}

/// The balances of all validators after their rewards and penalties, in Gwei, by how each attested. The stakes are the state's.
#[tactic(auto, unfolding(crate::specs::inside::Paid::all_paid, crate::specs::inside::Paid::weights_by, crate::specs::inside::Divisor::divisor_of), using(spec_epochs::proofs::Totals::least_total))]
fn all_paid(
    alloc: Global,
    state: &State,
    stakes: &[Stake],
    statuses: &[Status],
) -> Result<Vec<u64>, Stop>
    requires { stakes.now ≡ stakes_of state.now }
    ensures exact { let who = λ (vote : Vote). flagged state.now (flags_of vote statuses.now) in
        GivesBy (λ balances. balances.items) result (all_paid state.now (who votes.Source) (who votes.Target) (who votes.Head) (entries_of statuses.now)) }
    ensures few { IfOk result (λ balances. length balances.items ≤ state.now.preset.validator_registry_limit) }
{
    let total = total_active(state, current_epoch(state))?;
    let leak = is_in_inactivity_leak(state)?;
    let source = needed_balance(state, stakes, statuses, Vote::Source, leak)?;
    let target = needed_balance(state, stakes, statuses, Vote::Target, leak)?;
    let head = needed_balance(state, stakes, statuses, Vote::Head, leak)?;
    let by_source = weights_of(state, leak, source, total);
    let by_target = weights_of(state, leak, target, total);
    let by_head = weights_of(state, leak, head, total);
    let divisor = Ok(isqrt(total));
    paid_by_weights(
        alloc, state, stakes, statuses, by_source, by_target, by_head, divisor,
    )
}

/// The balances of all validators after their rewards and penalties, in Gwei. The stakes are the state's, and the statuses those of
/// the previous epoch.
#[tactic(auto, using(crate::proofs::Parts::by_table))]
fn rewarded_balances(
    alloc: Global,
    state: &State,
    stakes: &[Stake],
    statuses: &[Status],
) -> Result<Vec<u64>, Stop>
    requires sound { IsSoundWithinEpoch state.now }
    requires stakes { stakes.now ≡ stakes_of state.now }
    requires statuses { statuses.now ≡ statuses_of state.now (get_previous_epoch state.now) }
    ensures exact { GivesBy (λ balances. balances.items) result (all_rewarded state.now) }
    ensures few { IfOk result (λ balances. length balances.items ≤ state.now.preset.validator_registry_limit) }
{
    all_paid(alloc, state, stakes, statuses)
}

/// Writes the balances of all validators after their rewards and penalties. The most memory is in use where they are written, so the
/// statuses are let go before.
fn pay(
    alloc: Global,
    state: &mut State,
    stakes: &[Stake],
    statuses: Vec<Status>,
) -> Result<(), Stop>
    requires sound { IsSoundWithinEpoch state.old }
    requires stakes { stakes.now ≡ stakes_of state.old }
    requires statuses { statuses.items ≡ statuses_of state.old (get_previous_epoch state.old) }
    ensures { Changes result state.old state.new (bind (all_rewarded state.old) (λ balances. done (record state.old { balances = balances }))) }
{
    let balances = rewarded_balances(alloc, state, stakes, &statuses)?;
    drop(statuses);
    state.set_balances(balances)?;
    Ok(())
}

/// Adds to each balance what the previous epoch's attestations bring its validator, and takes what they cost it
/// (beacon-chain.md, `process_rewards_and_penalties`). Nothing happens in the first epoch. The stakes are the state's, and the
/// statuses those of the previous epoch.
///
/// Refused as an overflow exactly where a sum or product does not fit; the state is then as before.
#[tactic(auto, using(crate::proofs::Parts::processed))]
pub fn process_rewards(
    alloc: Global,
    state: &mut State,
    stakes: &[Stake],
    statuses: Vec<Status>,
) -> Result<(), Stop>
    requires sound { IsSoundWithinEpoch state.old }
    requires stakes { stakes.now ≡ stakes_of state.old }
    requires statuses { statuses.items ≡ statuses_of state.old (get_previous_epoch state.old) }
    ensures { Changes result state.old state.new (process_rewards_and_penalties state.old) }
{
    if current_epoch(state) == 0 {
        return Ok(());
    }
    pay(alloc, state, stakes, statuses)
}
