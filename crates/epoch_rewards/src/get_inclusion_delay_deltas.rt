//! What the inclusion of an attestation brings its attester and its proposer, and the rewards of all (beacon-chain.md,
//! "get_inclusion_delay_deltas").

ghost use Rattle.std.specs.Prelude.{◌≡◌, ◌/◌, slice_index, slice_set};
ghost use Rattle.bc_words.specs.Outcome.{GivesExactly, Moves, bind, done, checked_add, Gives, GivesBy};
ghost use Rattle.balance_totals.specs.inside.Stakes.{stakes_of};
ghost use Rattle.epoch_rewards.specs.declared.matching.Vote.TheVariants as votes;
ghost use Rattle.epoch_rewards.specs.inside.Marks.{flagged};
ghost use Rattle.epoch_rewards.specs.inside.Statuses.{flags_of, entries_of, statuses_of};
ghost use Rattle.spec_epochs.specs.RewardHelpers.{get_proposer_reward};
ghost use Rattle.epoch_rewards.specs.inside.Standings.{IsStanding};
ghost use Rattle.epoch_rewards.specs.inside.InclusionRewards.{entry_at, included, delayed_by, own_reward, joined_reward, all_gains, all_joined, joined_deltas};
ghost use Rattle.spec_state.specs.Accessors.{get_previous_epoch};
ghost use Rattle.spec_state.specs.Soundness.{IsSoundWithinEpoch};
ghost use Rattle.spec_epochs.specs.GetInclusionDelayDeltas.{get_inclusion_delay_deltas};
ghost use Rattle.epoch_rewards.specs.inside.Divisor.{divisor_of};

use crate::amounts::{Amounts, all_amounts};
use crate::balance::counted;
use crate::get_base_reward::divisor;
use crate::get_eligible_validator_indices::is_attester;
use crate::matching::Vote;
use crate::numbers::{number_at, zeros};
use crate::rates::{follow, rates_of};
use crate::standing::Standing;
use crate::table::{Status, inclusion_at};
use balance_totals::{Stake, stake_at};
use bc_words::{Stop, checked_add, checked_sub};
use beacon_state::State;
use spec_epochs::Deltas;
use ssz_codec::Items;
use std::alloc::Global;

/// Adds to the gains of a validator.
fn add_gain(gains: &mut Vec<u64>, index: u64, reward: u64) -> Result<(), Stop>
    ensures { Moves result gains.new.items (bind (checked_add (slice_index gains.old.items index) reward) (λ sum. done (slice_set gains.old.items index sum))) }
{
    let sum = checked_add(number_at(gains, index), reward)?;
    if (index as usize) < gains.len() {
        gains[index as usize] = sum;
    }
    Ok(())
}

/// Adds the gain of the proposer who included an attester, where what goes to that proposer is known, or why there is nothing to go.
#[tactic(auto, unfolding(crate::specs::inside::InclusionRewards::included))]
pub(crate) fn include(
    gains: &mut Vec<u64>,
    state: &State,
    proposer: Result<u64, Stop>,
    statuses: &[Status],
    attester: u64,
) -> Result<(), Stop>
    requires { GivesExactly proposer (get_proposer_reward state.now attester) }
    ensures { Moves result gains.new.items (included state.now attester (entry_at (entries_of statuses.now) attester) gains.old.items) }
{
    match inclusion_at(statuses, attester) {
        Some(inclusion) => {
            let reward = proposer?;
            add_gain(gains, inclusion.proposer, reward)
        }
        None => Ok(()),
    }
}

/// What is left of the most that an attester may get, in Gwei, after a delay.
fn after_delay(most: u64, delay: u64) -> u64
    ensures { result ≡ most / delay }
{
    most.checked_div(delay).unwrap_or(0)
}

/// What an attester gets for its inclusion, in Gwei, after the delay.
#[tactic(auto, unfolding(crate::specs::inside::InclusionRewards::delayed_by))]
fn delayed_reward(state: &State, statuses: &[Status], standing: &Standing) -> Result<u64, Stop>
    requires { IsStanding state.now statuses.now standing.now }
    ensures { GivesExactly result (delayed_by state.now standing.now.index standing.now.inclusion) }
{
    match standing.inclusion {
        Some(inclusion) => {
            let whole = standing.rates.base?;
            let proposer = standing.rates.proposer?;
            let most = checked_sub(whole, proposer)?;
            Ok(after_delay(most, inclusion.delay))
        }
        None => Ok(0),
    }
}

/// What a validator gets as an attester, in Gwei, where it is one.
#[tactic(auto, unfolding(crate::specs::inside::InclusionRewards::own_reward))]
fn own_reward(state: &State, statuses: &[Status], standing: &Standing) -> Result<u64, Stop>
    requires { IsStanding state.now statuses.now standing.now }
    ensures { GivesExactly result (own_reward state.now (entries_of statuses.now) (flagged state.now (flags_of votes.Source statuses.now)) standing.now.index) }
{
    if !is_attester(state, statuses, Vote::Source, standing) {
        return Ok(0);
    }
    delayed_reward(state, statuses, standing)
}

/// Who attested, each one's inclusion, and the gains of proposers. The amounts are what each gets as a proposer and as an
/// attester.
#[derive(Clone, Copy)]
pub struct Included<'a> {
    /// How each validator attested.
    pub statuses: &'a [Status],
    /// What each validator gains as a proposer, in Gwei.
    pub gains: &'a [u64],
}

impl<'a> Amounts for Included<'a> {
    ghost are_of = { λ _ _. Unit {0} };

    ghost table_of = { λ i. i.statuses.now };

    ghost amount_of = { λ i state. joined_reward state (entries_of i.statuses.now) (flagged state (flags_of votes.Source i.statuses.now)) i.gains.now };

    #[tactic(auto, unfolding(crate::specs::inside::InclusionRewards::joined_reward))]
    fn amount(&self, state: &State, standing: &Standing) -> Result<u64, Stop> {
        let own = own_reward(state, self.statuses, standing)?;
        checked_add(number_at(self.gains, standing.index), own)
    }
}

/// What each validator gains as a proposer, in Gwei, in order of index.
#[tactic(auto, using(crate::proofs::Included::including))]
pub(crate) fn proposer_gains(
    alloc: Global,
    state: &State,
    stakes: &[Stake],
    divisor: Result<u64, Stop>,
    statuses: &[Status],
) -> Result<Vec<u64>, Stop>
    requires stakes { stakes.now ≡ stakes_of state.now }
    requires divisor { GivesExactly divisor (divisor_of state.now) }
    ensures { GivesBy (λ gains. gains.items) result (all_gains state.now (entries_of statuses.now) (flagged state.now (flags_of votes.Source statuses.now))) }
{
    let mut gains = zeros(alloc, state)?;
    let mut rates = rates_of(state, divisor, state.preset().max_effective_balance);
    for index in 0..state.validators_len() {
        let stake = stake_at(state, stakes, index);
        follow(&mut rates, state, divisor, stake.effective_balance);
        match counted(state, stakes, statuses, Vote::Source, index) {
            Some(_) => {
                match include(&mut gains, state, rates.proposer, statuses, index) {
                    Ok(()) => {}
                    Err(stop) => return Err(stop),
                }
            }
            None => {}
        }
    }
    Ok(gains)
}

/// What each validator gets for inclusions, in Gwei, in order of index.
#[tactic(auto, unfolding(crate::specs::inside::InclusionRewards::all_joined))]
fn inclusion_rewards(
    alloc: Global,
    state: &State,
    stakes: &[Stake],
    statuses: &[Status],
) -> Result<Vec<u64>, Stop>
    requires stakes { stakes.now ≡ stakes_of state.now }
    ensures { GivesBy (λ rewards. rewards.items) result (all_joined state.now (entries_of statuses.now) (flagged state.now (flags_of votes.Source statuses.now))) }
{
    let divisor = divisor(state);
    let gains = proposer_gains(alloc, state, stakes, divisor, statuses)?;
    let included = Included {
        statuses,
        gains: &gains,
    };
    all_amounts(alloc, state, stakes, statuses, divisor, &included)
}

/// Rewards and penalties by those who attested, the slashed aside, and by their inclusions.
#[tactic(auto, unfolding(crate::specs::inside::InclusionRewards::joined_deltas))]
fn joined_deltas(
    alloc: Global,
    state: &State,
    stakes: &[Stake],
    statuses: &[Status],
) -> Result<Deltas, Stop>
    requires stakes { stakes.now ≡ stakes_of state.now }
    ensures { Gives result (joined_deltas state.now (entries_of statuses.now) (flagged state.now (flags_of votes.Source statuses.now))) }
{
    let rewards = inclusion_rewards(alloc, state, stakes, statuses)?;
    let penalties = zeros(alloc, state)?;
    Ok(Deltas {
        rewards: Items::from_vec(rewards),
        penalties: Items::from_vec(penalties),
    })
}

/// What each validator gains by the inclusion of the previous epoch's attestations, as a proposer and as an attester
/// (beacon-chain.md, `get_inclusion_delay_deltas`). Nobody loses by it. The stakes are the state's, and the statuses those of the
/// previous epoch. Refused as an overflow exactly where a sum or product does not fit.
#[tactic(auto, using(crate::proofs::Joined::joined_are))]
pub fn inclusion_deltas(
    alloc: Global,
    state: &State,
    stakes: &[Stake],
    statuses: &[Status],
) -> Result<Deltas, Stop>
    requires sound { IsSoundWithinEpoch state.now }
    requires stakes { stakes.now ≡ stakes_of state.now }
    requires statuses { statuses.now ≡ statuses_of state.now (get_previous_epoch state.now) }
    ensures { Gives result (get_inclusion_delay_deltas state.now) }
{
    joined_deltas(alloc, state, stakes, statuses)
}
