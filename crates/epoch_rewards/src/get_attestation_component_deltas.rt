//! What a validator gains and loses by one vote, and the rewards and penalties of all (beacon-chain.md,
//! "get_attestation_component_deltas").

ghost use Rattle.std.specs.Prelude.{◌≡◌, ◌≤◌};
ghost use Rattle.bc_words.specs.Outcome.{GivesExactly, Gives};
ghost use Rattle.spec_epochs.specs.GetAttestationComponentDeltas.{attester_reward};
ghost use Rattle.spec_epochs.specs.GetBaseReward.{get_base_reward};
ghost use Rattle.balance_totals.specs.inside.Stakes.{stakes_of};
ghost use Rattle.epoch_rewards.specs.inside.Marks.{flagged};
ghost use Rattle.epoch_rewards.specs.inside.Statuses.{flags_of};
ghost use Rattle.epoch_rewards.specs.inside.Components.{AreWeights, component_reward, component_penalty, needed_balance, component_deltas};
ghost use Rattle.epoch_rewards.specs.inside.Paid.{weights_by};

use crate::amounts::{Amounts, all_amounts};
use crate::balance::vote_balance;
use crate::get_eligible_validator_indices::{is_attester, is_eligible};
use crate::is_in_inactivity_leak::is_in_inactivity_leak;
use crate::matching::Vote;
use crate::standing::Standing;
use crate::table::Status;
use balance_totals::{Stake, current_epoch, total_active};
use bc_words::{Stop, checked_mul, isqrt};
use beacon_state::State;
use spec_epochs::Deltas;
use ssz_codec::Items;
use std::alloc::Global;

/// What rewards and penalties of a component are reckoned by.
#[derive(Clone, Copy)]
pub struct Weights {
    /// Whether the leak is on.
    pub leak: bool,
    /// The balance of the attesters, in Gwei, or 0 in the leak.
    pub attesting: u64,
    /// The same in whole increments.
    pub attesting_increments: u64,
    /// The total active balance, in Gwei.
    pub total: u64,
    /// The same in whole increments.
    pub total_increments: u64,
}

/// What rewards and penalties of a component are reckoned by, where the attesters' balance and the total are known.
#[tactic(auto, unfolding(crate::specs::inside::Paid::weights_by), using(bc_preset::proofs::Bounds::preset_bounds))]
pub(crate) fn weights_of(state: &State, leak: bool, attesting: u64, total: u64) -> Weights
    requires { state.now.preset.effective_balance_increment ≤ total }
    ensures are { AreWeights state.now result }
    ensures by { result ≡ weights_by state.now leak attesting total }
{
    let increment = state.preset().effective_balance_increment;
    Weights {
        leak,
        attesting,
        attesting_increments: attesting / increment,
        total,
        total_increments: total / increment,
    }
}

/// What an eligible validator that attested gains, in Gwei, where its base reward is known, or why it has none.
#[tactic(auto, unfolding(spec_epochs::specs::GetAttestationComponentDeltas::attester_reward))]
fn attester_reward(
    state: &State,
    weights: &Weights,
    base: Result<u64, Stop>,
    index: u64,
) -> Result<u64, Stop>
    requires weights { AreWeights state.now weights.now }
    requires base { GivesExactly base (get_base_reward state.now index) }
    ensures { GivesExactly result (attester_reward state.now weights.now.leak weights.now.attesting weights.now.total index) }
{
    let reward = base?;
    if weights.leak {
        return Ok(reward);
    }
    let numerator = checked_mul(reward, weights.attesting_increments)?;
    Ok(numerator / weights.total_increments)
}

/// Who had a vote right, and what is reckoned by. The amounts are what each gains by the vote.
#[derive(Clone, Copy)]
pub struct Voters<'a> {
    /// How each validator attested.
    pub statuses: &'a [Status],
    /// The vote.
    pub vote: Vote,
    /// What rewards and penalties are reckoned by.
    pub weights: Weights,
}

impl<'a> Amounts for Voters<'a> {
    ghost are_of = { λ v state. AreWeights state v.weights };

    ghost table_of = { λ v. v.statuses.now };

    ghost amount_of = { λ v state. component_reward state (flagged state (flags_of v.vote v.statuses.now)) v.weights.leak v.weights.attesting v.weights.total };

    #[tactic(auto, unfolding(crate::specs::inside::Components::component_reward))]
    fn amount(&self, state: &State, standing: &Standing) -> Result<u64, Stop> {
        if is_eligible(state, self.statuses, standing)
            && is_attester(state, self.statuses, self.vote, standing)
        {
            return attester_reward(state, &self.weights, standing.rates.base, standing.index);
        }
        Ok(0)
    }
}

/// Who had a vote right. The amounts are what each of the others loses.
#[derive(Clone, Copy)]
pub struct Absence<'a> {
    /// How each validator attested.
    pub statuses: &'a [Status],
    /// The vote.
    pub vote: Vote,
}

impl<'a> Amounts for Absence<'a> {
    ghost are_of = { λ _ _. Unit {0} };

    ghost table_of = { λ v. v.statuses.now };

    ghost amount_of = { λ v state. component_penalty state (flagged state (flags_of v.vote v.statuses.now)) };

    #[tactic(auto, unfolding(crate::specs::inside::Components::component_penalty))]
    fn amount(&self, state: &State, standing: &Standing) -> Result<u64, Stop> {
        if is_eligible(state, self.statuses, standing)
            && !is_attester(state, self.statuses, self.vote, standing)
        {
            return standing.rates.base;
        }
        Ok(0)
    }
}

/// The balance of the attesters, which is needed outside the leak alone. The stakes are the state's.
#[tactic(auto, unfolding(crate::specs::inside::Components::needed_balance))]
pub(crate) fn needed_balance(
    state: &State,
    stakes: &[Stake],
    statuses: &[Status],
    vote: Vote,
    leak: bool,
) -> Result<u64, Stop>
    requires { stakes.now ≡ stakes_of state.now }
    ensures { GivesExactly result (needed_balance state.now (flagged state.now (flags_of vote statuses.now)) leak) }
{
    if leak {
        return Ok(0);
    }
    vote_balance(state, stakes, statuses, vote)
}

/// Rewards and penalties for a vote, by those who have it right, the slashed aside (beacon-chain.md,
/// `get_attestation_component_deltas`). The stakes are the state's.
#[tactic(auto, unfolding(crate::specs::inside::Components::component_deltas, crate::specs::inside::Paid::weights_by, crate::specs::inside::Divisor::divisor_of), using(spec_epochs::proofs::Totals::least_total))]
pub(crate) fn get_attestation_component_deltas(
    alloc: Global,
    state: &State,
    stakes: &[Stake],
    statuses: &[Status],
    vote: Vote,
) -> Result<Deltas, Stop>
    requires { stakes.now ≡ stakes_of state.now }
    ensures { Gives result (component_deltas state.now (flagged state.now (flags_of vote statuses.now))) }
{
    let total = total_active(state, current_epoch(state))?;
    let leak = is_in_inactivity_leak(state)?;
    let attesting = needed_balance(state, stakes, statuses, vote, leak)?;
    let weights = weights_of(state, leak, attesting, total);
    let divisor = Ok(isqrt(total));
    let voters = Voters {
        statuses,
        vote,
        weights,
    };
    let absence = Absence { statuses, vote };
    let rewards = all_amounts(alloc, state, stakes, statuses, divisor, &voters)?;
    let penalties = all_amounts(alloc, state, stakes, statuses, divisor, &absence)?;
    Ok(Deltas {
        rewards: Items::from_vec(rewards),
        penalties: Items::from_vec(penalties),
    })
}
