//! What a validator loses in the leak, and the penalties of all (beacon-chain.md, "get_inactivity_penalty_deltas").

ghost use Rattle.std.specs.Prelude.{◌≡◌, if◌then◌else◌};
ghost use Rattle.bc_words.specs.Outcome.{GivesExactly, done, Gives, GivesBy};
ghost use Rattle.spec_epochs.specs.Each.{is_among};
ghost use Rattle.spec_epochs.specs.GetInactivityPenaltyDeltas.{absence_penalty, inactivity_penalty, get_inactivity_penalty_deltas};
ghost use Rattle.balance_totals.specs.inside.Stakes.{stakes_of};
ghost use Rattle.epoch_rewards.specs.declared.matching.Vote.TheVariants as votes;
ghost use Rattle.epoch_rewards.specs.inside.Marks.{flagged};
ghost use Rattle.epoch_rewards.specs.inside.Statuses.{flags_of, statuses_of};
ghost use Rattle.epoch_rewards.specs.inside.Rates.{absence_by_balance};
ghost use Rattle.epoch_rewards.specs.inside.Standings.{IsStanding};
ghost use Rattle.epoch_rewards.specs.inside.Leak.{leak_penalty, penalties_of, leak_deltas};
ghost use Rattle.spec_state.specs.Accessors.{get_previous_epoch};

use crate::amounts::{Amounts, all_amounts};
use crate::get_base_reward::divisor;
use crate::get_eligible_validator_indices::{is_attester, is_eligible};
use crate::get_finality_delay::get_finality_delay;
use crate::is_in_inactivity_leak::is_in_inactivity_leak;
use crate::matching::Vote;
use crate::numbers::zeros;
use crate::standing::Standing;
use crate::table::Status;
use balance_totals::Stake;
use bc_words::{Stop, checked_add, checked_mul, checked_sub};
use beacon_state::State;
use spec_epochs::Deltas;
use ssz_codec::Items;
use std::alloc::Global;

/// What a validator that didn't attest to the target loses besides, in Gwei, by its effective balance.
#[tactic(auto, unfolding(crate::specs::inside::Rates::absence_by_balance), using(bc_preset::proofs::Bounds::preset_bounds))]
pub(crate) fn absence_penalty(state: &State, effective_balance: u64) -> Result<u64, Stop>
    ensures { GivesExactly result (absence_by_balance state.now effective_balance) }
{
    let delay = get_finality_delay(state)?;
    let weighed = checked_mul(effective_balance, delay)?;
    Ok(weighed / state.preset().inactivity_penalty_quotient)
}

/// What a validator loses for its absence, in Gwei: nothing, where it attested to the target.
fn absence(state: &State, statuses: &[Status], standing: &Standing) -> Result<u64, Stop>
    requires { IsStanding state.now statuses.now standing.now }
    ensures { let index = standing.now.index in GivesExactly result (if is_among index (flagged state.now (flags_of votes.Target statuses.now)) then done 0 else absence_penalty state.now index) }
{
    if is_attester(state, statuses, Vote::Target, standing) {
        return Ok(0);
    }
    standing.rates.absence
}

/// What an eligible validator loses in the leak, in Gwei.
#[tactic(auto, unfolding(spec_epochs::specs::GetInactivityPenaltyDeltas::inactivity_penalty))]
fn inactivity_penalty(state: &State, statuses: &[Status], standing: &Standing) -> Result<u64, Stop>
    requires { IsStanding state.now statuses.now standing.now }
    ensures { GivesExactly result (inactivity_penalty state.now (flagged state.now (flags_of votes.Target statuses.now)) standing.now.index) }
{
    let whole = standing.rates.base?;
    let proposer = standing.rates.proposer?;
    let all = checked_mul(4, whole)?;
    let penalty = checked_sub(all, proposer)?;
    let more = absence(state, statuses, standing)?;
    checked_add(penalty, more)
}

/// Who attested to the target. The amounts are what each loses in the leak.
#[derive(Clone, Copy)]
pub struct Leak<'a> {
    /// How each validator attested.
    pub statuses: &'a [Status],
}

impl<'a> Amounts for Leak<'a> {
    ghost are_of = { λ _ _. Unit {0} };

    ghost table_of = { λ v. v.statuses.now };

    ghost amount_of = { λ v state. leak_penalty state (flagged state (flags_of votes.Target v.statuses.now)) };

    #[tactic(auto, unfolding(crate::specs::inside::Leak::leak_penalty))]
    fn amount(&self, state: &State, standing: &Standing) -> Result<u64, Stop> {
        if !is_eligible(state, self.statuses, standing) {
            return Ok(0);
        }
        inactivity_penalty(state, self.statuses, standing)
    }
}

/// What each validator loses, in Gwei, in order of index: nothing outside the leak.
#[tactic(auto, unfolding(crate::specs::inside::Leak::penalties_of))]
fn penalties_of(
    alloc: Global,
    state: &State,
    stakes: &[Stake],
    leak: bool,
    statuses: &[Status],
) -> Result<Vec<u64>, Stop>
    requires { stakes.now ≡ stakes_of state.now }
    ensures { GivesBy (λ penalties. penalties.items) result (penalties_of state.now leak (flagged state.now (flags_of votes.Target statuses.now))) }
{
    if leak {
        let divisor = divisor(state);
        return all_amounts(alloc, state, stakes, statuses, divisor, &Leak { statuses });
    }
    let penalties = zeros(alloc, state)?;
    Ok(penalties)
}

/// Rewards and penalties by those who attested to the target, the slashed aside.
#[tactic(auto, unfolding(crate::specs::inside::Leak::leak_deltas))]
fn leak_deltas(
    alloc: Global,
    state: &State,
    stakes: &[Stake],
    statuses: &[Status],
) -> Result<Deltas, Stop>
    requires { stakes.now ≡ stakes_of state.now }
    ensures { Gives result (leak_deltas state.now (flagged state.now (flags_of votes.Target statuses.now))) }
{
    let leak = is_in_inactivity_leak(state)?;
    let penalties = penalties_of(alloc, state, stakes, leak, statuses)?;
    let rewards = zeros(alloc, state)?;
    Ok(Deltas {
        rewards: Items::from_vec(rewards),
        penalties: Items::from_vec(penalties),
    })
}

/// What each validator loses while finality is late (beacon-chain.md, `get_inactivity_penalty_deltas`). Nobody gains by it.
/// The stakes are the state's, and the statuses those of the previous epoch. Refused as an overflow exactly where a sum or product
/// does not fit.
#[tactic(auto, using(crate::proofs::LeakDeltas::leak_deltas_are))]
pub fn inactivity_deltas(
    alloc: Global,
    state: &State,
    stakes: &[Stake],
    statuses: &[Status],
) -> Result<Deltas, Stop>
    requires stakes { stakes.now ≡ stakes_of state.now }
    requires statuses { statuses.now ≡ statuses_of state.now (get_previous_epoch state.now) }
    ensures { Gives result (get_inactivity_penalty_deltas state.now) }
{
    leak_deltas(alloc, state, stakes, statuses)
}
