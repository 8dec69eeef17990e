//! The balance of those who attested (beacon-chain.md, "get_attesting_balance"), by what was gathered of the registry.

ghost use Rattle.std.specs.Prelude.{◌≡◌, MatchOption};
ghost use Rattle.bc_words.specs.Outcome.{GivesExactly, checked_sum_by};
ghost use Rattle.spec_state.specs.Misc.{effective_balance};
ghost use Rattle.spec_state.specs.Accessors.{get_total_balance};
ghost use Rattle.balance_totals.specs.inside.Stakes.{stakes_of};
ghost use Rattle.epoch_rewards.specs.inside.Marks.{flagged, IsPassedOver, IsTaken};
ghost use Rattle.epoch_rewards.specs.inside.Statuses.{flags_of};

use crate::flagged::{Flagged, RightVoters};
use crate::matching::Vote;
use crate::table::Status;
use balance_totals::{Stake, find_stake};
use bc_words::{Stop, checked_add};
use beacon_state::State;

/// The effective balance of the validator with an index, in Gwei, where it is flagged and isn't slashed. The stakes are the state's.
#[tactic(auto, using(crate::proofs::ByStake::counting))]
fn counted_by<F: Flagged>(state: &State, stakes: &[Stake], by: &F, index: u64) -> Option<u64>
    requires { stakes.now ≡ stakes_of state.now }
    ensures { let flags = F.flags by.now in MatchOption result (IsPassedOver state.now flags index) (IsTaken state.now flags index) }
{
    match find_stake(stakes, index) {
        Some(stake) => {
            if stake.slashed {
                return None;
            }
            if !by.is_flagged(index) {
                return None;
            }
            Some(stake.effective_balance)
        }
        None => None,
    }
}

/// The effective balance of the validator with an index, in Gwei, where it has the vote right and isn't slashed. The stakes are the
/// state's.
pub fn counted(
    state: &State,
    stakes: &[Stake],
    statuses: &[Status],
    vote: Vote,
    index: u64,
) -> Option<u64>
    requires { stakes.now ≡ stakes_of state.now }
    ensures { let flags = flags_of vote statuses.now in MatchOption result (IsPassedOver state.now flags index) (IsTaken state.now flags index) }
{
    counted_by(state, stakes, &RightVoters { statuses, vote }, index)
}

/// The sum of the effective balances of those who are flagged and aren't slashed, in Gwei.
#[tactic(auto, using(crate::proofs::Weighed::weighing))]
fn sum_flagged<F: Flagged>(state: &State, stakes: &[Stake], by: &F) -> Result<u64, Stop>
    requires { stakes.now ≡ stakes_of state.now }
    ensures { GivesExactly result (checked_sum_by (effective_balance state.now.validators) (flagged state.now (F.flags by.now))) }
{
    let mut sum = 0;
    for index in 0..state.validators_len() {
        match counted_by(state, stakes, by, index) {
            Some(balance) => sum = checked_add(sum, balance)?,
            None => {}
        }
    }
    Ok(sum)
}

/// The total effective balance of those who are flagged and aren't slashed, in Gwei: at least one increment.
#[tactic(auto, unfolding(spec_state::specs::Accessors::get_total_balance))]
fn balance_by<F: Flagged>(state: &State, stakes: &[Stake], by: &F) -> Result<u64, Stop>
    requires { stakes.now ≡ stakes_of state.now }
    ensures { GivesExactly result (get_total_balance state.now (flagged state.now (F.flags by.now))) }
{
    let sum = sum_flagged(state, stakes, by)?;
    Ok(state.preset().effective_balance_increment.max(sum))
}

/// The total effective balance of those who have the vote right and aren't slashed, in Gwei: at least one increment
/// (beacon-chain.md, `get_attesting_balance`). Refused exactly where the sum does not fit. The stakes are the state's.
pub fn vote_balance(
    state: &State,
    stakes: &[Stake],
    statuses: &[Status],
    vote: Vote,
) -> Result<u64, Stop>
    requires { stakes.now ≡ stakes_of state.now }
    ensures { GivesExactly result (get_total_balance state.now (flagged state.now (flags_of vote statuses.now))) }
{
    balance_by(state, stakes, &RightVoters { statuses, vote })
}

/// The same of those whose flag is set.
pub fn flag_balance(state: &State, stakes: &[Stake], flags: &[bool]) -> Result<u64, Stop>
    requires { stakes.now ≡ stakes_of state.now }
    ensures { GivesExactly result (get_total_balance state.now (flagged state.now flags.now)) }
{
    balance_by(state, stakes, &flags)
}
