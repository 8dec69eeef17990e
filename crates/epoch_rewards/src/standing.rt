//! How one validator stands: all that its rewards and penalties are reckoned by. A pass over the validators looks it up once for
//! each, and every part reads it there.

ghost use Rattle.std.specs.Prelude.{◌≡◌, Some, slice_get};
ghost use Rattle.balance_totals.specs.inside.Stakes.{stakes_of};
ghost use Rattle.epoch_rewards.specs.inside.Rates.{AreRates};
ghost use Rattle.epoch_rewards.specs.inside.Standings.{IsStanding};

use crate::get_eligible_validator_indices::has_right;
use crate::inclusions::Inclusion;
use crate::matching::Vote;
use crate::rates::Rates;
use crate::table::{Status, inclusion_at};
use balance_totals::Stake;
use beacon_state::State;

/// How a validator stands.
#[derive(Clone, Copy)]
pub struct Standing {
    /// Its index.
    pub index: u64,
    /// What was read of it.
    pub stake: Stake,
    /// Whether it has the source right and isn't slashed.
    pub source: bool,
    /// Whether it has the target right and isn't slashed.
    pub target: bool,
    /// Whether it has the head right and isn't slashed.
    pub head: bool,
    /// How its attestation was included, where it has one.
    pub inclusion: Option<Inclusion>,
    /// What is reckoned of its effective balance.
    pub rates: Rates,
    /// Its balance, in Gwei, where it has one.
    pub balance: Option<u64>,
}

/// How the validator with an index stands, of which this was read, with the rates of its effective balance and its balance.
pub(crate) fn standing_of(
    state: &State,
    statuses: &[Status],
    index: u64,
    stake: Stake,
    rates: &Rates,
    balance: Option<u64>,
) -> Standing
    requires stake { slice_get (stakes_of state.now) index ≡ Some stake }
    requires rates { AreRates state.now rates.now }
    requires of { rates.now.effective_balance ≡ stake.effective_balance }
    requires balance { slice_get state.now.balances index ≡ balance }
    ensures is { IsStanding state.now statuses.now result }
    ensures at { result.index ≡ index }
{
    Standing {
        index,
        stake,
        source: has_right(state, statuses, Vote::Source, index, stake),
        target: has_right(state, statuses, Vote::Target, index, stake),
        head: has_right(state, statuses, Vote::Head, index, stake),
        inclusion: inclusion_at(statuses, index),
        rates: *rates,
        balance,
    }
}
