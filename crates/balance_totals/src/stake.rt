//! What is read of one validator.

ghost use Rattle.std.specs.Prelude.{◌≡◌, ◌+◌, ◌<◌, ◌^◌, Some, length, slice_get};
ghost use Rattle.balance_totals.specs.inside.Stakes.{is_reached, stake_of, stakes_of};

use active_sets::is_active_entry;
use beacon_state::{Entry, State};

/// What an epoch's end reads of a validator.
#[derive(Clone, Copy)]
pub struct Stake {
    /// Its effective balance, in Gwei.
    pub effective_balance: u64,
    /// Whether rewards and penalties reach it.
    pub eligible: bool,
    /// Whether it is slashed.
    pub slashed: bool,
}

/// Whether rewards and penalties reach a validator: it was active in the previous epoch, or it is slashed and can't withdraw
/// yet (beacon-chain.md, `get_eligible_validator_indices`).
#[tactic(auto, unfolding(crate::specs::inside::Stakes::is_reached))]
fn is_reached(previous: u64, validator: &Entry) -> bool
    requires { previous + 1 < 2 ^ 64 }
    ensures { result ≡ is_reached previous validator.now }
{
    is_active_entry(validator, previous)
        || (validator.slashed() && previous + 1 < validator.withdrawable_epoch())
}

/// What is read of a validator.
#[tactic(auto, unfolding(crate::specs::inside::Stakes::stake_of))]
pub(crate) fn stake_of(previous: u64, validator: &Entry) -> Stake
    requires { previous + 1 < 2 ^ 64 }
    ensures { result ≡ stake_of previous validator.now }
{
    Stake {
        effective_balance: validator.effective_balance(),
        eligible: is_reached(previous, validator),
        slashed: validator.slashed(),
    }
}

/// What was read of the validator with an index, or None where there is none.
pub fn find_stake(stakes: &[Stake], index: u64) -> Option<Stake>
    ensures { result ≡ slice_get stakes.now index }
{
    stakes.get(index as usize).copied()
}

/// What was read of the validator with an index.
pub fn stake_at(state: &State, stakes: &[Stake], index: u64) -> Stake
    requires stakes { stakes.now ≡ stakes_of state.now }
    requires inside { index < length state.now.validators }
    ensures { slice_get (stakes_of state.now) index ≡ Some result }
{
    stakes[index as usize]
}
