//! What rewards and penalties reckon of an effective balance alone. Nearly all validators have the same one: a pass over them reckons
//! anew only where the effective balance is another one than before.

ghost use Rattle.std.specs.Prelude.{◌≡◌};
ghost use Rattle.bc_words.specs.Outcome.{GivesExactly};
ghost use Rattle.epoch_rewards.specs.inside.Divisor.{divisor_of};
ghost use Rattle.epoch_rewards.specs.inside.Rates.{AreRates};

use crate::get_base_reward::get_base_reward;
use crate::get_inactivity_penalty_deltas::absence_penalty;
use crate::get_proposer_reward::get_proposer_reward;
use bc_words::Stop;
use beacon_state::State;

/// What is reckoned of an effective balance.
#[derive(Clone, Copy)]
pub struct Rates {
    /// The effective balance, in Gwei.
    pub effective_balance: u64,
    /// The base reward of a validator that has it, in Gwei, or why there is none.
    pub base: Result<u64, Stop>,
    /// What goes to the proposer who includes an attestation of such a validator, in Gwei, or why there is nothing to go.
    pub proposer: Result<u64, Stop>,
    /// What such a validator loses in the leak besides, where it didn't attest to the target, in Gwei, or why there is no such number.
    pub absence: Result<u64, Stop>,
}

/// What is reckoned of an effective balance, where the divisor is the state's.
pub(crate) fn rates_of(state: &State, divisor: Result<u64, Stop>, effective_balance: u64) -> Rates
    requires { GivesExactly divisor (divisor_of state.now) }
    ensures are { AreRates state.now result }
    ensures of { result.effective_balance ≡ effective_balance }
{
    let base = get_base_reward(state, divisor, effective_balance);
    Rates {
        effective_balance,
        base,
        proposer: get_proposer_reward(state, base, effective_balance),
        absence: absence_penalty(state, effective_balance),
    }
}

/// Reckons anew, where the effective balance is another one than that of the rates.
pub(crate) fn follow(
    rates: &mut Rates,
    state: &State,
    divisor: Result<u64, Stop>,
    effective_balance: u64,
)
    requires divisor { GivesExactly divisor (divisor_of state.now) }
    requires rates { AreRates state.now rates.old }
    ensures are { AreRates state.now rates.new }
    ensures of { rates.new.effective_balance ≡ effective_balance }
{
    if rates.effective_balance != effective_balance {
        *rates = rates_of(state, divisor, effective_balance);
    }
}
