//! The base reward of a validator (beacon-chain.md, "get_base_reward"). Beside the state's total it depends on the effective balance
//! alone.

ghost use Rattle.bc_words.specs.Outcome.{GivesExactly};
ghost use Rattle.epoch_rewards.specs.inside.Divisor.{divisor_of};
ghost use Rattle.epoch_rewards.specs.inside.Rates.{base_by_balance};

use balance_totals::{current_epoch, total_active};
use bc_words::{Stop, checked_mul, isqrt};
use beacon_state::State;

/// What base rewards divide by: the square root of the total active balance, or why there is none. A part of rewards takes
/// it once, and it stops the part where a base reward is needed.
#[tactic(auto, unfolding(crate::specs::inside::Divisor::divisor_of))]
pub(crate) fn divisor(state: &State) -> Result<u64, Stop>
    ensures { GivesExactly result (divisor_of state.now) }
{
    let total = total_active(state, current_epoch(state))?;
    Ok(isqrt(total))
}

/// The base reward of a validator, in Gwei (beacon-chain.md, `get_base_reward`), by its effective balance.
#[tactic(auto, unfolding(crate::specs::inside::Rates::base_by_balance), using(crate::proofs::Divisor::divisor_is_some))]
pub(crate) fn get_base_reward(
    state: &State,
    divisor: Result<u64, Stop>,
    effective_balance: u64,
) -> Result<u64, Stop>
    requires divisor { GivesExactly divisor (divisor_of state.now) }
    ensures { GivesExactly result (base_by_balance state.now effective_balance) }
{
    let root = divisor?;
    let weighed = checked_mul(effective_balance, state.preset().base_reward_factor)?;
    Ok(weighed / root / 4)
}
