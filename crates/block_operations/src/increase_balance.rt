//! A reward (beacon-chain.md, "increase_balance").

ghost use Rattle.bc_words.specs.Outcome.{Changes};
ghost use Rattle.spec_blocks.specs.IncreaseBalance.{increase_balance};

use balance_totals::balance_at;
use bc_words::{Stop, checked_add};
use beacon_state::State;

/// The balance of a validator grows. Refused as an overflow exactly where it doesn't fit. After a stop the state is as
/// before.
#[tactic(auto, unfolding(spec_blocks::specs::IncreaseBalance::increase_balance))]
pub(crate) fn increase_balance(state: &mut State, index: u64, delta: u64) -> Result<(), Stop>
    ensures { Changes result state.old state.new (increase_balance state.old index delta) }
{
    let balance = balance_at(state, index)?;
    let more = checked_add(balance, delta)?;
    state.set_balances_at(index, more)?;
    Ok(())
}
