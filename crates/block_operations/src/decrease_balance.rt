//! A penalty (beacon-chain.md, "decrease_balance").

ghost use Rattle.bc_words.specs.Outcome.{Changes};
ghost use Rattle.spec_blocks.specs.DecreaseBalance.{decrease_balance};

use balance_totals::balance_at;
use bc_words::Stop;
use beacon_state::State;

/// The balance of a validator falls, to 0 where it is less than the difference. After a stop the state is as before.
#[tactic(auto, unfolding(spec_blocks::specs::DecreaseBalance::decrease_balance))]
pub(crate) fn decrease_balance(state: &mut State, index: u64, delta: u64) -> Result<(), Stop>
    ensures { Changes result state.old state.new (decrease_balance state.old index delta) }
{
    let balance = balance_at(state, index)?;
    state.set_balances_at(index, balance.saturating_sub(delta))?;
    Ok(())
}
