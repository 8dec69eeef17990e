//! How late finality is (beacon-chain.md, "get_finality_delay").

ghost use Rattle.bc_words.specs.Outcome.{GivesExactly};
ghost use Rattle.spec_epochs.specs.RewardHelpers.{get_finality_delay};

use balance_totals::previous_epoch;
use bc_words::{Stop, checked_sub};
use beacon_state::State;

/// How many epochs finality is behind the previous epoch (beacon-chain.md, `get_finality_delay`).
#[tactic(auto, unfolding(spec_epochs::specs::RewardHelpers::get_finality_delay))]
pub(crate) fn get_finality_delay(state: &State) -> Result<u64, Stop>
    ensures { GivesExactly result (get_finality_delay state.now) }
{
    checked_sub(previous_epoch(state), state.finalized_checkpoint().epoch)
}
