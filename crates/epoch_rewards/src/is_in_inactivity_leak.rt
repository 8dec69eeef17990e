//! Whether finality is so late that the leak is on (beacon-chain.md, "is_in_inactivity_leak").

ghost use Rattle.bc_words.specs.Outcome.{GivesExactly};
ghost use Rattle.spec_epochs.specs.RewardHelpers.{is_in_inactivity_leak};

use crate::get_finality_delay::get_finality_delay;
use bc_words::Stop;
use beacon_state::State;

/// Whether the leak is on (beacon-chain.md, `is_in_inactivity_leak`).
#[tactic(auto, unfolding(spec_epochs::specs::RewardHelpers::is_in_inactivity_leak))]
pub(crate) fn is_in_inactivity_leak(state: &State) -> Result<bool, Stop>
    ensures { GivesExactly result (is_in_inactivity_leak state.now) }
{
    let delay = get_finality_delay(state)?;
    Ok(state.preset().min_epochs_to_inactivity_penalty < delay)
}
