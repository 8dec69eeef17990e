//! A state taken on to a slot (fork-choice.md, "store_target_checkpoint_state").

ghost use Rattle.bc_words.specs.Outcome.{Gives};
ghost use Rattle.spec_fork_choice.specs.StoreTargetCheckpointState.{state_at};
ghost use Rattle.spec_state.specs.Soundness.{IsSound};
ghost use Rattle.std.specs.Prelude.{◌≡◌, IfOk};

use crate::store_fields::StoreFields;
use bc_words::Stop;
use beacon_state::State;
use std::alloc::Global;
use transition::process_slots::process_slots;

/// The state taken on to a slot, where it is earlier.
#[tactic(auto, unfolding(spec_fork_choice::specs::StoreTargetCheckpointState::state_at))]
pub fn state_at(alloc: Global, store: &StoreFields, state: &State, slot: u64) -> Result<State, Stop>
    requires sound { IsSound state.now }
    requires preset { state.now.preset ≡ store.now.config.preset }
    ensures exact { Gives result (state_at store.now state.now slot) }
    ensures sound { IfOk result (λ taken. IsSound taken) }
    ensures preset { IfOk result (λ taken. taken.preset ≡ store.now.config.preset) }
{
    if slot <= state.slot() {
        return Ok(state.share()?);
    }
    let step = process_slots(alloc, state, slot, store.config())?;
    Ok(step.state)
}
