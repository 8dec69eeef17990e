//! Eligibility, ejections and activations (beacon-chain.md, "process_registry_updates").

ghost use Rattle.std.specs.Prelude.{◌≡◌};
ghost use Rattle.bc_words.specs.Outcome.{Changes, Moves};
ghost use Rattle.spec_epochs.specs.ProcessRegistryUpdates.{process_registry_updates};
ghost use Rattle.balance_totals.specs.inside.Stirring.{registry_stirs};

use crate::activations::activate;
use crate::ejections::{earliest_exit, eligibility_and_ejections};
use bc_preset::Config;
use bc_preset::constants::FAR_FUTURE_EPOCH;
use bc_words::Stop;
use beacon_state::State;
use std::alloc::Global;

/// Updates the registry. It leaves anything in the state after a stop.
#[tactic(auto, unfolding(spec_epochs::specs::ProcessRegistryUpdates::process_registry_updates))]
fn update(alloc: Global, state: &mut State, config: &Config) -> Result<(), Stop>
    ensures { Moves result state.new (process_registry_updates state.old config.now) }
{
    eligibility_and_ejections(state, config)?;
    let _epoch = earliest_exit(state);
    activate(alloc, state, config)?;
    Ok(())
}

/// Validators begin to wait or are ejected, in order of index, and then as many as the churn limit are let in, by the epoch
/// since which they wait and then by index (beacon-chain.md, `process_registry_updates`).
///
/// `stirs` tells whether any validator begins to wait, is ejected or waits, as `balance_totals::gather` has it. Where none does, nothing is
/// done, unless the far future is final, as it is in no sound state: who never began to wait would be let in then.
///
/// Refused as an overflow exactly where the epoch of an ejection does not fit; the state is then as before. Its lists are
/// shared first, which copies none.
#[tactic(auto, using(crate::proofs::Quiet::nothing_changes))]
pub fn process_registry(
    alloc: Global,
    state: &mut State,
    config: &Config,
    stirs: bool,
) -> Result<(), Stop>
    requires { stirs ≡ registry_stirs state.old config.now }
    ensures { Changes result state.old state.new (process_registry_updates state.old config.now) }
{
    if !stirs && state.finalized_checkpoint().epoch < FAR_FUTURE_EPOCH {
        let _epoch = earliest_exit(state);
        return Ok(());
    }
    let mut next = state.share()?;
    update(alloc, &mut next, config)?;
    *state = next;
    Ok(())
}
