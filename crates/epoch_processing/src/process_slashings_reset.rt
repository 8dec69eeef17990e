//! What is slashed in the next epoch, so far (beacon-chain.md, "process_slashings_reset").

ghost use Rattle.std.specs.Prelude.{◌≡◌};
ghost use Rattle.bc_words.specs.Outcome.{Changes, done};
ghost use Rattle.spec_epochs.specs.ProcessSlashingsReset.{process_slashings_reset};

use balance_totals::current_epoch;
use bc_words::Stop;
use beacon_state::State;

/// Writes 0 at the place of the next epoch (beacon-chain.md, `process_slashings_reset`). It refuses nothing.
#[tactic(auto, unfolding(spec_epochs::specs::ProcessSlashingsReset::process_slashings_reset), using(bc_preset::proofs::Bounds::preset_bounds))]
pub fn process_slashings_reset(state: &mut State) -> Result<(), Stop>
    ensures { Changes result state.old state.new (done (process_slashings_reset state.old)) }
{
    let _len = state.slashings_len();
    let place = (current_epoch(state) + 1) % state.preset().epochs_per_slashings_vector;
    state.set_slashings_at(place, 0)?;
    Ok(())
}
