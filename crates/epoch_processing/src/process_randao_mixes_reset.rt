//! The mix that the next epoch begins with (beacon-chain.md, "process_randao_mixes_reset").

ghost use Rattle.std.specs.Prelude.{◌≡◌};
ghost use Rattle.bc_words.specs.Outcome.{Changes, done};
ghost use Rattle.spec_epochs.specs.ProcessRandaoMixesReset.{process_randao_mixes_reset};

use balance_totals::current_epoch;
use bc_words::Stop;
use beacon_state::State;
use committees::Lookup;

/// Writes the mix of the epoch at the place of the next one (beacon-chain.md, `process_randao_mixes_reset`). It refuses
/// nothing.
#[tactic(auto, unfolding(spec_epochs::specs::ProcessRandaoMixesReset::process_randao_mixes_reset), using(bc_preset::proofs::Bounds::preset_bounds))]
pub fn process_randao_reset(state: &mut State) -> Result<(), Stop>
    ensures { Changes result state.old state.new (done (process_randao_mixes_reset state.old)) }
{
    let _len = state.randao_mixes_len();
    let epoch = current_epoch(state);
    let place = (epoch + 1) % State::preset(state).epochs_per_historical_vector;
    let mix = state.mix(epoch);
    state.set_randao_mixes_at(place, mix)?;
    Ok(())
}
