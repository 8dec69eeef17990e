//! The end of a period of eth1 votes (beacon-chain.md, "process_eth1_data_reset").

ghost use Rattle.std.specs.Prelude.{◌≡◌};
ghost use Rattle.bc_words.specs.Outcome.{Changes, done};
ghost use Rattle.spec_epochs.specs.ProcessEth1DataReset.{process_eth1_data_reset};

use balance_totals::current_epoch;
use bc_words::Stop;
use beacon_state::State;

/// Drops the eth1 votes where the next epoch begins a period (beacon-chain.md, `process_eth1_data_reset`). It refuses
/// nothing.
#[tactic(auto, unfolding(spec_epochs::specs::ProcessEth1DataReset::process_eth1_data_reset), using(bc_preset::proofs::Bounds::preset_bounds))]
pub fn process_eth1_reset(state: &mut State) -> Result<(), Stop>
    ensures { Changes result state.old state.new (done (process_eth1_data_reset state.old)) }
{
    let period = state.preset().epochs_per_eth1_voting_period;
    if (current_epoch(state) + 1) % period != 0 {
        return Ok(());
    }
    state.clear_eth1_data_votes()?;
    Ok(())
}
