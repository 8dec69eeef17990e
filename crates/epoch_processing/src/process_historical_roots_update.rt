//! The root of a batch of roots, once they have gone round (beacon-chain.md, "process_historical_roots_update").

ghost use Rattle.std.specs.Prelude.{◌≡◌};
ghost use Rattle.bc_words.specs.Outcome.{Changes};
ghost use Rattle.spec_epochs.specs.ProcessHistoricalRootsUpdate.{process_historical_roots_update, historical_batch, historical_batch_codec};

use balance_totals::current_epoch;
use bc_words::Stop;
use beacon_state::State;
use hash_tree::{Root, fields_root};

/// The root of the latest block roots and state roots (beacon-chain.md, "HistoricalBatch").
#[tactic(auto, unfolding(spec_epochs::specs::ProcessHistoricalRootsUpdate::historical_batch, spec_epochs::specs::ProcessHistoricalRootsUpdate::historical_batch_codec, spec_epochs::specs::ProcessHistoricalRootsUpdate::historical_batch_fields))]
fn batch_root(state: &State) -> Root
    ensures { result ≡ (historical_batch_codec state.now.preset).hash_tree_root (historical_batch state.now) }
{
    fields_root(&[state.block_roots_root(), state.state_roots_root()])
}

/// Appends the root of the latest roots where the next epoch begins a new round of them (beacon-chain.md,
/// `process_historical_roots_update`). Refused exactly where the list is full then.
#[tactic(auto, unfolding(spec_epochs::specs::ProcessHistoricalRootsUpdate::process_historical_roots_update), using(bc_preset::proofs::Bounds::preset_bounds))]
pub fn process_historical_roots(state: &mut State) -> Result<(), Stop>
    ensures { Changes result state.old state.new (process_historical_roots_update state.old) }
{
    let preset = state.preset();
    let round = preset.slots_per_historical_root / preset.slots_per_epoch;
    if (current_epoch(state) + 1) % round != 0 {
        return Ok(());
    }
    let root = batch_root(state);
    state.push_historical_roots(root)?;
    Ok(())
}
