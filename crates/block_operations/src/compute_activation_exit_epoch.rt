//! When an activation or an exit comes into effect (beacon-chain.md, "compute_activation_exit_epoch").

ghost use Rattle.bc_words.specs.Outcome.{GivesExactly};
ghost use Rattle.spec_state.specs.Misc.{compute_activation_exit_epoch};

use bc_preset::Preset;
use bc_words::{Stop, checked_add};

/// The epoch at which an activation or an exit comes that begins at this epoch (beacon-chain.md,
/// `compute_activation_exit_epoch`). Refused as an overflow exactly where it doesn't fit.
#[tactic(auto, unfolding(spec_state::specs::Misc::compute_activation_exit_epoch))]
pub fn compute_activation_exit_epoch(preset: &Preset, epoch: u64) -> Result<u64, Stop>
    ensures { GivesExactly result (compute_activation_exit_epoch preset.now epoch) }
{
    let next = checked_add(epoch, 1)?;
    checked_add(next, preset.max_seed_lookahead)
}
