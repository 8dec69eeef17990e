//! Whether a better justified checkpoint is taken at once (fork-choice.md, "should_update_justified_checkpoint").

ghost use Rattle.std.specs.Prelude.{◌≡◌};
ghost use Rattle.fork_store.specs.Arrays.{AreNodesOf};
ghost use Rattle.spec_fork_choice.specs.ShouldUpdateJustifiedCheckpoint.{should_update_justified_checkpoint};

use crate::get_ancestor::is_behind;
use crate::slots::{current_slot, slots_since_epoch_start};
use crate::store_fields::StoreFields;
use beacon_types::Checkpoint;
use block_array::BlockArray;

/// Whether a better justified checkpoint becomes the justified one at once: early in an epoch, or where it is behind the
/// justified one (fork-choice.md, `should_update_justified_checkpoint`).
#[tactic(auto, unfolding(spec_fork_choice::specs::ShouldUpdateJustifiedCheckpoint::should_update_justified_checkpoint))]
pub fn should_update_justified_checkpoint(
    store: &StoreFields,
    array: &BlockArray,
    checkpoint: Checkpoint,
) -> bool
    requires { AreNodesOf store.now.blocks array.now.nodes }
    ensures { result ≡ should_update_justified_checkpoint store.now checkpoint }
{
    let preset = store.config().preset();
    slots_since_epoch_start(preset, current_slot(store)) < preset.safe_slots_to_update_justified
        || is_behind(store, array, checkpoint.root, store.justified())
}
