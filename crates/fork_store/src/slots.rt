//! The slots of a store: what the time says, and where epochs begin.
//!
//! A checkpoint's epoch is any number of 64 bits here, so that its first slot is counted in 128.

ghost use Rattle.std.specs.Prelude.{◌≡◌};
ghost use Rattle.bc_preset.specs.Presets.{IsPreset};
ghost use Rattle.spec_fork_choice.specs.Slots.{get_current_slot, compute_slots_since_epoch_start, start_slot_of};

use crate::store_fields::StoreFields;
use bc_preset::Preset;
use beacon_types::Checkpoint;

/// The slot that the time is in (fork-choice.md, `get_current_slot`).
#[tactic(auto, unfolding(spec_fork_choice::specs::Slots::get_slots_since_genesis))]
pub fn current_slot(store: &StoreFields) -> u64
    ensures { result ≡ get_current_slot store.now }
{
    (store.time() - store.genesis_time()) / store.config().seconds_per_slot()
}

/// How many slots behind the first one of its epoch a slot is (fork-choice.md, `compute_slots_since_epoch_start`).
#[tactic(auto, unfolding(spec_fork_choice::specs::Slots::compute_slots_since_epoch_start))]
pub fn slots_since_epoch_start(preset: &Preset, slot: u64) -> u64
    requires { IsPreset preset.now }
    ensures { result ≡ compute_slots_since_epoch_start preset.now slot }
{
    preset.bounds();
    slot - slot / preset.slots_per_epoch * preset.slots_per_epoch
}

/// The first slot of a checkpoint's epoch (beacon-chain.md, `compute_start_slot_at_epoch`).
#[tactic(auto, using(crate::proofs::Numbers::start_fits))]
pub fn start_slot(store: &StoreFields, checkpoint: Checkpoint) -> u128
    ensures { result ≡ start_slot_of store.now checkpoint }
{
    let preset = store.config().preset();
    u128::from(checkpoint.epoch) * u128::from(preset.slots_per_epoch)
}
