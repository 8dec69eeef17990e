//! Whether fork choice can begin at a state and a block (fork-choice.md, "get_forkchoice_store", which takes them as given).
//!
//! Both come from files; where nothing is wrong with them, the store opens at them.

ghost use Rattle.std.specs.Prelude.{◌≡◌, ◌^◌, ◌==◌, nat_lt, IfOk};
ghost use Rattle.spec_state.specs.Misc.{compute_start_slot_at_epoch};
ghost use Rattle.spec_state.specs.Accessors.{get_current_epoch};
ghost use Rattle.spec_fork_choice.specs.Anchor.{anchor_fault, time_of_slot};
ghost use Rattle.spec_fork_choice.specs.Soundness.{is_sound as tests_sound};
ghost use Rattle.fork_store.specs.Anchors.{AnswersAnchor};

use bc_preset::Config;
use bc_words::NoMemory;
use beacon_state::State;
use beacon_types::BeaconBlock;
use hash_tree::Leaf;
use spec_fork_choice::AnchorFault;
use std::alloc::Global;
use transition::is_sound;

/// Why fork choice can't begin at a state and a block.
#[derive(Debug, Drop)]
pub enum AnchorStop {
    /// Something is wrong with them, and this is the first.
    Fault(AnchorFault),
    /// Memory ran out.
    NoMemory,
}

/// Whether the state's slot is its epoch's first.
#[tactic(auto, unfolding(spec_state::specs::Accessors::get_current_epoch))]
fn starts_epoch(state: &State) -> bool
    ensures { result ≡ (compute_start_slot_at_epoch state.now.preset (get_current_epoch state.now) == state.now.slot) }
{
    let preset = state.preset();
    preset.bounds();
    let slot = state.slot();
    slot / preset.slots_per_epoch * preset.slots_per_epoch == slot
}

/// Whether the state is sound.
fn tests_sound(alloc: Global, state: &State) -> Result<bool, NoMemory>
    ensures { IfOk result (λ sound. tests_sound state.now ≡ sound) }
{
    match is_sound(alloc, state) {
        Ok(sound) => Ok(sound),
        Err(refused) => Err(refused),
    }
}

/// Whether the time of the state's slot fits in 64 bits.
#[tactic(auto, unfolding(spec_fork_choice::specs::Anchor::time_of_slot), using(crate::proofs::Numbers::timing))]
fn time_fits(config: &Config, state: &State) -> bool
    ensures { result ≡ nat_lt (time_of_slot config.now state.now) (2 ^ 64) }
{
    let seconds = u128::from(config.seconds_per_slot()) * u128::from(state.slot());
    u128::from(state.genesis_time()) + seconds <= u128::from(u64::MAX)
}

/// Whether fork choice can begin at a state and a block, or the first thing that is wrong with them: the state's slot isn't its
/// epoch's first, or not the block's; the state isn't sound; its root isn't the one that the block names; its latest block is another
/// one; or the slot's time doesn't fit in 64 bits.
#[tactic(auto, unfolding(spec_fork_choice::specs::Anchor::anchor_fault))]
pub fn anchor_check(
    alloc: Global,
    config: &Config,
    state: &State,
    block: &BeaconBlock,
) -> Result<(), AnchorStop>
    ensures { AnswersAnchor result (anchor_fault config.now state.now block.now) }
{
    if !starts_epoch(state) {
        return Err(AnchorStop::Fault(AnchorFault::EpochStart(state.slot())));
    }
    if state.slot() != block.slot {
        return Err(AnchorStop::Fault(AnchorFault::BlockSlot(state.slot(), block.slot)));
    }
    let Ok(sound) = tests_sound(alloc, state) else {
        return Err(AnchorStop::NoMemory);
    };
    if !sound {
        return Err(AnchorStop::Fault(AnchorFault::Unsound));
    }
    let state_root = state.root();
    if state_root != block.state_root {
        return Err(AnchorStop::Fault(AnchorFault::StateRoot(state_root, block.state_root)));
    }
    let (header_root, block_root) = (state.header_root(), block.root());
    if header_root != block_root {
        return Err(AnchorStop::Fault(AnchorFault::Header(header_root, block_root)));
    }
    if !time_fits(config, state) {
        return Err(AnchorStop::Fault(AnchorFault::Time(state.genesis_time(), state.slot())));
    }
    Ok(())
}
