//! The roots of blocks that a state keeps (beacon-chain.md, "Beacon state accessors").

ghost use Rattle.std.specs.Prelude.{◌≡◌, ◌<◌, ◌≤◌, [], length, slice_index_or};
ghost use Rattle.spec_state.specs.Accessors.{get_current_epoch, get_block_root, get_block_root_at_slot};

use beacon_state::State;
use hash_tree::Root;

/// The root of the latest block whose slot has this place.
fn root_at(state: &State, place: u64) -> Root
    requires { place < length state.now.block_roots }
    ensures { result ≡ slice_index_or state.now.block_roots place [] }
{
    match state.block_roots_at(place) {
        Some(root) => *root,
        None => unreachable!(),
    }
}

/// The root of the latest block at a slot (beacon-chain.md, `get_block_root_at_slot`). The roots go round: a slot more than
/// `slots_per_historical_root` before the state's reads that of a later one, and one that isn't before the state's that of an
/// earlier one. The published assert refuses both; no caller asks for one.
#[tactic(auto, unfolding(spec_state::specs::Accessors::get_block_root_at_slot), using(bc_preset::proofs::Bounds::preset_bounds))]
pub fn block_root_at_slot(state: &State, slot: u64) -> Root
    ensures { result ≡ get_block_root_at_slot state.now slot }
{
    let _roots = state.block_roots_len();
    root_at(state, slot % state.preset().slots_per_historical_root)
}

/// The root of the block at the beginning of an epoch, the current one at most (beacon-chain.md, `get_block_root`).
#[tactic(auto, unfolding(spec_state::specs::Accessors::get_block_root, spec_state::specs::Accessors::get_current_epoch))]
pub fn block_root(state: &State, epoch: u64) -> Root
    requires { epoch ≤ get_current_epoch state.now }
    ensures { result ≡ get_block_root state.now epoch }
{
    let preset = state.preset();
    preset.bounds();
    let _slot = state.slot();
    block_root_at_slot(state, epoch * preset.slots_per_epoch)
}
