//! The end of a slot (beacon-chain.md, "process_slot").

ghost use Rattle.std.specs.Prelude.{◌≡◌, ◌<◌, ◌%◌, length, OnOk};
ghost use Rattle.bc_words.specs.Outcome.{Becomes};
ghost use Rattle.spec_state.specs.States.{state_codec};
ghost use Rattle.spec_state.specs.Genesis.{block_header_of};
ghost use Rattle.spec_transition.specs.ProcessSlot.{process_slot, root_index};

use bc_words::NoMemory;
use beacon_state::State;
use beacon_types::BeaconBlockHeader;
use hash_tree::{Leaf, Root};

/// The header of the latest block, which gets the state's root where it has none.
#[tactic(auto, unfolding(spec_state::specs::Genesis::block_header_of))]
fn closed_header(state: &State, root: Root) -> BeaconBlockHeader
    requires { root ≡ (state_codec state.now.preset).hash_tree_root state.now }
    ensures { result ≡ block_header_of state.now }
{
    let mut header = state.latest_block_header();
    if header.state_root == [0; 32] {
        header.state_root = root;
    }
    header
}

/// Where the roots of the state's slot stand among the latest ones.
#[tactic(auto, using(bc_preset::proofs::Bounds::preset_bounds))]
fn root_index(state: &State) -> u64
    ensures index { result ≡ root_index state.now }
    ensures of_blocks { result < length state.now.block_roots }
    ensures of_states { result < length state.now.state_roots }
{
    let _blocks = state.block_roots_len();
    let _states = state.state_roots_len();
    state.slot() % state.preset().slots_per_historical_root
}

/// Ends the slot: keeps the state's root, gives it to a block header that has none, and keeps the root of the latest
/// block. The slot itself doesn't grow. Where memory is refused, the state is of no use any more.
///
/// The state's root is computed once, and neither it nor that of the latest block is where the state keeps them.
#[tactic(auto, unfolding(spec_transition::specs::ProcessSlot::process_slot, spec_state::specs::Genesis::header_root_of))]
pub(crate) fn close_slot(state: &mut State) -> Result<(), NoMemory>
    ensures { OnOk result (state.new ≡ process_slot state.old) }
{
    let root = state.keep_root();
    let block_root = state.header_root();
    let header = closed_header(state, root);
    let index = root_index(state);
    state.set_state_roots_at(index, root)?;
    state.set_latest_block_header(header);
    state.set_block_roots_at(index, block_root)?;
    Ok(())
}

/// Ends the slot: keeps the state's root, gives it to a block header that has none, and keeps the root of the latest
/// block. The slot itself doesn't grow. Where memory is refused, the state is as before: the lists of the state are shared
/// first, which copies none.
pub fn process_slot(state: &mut State) -> Result<(), NoMemory>
    ensures { Becomes result state.old state.new (process_slot state.old) }
{
    let mut next = state.share()?;
    close_slot(&mut next)?;
    *state = next;
    Ok(())
}
