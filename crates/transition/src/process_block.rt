//! A block on a state of its slot (beacon-chain.md, "Block processing").

ghost use Rattle.std.specs.Prelude.{◌≡◌, IfOk};
ghost use Rattle.bc_words.specs.Outcome.{Moves};
ghost use Rattle.spec_state.specs.Soundness.{IsSound};
ghost use Rattle.spec_blocks.specs.ProcessBlock.{process_block};

use crate::get_beacon_proposer_index::get_beacon_proposer_index;
use crate::process_operations::process_operations;
use balance_totals::{current_epoch, keep_active, keep_committees, previous_epoch};
use bc_preset::Config;
use bc_words::{NoMemory, Stop};
use beacon_state::State;
use beacon_types::{BeaconBlock, RootedAttestation, rooted_attestations};
use block_operations::process_eth1_data::process_eth1_data;
use block_operations::process_randao::process_randao;
use block_operations::process_rooted_header;
use hash_tree::Leaf;
use std::alloc::Global;

/// The state keeps the active validators of the previous and the current epoch, and the committees of the current one, where it
/// doesn't yet: the first block of an epoch finds them, and the blocks on it have them of its state.
fn keep_epoch(alloc: Global, state: &mut State) -> Result<(), NoMemory>
    ensures { state.new ≡ state.old }
{
    let before = previous_epoch(state);
    let now = current_epoch(state);
    if state.active_list(now).is_some() {
        return Ok(());
    }
    keep_active(alloc, state, before)?;
    keep_committees(alloc, state, now)
}

/// The parts of a block, one after another. Its attestations come with their roots, which its own root and the state's lists take in,
/// as they do that of its vote for the deposit contract.
#[tactic(auto, unfolding(spec_blocks::specs::ProcessBlock::process_block))]
fn take_parts(
    alloc: Global,
    state: &mut State,
    block: &BeaconBlock,
    attestations: &[RootedAttestation<'_>],
    config: &Config,
) -> Result<(), Stop>
    requires { attestations.now ≡ block.now.body.attestations }
    ensures { Moves result state.new (process_block state.old block.now config.now) }
{
    let proposer = get_beacon_proposer_index(alloc, state)?;
    let vote_root = block.body.eth1_data.root();
    let body_root = block.body.root_over(&vote_root, attestations);
    process_rooted_header(state, block, body_root, proposer)?;
    process_randao(state, &block.body)?;
    process_eth1_data(state, &block.body, vote_root)?;
    process_operations(alloc, state, &block.body, attestations, proposer, config)
}

/// The steps of a block, once the state keeps who is active.
fn take_steps(
    alloc: Global,
    state: &mut State,
    block: &BeaconBlock,
    config: &Config,
) -> Result<(), Stop>
    ensures { Moves result state.new (process_block state.old block.now config.now) }
{
    keep_epoch(alloc, state)?;
    let attestations = rooted_attestations(alloc, block.body.attestations.as_slice())?;
    take_parts(alloc, state, block, &attestations, config)
}

/// The block's header, randomness, vote for the deposit contract, and operations (beacon-chain.md, `process_block`), on a
/// state of the block's slot. It leaves a sound state sound, and anything in the state after a stop.
///
/// Refused, in this order: as the proposer of the slot, the header, the vote and the operations are.
#[tactic(auto, using(crate::proofs::Blocks::block_sound, crate::proofs::Blocks::block_slot, crate::proofs::Blocks::block_preset))]
pub fn process_block(
    alloc: Global,
    state: &mut State,
    block: &BeaconBlock,
    config: &Config,
) -> Result<(), Stop>
    requires slot { block.now.slot ≡ state.old.slot }
    ensures sound { IfOk result (λ _. IsSound state.old → IsSound state.new) }
    ensures slot { IfOk result (λ _. state.new.slot ≡ state.old.slot) }
    ensures preset { IfOk result (λ _. state.new.preset ≡ state.old.preset) }
    ensures step { Moves result state.new (process_block state.old block.now config.now) }
{
    state.preset().bounds();
    let _epoch = current_epoch(state);
    take_steps(alloc, state, block, config)
}
