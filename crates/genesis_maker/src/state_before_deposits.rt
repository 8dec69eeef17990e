//! The state that the making begins with: all is zero or empty but what is given.

ghost use Rattle.std.specs.Prelude.{◌≡◌, ◌≤◌, ◌^◌, IfOk, replicate};
ghost use Rattle.ssz_codec.specs.Basic.{bytes4, bytes32};
ghost use Rattle.bc_preset.specs.Presets.{IsPreset};
ghost use Rattle.beacon_types.specs.declared.checkpoint.Checkpoint.{Checkpoint};
ghost use Rattle.spec_genesis.specs.InitializeBeaconStateFromEth1.{empty_header, state_before_deposits, zero_checkpoint};

use bc_preset::Preset;
use bc_words::NoMemory;
use beacon_state::State;
use beacon_types::{BeaconBlockHeader, Checkpoint, Eth1Data, Fork, empty_body_root};
use hash_tree::Root;
use spec_state::PlainState;
use ssz_codec::Items;
use state_parts::{fork_in_range, root_in_range};
use std::alloc::Global;

/// The checkpoint of nothing.
const ZERO_CHECKPOINT: Checkpoint = Checkpoint {
    epoch: 0,
    root: [0; 32],
};

/// The same root so many times.
fn repeated(alloc: Global, root: Root, count: u64) -> Result<Items<Root>, NoMemory>
    ensures { IfOk result (λ items. items ≡ replicate count root) }
{
    let roots = vec![in alloc; root; count as usize]?;
    Ok(Items::from_vec(roots))
}

/// So many zeros.
fn zeros(alloc: Global, count: u64) -> Result<Items<u64>, NoMemory>
    ensures { IfOk result (λ items. items ≡ replicate count 0) }
{
    let numbers = vec![in alloc; 0u64; count as usize]?;
    Ok(Items::from_vec(numbers))
}

/// The header of the empty block.
fn empty_header() -> BeaconBlockHeader
    ensures { result ≡ empty_header }
{
    BeaconBlockHeader {
        slot: 0,
        proposer_index: 0,
        parent_root: [0; 32],
        state_root: [0; 32],
        body_root: empty_body_root(),
    }
}

/// The fork that a genesis begins with.
fn genesis_fork(version: [u8; 4]) -> Fork
    ensures { result ≡ record { previous_version = version; current_version = version; epoch = 0 } }
{
    Fork {
        previous_version: version,
        current_version: version,
        epoch: 0,
    }
}

/// The fields of the state before so many deposits.
#[tactic(auto, unfolding(spec_genesis::specs::InitializeBeaconStateFromEth1::state_before_deposits))]
fn plain_before_deposits(
    alloc: Global,
    preset: &Preset,
    version: [u8; 4],
    eth1_block_hash: Root,
    time: u64,
    count: u64,
) -> Result<PlainState, NoMemory>
    ensures { IfOk result (λ state. state ≡ state_before_deposits preset.now version eth1_block_hash time count) }
{
    let block_roots = repeated(alloc, [0; 32], preset.slots_per_historical_root)?;
    let state_roots = repeated(alloc, [0; 32], preset.slots_per_historical_root)?;
    let randao_mixes = repeated(alloc, eth1_block_hash, preset.epochs_per_historical_vector)?;
    let slashings = zeros(alloc, preset.epochs_per_slashings_vector)?;
    Ok(PlainState {
        preset: *preset,
        genesis_time: time,
        genesis_validators_root: [0; 32],
        slot: 0,
        fork: genesis_fork(version),
        latest_block_header: empty_header(),
        block_roots,
        state_roots,
        historical_roots: Items::new(alloc),
        eth1_data: Eth1Data {
            deposit_root: [0; 32],
            deposit_count: count,
            block_hash: eth1_block_hash,
        },
        eth1_data_votes: Items::new(alloc),
        eth1_deposit_index: 0,
        validators: Items::new(alloc),
        balances: Items::new(alloc),
        randao_mixes,
        slashings,
        previous_epoch_attestations: Items::new(alloc),
        current_epoch_attestations: Items::new(alloc),
        justification_bits: [false; 4],
        previous_justified_checkpoint: ZERO_CHECKPOINT,
        current_justified_checkpoint: ZERO_CHECKPOINT,
        finalized_checkpoint: ZERO_CHECKPOINT,
    })
}

/// What a genesis is given is bytes, as many as it wants. It does nothing when it runs.
#[tactic(auto, unfolding(ssz_codec::specs::Layout::OffsetsFit))]
pub(crate) fn given_in_range(version: [u8; 4], eth1_block_hash: &Root)
    ensures version { bytes4.Within version }
    ensures hash { bytes32.Within eth1_block_hash.now }
{
    fork_in_range(&genesis_fork(version));
    root_in_range(eth1_block_hash);
}

/// The state before so many deposits.
pub(crate) fn state_before_deposits(
    alloc: Global,
    preset: &Preset,
    version: [u8; 4],
    eth1_block_hash: Root,
    time: u64,
    count: u64,
) -> Result<State, NoMemory>
    requires preset { IsPreset preset.now }
    requires few { count ≤ 2 ^ 32 }
    ensures { IfOk result (λ state. state ≡ state_before_deposits preset.now version eth1_block_hash time count) }
{
    let plain = plain_before_deposits(alloc, preset, version, eth1_block_hash, time, count)?;
    given_in_range(version, &eth1_block_hash);
    State::from_plain(alloc, plain)
}
