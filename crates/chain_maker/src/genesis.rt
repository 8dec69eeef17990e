//! The genesis state of a number.

ghost use Rattle.std.specs.Prelude.{◌≡◌, ◌++◌, None, map, replicate, IfOk};
ghost use Rattle.std.specs.List.{range_with_len};
ghost use Rattle.hash_tree.specs.Merkle.{uint_to_bytes};
ghost use Rattle.bc_preset.specs.Presets.{IsPreset};
ghost use Rattle.spec_state.specs.Genesis.{genesis_fault};
ghost use Rattle.spec_drill.specs.MakeGenesis.{made_validator, made_genesis};

use crate::plan::slot_digest;
use bc_preset::Preset;
use bc_preset::constants::FAR_FUTURE_EPOCH;
use bc_words::NoMemory;
use beacon_state::State;
use beacon_types::{BeaconBlockHeader, Checkpoint, Eth1Data, Fork, Validator, empty_body_root};
use hash_tree::Root;
use spec_state::PlainState;
use ssz_codec::{Items, list_root};
use std::alloc::Global;

/// How many validators there are.
const VALIDATORS: u64 = 64;

/// Their balance, in Gwei: the greatest that counts.
const BALANCE: u64 = 32_000_000_000;

/// When the chain begins, in seconds.
const GENESIS_TIME: u64 = 1000;

/// The checkpoints of genesis.
const ZERO_CHECKPOINT: Checkpoint = Checkpoint {
    epoch: 0,
    root: [0; 32],
};

/// The key of a validator: its index and the number, each as eight bytes, and 32 zero bytes.
#[tactic(auto, unfolding(hash_tree::specs::Merkle::uint_to_bytes))]
fn pubkey(number: u64, index: u64) -> [u8; 48]
    ensures { result ≡ uint_to_bytes index ++ (uint_to_bytes number ++ replicate 32 0) }
{
    let mut key = [0; 48];
    key[..8].copy_from_slice(&index.to_le_bytes());
    key[8..16].copy_from_slice(&number.to_le_bytes());
    key
}

/// The validator with an index.
#[tactic(auto, unfolding(spec_drill::specs::MakeGenesis::made_validator, hash_tree::specs::Merkle::uint_to_bytes))]
fn made_validator(number: u64, index: u64) -> Validator
    ensures { result ≡ made_validator number index }
{
    Validator {
        pubkey: pubkey(number, index),
        withdrawal_credentials: [0; 32],
        effective_balance: BALANCE,
        slashed: false,
        activation_eligibility_epoch: 0,
        activation_epoch: 0,
        exit_epoch: FAR_FUTURE_EPOCH,
        withdrawable_epoch: FAR_FUTURE_EPOCH,
    }
}

/// All validators, in order.
fn made_validators(alloc: Global, number: u64) -> Result<Items<Validator>, NoMemory>
    ensures { IfOk result (λ validators. validators ≡ map (made_validator number) (range_with_len 0 64)) }
{
    let mut validators = Items::new(alloc);
    for index in 0..VALIDATORS {
        validators.push(made_validator(number, index))?;
    }
    Ok(validators)
}

/// So many times this root.
fn roots(alloc: Global, root: Root, count: u64) -> Result<Items<Root>, NoMemory>
    ensures { IfOk result (λ roots. roots ≡ replicate count root) }
{
    Ok(Items::from_vec(vec![in alloc; root; count as usize]?))
}

/// So many times this number.
fn numbers(alloc: Global, number: u64, count: u64) -> Result<Items<u64>, NoMemory>
    ensures { IfOk result (λ numbers. numbers ≡ replicate count number) }
{
    Ok(Items::from_vec(vec![in alloc; number; count as usize]?))
}

/// The fields of the genesis state.
#[tactic(auto, unfolding(spec_drill::specs::MakeGenesis::made_genesis))]
fn made_fields(alloc: Global, preset: &Preset, number: u64) -> Result<PlainState, NoMemory>
    requires { IsPreset preset.now }
    ensures { IfOk result (λ plain. plain ≡ made_genesis preset.now number) }
{
    preset.bounds();
    let validators = made_validators(alloc, number)?;
    let validators_root = list_root(validators.as_slice(), preset.validator_registry_limit);
    let block_roots = roots(alloc, [0; 32], preset.slots_per_historical_root)?;
    let state_roots = roots(alloc, [0; 32], preset.slots_per_historical_root)?;
    let balances = numbers(alloc, BALANCE, VALIDATORS)?;
    let mix = slot_digest(number, 0);
    let randao_mixes = roots(alloc, mix, preset.epochs_per_historical_vector)?;
    let slashings = numbers(alloc, 0, preset.epochs_per_slashings_vector)?;
    Ok(PlainState {
        preset: *preset,
        genesis_time: GENESIS_TIME,
        genesis_validators_root: validators_root,
        slot: 0,
        fork: Fork {
            previous_version: [0; 4],
            current_version: [0; 4],
            epoch: 0,
        },
        latest_block_header: BeaconBlockHeader {
            slot: 0,
            proposer_index: 0,
            parent_root: [0; 32],
            state_root: [0; 32],
            body_root: empty_body_root(),
        },
        block_roots,
        state_roots,
        historical_roots: Items::new(alloc),
        eth1_data: ZERO_ETH1,
        eth1_data_votes: Items::new(alloc),
        eth1_deposit_index: 0,
        validators,
        balances,
        randao_mixes,
        slashings,
        previous_epoch_attestations: Items::new(alloc),
        current_epoch_attestations: Items::new(alloc),
        justification_bits: [false; 4],
        previous_justified_checkpoint: ZERO_CHECKPOINT,
        current_justified_checkpoint: ZERO_CHECKPOINT,
        finalized_checkpoint: ZERO_CHECKPOINT,
    })
}

/// The eth1 data of genesis, by which no deposit is due.
pub const ZERO_ETH1: Eth1Data = Eth1Data {
    deposit_root: [0; 32],
    deposit_count: 0,
    block_hash: [0; 32],
};

/// The genesis state of a number: it began at second 1000, with 64 full validators. It passes the genesis check.
pub fn made_genesis(alloc: Global, preset: &Preset, number: u64) -> Result<State, NoMemory>
    requires { IsPreset preset.now }
    ensures state { IfOk result (λ state. state ≡ made_genesis preset.now number) }
    ensures passes { IfOk result (λ state. genesis_fault state ≡ None) }
{
    let plain = made_fields(alloc, preset, number)?;
    State::from_plain(alloc, plain)
}
