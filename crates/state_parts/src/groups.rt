//! Reading the fields of a state in groups of neighbours. Parts come from cutting the state, values go into the state.

ghost use Rattle.std.specs.Prelude.{◌≡◌, map};
ghost use Rattle.ssz_codec.specs.Reads.{ReadsAs};
ghost use Rattle.ssz_codec.specs.Containers.{all_read};
ghost use Rattle.spec_state.specs.States.{votes_limit, attestations_limit};
ghost use Rattle.state_parts.specs.inside.Groups.{clock_fields, history_fields, eth1_fields, registry_fields, pending_fields, finality_fields, state_of, read_groups as of_groups};
ghost use Rattle.bc_preset.specs.Presets.{IsPreset};

use crate::parts::{Clock, Eth1, Finality, History, Pending, Registry};
use bc_preset::Preset;
use beacon_types::{BeaconBlockHeader, Checkpoint, Eth1Data, Fork, PendingAttestation, Validator};
use hash_tree::Root;
use spec_state::PlainState;
use ssz_codec::{Ssz, SszFault, read_items, read_list, read_variable_list};
use std::alloc::Global;

#[tactic(auto, unfolding(crate::specs::inside::Groups::clock_fields))]
fn read_clock(alloc: Global, parts: &[&[u8]]) -> Result<Clock, SszFault>
    ensures { ReadsAs result (clock_fields.deserialize all_read (map (λ part. part.now) parts.now)) }
{
    match parts {
        [
            genesis_time,
            genesis_validators_root,
            slot,
            fork,
            latest_block_header,
        ] => Ok(Clock {
            genesis_time: u64::parse(alloc, genesis_time)?,
            genesis_validators_root: Root::parse(alloc, genesis_validators_root)?,
            slot: u64::parse(alloc, slot)?,
            fork: Fork::parse(alloc, fork)?,
            latest_block_header: BeaconBlockHeader::parse(alloc, latest_block_header)?,
        }),
        _ => Err(SszFault::NotAWriting),
    }
}

#[tactic(auto, unfolding(crate::specs::inside::Groups::history_fields))]
fn read_history(alloc: Global, preset: &Preset, parts: &[&[u8]]) -> Result<History, SszFault>
    ensures { ReadsAs result ((history_fields preset.now).deserialize all_read (map (λ part. part.now) parts.now)) }
{
    let count = preset.slots_per_historical_root as usize;
    match parts {
        [block_roots, state_roots, historical_roots] => Ok(History {
            block_roots: read_items(alloc, block_roots, 32, count)?,
            state_roots: read_items(alloc, state_roots, 32, count)?,
            historical_roots: read_list(
                alloc,
                historical_roots,
                32,
                preset.historical_roots_limit,
            )?,
        }),
        _ => Err(SszFault::NotAWriting),
    }
}

#[tactic(auto, unfolding(crate::specs::inside::Groups::eth1_fields))]
fn read_eth1(alloc: Global, preset: &Preset, parts: &[&[u8]]) -> Result<Eth1, SszFault>
    requires { IsPreset preset.now }
    ensures { ReadsAs result ((eth1_fields preset.now).deserialize all_read (map (λ part. part.now) parts.now)) }
{
    let limit = votes_limit_of(preset);
    match parts {
        [eth1_data, eth1_data_votes, eth1_deposit_index] => Ok(Eth1 {
            eth1_data: Eth1Data::parse(alloc, eth1_data)?,
            eth1_data_votes: read_list(alloc, eth1_data_votes, 72, limit)?,
            eth1_deposit_index: u64::parse(alloc, eth1_deposit_index)?,
        }),
        _ => Err(SszFault::NotAWriting),
    }
}

#[tactic(auto, unfolding(crate::specs::inside::Groups::registry_fields))]
fn read_registry(alloc: Global, preset: &Preset, parts: &[&[u8]]) -> Result<Registry, SszFault>
    ensures { ReadsAs result ((registry_fields preset.now).deserialize all_read (map (λ part. part.now) parts.now)) }
{
    let limit = preset.validator_registry_limit;
    let mixes = preset.epochs_per_historical_vector as usize;
    let epochs = preset.epochs_per_slashings_vector as usize;
    match parts {
        [validators, balances, randao_mixes, slashings] => Ok(Registry {
            validators: read_list(alloc, validators, 121, limit)?,
            balances: read_list(alloc, balances, 8, limit)?,
            randao_mixes: read_items(alloc, randao_mixes, 32, mixes)?,
            slashings: read_items(alloc, slashings, 8, epochs)?,
        }),
        _ => Err(SszFault::NotAWriting),
    }
}

#[tactic(auto, unfolding(crate::specs::inside::Groups::pending_fields))]
fn read_pending(alloc: Global, preset: &Preset, parts: &[&[u8]]) -> Result<Pending, SszFault>
    requires { IsPreset preset.now }
    ensures { ReadsAs result ((pending_fields preset.now).deserialize all_read (map (λ part. part.now) parts.now)) }
{
    let limit = attestations_limit_of(preset);
    match parts {
        [previous, current] => Ok(Pending {
            previous_epoch_attestations: read_variable_list(alloc, previous, limit)?,
            current_epoch_attestations: read_variable_list(alloc, current, limit)?,
        }),
        _ => Err(SszFault::NotAWriting),
    }
}

#[tactic(auto, unfolding(crate::specs::inside::Groups::finality_fields))]
fn read_finality(alloc: Global, parts: &[&[u8]]) -> Result<Finality, SszFault>
    ensures { ReadsAs result (finality_fields.deserialize all_read (map (λ part. part.now) parts.now)) }
{
    match parts {
        [bits, previous, current, finalized] => Ok(Finality {
            justification_bits: <[bool; 4]>::parse(alloc, bits)?,
            previous_justified_checkpoint: Checkpoint::parse(alloc, previous)?,
            current_justified_checkpoint: Checkpoint::parse(alloc, current)?,
            finalized_checkpoint: Checkpoint::parse(alloc, finalized)?,
        }),
        _ => Err(SszFault::NotAWriting),
    }
}

/// The limit of the list of eth1 votes.
#[tactic(auto, using(bc_preset::proofs::Bounds::preset_bounds))]
pub(crate) fn votes_limit_of(preset: &Preset) -> u64
    requires { IsPreset preset.now }
    ensures { result ≡ votes_limit preset.now }
{
    preset.epochs_per_eth1_voting_period * preset.slots_per_epoch
}

/// The limit of each list of pending attestations.
#[tactic(auto, using(bc_preset::proofs::Bounds::preset_bounds))]
pub(crate) fn attestations_limit_of(preset: &Preset) -> u64
    requires { IsPreset preset.now }
    ensures { result ≡ attestations_limit preset.now }
{
    preset.max_attestations * preset.slots_per_epoch
}

/// The state of these groups.
fn plain_state(
    preset: &Preset,
    clock: Clock,
    history: History,
    eth1: Eth1,
    registry: Registry,
    pending: Pending,
    finality: Finality,
) -> PlainState
    ensures { result ≡ state_of preset.now clock history eth1 registry pending finality }
{
    let preset = *preset;
    let Clock {
        genesis_time,
        genesis_validators_root,
        slot,
        fork,
        latest_block_header,
    } = clock;
    let (block_roots, state_roots, historical_roots) = history.into_lists();
    let Eth1 {
        eth1_data,
        eth1_data_votes,
        eth1_deposit_index,
    } = eth1;
    let (validators, balances, randao_mixes, slashings) = registry.into_lists();
    let (previous_epoch_attestations, current_epoch_attestations) = pending.into_lists();
    let Finality {
        justification_bits,
        previous_justified_checkpoint,
        current_justified_checkpoint,
        finalized_checkpoint,
    } = finality;
    PlainState {
        preset,
        genesis_time,
        genesis_validators_root,
        slot,
        fork,
        latest_block_header,
        block_roots,
        state_roots,
        historical_roots,
        eth1_data,
        eth1_data_votes,
        eth1_deposit_index,
        validators,
        balances,
        randao_mixes,
        slashings,
        previous_epoch_attestations,
        current_epoch_attestations,
        justification_bits,
        previous_justified_checkpoint,
        current_justified_checkpoint,
        finalized_checkpoint,
    }
}

/// Reads the groups, each from its own parts.
#[tactic(auto, unfolding(crate::specs::inside::Groups::read_groups))]
pub(crate) fn read_groups(
    alloc: Global,
    preset: &Preset,
    clock: &[&[u8]],
    history: &[&[u8]],
    eth1: &[&[u8]],
    registry: &[&[u8]],
    pending: &[&[u8]],
    finality: &[&[u8]],
) -> Result<PlainState, SszFault>
    requires { IsPreset preset.now }
    ensures { ReadsAs result (of_groups preset.now (map (λ part. part.now) clock.now) (map (λ part. part.now) history.now) (map (λ part. part.now) eth1.now) (map (λ part. part.now) registry.now) (map (λ part. part.now) pending.now) (map (λ part. part.now) finality.now)) }
{
    let clock = read_clock(alloc, clock)?;
    let history = read_history(alloc, preset, history)?;
    let eth1 = read_eth1(alloc, preset, eth1)?;
    let registry = read_registry(alloc, preset, registry)?;
    let pending = read_pending(alloc, preset, pending)?;
    let finality = read_finality(alloc, finality)?;
    Ok(plain_state(preset, clock, history, eth1, registry, pending, finality))
}
