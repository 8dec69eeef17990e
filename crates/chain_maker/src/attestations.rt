//! The attestations of a slot, as all of its committees cast them.

ghost use Rattle.std.specs.Prelude.{◌≡◌, ◌<◌, ◌≤◌, ◌+◌, true, length, map, replicate, IfOk};
ghost use Rattle.std.specs.List.{range_with_len};
ghost use Rattle.beacon_types.specs.Limits.{max_validators_per_committee};
ghost use Rattle.spec_state.specs.Accessors.{get_active_validator_indices, get_beacon_committee, get_committee_count_per_slot, get_current_epoch};
ghost use Rattle.spec_state.specs.Misc.{compute_epoch_at_slot};
ghost use Rattle.spec_drill.specs.MakeVotes.{source_for, vote_of, votes_of};
ghost use Rattle.spec_drill.specs.inside.Calm.{IsCalm};

use balance_totals::{block_root, count_active, current_epoch};
use bc_words::NoMemory;
use beacon_state::State;
use beacon_types::{AggregationBits, Attestation, AttestationData, Attestations, Checkpoint};
use block_operations::committee_size;
use committees::committee_count_per_slot;
use hash_tree::Root;
use ssz_codec::{BitList, Items, VariableList};
use std::alloc::Global;

/// So many bits, all set.
fn all_set(alloc: Global, count: u64) -> Result<AggregationBits, NoMemory>
    requires { count ≤ max_validators_per_committee }
    ensures { IfOk result (λ bits. bits ≡ replicate count true) }
{
    let mut bits = BitList::new(alloc);
    for index in 0..count {
        bits.push(true)?;
    }
    Ok(AggregationBits::new(bits))
}

/// The source that the state's block wants of an attestation of an epoch.
#[tactic(auto, unfolding(spec_drill::specs::MakeVotes::source_for))]
fn source_for(state: &State, epoch: u64) -> Checkpoint
    ensures { result ≡ source_for state.now epoch }
{
    if epoch == current_epoch(state) {
        state.current_justified_checkpoint()
    } else {
        state.previous_justified_checkpoint()
    }
}

/// The vote of a committee of the slot before the state's, for the block with this root.
#[tactic(auto, unfolding(spec_drill::specs::MakeVotes::vote_of))]
fn content_of(state: &State, root: &Root, slot: u64, index: u64) -> AttestationData
    requires calm { IsCalm 0 state.now }
    requires next { state.now.slot ≡ slot + 1 }
    ensures { result ≡ (vote_of state.now root.now slot index).content }
{
    let preset = state.preset();
    preset.bounds();
    let epoch = slot / preset.slots_per_epoch;
    AttestationData {
        slot,
        index,
        beacon_block_root: *root,
        source: source_for(state, epoch),
        target: Checkpoint {
            epoch,
            root: block_root(state, epoch),
        },
    }
}

/// How many members a committee of the slot before the state's has, where so many validators are active in the slot's epoch.
#[tactic(auto, using(crate::proofs::Committees::few_of))]
fn size_of(state: &State, active: u64, slot: u64, index: u64) -> u64
    requires calm { IsCalm 0 state.now }
    requires next { state.now.slot ≡ slot + 1 }
    requires active { active ≡ length (get_active_validator_indices state.now (compute_epoch_at_slot state.now.preset slot)) }
    requires index { index < get_committee_count_per_slot state.now (compute_epoch_at_slot state.now.preset slot) }
    ensures exact { result ≡ length (get_beacon_committee state.now slot index) }
    ensures few { result ≤ 4 }
{
    committee_size(state, active, slot, index)
}

/// The attestation of a whole committee of the slot before the state's.
#[tactic(auto, unfolding(spec_drill::specs::MakeVotes::vote_of))]
fn vote_of(
    alloc: Global,
    state: &State,
    active: u64,
    root: &Root,
    slot: u64,
    index: u64,
) -> Result<Attestation, NoMemory>
    requires calm { IsCalm 0 state.now }
    requires next { state.now.slot ≡ slot + 1 }
    requires active { active ≡ length (get_active_validator_indices state.now (compute_epoch_at_slot state.now.preset slot)) }
    requires index { index < get_committee_count_per_slot state.now (compute_epoch_at_slot state.now.preset slot) }
    ensures { IfOk result (λ vote. vote ≡ vote_of state.now root.now slot index) }
{
    let size = size_of(state, active, slot, index);
    let aggregation_bits = all_set(alloc, size)?;
    Ok(Attestation {
        aggregation_bits,
        content: content_of(state, root, slot, index),
        signature: [0; 96],
    })
}

/// The attestations of the slot before the state's, committee by committee, for the block with this root. The state is one of
/// a made chain.
#[tactic(auto, unfolding(spec_drill::specs::MakeVotes::votes_of, spec_state::specs::Accessors::get_committee_count_per_slot, spec_state::specs::Misc::compute_epoch_at_slot))]
pub fn votes_of(
    alloc: Global,
    state: &State,
    root: &Root,
    slot: u64,
) -> Result<Attestations, NoMemory>
    requires calm { IsCalm 0 state.now }
    requires next { state.now.slot ≡ slot + 1 }
    ensures { IfOk result (λ votes. votes ≡ votes_of state.now root.now slot) }
{
    let preset = state.preset();
    preset.bounds();
    // whose votes they are isn't asked, so nothing is shuffled
    let active = count_active(state, slot / preset.slots_per_epoch);
    let per_slot = committee_count_per_slot(preset, active);
    let mut votes = Items::new(alloc);
    for index in 0..per_slot {
        let vote = vote_of(alloc, state, active, root, slot, index)?;
        votes.push(vote)?;
    }
    Ok(VariableList::from_items(votes))
}
