//! Whether somebody attested, by how many validators are active in the vote's epoch.
//!
//! Counts come from block processing, once for all attestations of a block. Who the members of a committee are isn't asked: a
//! vote has as many bits as there are members, and somebody attested where one of them is set.

ghost use Rattle.std.specs.Prelude.{◌≡◌, ◌+◌, ◌*◌, ◌<◌, ◌≤◌, ◌^◌, length};
ghost use Rattle.std.specs.List.{list_any};
ghost use Rattle.bc_words.specs.Outcome.{GivesExactly};
ghost use Rattle.bc_preset.specs.Presets.{IsPreset};
ghost use Rattle.committees.specs.Committees.{committee_count_per_slot, committee_start};
ghost use Rattle.spec_state.specs.Accessors.{get_current_epoch, get_previous_epoch, get_active_validator_indices, get_beacon_committee, get_committee_count_per_slot};
ghost use Rattle.spec_state.specs.Misc.{compute_epoch_at_slot};
ghost use Rattle.spec_blocks.specs.ProcessAttestation.{check_committee};
ghost use Rattle.block_operations.specs.inside.Attested.{is_attested, Attests, IsTimely};
ghost use Rattle.block_operations.specs.inside.Counted.{committee_len, attested_among};

use balance_totals::{active_are_indices, current_epoch};
use bc_preset::Preset;
use bc_words::{Refusal, Stop};
use beacon_state::State;
use beacon_types::{AggregationBits, Attestation, AttestationData};
use committees::committee_count_per_slot;
use ssz_codec::BitList;

/// Where the committee with an index, of `count`, begins among the active validators.
#[tactic(auto, unfolding(committees::specs::Committees::committee_start))]
fn committee_start(active: u64, count: u64, index: u64) -> u64
    requires fits { active ≤ 2 ^ 40 }
    requires some { 0 < count }
    requires low { index ≤ 2 ^ 12 }
    ensures { result ≡ committee_start active count index }
{
    active * index / count
}

/// How many members the committee of a slot with an index has.
#[tactic(auto, unfolding(crate::specs::inside::Counted::committee_len))]
fn committee_len(preset: &Preset, active: u64, slot: u64, index: u64) -> u64
    requires preset { IsPreset preset.now }
    requires fits { active ≤ 2 ^ 40 }
    requires index { index < committee_count_per_slot preset.now active }
    ensures { result ≡ committee_len preset.now active slot index }
{
    preset.bounds();
    let per_slot = committee_count_per_slot(preset, active);
    let count = per_slot * preset.slots_per_epoch;
    let first = slot % preset.slots_per_epoch * per_slot + index;
    let begin = committee_start(active, count, first);
    committee_start(active, count, first + 1).saturating_sub(begin)
}

/// How many members the committee of a slot with an index has, where so many validators are active in the slot's epoch. Who they
/// are isn't asked.
#[tactic(auto, using(crate::proofs::AmongActive::size_is), unfolding(spec_state::specs::Accessors::get_committee_count_per_slot, spec_state::specs::Misc::compute_epoch_at_slot))]
pub fn committee_size(state: &State, active: u64, slot: u64, index: u64) -> u64
    requires active { active ≡ length (get_active_validator_indices state.now (compute_epoch_at_slot state.now.preset slot)) }
    requires index { index < get_committee_count_per_slot state.now (compute_epoch_at_slot state.now.preset slot) }
    ensures { result ≡ length (get_beacon_committee state.now slot index) }
{
    let preset = state.preset();
    preset.bounds();
    active_are_indices(state, slot / preset.slots_per_epoch);
    committee_len(preset, active, slot, index)
}

/// Whether one of the bits is set.
#[tactic(auto, using(crate::proofs::AmongActive::any_begin, crate::proofs::AmongActive::any_here, crate::proofs::AmongActive::any_next, crate::proofs::AmongActive::any_end))]
fn has_one(bits: &BitList) -> bool
    ensures { result ≡ list_any (λ bit. bit) bits.now }
{
    for i in 0..bits.len() {
        if bits.get(i).unwrap_or(false) {
            return true;
        }
    }
    false
}

/// Whether somebody attested in the committee of the slot with an index, where so many validators are active. Refused where
/// there is no such committee, or not as many bits as members.
fn attested_among(
    preset: &Preset,
    active: u64,
    slot: u64,
    index: u64,
    bits: &AggregationBits,
) -> Result<bool, Stop>
    requires preset { IsPreset preset.now }
    requires fits { active ≤ 2 ^ 40 }
    ensures { GivesExactly result (attested_among preset.now active slot index bits.now) }
{
    if index >= committee_count_per_slot(preset, active) {
        return Err(Stop::Refused(Refusal::AtIndex));
    }
    if bits.len() != committee_len(preset, active, slot, index) {
        return Err(Stop::Refused(Refusal::AtBits));
    }
    Ok(has_one(bits.as_bits()))
}

/// How many validators are active in the epoch of the vote's target.
fn active_in(state: &State, content: &AttestationData, previous: u64, current: u64) -> u64
    requires previous { previous ≡ length (get_active_validator_indices state.now (get_previous_epoch state.now)) }
    requires current { current ≡ length (get_active_validator_indices state.now (get_current_epoch state.now)) }
    requires timely { IsTimely state.now content.now }
    ensures { result ≡ length (get_active_validator_indices state.now content.now.target.epoch) }
{
    if content.target.epoch == current_epoch(state) {
        current
    } else {
        previous
    }
}

/// Whether somebody attested, by how many validators are active in the state's previous and current epoch. Refused where there
/// is no such committee, or not as many bits as members.
#[tactic(auto, using(crate::proofs::AmongActive::attests))]
pub(crate) fn counted_in(
    state: &State,
    attestation: &Attestation,
    previous: u64,
    current: u64,
) -> Result<bool, Stop>
    requires previous { previous ≡ length (get_active_validator_indices state.now (get_previous_epoch state.now)) }
    requires current { current ≡ length (get_active_validator_indices state.now (get_current_epoch state.now)) }
    requires timely { IsTimely state.now attestation.now.content }
    ensures { Attests result (check_committee state.now attestation.now.content attestation.now.aggregation_bits) (is_attested state.now attestation.now) }
{
    let content = &attestation.content;
    let bits = &attestation.aggregation_bits;
    let active = active_in(state, content, previous, current);
    active_are_indices(state, content.target.epoch);
    attested_among(state.preset(), active, content.slot, content.index, bits)
}
