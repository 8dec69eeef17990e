//! Pending attestations: whether each of a list is sound.

ghost use Rattle.std.specs.Prelude.{◌≡◌, ◌≤◌, ◌<◌, ◌^◌, length, IfOk};
ghost use Rattle.std.specs.List.{list_all, slice_get};
ghost use Rattle.std.specs.Option.{option_map};
ghost use Rattle.spec_state.specs.inside.EpochCommittees.{epoch_committees};
ghost use Rattle.transition.specs.inside.Tests.{attestations_of, epoch_of, bits_test, pending_test, passes_at};

use balance_totals::committees_of_epoch;
use bc_words::NoMemory;
use beacon_state::State;
use beacon_types::{AggregationBits, PendingAttestation};
use committees::EpochCommittees;
use std::alloc::Global;

/// One of the two lists of pending attestations.
#[derive(Clone, Copy)]
pub(crate) enum Pending {
    /// That of the previous epoch.
    Previous,
    /// That of the current epoch.
    Current,
}

/// The epoch of the list.
#[tactic(auto, unfolding(spec_state::specs::Accessors::get_current_epoch, spec_state::specs::Accessors::get_previous_epoch))]
pub(crate) fn epoch_of(state: &State, pending: Pending) -> u64
    ensures exact { result ≡ epoch_of pending state.now }
    ensures low { result ≤ 2 ^ 61 }
{
    let preset = state.preset();
    preset.bounds();
    let current = state.slot() / preset.slots_per_epoch;
    match pending {
        Pending::Previous => current.saturating_sub(1),
        Pending::Current => current,
    }
}

/// How many attestations there are.
fn pending_len(state: &State, pending: Pending) -> u64
    ensures { result ≡ length (attestations_of pending state.now) }
{
    match pending {
        Pending::Previous => state.previous_epoch_attestations_len(),
        Pending::Current => state.current_epoch_attestations_len(),
    }
}

/// Whether there are as many bits as the committee of the slot with this index has members.
fn has_bit_for_each(
    committees: &EpochCommittees,
    slot: u64,
    index: u64,
    bits: &AggregationBits,
) -> bool
    ensures { result ≡ bits_test committees.now slot index bits.now }
{
    match committees.committee(slot, index) {
        Some(members) => members.len() as u64 == bits.len(),
        None => false,
    }
}

/// Whether an attestation of an epoch is sound, by the epoch's committees.
#[tactic(auto, unfolding(bc_preset::specs::Presets::IsPreset))]
fn is_sound_pending(
    state: &State,
    epoch: u64,
    committees: &EpochCommittees,
    attestation: &PendingAttestation,
) -> bool
    ensures { result ≡ pending_test committees.now state.now epoch attestation.now }
{
    let content = &attestation.content;
    let preset = state.preset();
    preset.bounds();
    content.slot / preset.slots_per_epoch == epoch
        && content.slot < state.slot()
        && content.target.epoch == epoch
        && content.index < committees.per_slot()
        && has_bit_for_each(
            committees,
            content.slot,
            content.index,
            &attestation.aggregation_bits,
        )
        && 1 <= attestation.inclusion_delay
        && attestation.proposer_index < state.validators_len()
}

/// The attestation at a place of the list. None exactly where the place is not below the length.
fn pending_at(state: &State, pending: Pending, i: u64) -> Option<&PendingAttestation>
    ensures { option_map (λ x. x.now) result ≡ slice_get (attestations_of pending state.now) i }
{
    match pending {
        Pending::Previous => state.previous_epoch_attestations_at(i),
        Pending::Current => state.current_epoch_attestations_at(i),
    }
}

/// Whether the attestation at a place of the list is sound.
fn is_sound_at(
    state: &State,
    pending: Pending,
    epoch: u64,
    committees: &EpochCommittees,
    i: u64,
) -> bool
    ensures { result ≡ passes_at (pending_test committees.now state.now epoch) (attestations_of pending state.now) i }
{
    match pending_at(state, pending, i) {
        Some(attestation) => is_sound_pending(state, epoch, committees, attestation),
        None => false,
    }
}

/// Whether each attestation of the list is sound, by the epoch's committees.
#[tactic(auto, using(crate::proofs::Loop::all_begin, crate::proofs::Loop::one_fails, crate::proofs::Loop::one_passes, crate::proofs::Loop::all_passed))]
fn all_sound(state: &State, pending: Pending, epoch: u64, committees: &EpochCommittees) -> bool
    ensures { result ≡ list_all (pending_test committees.now state.now epoch) (attestations_of pending state.now) }
{
    for i in 0..pending_len(state, pending) {
        if !is_sound_at(state, pending, epoch, committees, i) {
            return false;
        }
    }
    true
}

/// Whether each attestation of the list is sound.
pub(crate) fn attestations_are_sound(
    alloc: Global,
    state: &State,
    pending: Pending,
) -> Result<bool, NoMemory>
    ensures { let epoch = epoch_of pending state.now in
        IfOk result (λ sound. sound ≡ list_all (pending_test (epoch_committees state.now epoch) state.now epoch) (attestations_of pending state.now)) }
{
    let epoch = epoch_of(state, pending);
    match committees_of_epoch(alloc, state, epoch) {
        Ok(committees) => Ok(all_sound(state, pending, epoch, &committees)),
        Err(NoMemory) => Err(NoMemory),
    }
}
