//! One pass over an epoch's pending attestations and their bits, which notes of each attester what its attestation shows.
//!
//! Two tables are made by it: that of the previous epoch keeps all that is shown, and that of the current one the target alone.

ghost use Rattle.std.specs.Prelude.{◌≡◌, ◌+◌, slice_index_or, slice_set, IfOk};
ghost use Rattle.std.specs.List.{AllByRecursion};
ghost use Rattle.spec_state.specs.Accessors.{get_current_epoch, get_previous_epoch, members_with_bits};
ghost use Rattle.spec_state.specs.inside.EpochCommittees.{epoch_committees};
ghost use Rattle.spec_state.specs.Soundness.{IsSoundPending, IsSoundWithinEpoch};
ghost use Rattle.spec_epochs.specs.Helpers.{get_matching_source_attestations};
ghost use Rattle.epoch_rewards.specs.declared.matching.Vote.TheVariants as votes;
ghost use Rattle.epoch_rewards.specs.inside.Inclusions.{attesters_of};
ghost use Rattle.epoch_rewards.specs.inside.Statuses.{shown_by, statuses_of, flags_of};
ghost use Rattle.epoch_rewards.specs.inside.Notes.{noted_each, all_noted, noted_from};

use crate::inclusions::Inclusion;
use crate::matching::{Vote, counts_for};
use crate::pending::{pending_at, pending_len};
use crate::place::Place;
use crate::table::{Shown, Status, absent};
use balance_totals::{block_root, current_epoch, previous_epoch};
use bc_words::NoMemory;
use beacon_state::State;
use beacon_types::{AggregationBits, PendingAttestation};
use committees::EpochCommittees;
use hash_tree::Root;
use std::alloc::Global;

/// What an attestation shows of its attesters, where the root is that of the epoch's first block.
#[tactic(auto, unfolding(crate::specs::inside::Statuses::shown_by, crate::specs::inside::Inclusions::entry_of))]
fn shown_by(state: &State, root: &Root, attestation: &PendingAttestation) -> Shown
    ensures { result ≡ shown_by state.now root.now attestation.now }
{
    Shown {
        target: counts_for(state, Vote::Target, root, attestation),
        head: counts_for(state, Vote::Head, root, attestation),
        inclusion: Inclusion {
            delay: attestation.inclusion_delay,
            proposer: attestation.proposer_index,
        },
    }
}

/// Notes of a validator what an attestation shows, where it has a place.
fn note_one<P: Place>(places: &mut Vec<P>, index: u64, shown: Shown)
    ensures { places.new.items ≡ slice_set places.old.items index (P.noting (slice_index_or places.old.items index P.blank) shown) }
{
    if (index as usize) < places.len() {
        places[index as usize] = places[index as usize].noted(shown);
    }
}

/// Notes it of the members whose bit is set.
#[tactic(auto, using(crate::proofs::Noted::members_noted))]
fn note_members<P: Place>(
    places: &mut Vec<P>,
    members: &[u64],
    bits: &AggregationBits,
    shown: Shown,
)
    ensures { places.new.items ≡ noted_each P.blank P.noting places.old.items (members_with_bits members.now bits.now) shown }
{
    for position in 0..members.len() {
        match bits.get(position as u64) {
            Some(true) => note_one(places, members[position], shown),
            Some(false) => {}
            None => return,
        }
    }
}

/// Notes what an attestation shows of those who attest in it, where the root is that of the epoch's first block.
#[tactic(auto, unfolding(spec_state::specs::Accessors::get_attesting_indices), using(spec_state::proofs::BeaconCommittees::committee_is_published))]
fn note_attesters<P: Place>(
    places: &mut Vec<P>,
    state: &State,
    committees: &EpochCommittees,
    epoch: u64,
    root: &Root,
    attestation: &PendingAttestation,
)
    requires committees { committees.now ≡ epoch_committees state.now epoch }
    requires sound { IsSoundPending state.now epoch attestation.now }
    ensures { places.new.items ≡ noted_each P.blank P.noting places.old.items (attesters_of state.now attestation.now) (shown_by state.now root.now attestation.now) }
{
    let _preset = state.preset();
    let content = &attestation.content;
    let shown = shown_by(state, root, attestation);
    match committees.committee(content.slot, content.index) {
        Some(members) => note_members(places, members, &attestation.aggregation_bits, shown),
        None => {}
    }
}

/// Notes what the epoch's attestation at a place of their list shows.
#[tactic(auto, using(crate::proofs::Places::holds_at, crate::proofs::Noted::one_noted, crate::proofs::Noted::none_noted))]
fn note_at<P: Place>(
    places: &mut Vec<P>,
    state: &State,
    committees: &EpochCommittees,
    epoch: u64,
    root: &Root,
    i: u64,
)
    requires committees { committees.now ≡ epoch_committees state.now epoch }
    requires sound { AllByRecursion (IsSoundPending state.now epoch) (get_matching_source_attestations state.now epoch) }
    ensures { noted_from P.blank P.noting state.now root.now places.new.items epoch (i + 1) ≡ noted_from P.blank P.noting state.now root.now places.old.items epoch i }
{
    match pending_at(state, epoch, i) {
        Some(attestation) => note_attesters(places, state, committees, epoch, root, attestation),
        None => {}
    }
}

/// Notes what the epoch's attestations show, in order.
#[tactic(auto, using(crate::proofs::Noted::notes_begin, crate::proofs::Noted::notes_end))]
fn note_all<P: Place>(
    places: &mut Vec<P>,
    state: &State,
    committees: &EpochCommittees,
    epoch: u64,
    root: &Root,
)
    requires committees { committees.now ≡ epoch_committees state.now epoch }
    requires sound { AllByRecursion (IsSoundPending state.now epoch) (get_matching_source_attestations state.now epoch) }
    ensures { places.new.items ≡ all_noted P.blank P.noting state.now root.now places.old.items (get_matching_source_attestations state.now epoch) }
{
    for i in 0..pending_len(state, epoch) {
        note_at(places, state, committees, epoch, root, i);
    }
}

/// How each validator attested in the previous epoch, in order of index. The committees are those of that epoch.
#[tactic(auto, using(crate::proofs::Sound::previous_is_earlier, crate::proofs::Statuses::statuses_are))]
pub fn previous_statuses(
    alloc: Global,
    state: &State,
    previous: &EpochCommittees,
) -> Result<Vec<Status>, NoMemory>
    requires sound { IsSoundWithinEpoch state.now }
    requires committees { previous.now ≡ epoch_committees state.now (get_previous_epoch state.now) }
    ensures { IfOk result (λ statuses. statuses.items ≡ statuses_of state.now (get_previous_epoch state.now)) }
{
    let epoch = previous_epoch(state);
    let root = block_root(state, epoch);
    let mut statuses = vec![in alloc; absent(); state.validators_len() as usize]?;
    note_all(&mut statuses, state, previous, epoch, &root);
    Ok(statuses)
}

/// Whether each validator has the target right in the current epoch, in order of index. The committees are those of that epoch.
#[tactic(auto, using(crate::proofs::Targets::targets_are))]
pub fn current_flags(
    alloc: Global,
    state: &State,
    current: &EpochCommittees,
) -> Result<Vec<bool>, NoMemory>
    requires sound { IsSoundWithinEpoch state.now }
    requires committees { current.now ≡ epoch_committees state.now (get_current_epoch state.now) }
    ensures { IfOk result (λ flags. flags.items ≡ flags_of votes.Target (statuses_of state.now (get_current_epoch state.now))) }
{
    let epoch = current_epoch(state);
    let root = block_root(state, epoch);
    let mut flags = vec![in alloc; false; state.validators_len() as usize]?;
    note_all(&mut flags, state, current, epoch, &root);
    Ok(flags)
}
