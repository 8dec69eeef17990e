//! Attestations, with the committees of the state's epochs.

use crate::calls::given::Given;
use crate::gathered;
use anyhow::{Result, bail};
use balance_totals::{committees_of_epoch, previous_epoch};
use bc_words::Stop;
use beacon_state::State;
use beacon_types::{Attestation, PendingAttestation};
use block_operations::attesting_indices;
use committees::EpochCommittees;
use epoch_rewards::{matching_head, matching_target};
use ssz_codec::Ssz;
use std::alloc::Global;

/// Reads an attestation, and processes it, where the number is the block's proposer.
pub fn process_attestation(
    alloc: Global,
    state: &mut State,
    given: &Given,
) -> Result<Result<(), Stop>> {
    let proposer = given.number()?;
    let attestation = Attestation::read(alloc, given.input()?)?;
    Ok(gathered::process_attestation(alloc, state, &attestation, proposer))
}

/// How many members cast an attestation.
fn members_of(
    alloc: Global,
    committees: &EpochCommittees,
    attestation: &PendingAttestation,
) -> Result<usize> {
    let content = &attestation.content;
    match committees.committee(content.slot, content.index) {
        Some(committee) => {
            let bits = attestation.aggregation_bits.as_bits();
            Ok(attesting_indices(alloc, committee, bits)?.len())
        }
        None => bail!("no such committee"),
    }
}

/// How many members cast these attestations.
fn members_of_all(
    alloc: Global,
    committees: &EpochCommittees,
    attestations: &[PendingAttestation],
) -> Result<usize> {
    let mut members = 0usize;
    for attestation in attestations {
        members = members.saturating_add(members_of(alloc, committees, attestation)?);
    }
    Ok(members)
}

/// How many these attestations of the previous epoch are, and how many members cast them.
fn heads_of(
    alloc: Global,
    state: &State,
    attestations: &[PendingAttestation],
) -> Result<(usize, usize)> {
    let committees = committees_of_epoch(alloc, state, previous_epoch(state))?;
    let members = members_of_all(alloc, &committees, attestations)?;
    Ok((attestations.len(), members))
}

/// How many attestations of the previous epoch have the right target, how many the right head too, and how many members
/// cast the latter.
#[tactic(auto, unfolding(spec_state::specs::Accessors::get_previous_epoch))]
pub fn matching_line(alloc: Global, state: &State) -> Result<String> {
    let epoch = previous_epoch(state);
    let targets = matching_target(alloc, state, epoch)?.len();
    let attestations = matching_head(alloc, state, epoch)?;
    let (heads, members) = heads_of(alloc, state, attestations.as_slice())?;
    Ok(format!(in alloc; "{targets} targets, {heads} heads by {members} members")?)
}
