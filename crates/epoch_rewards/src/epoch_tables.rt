//! The tables of the two latest epochs of a state, by the committees that it keeps: how each validator attested in the previous epoch,
//! which rewards ask for, and whether it has the target right in the current one, which is all that justification asks of that.
//!
//! Committees are asked for only where an epoch has an attestation: of empty slots alone none would be looked up, and to shuffle
//! them takes longer than all else.

ghost use Rattle.std.specs.Prelude.{◌≡◌, length, ◌==◌, IfOk};
ghost use Rattle.spec_state.specs.Accessors.{get_current_epoch, get_previous_epoch};
ghost use Rattle.spec_state.specs.Soundness.{IsSoundWithinEpoch};
ghost use Rattle.spec_epochs.specs.Helpers.{get_matching_source_attestations};
ghost use Rattle.epoch_rewards.specs.declared.matching.Vote.TheVariants as votes;
ghost use Rattle.epoch_rewards.specs.inside.Statuses.{statuses_of, flags_of};

use crate::notes::{current_flags, previous_statuses};
use crate::pending::pending_len;
use crate::table::{Status, absent};
use balance_totals::{current_epoch, kept_committees, previous_epoch};
use bc_words::NoMemory;
use beacon_state::State;
use std::alloc::Global;

/// Whether an epoch has no attestation, the current or the previous one.
fn is_unattested(state: &State, epoch: u64) -> bool
    ensures { result ≡ (length (get_matching_source_attestations state.now epoch) == 0) }
{
    pending_len(state, epoch) == 0
}

/// How each validator attested in an epoch without an attestation, in order of index: not at all.
#[tactic(auto, using(crate::proofs::Statuses::nobody_attested))]
fn absent_statuses(alloc: Global, state: &State, epoch: u64) -> Result<Vec<Status>, NoMemory>
    requires { length (get_matching_source_attestations state.now epoch) ≡ 0 }
    ensures { IfOk result (λ statuses. statuses.items ≡ statuses_of state.now epoch) }
{
    Ok(vec![in alloc; absent(); state.validators_len() as usize]?)
}

/// Whether each validator has the target right in an epoch without an attestation, in order of index: none has.
#[tactic(auto, using(crate::proofs::Targets::no_targets))]
fn no_targets(alloc: Global, state: &State, epoch: u64) -> Result<Vec<bool>, NoMemory>
    requires { length (get_matching_source_attestations state.now epoch) ≡ 0 }
    ensures { IfOk result (λ flags. flags.items ≡ flags_of votes.Target (statuses_of state.now epoch)) }
{
    Ok(vec![in alloc; false; state.validators_len() as usize]?)
}

/// How each validator attested in the previous epoch, in order of index. The state keeps the committees of that epoch where it has an
/// attestation.
pub fn previous_table(alloc: Global, state: &mut State) -> Result<Vec<Status>, NoMemory>
    requires { IsSoundWithinEpoch state.old }
    ensures same { state.new ≡ state.old }
    ensures statuses { IfOk result (λ statuses. statuses.items ≡ statuses_of state.old (get_previous_epoch state.old)) }
{
    let epoch = previous_epoch(state);
    if is_unattested(state, epoch) {
        return absent_statuses(alloc, state, epoch);
    }
    let committees = kept_committees(alloc, state, epoch)?;
    previous_statuses(alloc, state, &committees)
}

/// Whether each validator has the target right in the current epoch, in order of index. The state keeps the committees of that epoch
/// where it has an attestation.
pub fn current_targets(alloc: Global, state: &mut State) -> Result<Vec<bool>, NoMemory>
    requires { IsSoundWithinEpoch state.old }
    ensures same { state.new ≡ state.old }
    ensures flags { IfOk result (λ flags. flags.items ≡ flags_of votes.Target (statuses_of state.old (get_current_epoch state.old))) }
{
    let epoch = current_epoch(state);
    if is_unattested(state, epoch) {
        return no_targets(alloc, state, epoch);
    }
    let committees = kept_committees(alloc, state, epoch)?;
    current_flags(alloc, state, &committees)
}
