//! The pending attestations of an epoch that have a vote right, as lists (beacon-chain.md, "get_matching_target_attestations" and
//! "get_matching_head_attestations"). The table is made of the same attestations, one at a time.

ghost use Rattle.std.specs.Prelude.{◌≡◌, ◌+◌, ◌≤◌, ◌++◌, IfOk, OnOk};
ghost use Rattle.spec_state.specs.Accessors.{get_current_epoch};
ghost use Rattle.spec_epochs.specs.Helpers.{get_matching_target_attestations, get_matching_head_attestations};
ghost use Rattle.epoch_rewards.specs.inside.Votes.{matching, right_from};

use crate::matching::{Vote, counts_for};
use crate::pending::{pending_at, pending_len};
use balance_totals::block_root;
use bc_words::NoMemory;
use beacon_state::State;
use beacon_types::PendingAttestation;
use hash_tree::Root;
use std::alloc::Global;

/// Adds the epoch's attestation at a place, where it has the vote right.
#[tactic(auto, using(crate::proofs::Listed::listing))]
fn add_at(
    found: &mut Vec<PendingAttestation>,
    state: &State,
    epoch: u64,
    vote: Vote,
    root: &Root,
    i: u64,
) -> Result<(), NoMemory>
    ensures { OnOk result (found.new.items ++ right_from state.now vote root.now epoch (i + 1) ≡ found.old.items ++ right_from state.now vote root.now epoch i) }
{
    let Some(attestation) = pending_at(state, epoch, i) else {
        return Ok(());
    };
    if !counts_for(state, vote, root, attestation) {
        return Ok(());
    }
    found.push(attestation.copy()?)?;
    Ok(())
}

/// The epoch's attestations that have the vote right, in order.
#[tactic(auto, using(crate::proofs::Listed::right_end, crate::proofs::Rights::right_are))]
fn matching(
    alloc: Global,
    state: &State,
    vote: Vote,
    epoch: u64,
) -> Result<Vec<PendingAttestation>, NoMemory>
    requires { epoch ≤ get_current_epoch state.now }
    ensures { IfOk result (λ found. found.items ≡ matching state.now vote epoch) }
{
    let root = block_root(state, epoch);
    let mut found = Vec::new(alloc);
    for i in 0..pending_len(state, epoch) {
        add_at(&mut found, state, epoch, vote, &root, i)?;
    }
    Ok(found)
}

/// The pending attestations of an epoch whose target is the block at its first slot, in order (beacon-chain.md,
/// `get_matching_target_attestations`). The epoch is the state's previous or current one.
#[tactic(auto, unfolding(crate::specs::inside::Votes::matching))]
pub fn matching_target(
    alloc: Global,
    state: &State,
    epoch: u64,
) -> Result<Vec<PendingAttestation>, NoMemory>
    requires { epoch ≤ get_current_epoch state.now }
    ensures { IfOk result (λ found. found.items ≡ get_matching_target_attestations state.now epoch) }
{
    matching(alloc, state, Vote::Target, epoch)
}

/// Those of `matching_target` that vote for the block at their slot, in order (beacon-chain.md,
/// `get_matching_head_attestations`). The epoch is the state's previous or current one.
#[tactic(auto, unfolding(crate::specs::inside::Votes::matching))]
pub fn matching_head(
    alloc: Global,
    state: &State,
    epoch: u64,
) -> Result<Vec<PendingAttestation>, NoMemory>
    requires { epoch ≤ get_current_epoch state.now }
    ensures { IfOk result (λ found. found.items ≡ get_matching_head_attestations state.now epoch) }
{
    matching(alloc, state, Vote::Head, epoch)
}
