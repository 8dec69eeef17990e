//! Sixty-four validators, as a small network begins with, the last of which leaves at epoch 5.

use crate::genesis::{genesis, place};
use balance_totals::{
    active, committees_of_epoch, count_active, keep_active, keep_committees, note_total,
    shared_committees, total_active, total_of,
};
use bc_preset::Preset;
use bc_words::NoMemory;
use beacon_state::State;
use beacon_types::Validator;
use std::alloc::{AllocError, Global};
use std::test::Fail;

/// The genesis of 64 validators, the last of which leaves at epoch 5.
fn network(alloc: Global) -> Result<Vec<u8>, AllocError> {
    let mut bytes = genesis(alloc)?;
    place(&mut bytes, 7057 + 121 * 63 + 105, &5u64.to_le_bytes());
    Ok(bytes)
}

/// Whether the active validators weigh so much.
fn active_weigh(state: &State) -> bool {
    matches!(total_active(state, 0), Ok(2_048_000_000_000))
        & matches!(total_active(state, 5), Ok(2_016_000_000_000))
        & matches!(total_of(state, &[]), Ok(1_000_000_000))
        & matches!(total_of(state, &[3, 63]), Ok(64_000_000_000))
}

/// Whether so many validators are active, up to the last one.
fn active_are(alloc: Global, state: &State, epoch: u64, count: usize, last: u64) -> bool {
    match active(alloc, state, epoch) {
        Ok(indices) => indices.len() == count && indices.last().copied() == Some(last),
        Err(_stop) => false,
    }
}

/// Whether there are two committees a slot, of four members.
fn committees_are(alloc: Global, state: &State) -> bool {
    match committees_of_epoch(alloc, state, 0) {
        Ok(committees) => {
            committees.per_slot() == 2
                && matches!(committees.committee(15, 1), Some(members) if members.len() == 4)
        }
        Err(_stop) => false,
    }
}

/// Has a state keep who is active at epochs 4 and 5, the committees of epoch 4, and what is active at epoch 5.
fn keep(alloc: Global, state: &mut State) -> Result<(), NoMemory> {
    keep_committees(alloc, state, 4)?;
    keep_active(alloc, state, 5)?;
    note_total(state, 5);
    Ok(())
}

/// Whether a state keeps so many active validators of an epoch.
fn keeps(state: &State, epoch: u64, count: usize) -> bool {
    match state.active_list(epoch) {
        Some(indices) => indices.len() == count,
        None => false,
    }
}

/// Whether a share of a state keeps what it does.
fn share_keeps(state: &State) -> bool {
    match state.share() {
        Ok(other) => keeps(&other, 4, 64) & keeps(&other, 5, 63),
        Err(_stop) => false,
    }
}

/// Whether the shared committees are so many a slot.
fn shared_are(alloc: Global, state: &State, epoch: u32, per_slot: u64) -> bool {
    match shared_committees(alloc, state, u64::from(epoch)) {
        Ok(committees) => committees.per_slot() == per_slot,
        Err(_stop) => false,
    }
}

/// Has the first validator leave at epoch 5.
fn leave(state: &mut State) -> bool {
    let Some(validator) = state.validators_at(0) else {
        return false;
    };
    let leaving = Validator {
        exit_epoch: 5,
        ..validator.validator()
    };
    0 < state.validators_len() && state.set_validators_at(0, leaving).is_ok()
}

/// Whether a state keeps what it was given.
fn given_is_kept(alloc: Global, state: &mut State) -> bool {
    keep(alloc, state).is_ok()
        & keeps(state, 4, 64)
        & keeps(state, 5, 63)
        & share_keeps(state)
        & (state.active_balance(5) == Some(2_016_000_000_000))
        & shared_are(alloc, state, 4, 2)
        & shared_are(alloc, state, 5, 1)
}

/// Whether a state in which the first validator leaves at epoch 5 keeps who is active at epoch 4 alone, and answers of epoch 5 what
/// is so then.
fn untrue_is_given_up(alloc: Global, state: &mut State) -> bool {
    leave(state)
        & keeps(state, 4, 64)
        & shared_are(alloc, state, 4, 2)
        & state.active_list(5).is_none()
        & (count_active(state, 4) == 64)
        & (count_active(state, 5) == 62)
        & matches!(total_active(state, 5), Ok(1_984_000_000_000))
        & active_are(alloc, state, 4, 64, 63)
        & active_are(alloc, state, 5, 62, 62)
}

/// Whether the state that is read of these bytes keeps who is active until a validator isn't any longer.
fn kept_until_untrue(alloc: Global, bytes: &[u8]) -> bool {
    match State::read(alloc, &Preset::minimal(), bytes) {
        Ok(mut state) => {
            given_is_kept(alloc, &mut state) && untrue_is_given_up(alloc, &mut state)
        }
        Err(_fault) => false,
    }
}

/// Whether the state that is read of these bytes has these totals, active validators and committees.
fn network_holds(alloc: Global, bytes: &[u8]) -> bool {
    match State::read(alloc, &Preset::minimal(), bytes) {
        Ok(state) => {
            active_weigh(&state)
                & active_are(alloc, &state, 4, 64, 63)
                & active_are(alloc, &state, 5, 63, 62)
                & committees_are(alloc, &state)
        }
        Err(_fault) => false,
    }
}

#[test]
fn totals_of_a_small_network(rt: HostRuntime) -> Result<(), Fail> {
    let bytes = network(rt.alloc())?;
    let holds = network_holds(rt.alloc(), &bytes);
    assert!(rt; holds);
    Ok(())
}

#[test]
fn active_validators_are_kept_until_one_changes(rt: HostRuntime) -> Result<(), Fail> {
    let bytes = network(rt.alloc())?;
    let holds = kept_until_untrue(rt.alloc(), &bytes);
    assert!(rt; holds);
    Ok(())
}
