//! Each call that changes a state succeeds with ample memory, and changes what its name says.

use crate::genesis::genesis;
use bc_preset::Preset;
use bc_words::PushStop;
use beacon_state::{Entry, State};
use beacon_types::{Checkpoint, Eth1Data, Validator};
use hash_tree::{Leaf, Root};
use std::alloc::Global;
use std::test::Fail;
use transition::is_sound;

const VOTE: Eth1Data = Eth1Data {
    deposit_root: [1; 32],
    deposit_count: 2,
    block_hash: [3; 32],
};

const VALIDATOR: Validator = Validator {
    pubkey: [9; 48],
    withdrawal_credentials: [0; 32],
    effective_balance: 1,
    slashed: true,
    activation_eligibility_epoch: 2,
    activation_epoch: 3,
    exit_epoch: 4,
    withdrawable_epoch: 5,
};

/// Sets fields that are no lists.
fn set_fields(state: &mut State) {
    let header = state.latest_block_header();
    state.set_genesis_time(1);
    state.set_genesis_validators_root([4; 32]);
    state.set_slot(9);
    state.set_latest_block_header(header);
    state.set_eth1_data(VOTE);
    state.set_eth1_deposit_index(5);
    state.set_justification_bits([true, false, true, false]);
}

/// Whether the fields that are no lists are those that were set.
fn fields_change(state: &mut State) -> bool {
    let fork = state.fork();
    set_fields(state);
    state.set_fork(fork);
    (state.fork() == fork)
        & (state.genesis_time() == 1)
        & (state.slot() == 9)
        & (state.eth1_deposit_index() == 5)
        & (state.genesis_validators_root() == [4; 32])
        & (state.eth1_data() == VOTE)
        & (state.justification_bits() == [true, false, true, false])
}

/// Sets a validator and a balance of the 64, and appends one more of each.
fn set_registry(state: &mut State) -> bool {
    let sizes = state.validators_len() == 64 && state.balances_len() == 64;
    let validator = 0 < state.validators_len() && state.set_validators_at(0, VALIDATOR).is_ok();
    let balance = 63 < state.balances_len() && state.set_balances_at(63, 7).is_ok();
    let pushed = state.push_validators(VALIDATOR).is_ok() & state.push_balances(8).is_ok();
    sizes & validator & balance & pushed
}

/// Whether there is the validator that was set.
fn is_validator(entry: Option<Entry<'_>>) -> bool {
    match entry {
        Some(entry) => entry.validator() == VALIDATOR,
        None => false,
    }
}

/// Whether validators and balances are those that were set and appended.
fn registry_changes(state: &mut State) -> bool {
    set_registry(state)
        & is_validator(state.validators_at(0))
        & is_validator(state.validators_at(64))
        & (state.balances_at(63) == Some(7))
        & (state.balances_at(64) == Some(8))
}

/// Whether roots of blocks and states are those that were set.
fn kept_roots_change(state: &mut State) -> bool {
    let sizes = state.block_roots_len() == 64 && state.state_roots_len() == 64;
    let block = 63 < state.block_roots_len() && state.set_block_roots_at(63, [5; 32]).is_ok();
    let kept = 0 < state.state_roots_len() && state.set_state_roots_at(0, [6; 32]).is_ok();
    sizes
        & block
        & kept
        & (state.block_roots_at(63) == Some(&[5; 32]))
        & (state.state_roots_at(0) == Some(&[6; 32]))
}

/// Whether mixes and slashed balances are those that were set.
fn mixes_change(state: &mut State) -> bool {
    let sizes = state.randao_mixes_len() == 64 && state.slashings_len() == 64;
    let mix = 1 < state.randao_mixes_len() && state.set_randao_mixes_at(1, [7; 32]).is_ok();
    let slashed = 2 < state.slashings_len() && state.set_slashings_at(2, 9).is_ok();
    sizes
        & mix
        & slashed
        & (state.randao_mixes_at(1) == Some(&[7; 32]))
        & (state.slashings_at(2) == Some(9))
}

/// Whether votes fill up to their limit, which is 32 in this preset.
fn votes_fill(state: &mut State) -> bool {
    let mut pushed = true;
    for _ in 0..32 {
        pushed &= state.push_eth1_data_votes(VOTE, VOTE.root()).is_ok();
    }
    let full = matches!(
        state.push_eth1_data_votes(VOTE, VOTE.root()),
        Err(PushStop::Full)
    );
    pushed
        & full
        & (state.eth1_data_votes_len() == 32)
        & (state.eth1_data_votes_at(31) == Some(&VOTE))
}

/// Whether lists are emptied, moved and grow as at an epoch's end.
fn lists_change(state: &mut State) -> bool {
    let cleared = state.clear_eth1_data_votes().is_ok();
    let pushed = state.push_historical_roots([8; 32]).is_ok();
    let rotated = state.rotate_attestations().is_ok();
    cleared
        & pushed
        & rotated
        & (state.eth1_data_votes_len() == 0)
        & (state.historical_roots_at(0) == Some(&[8; 32]))
        & (state.current_epoch_attestations_len() == 0)
}

/// Whether a genesis is sound until a checkpoint is ahead of it.
fn soundness_goes(alloc: Global, state: &mut State) -> bool {
    let before = is_sound(alloc, state);
    state.set_previous_justified_checkpoint(Checkpoint {
        epoch: 1,
        root: [0; 32],
    });
    let behind = is_sound(alloc, state);
    matches!(before, Ok(true)) & matches!(behind, Ok(false))
}

/// Whether a state that changes leaves this share of it with this root.
fn stays(state: &mut State, share: &State, root: &Root) -> bool {
    state.set_slot(1);
    share.root() == *root
}

/// Whether the share of a state stays when the state changes.
fn share_stays(state: &mut State) -> bool {
    let root = state.root();
    match state.share() {
        Ok(share) => stays(state, &share, &root),
        Err(_refused) => false,
    }
}

fn state_changes(alloc: Global, state: &mut State) -> bool {
    soundness_goes(alloc, state)
        & share_stays(state)
        & fields_change(state)
        & registry_changes(state)
        & kept_roots_change(state)
        & mixes_change(state)
        & votes_fill(state)
        & lists_change(state)
}

/// The same of the state that is read of these bytes.
fn read_state_changes(alloc: Global, bytes: &[u8]) -> bool {
    match State::read(alloc, &Preset::minimal(), bytes) {
        Ok(mut state) => state_changes(alloc, &mut state),
        Err(_fault) => false,
    }
}

#[test]
fn each_change(rt: HostRuntime) -> Result<(), Fail> {
    let bytes = genesis(rt.alloc())?;
    let holds = read_state_changes(rt.alloc(), &bytes);
    assert!(rt; holds);
    Ok(())
}
