//! A chain as a record tells it: in each slot a tick, the vote of each committee of the slot before on the wire, and a block
//! that carries these votes, which come again as carried ones. Nothing is hidden in it: all validators vote, for the chain.

ghost use Rattle.std.specs.Prelude.{◌≤◌, ◌^◌};
ghost use Rattle.spec_state.specs.Accessors.{get_current_epoch};

use crate::block::{BEGIN, put_offsets};
use crate::genesis::Genesis;
use crate::states::{put, put_number, put_offset};
use anyhow::{Result, bail};
use balance_totals::{block_root, committees_of_epoch, current_epoch};
use bc_preset::Config;
use beacon_state::State;
use beacon_types::{BeaconBlock, Checkpoint, SignedBeaconBlock};
use committees::EpochCommittees;
use hash_tree::{Leaf, Root};
use sha2::{Digest, Sha256};
use ssz_codec::Ssz;
use std::alloc::{AllocError, Global};
use transition::get_beacon_proposer_index::get_beacon_proposer_index;
use transition::is_sound;
use transition::process_block::process_block;
use transition::process_slots::process_slots;

/// The length of an attestation's fixed part.
const ATTESTATION: usize = 228;

/// An event of a record: its kind, and its payload.
#[derive(Drop)]
pub struct Event {
    /// 1 a tick, 2 a signed block, 3 an attestation from the wire, 4 one from a block.
    kind: u8,
    /// What it brings.
    payload: Vec<u8>,
}

/// A vote of the chain: what it says, and how many members its committee has.
#[derive(Clone, Copy)]
struct Vote {
    slot: u64,
    index: u64,
    epoch: u64,
    members: usize,
}

/// The hash of a slot's number, which stands for all that a proposer is free in.
fn salt(slot: u64) -> Root {
    let mut bytes = [0; 16];
    put_number(&mut bytes, 8, slot);
    Sha256::digest(&bytes)
}

/// The source of the votes of a slot.
fn source_of(state: &State, slot: u64) -> Checkpoint {
    let slots = state.preset().slots_per_epoch.max(1);
    if slot / slots == state.slot() / slots {
        state.current_justified_checkpoint()
    } else {
        state.previous_justified_checkpoint()
    }
}

/// Puts a vote of all members, for the chain that the state of the next slot ends, into bytes that are all 255.
fn put_vote(bytes: &mut [u8], state: &State, vote: &Vote, target: &Root) {
    let source = source_of(state, vote.slot);
    put_offset(bytes, 0, ATTESTATION);
    put_number(bytes, 4, vote.slot);
    put_number(bytes, 12, vote.index);
    put(bytes, 20, &state.latest_block_header().root());
    put_number(bytes, 52, source.epoch);
    put(bytes, 60, &source.root);
    put_number(bytes, 92, vote.epoch);
    put(bytes, 100, target);
    put(bytes, 132, &[0; 96]);
    let last = (2u8 << (vote.members % 8)).wrapping_sub(1);
    put(bytes, bytes.len().saturating_sub(1), &[last]);
}

/// The writing of a vote.
fn vote_bytes(
    alloc: Global,
    state: &State,
    vote: &Vote,
    target: &Root,
) -> Result<Vec<u8>, AllocError> {
    let members = vote.members.min(2048);
    let mut bytes = vec![in alloc; 255u8; ATTESTATION + members / 8 + 1]?;
    put_vote(&mut bytes, state, vote, target);
    Ok(bytes)
}

/// The writings of the votes of these committees of a slot, in their order.
fn votes_of(
    alloc: Global,
    state: &State,
    committees: &EpochCommittees,
    slot: u64,
    epoch: u64,
) -> Result<Vec<Vec<u8>>, AllocError>
    requires { epoch ≤ get_current_epoch state.now }
{
    let mut votes = Vec::new(alloc);
    let target = block_root(state, epoch);
    for index in 0..committees.per_slot() {
        let members = match committees.committee(slot, index) {
            Some(committee) => committee.len(),
            None => 0,
        };
        let vote = Vote {
            slot,
            index,
            epoch,
            members,
        };
        votes.push(vote_bytes(alloc, state, &vote, &target)?)?;
    }
    Ok(votes)
}

/// The writings of the votes of the slot before the state's, in order of their committees.
fn votes(alloc: Global, state: &State) -> Result<Vec<Vec<u8>>> {
    let slot = state.slot().saturating_sub(1);
    let epoch = slot / state.preset().slots_per_epoch.max(1);
    if epoch > 1 << 40 || epoch > current_epoch(state) {
        bail!("no such epoch");
    }
    let committees = committees_of_epoch(alloc, state, epoch)?;
    Ok(votes_of(alloc, state, &committees, slot, epoch)?)
}

/// Puts the fixed part of a block of the state's slot on its chain, but for offsets.
fn put_front(bytes: &mut [u8], state: &State, proposer: u64) {
    let salt = salt(state.slot());
    let eth1_data = state.eth1_data();
    put_number(bytes, 100, state.slot());
    put_number(bytes, 108, proposer);
    put(bytes, 116, &state.latest_block_header().root());
    for at in [184, 216, 248] {
        put(bytes, at, &salt);
    }
    put(bytes, 280, &eth1_data.deposit_root);
    put_number(bytes, 312, eth1_data.deposit_count);
    put(bytes, 320, &eth1_data.block_hash);
}

/// Appends these votes to a block of no votes yet: room for an offset of each, and then their writings.
fn append_written(bytes: &mut Vec<u8>, votes: &[Vec<u8>]) -> Result<(), AllocError> {
    for _vote in votes {
        bytes.extend_from_slice(&[0; 4])?;
    }
    let mut at = BEGIN;
    for vote in votes {
        let start = bytes.len().saturating_sub(BEGIN);
        put_offset(bytes, at, start);
        at = at.saturating_add(4);
        bytes.extend_from_slice(vote)?;
    }
    Ok(())
}

/// The writing of the signed block of the state's slot on its chain, with these votes and no state root yet.
fn block_bytes(
    alloc: Global,
    state: &State,
    proposer: u64,
    votes: &[Vec<u8>],
) -> Result<Vec<u8>, AllocError> {
    let mut bytes = vec![in alloc; 0u8; BEGIN]?;
    append_written(&mut bytes, votes)?;
    put_front(&mut bytes, state, proposer);
    put_offsets(&mut bytes);
    Ok(bytes)
}

/// Takes the state through a block of its slot. Gives the root that it has then.
fn take_block(
    alloc: Global,
    state: &mut State,
    block: &BeaconBlock,
    config: &Config,
) -> Result<Root> {
    if block.slot != state.slot() {
        bail!("the block is of another slot");
    }
    process_block(alloc, state, block, config)?;
    Ok(state.root())
}

/// The same for the writing of a signed block.
fn take_written(alloc: Global, state: &mut State, bytes: &[u8], config: &Config) -> Result<Root> {
    match SignedBeaconBlock::read(alloc, bytes) {
        Ok(block) => take_block(alloc, state, &block.message, config),
        Err(fault) => Err(fault.into()),
    }
}

/// Appends an event with a copy of a payload.
fn push_event(
    alloc: Global,
    events: &mut Vec<Event>,
    kind: u8,
    payload: &[u8],
) -> Result<(), AllocError> {
    let payload = Vec::from_slice(alloc, payload)?;
    events.push(Event { kind, payload })?;
    Ok(())
}

/// Appends an event of this kind for each of these votes.
fn push_votes(
    alloc: Global,
    events: &mut Vec<Event>,
    kind: u8,
    votes: &[Vec<u8>],
) -> Result<(), AllocError> {
    for vote in votes {
        push_event(alloc, events, kind, vote)?;
    }
    Ok(())
}

/// The record of these events.
pub fn record_bytes(alloc: Global, events: &[Event]) -> Result<Vec<u8>> {
    let mut record = Vec::from_slice(alloc, b"BCR1")?;
    for event in events {
        let length = u32::try_from(event.payload.len())?;
        record.push(event.kind)?;
        record.extend_from_slice(&length.to_le_bytes())?;
        record.extend_from_slice(&event.payload)?;
    }
    Ok(record)
}

/// Tells the block with this writing of no state root yet, takes the state through it, and tells its votes again.
fn tell_written(
    alloc: Global,
    state: &mut State,
    config: &Config,
    bytes: &mut [u8],
    votes: &[Vec<u8>],
    events: &mut Vec<Event>,
) -> Result<()> {
    let root = take_written(alloc, state, bytes, config)?;
    put(bytes, 148, &root);
    push_event(alloc, events, 2, bytes)?;
    Ok(push_votes(alloc, events, 4, votes)?)
}

/// Tells the block of the state's slot with these votes, takes the state through it, and tells the votes again.
fn tell_block(
    alloc: Global,
    state: &mut State,
    config: &Config,
    votes: &[Vec<u8>],
    events: &mut Vec<Event>,
) -> Result<()> {
    let proposer = get_beacon_proposer_index(alloc, state)?;
    let mut bytes = block_bytes(alloc, state, proposer, votes)?;
    tell_written(alloc, state, config, &mut bytes, votes, events)
}

/// Tells the events of a slot that the state has entered, and takes the state through the slot's block.
fn tell_slot(
    alloc: Global,
    state: &mut State,
    config: &Config,
    events: &mut Vec<Event>,
) -> Result<()> {
    let time = state
        .slot()
        .wrapping_mul(config.seconds_per_slot())
        .wrapping_add(state.genesis_time());
    push_event(alloc, events, 1, &time.to_le_bytes())?;
    let votes = votes(alloc, state)?;
    push_votes(alloc, events, 3, &votes)?;
    tell_block(alloc, state, config, &votes, events)
}

/// Tells the events of a slot that the next state has entered, and puts that state, once it is behind them, in the place of the
/// state.
fn enter(
    alloc: Global,
    state: &mut State,
    mut next: State,
    config: &Config,
    events: &mut Vec<Event>,
) -> Result<()> {
    tell_slot(alloc, &mut next, config, events)?;
    *state = next;
    Ok(())
}

/// Takes the state to the next slot, and tells the events of that slot.
fn advance(
    alloc: Global,
    state: &mut State,
    config: &Config,
    events: &mut Vec<Event>,
) -> Result<()> {
    if !is_sound(alloc, state)? {
        bail!("the state isn't sound");
    }
    match process_slots(alloc, state, state.slot().saturating_add(1), config) {
        Ok(step) => enter(alloc, state, step.state, config, events),
        Err(stop) => Err(stop.into()),
    }
}

/// Takes the state through so many slots, and tells the events of each.
fn advance_all(
    alloc: Global,
    state: &mut State,
    config: &Config,
    slots: u64,
    events: &mut Vec<Event>,
) -> Result<()> {
    for _slot in 0..slots {
        advance(alloc, state, config, events)?;
    }
    Ok(())
}

/// Takes a share of the genesis state through so many slots, and tells the events of each.
fn advance_share(
    alloc: Global,
    genesis: &Genesis,
    slots: u64,
    events: &mut Vec<Event>,
) -> Result<()> {
    match genesis.state.share() {
        Ok(mut state) => advance_all(alloc, &mut state, &genesis.config, slots, events),
        Err(refused) => Err(refused.into()),
    }
}

/// The events of a chain of so many slots behind genesis.
pub fn chain(alloc: Global, genesis: &Genesis, slots: u64) -> Result<Vec<Event>> {
    let mut events = Vec::new(alloc);
    advance_share(alloc, genesis, slots, &mut events)?;
    Ok(events)
}
