//! The head of a block.

use crate::calls::given::Given;
use anyhow::Result;
use bc_words::Stop;
use beacon_state::State;
use beacon_types::{BeaconBlock, BeaconBlockBody};
use hash_tree::Leaf;
use ssz_codec::Ssz;
use std::alloc::Global;

/// Reads a block, and processes its header, where the number is the slot's proposer.
pub fn process_header(alloc: Global, state: &mut State, given: &Given) -> Result<Result<(), Stop>> {
    let proposer = given.number()?;
    let block = BeaconBlock::read(alloc, given.input()?)?;
    Ok(block_operations::process_header(state, &block, proposer))
}

/// Reads a body, and processes its randao reveal.
pub fn process_randao(alloc: Global, state: &mut State, given: &Given) -> Result<Result<(), Stop>> {
    let body = BeaconBlockBody::read(alloc, given.input()?)?;
    Ok(block_operations::process_randao::process_randao(state, &body).map_err(|_| Stop::NoMemory))
}

/// Reads a body, and processes its vote.
pub fn process_eth1_data(
    alloc: Global,
    state: &mut State,
    given: &Given,
) -> Result<Result<(), Stop>> {
    let body = BeaconBlockBody::read(alloc, given.input()?)?;
    let root = body.eth1_data.root();
    Ok(block_operations::process_eth1_data::process_eth1_data(state, &body, root))
}
