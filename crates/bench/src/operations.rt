//! The operations of a block of 128 attestations on 16,384 validators, with the roots of block and state, against these
//! roots alone.

use crate::block::read_block;
use crate::ratio::{now, tell_joined, tell_number, time_since};
use crate::states::{CONFIG, Shape, read_mainnet};
use anyhow::Result;
use bc_preset::Config;
use beacon_state::State;
use beacon_types::{BeaconBlock, BeaconBlockBody, rooted_attestations};
use hash_tree::Leaf;
use std::alloc::Global;
use std::time::CpuClock;
use transition::process_operations::process_operations;

/// Whether the operations are taken, with the roots of the attestations that they need.
fn are_done(alloc: Global, state: &mut State, body: &BeaconBlockBody, config: &Config) -> bool {
    match rooted_attestations(alloc, body.attestations.as_slice()) {
        Ok(attested) => process_operations(alloc, state, body, &attested, 0, config).is_ok(),
        Err(_) => false,
    }
}

/// Roots the block and the state, takes the operations, and prints both times.
fn time_operations(
    rt: &(impl AllocGlobal + Print + CpuClock),
    state: &mut State,
    block: &BeaconBlock,
    config: &Config,
) -> Result<()> {
    let begin = now(rt);
    let joined = block.root()[0] ^ state.root()[0];
    let measure = time_since(rt, begin);
    let done = are_done(rt.alloc(), state, &block.body, config);
    let whole = time_since(rt, begin);
    let what =
        "operations of a block of 128 attestations on 16,384 validators, with roots against roots";
    tell_joined(rt, what, whole, measure, u64::from(joined)).and(tell_number(
        rt,
        "blocks whose operations are done",
        u64::from(done),
    ))
}

/// The block on a state of 16,384 validators.
fn time_block(
    rt: &(impl AllocGlobal + Print + CpuClock),
    block: &BeaconBlock,
    config: &Config,
) -> Result<()> {
    let mut shape = Shape::at_genesis(16_384);
    shape.slot = 32;
    match read_mainnet(rt, &shape) {
        Ok(mut reading) => time_operations(rt, &mut reading.state, block, config),
        Err(error) => Err(error),
    }
}

/// A block of 128 attestations of the previous epoch on a state of 16,384 validators.
pub fn measure(rt: &(impl AllocGlobal + Print + CpuClock)) -> Result<()> {
    let config = Config::read(CONFIG)?;
    match read_block(rt.alloc()) {
        Ok(block) => time_block(rt, &block.message, &config),
        Err(error) => Err(error),
    }
}
