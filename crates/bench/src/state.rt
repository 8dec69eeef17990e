//! A mainnet state that is read, checked and rooted, against the hashes of its tree.

use crate::hashes::time_hashes;
use crate::ratio::{Time, now, tell_joined, tell_numbers, tell_time, time_since};
use crate::states::{MOST, Reading, Shape, read_mainnet};
use anyhow::Result;
use beacon_state::{State, genesis_check};
use std::time::CpuClock;

/// The pairs that are hashed: block and state roots, mixes, slashed balances, eight for each validator, those of their list
/// and those of the balances. The few others are left out.
fn pairs_of(validators: u32) -> u64 {
    let validators = u64::from(validators);
    8_191 + 8_191 + 65_535 + 2_047 + 9 * validators + validators / 4 + 48
}

/// What checking and rooting a state gave.
#[derive(Clone, Copy)]
struct Checked {
    /// Whether it is one of genesis.
    is_genesis: bool,
    /// The first byte of its root.
    first: u8,
    /// The time of both.
    time: Time,
}

/// Checks and roots a state.
fn check(rt: &impl CpuClock, state: &State) -> Checked {
    let begin = now(rt);
    let is_genesis = genesis_check(state).is_ok();
    let root = state.root();
    Checked {
        is_genesis,
        first: root[0],
        time: time_since(rt, begin),
    }
}

/// Prints what reading, checking and rooting a state took, against the hashes.
fn tell(
    rt: &(impl Print + CpuClock),
    validators: u32,
    reading: Time,
    checked: Checked,
) -> Result<()> {
    let (measure, joined) = time_hashes(rt, pairs_of(validators));
    let whole = reading.plus(checked.time);
    let numbers = [
        ("validators of a state", u64::from(validators)),
        ("states of genesis", u64::from(checked.is_genesis)),
        ("first byte of its root", u64::from(checked.first)),
    ];
    tell_numbers(rt, &numbers)
        .and(tell_time(rt, "reading", reading))
        .and(tell_joined(rt, "in all", whole, measure, u64::from(joined)))
}

/// Checks, roots and hashes a state that was read, and prints both times.
fn time_root(rt: &(impl Print + CpuClock), validators: u32, reading: &Reading) -> Result<()> {
    let checked = check(rt, &reading.state);
    tell(rt, validators, reading.time, checked)
}

/// Reads, checks, roots, hashes, and prints both times.
pub fn measure(rt: &(impl AllocGlobal + Print + CpuClock), validators: u32) -> Result<()> {
    let validators = validators.min(MOST);
    match read_mainnet(rt, &Shape::at_genesis(validators)) {
        Ok(reading) => time_root(rt, validators, &reading),
        Err(error) => Err(error),
    }
}
