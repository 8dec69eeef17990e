//! The root of a state of 262,144 validators after one balance, one vote and one mix changed, against the hashes of pairs, and
//! reading the state, which roots it from nothing, against that root.

use crate::hashes::time_hashes;
use crate::ratio::{Time, now, tell_joined, tell_ratio, time_since};
use crate::states::{Reading, Shape, read_mainnet};
use anyhow::Result;
use bc_words::Stop;
use beacon_state::State;
use hash_tree::Leaf;
use std::time::CpuClock;

/// How many validators there are.
const VALIDATORS: u32 = 262_144;

/// How often the state is changed and rooted.
const TIMES: u32 = 1000;

/// As many hashes of pairs as go into one root, for each root.
const PAIRS: u64 = 60_000;

/// Changes one balance and one mix, where the state has their places.
fn change_places(state: &mut State, number: u64) -> Result<(), Stop> {
    let index = number.wrapping_mul(257) % u64::from(VALIDATORS);
    if index < state.balances_len() {
        state.set_balances_at(index, number)?;
    }
    if number < state.randao_mixes_len() {
        state.set_randao_mixes_at(number, [7; 32])?;
    }
    Ok(())
}

/// Changes one balance, one vote and one mix.
fn change(state: &mut State, number: u64) -> Result<(), Stop> {
    change_places(state, number)?;
    let vote = state.eth1_data();
    Ok(state.push_eth1_data_votes(vote, vote.root())?)
}

/// What the roots of a state took, and what their first bytes are joined to.
#[derive(Clone, Copy)]
struct Roots {
    time: Time,
    joined: u8,
}

impl Roots {
    /// Roots the state.
    fn add(&mut self, rt: &impl CpuClock, state: &State) {
        let begin = now(rt);
        let root = state.root();
        self.time = self.time.plus(time_since(rt, begin));
        self.joined ^= root[0];
    }
}

/// The roots of the state after each of so many changes.
fn time_all(rt: &impl CpuClock, state: &mut State) -> Result<Roots, Stop> {
    let mut roots = Roots {
        time: Time::none(),
        joined: 0,
    };
    for number in 0..TIMES {
        change(state, u64::from(number))?;
        roots.add(rt, state);
    }
    Ok(roots)
}

/// Prints the time of the roots, of them with their changes, and of the hashes, and that of reading.
fn tell(rt: &(impl Print + CpuClock), roots: Roots, whole: Time, read: Time) -> Result<()> {
    let (measure, hashed) = time_hashes(rt, PAIRS);
    let joined = u64::from(roots.joined ^ hashed);
    let what = "1000 roots after changes, against 60 hashes of pairs each";
    let changes = "with the changes, against the same";
    let reading = "reading the state, 1000 times, against these roots";
    tell_ratio(rt, what, roots.time, measure)
        .and(tell_ratio(rt, changes, whole, measure))
        .and(tell_joined(rt, reading, read.times(TIMES), roots.time, joined))
}

/// Changes and roots a state that was read, hashes, and prints the times.
fn time_roots(rt: &(impl Print + CpuClock), reading: &mut Reading) -> Result<()> {
    let begin = now(rt);
    match time_all(rt, &mut reading.state) {
        Ok(roots) => tell(rt, roots, time_since(rt, begin), reading.time),
        Err(stop) => Err(stop.into()),
    }
}

/// Reads the state, changes and roots it, hashes, and prints the times.
pub fn measure(rt: &(impl AllocGlobal + Print + CpuClock)) -> Result<()> {
    match read_mainnet(rt, &Shape::at_genesis(VALIDATORS)) {
        Ok(mut reading) => time_roots(rt, &mut reading),
        Err(error) => Err(error),
    }
}
