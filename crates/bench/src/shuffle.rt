//! A list of 2^20 items shuffled at 90 rounds, against the hashes that a pass over it can't do without: one for the
//! round's pivot, and one for each 256 of the positions whose bits say which pairs swap. Those are half of all positions,
//! the later one of each pair.

use crate::ratio::{Time, now, tell_joined, tell_number, tell_text, time_since};
use anyhow::Result;
use committees::shuffle_all;
use sha2::{Digest, Sha256};
use std::alloc::{AllocError, Global};
use std::time::CpuClock;

/// How many items are shuffled.
const ITEMS: u64 = 1 << 20;

/// How many rounds the mainnet preset has.
const ROUNDS: u8 = 90;

/// The numbers below the count.
fn numbers(alloc: Global, count: u64) -> Result<Vec<u64>, AllocError> {
    let mut list = Vec::new(alloc);
    for i in 0..count {
        list.push(i)?;
    }
    Ok(list)
}

/// As many hashes as one round takes, joined so that none is left out. The seed has 32 bytes of 7.
fn round_hashes(round: u8) -> u8 {
    let mut pivot = [7; 33];
    pivot[32] = round;
    let mut joined = Sha256::digest(&pivot)[0];
    let mut source = [7; 37];
    source[32] = round;
    source[35] = 0;
    source[36] = 0;
    for page in 0u16..2048 {
        let number = page.to_le_bytes();
        source[33] = number[0];
        source[34] = number[1];
        joined ^= Sha256::digest(&source)[0];
    }
    joined
}

/// The time of as many hashes as all rounds take, and what they are joined to.
fn time_rounds(rt: &impl CpuClock) -> (Time, u8) {
    let begin = now(rt);
    let mut joined = 0;
    for round in 0..ROUNDS {
        joined ^= round_hashes(round);
    }
    (time_since(rt, begin), joined)
}

/// Shuffles so many items. Gives the first of them then, and the time; None where memory ran out.
fn time_shuffle(rt: &(impl AllocGlobal + CpuClock), list: Vec<u64>) -> Option<(u64, Time)> {
    if list.len() > 1 << 40 {
        return None;
    }
    let begin = now(rt);
    match shuffle_all(rt.alloc(), list, &[7; 32], u32::from(ROUNDS)) {
        Ok(shuffled) => Some((shuffled.get(0).copied().unwrap_or(0), time_since(rt, begin))),
        Err(_) => None,
    }
}

/// Hashes behind the shuffling, and prints both times.
fn tell(rt: &(impl Print + CpuClock), first: u64, whole: Time) -> Result<()> {
    let (measure, joined) = time_rounds(rt);
    let what = "shuffle of 2^20 items at 90 rounds";
    tell_joined(rt, what, whole, measure, u64::from(joined)).and(tell_number(
        rt,
        "first item",
        first,
    ))
}

/// Shuffles, hashes, and prints both times.
pub fn measure(rt: &(impl AllocGlobal + Print + CpuClock)) -> Result<()> {
    let list = numbers(rt.alloc(), ITEMS)?;
    match time_shuffle(rt, list) {
        Some((first, whole)) => tell(rt, first, whole),
        None => tell_text(rt, "shuffle: out of memory"),
    }
}
