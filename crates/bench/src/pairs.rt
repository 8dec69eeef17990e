//! The parents of 4,096 pairs of nodes in lanes, against as many calls of `sha2`.

use crate::ratio::{Time, now, tell_joined, time_since};
use anyhow::Result;
use hash_tree::hash_pairs;
use sha2::{Digest, Sha256};
use std::alloc::{AllocError, Global};
use std::time::CpuClock;

/// How many pairs are hashed at a time.
const PAIRS: u64 = 4096;

/// How often they are hashed.
const TIMES: u64 = 50;

/// A pair without a pattern.
fn pair_of(number: u64) -> [[u8; 32]; 2] {
    let first = Sha256::digest(number.to_le_bytes());
    [first, Sha256::digest(first)]
}

/// Pairs to hash.
fn pairs(alloc: Global) -> Result<Vec<[[u8; 32]; 2]>, AllocError> {
    let mut pairs = Vec::new(alloc);
    for number in 0..PAIRS {
        pairs.push(pair_of(number))?;
    }
    Ok(pairs)
}

/// One hash through sha2.
fn hash_one(pair: &[[u8; 32]; 2]) -> u8 {
    let mut hasher = Sha256::new();
    hasher.update(&pair[0]);
    hasher.update(&pair[1]);
    let hash = hasher.finalize();
    hash[0]
}

/// The pairs' hashes one by one, joined so that none is left out.
fn hash_all(pairs: &[[[u8; 32]; 2]]) -> u8 {
    let mut joined = 0;
    for pair in pairs {
        joined ^= hash_one(pair);
    }
    joined
}

/// The time of hashing the pairs in lanes.
fn time_lanes(rt: &impl CpuClock, pairs: &[[[u8; 32]; 2]], out: &mut [[u8; 32]]) -> Time {
    let begin = now(rt);
    for _ in 0..TIMES {
        if out.len() == pairs.len() {
            hash_pairs(pairs, out);
        }
    }
    time_since(rt, begin)
}

/// The time of hashing them one by one, and what their hashes are joined to.
fn time_alone(rt: &impl CpuClock, pairs: &[[[u8; 32]; 2]]) -> (Time, u8) {
    let begin = now(rt);
    let mut joined = 0;
    for _ in 0..TIMES {
        joined ^= hash_all(pairs);
    }
    (time_since(rt, begin), joined)
}

/// Hashes both ways, and prints both times.
fn measure_both(
    rt: &(impl Print + CpuClock),
    pairs: &[[[u8; 32]; 2]],
    out: &mut [[u8; 32]],
) -> Result<()> {
    let whole = time_lanes(rt, pairs, out);
    let (measure, joined) = time_alone(rt, pairs);
    let what = "4096 pairs, 50 times, in lanes";
    tell_joined(rt, what, whole, measure, u64::from(joined))
}

/// Makes the pairs, and measures.
pub fn measure(rt: &(impl AllocGlobal + Print + CpuClock)) -> Result<()> {
    let pairs = pairs(rt.alloc())?;
    let mut out = vec![in rt.alloc(); [0; 32]; PAIRS as usize]?;
    measure_both(rt, &pairs, &mut out)
}
