//! Hashes of pairs of nodes through `sha2`, by which the roots of trees are measured.

use crate::ratio::{Time, now, time_since};
use sha2::{Digest, Sha256};
use std::time::CpuClock;

/// So many hashes of pairs through `sha2`, joined so that none is left out.
pub fn hash_pairs_alone(count: u64) -> u8 {
    let mut pair = [0; 64];
    let mut joined = 0;
    for i in 0..count {
        let number = i.to_le_bytes();
        pair[0] = number[0];
        pair[1] = number[1];
        pair[2] = number[2];
        joined ^= Sha256::digest(&pair)[0];
    }
    joined
}

/// The time of so many hashes of pairs through `sha2`, and what they are joined to.
pub fn time_hashes(rt: &impl CpuClock, count: u64) -> (Time, u8) {
    let begin = now(rt);
    let joined = hash_pairs_alone(count);
    (time_since(rt, begin), joined)
}
