//! The hashes of every count of pairs from 0 to 40, and the sources of pages, are those of sha2.

ghost use Rattle.std.specs.Prelude.{◌≤◌, length};

use hash_tree::{Seed, hash_pairs};
use sha2::{Digest, Sha256};

/// Bytes without a pattern, from a number.
fn scattered(number: u64) -> [u8; 32] {
    Sha256::digest(number.to_le_bytes())
}

/// Forty pairs without a pattern, from a number.
fn forty_pairs(number: u64) -> [[[u8; 32]; 2]; 40] {
    let mut pairs = [[[0; 32]; 2]; 40];
    let mut next = number.wrapping_mul(1000);
    for pair in pairs.iter_mut() {
        *pair = [scattered(next), scattered(next.wrapping_add(1))];
        next = next.wrapping_add(2);
    }
    pairs
}

/// What sha2 makes of a pair.
fn hash_of(pair: &[[u8; 32]; 2]) -> [u8; 32] {
    let mut hasher = Sha256::new();
    hasher.update(&pair[0]);
    hasher.update(&pair[1]);
    hasher.finalize()
}

/// Whether these pairs have the hashes of sha2.
fn hashes_agree(pairs: &[[[u8; 32]; 2]]) -> bool
    requires { length pairs.now ≤ 40 }
{
    let mut hashes = [[0; 32]; 40];
    hash_pairs(pairs, &mut hashes[..pairs.len()]);
    for (pair, hash) in pairs.iter().zip(hashes.iter()) {
        if *hash != hash_of(pair) {
            return false;
        }
    }
    true
}

#[test]
fn hashes_are_those_of_sha2(rt: HostRuntime) {
    for count in 0..41usize {
        let pairs = forty_pairs(count as u64);
        assert!(rt; hashes_agree(&pairs[..count]));
    }
}

/// What sha2 makes of a seed, a round and the number of a page.
fn source(seed: &[u8; 32], round: u8, page: u32) -> [u8; 32] {
    let mut hasher = Sha256::new();
    hasher.update(seed);
    hasher.update(&[round]);
    hasher.update(&page.to_le_bytes());
    hasher.finalize()
}

/// Whether the sources of eight pages from this one on are those of sha2.
fn sources_agree(first: u32, round: u8) -> bool
    requires { first ≤ 4294967288 }
{
    let seed = scattered(u64::from(first).wrapping_add(u64::from(round)));
    let mut sources = [[0; 32]; 8];
    Seed::new(&seed).hash_sources(round, first, &mut sources);
    let mut page = first;
    for found in sources.iter() {
        if *found != source(&seed, round, page) {
            return false;
        }
        page = page.wrapping_add(1);
    }
    true
}

#[test]
fn sources_are_those_of_sha2(rt: HostRuntime) {
    for first in [0u32, 8, 252, 255, 65_530, 16_777_209, 0xffff_fff8] {
        assert!(rt; first <= 0xffff_fff8);
        for round in [0u8, 1, 89, 255] {
            assert!(rt; sources_agree(first, round));
        }
    }
}
