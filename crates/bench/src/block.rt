//! A mainnet block of 128 attestations that is read and rooted, against the hashes of its tree and one pass over its
//! bytes.

use crate::hashes::hash_pairs_alone;
use crate::ratio::{Time, now, tell_joined, tell_number, time_since};
use crate::states::{put_offset, put_vote};
use anyhow::Result;
use beacon_types::SignedBeaconBlock;
use hash_tree::Leaf;
use ssz_codec::Ssz;
use std::alloc::{AllocError, Global};
use std::time::CpuClock;

/// How many attestations the block carries.
const ATTESTATIONS: usize = 128;

/// The length of one: its fixed part, and 128 bits with their delimiter.
const ATTESTATION: usize = 228 + 17;

/// Where the attestations of a block begin that has no other operations.
pub const BEGIN: usize = 404;

/// The block's length.
const END: usize = BEGIN + ATTESTATIONS * (4 + ATTESTATION);

/// The pairs that are hashed: 18 for each attestation, 128 of their list, 19 of the other lists, 24 of the other fields.
const PAIRS: u64 = 18 * 128 + 128 + 19 + 24;

/// How often the block is read.
const TIMES: u32 = 50;

/// Puts the offsets of a signed block that has attestations up to its end, and no other operations.
pub fn put_offsets(bytes: &mut [u8]) {
    let end = bytes.len().saturating_sub(184);
    for (at, offset) in [
        (0, 100),
        (180, 84),
        (384, 220),
        (388, 220),
        (392, 220),
        (396, end),
        (400, end),
    ] {
        put_offset(bytes, at, offset);
    }
}

/// Puts the attestation of this number, and the offset that leads to it.
fn put_attestation(bytes: &mut [u8], number: u8) {
    let start = ATTESTATIONS * 4 + number as usize * ATTESTATION;
    let at = BEGIN + start;
    put_offset(bytes, BEGIN + 4 * number as usize, start);
    put_offset(bytes, at, 228);
    put_vote(
        bytes,
        at + 4,
        at + 228,
        u64::from(number / 4),
        u64::from(number % 4),
    );
}

/// Puts what the block has beside zeros.
fn put_block(bytes: &mut [u8]) {
    put_offsets(bytes);
    for number in 0..ATTESTATIONS as u8 {
        put_attestation(bytes, number);
    }
}

/// The bytes of the block: zero but for offsets, slots and bits. The attestations are the votes of four committees in each slot of
/// the first epoch.
fn block_bytes(alloc: Global) -> Result<Vec<u8>, AllocError> {
    let mut bytes = vec![in alloc; 0u8; END]?;
    put_block(&mut bytes);
    Ok(bytes)
}

/// The block, read.
pub fn read_block(alloc: Global) -> Result<SignedBeaconBlock> {
    let bytes = block_bytes(alloc)?;
    match SignedBeaconBlock::read(alloc, &bytes) {
        Ok(block) => Ok(block),
        Err(fault) => Err(fault.into()),
    }
}

/// The first byte of the block's root, None where it doesn't read.
fn first_of_root(alloc: Global, bytes: &[u8]) -> Option<u8> {
    match SignedBeaconBlock::read(alloc, bytes) {
        Ok(block) => Some(block.message.root()[0]),
        Err(_) => None,
    }
}

/// One pass over the bytes.
fn pass_over(bytes: &[u8]) -> u8 {
    let mut joined = 0;
    for byte in bytes {
        joined ^= *byte;
    }
    joined
}

/// The time of reading and rooting so many times, and what the roots are joined to.
fn time_reading(rt: &(impl AllocGlobal + CpuClock), bytes: &[u8]) -> (Time, u8) {
    let begin = now(rt);
    let mut roots = 0;
    for _ in 0..TIMES {
        roots ^= first_of_root(rt.alloc(), bytes).unwrap_or(1);
    }
    (time_since(rt, begin), roots)
}

/// The time of as many hashes and passes, and what they are joined to.
fn time_passes(rt: &impl CpuClock, bytes: &[u8]) -> (Time, u8) {
    let begin = now(rt);
    let mut joined = 0;
    for _ in 0..TIMES {
        joined ^= hash_pairs_alone(PAIRS) ^ pass_over(bytes);
    }
    (time_since(rt, begin), joined)
}

/// Reads, roots, hashes, and prints both times.
fn measure_bytes(rt: &(impl AllocGlobal + Print + CpuClock), bytes: &[u8]) -> Result<()> {
    let first = first_of_root(rt.alloc(), bytes).unwrap_or(0);
    let (whole, roots) = time_reading(rt, bytes);
    let (measure, joined) = time_passes(rt, bytes);
    let what = "block of 128 attestations, 50 times, with one pass over the bytes";
    tell_joined(rt, what, whole, measure, u64::from(joined))
        .and(tell_number(rt, "first byte of its root", u64::from(first)))
        .and(tell_number(rt, "those of its roots joined", u64::from(roots)))
}

/// Makes the block, and measures.
pub fn measure(rt: &(impl AllocGlobal + Print + CpuClock)) -> Result<()> {
    let bytes = block_bytes(rt.alloc())?;
    measure_bytes(rt, &bytes)
}
