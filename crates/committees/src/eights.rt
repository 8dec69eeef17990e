//! What eight rounds take from the seed, hashed side by side: their pivots, and their sources of one page.

ghost use Rattle.std.specs.Prelude.{◌≡◌, ℕ, ◌+◌, ◌/◌, ◌%◌, ◌<◌, ◌≤◌, [], slice_index, slice_index_or};
ghost use Rattle.committees.specs.Shuffling.{pivot_of, source_of};

use crate::round::pivot_in;
use hash_tree::Seed;

/// The pivots of eight rounds from this one on, each below `count`.
pub fn pivots_from(seed: &Seed, first: u8, count: u64) -> [u64; 8]
    requires some { 0 < count }
    requires fits { first + 8 ≤ 256 }
    ensures pivots { (j : ℕ) → j < 8 → slice_index result j ≡ pivot_of seed.now (first + j) count }
{
    let mut hashes = [[0; 32]; 8];
    seed.hash_rounds(first, &mut hashes);
    let mut pivots = [0; 8];
    'pivots: for j in 0..8 {
        pivots[j] = pivot_in(&hashes[j], count);
    }
    pivots
}

/// The sources of eight rounds from this one on for the first page, where the positions below `count` have only that one.
pub fn page_sources(seed: &Seed, first: u8, count: u64) -> [[u8; 32]; 8]
    requires { first + 8 ≤ 256 }
    ensures { count ≤ 256 → (j : ℕ) → j < 8 → slice_index_or result j [] ≡ source_of seed.now (first + j) 0 }
{
    let mut sources = [[0; 32]; 8];
    if count > 256 {
        return sources;
    }
    seed.hash_page_of_rounds(first, 0, &mut sources);
    sources
}

/// Brings the pivots of a round and those before it among the same eight, where they are not there already: at the last round,
/// and where eight rounds end.
pub fn turn_pivots(pivots: &mut [u64; 8], seed: &Seed, count: u64, rounds: u32, round: u32)
    requires some { 0 < count }
    requires rounds_fit { rounds ≤ 256 }
    requires in_range { round < rounds }
    requires before { round + 1 < rounds → round % 8 < 7 → (k : ℕ) → k / 8 ≡ round / 8 → slice_index pivots.old (k % 8) ≡ pivot_of seed.now k count }
    ensures { (k : ℕ) → k / 8 ≡ round / 8 → slice_index pivots.new (k % 8) ≡ pivot_of seed.now k count }
{
    if round + 1 == rounds || round % 8 == 7 {
        *pivots = pivots_from(seed, (round - round % 8) as u8, count);
    }
}
