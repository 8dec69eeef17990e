//! The shuffled index, by eight rounds at a time.

ghost use Rattle.std.specs.Prelude.{◌≡◌, ℕ, ◌+◌, ◌/◌, ◌<◌, ◌≤◌, ◌^◌};
ghost use Rattle.committees.specs.Shuffling.{after_round, compute_shuffled_index, pivot_of, source_of};

use crate::eights::{page_sources, pivots_from};
use crate::round::{bit_at, source_at};
use hash_tree::{Root, Seed};

/// The source of the page of a position below `count`: the first page's where there is no other.
fn source_in(seed: &Root, round: u8, count: u64, first_page: &[u8; 32], position: u64) -> [u8; 32]
    requires in_range { position < count }
    requires count_fits { count ≤ 2 ^ 40 }
    requires first_page { count ≤ 256 → first_page.now ≡ source_of seed.now round 0 }
    ensures { result ≡ source_of seed.now round (position / 256) }
{
    if count > 256 {
        return source_at(seed, round, position);
    }
    *first_page
}

/// The index after one round, from its pivot.
#[tactic(auto, unfolding(crate::specs::Shuffling::after_round, crate::specs::Shuffling::bit_of))]
fn after_round(
    index: u64,
    count: u64,
    seed: &Root,
    round: u8,
    pivot: u64,
    first_page: &[u8; 32],
) -> u64
    requires in_range { index < count }
    requires count_fits { count ≤ 2 ^ 40 }
    requires pivot { pivot ≡ pivot_of seed.now round count }
    requires below { pivot < count }
    requires first_page { count ≤ 256 → first_page.now ≡ source_of seed.now round 0 }
    ensures after { result ≡ after_round seed.now round count index }
    ensures in_range { result < count }
{
    let flip = (pivot + count - index) % count;
    let position = index.max(flip);
    let source = source_in(seed, round, count, first_page, position);
    if bit_at(&source, position) == 1 {
        flip
    } else {
        index
    }
}

/// The index after so many of the eight rounds from this one on.
fn after_rounds(index: u64, count: u64, seed: &Seed, first: u8, rounds: usize) -> u64
    requires in_range { index < count }
    requires count_fits { count ≤ 2 ^ 40 }
    requires first_fits { first + 8 ≤ 256 }
    requires rounds_fit { rounds ≤ 8 }
    ensures after { (start : ℕ) → index ≡ compute_shuffled_index first start count seed.now
        → result ≡ compute_shuffled_index (first + rounds) start count seed.now }
    ensures in_range { result < count }
{
    let pivots = pivots_from(seed, first, count);
    let sources = page_sources(seed, first, count);
    let mut place = index;
    'rounds: for j in 0..rounds {
        place = after_round(
            place,
            count,
            seed.bytes(),
            first + j as u8,
            pivots[j],
            &sources[j],
        );
    }
    place
}

/// The shuffled index of `index` among `count` (beacon-chain.md, `compute_shuffled_index`), with so many rounds.
///
/// It is below `count`, and no other index below `count` has it.
#[tactic(auto, using(crate::proofs::Rounds::one_to_one), unfolding(crate::specs::Shuffling::compute_shuffled_index))]
pub fn shuffled_index(index: u64, count: u64, seed: &Root, rounds: u32) -> u64
    requires in_range { index < count }
    requires count_fits { count ≤ 2 ^ 40 }
    requires rounds_fit { rounds ≤ 256 }
    ensures place { result ≡ compute_shuffled_index rounds index count seed.now }
    ensures in_range { result < count }
    ensures one_to_one { (other : ℕ) → other < count → compute_shuffled_index rounds other count seed.now ≡ result → other ≡ index }
{
    let prepared = Seed::new(seed);
    let mut place = index;
    let mut round = 0;
    while round < rounds {
        let eight = (rounds - round).min(8);
        place = after_rounds(place, count, &prepared, round as u8, eight as usize);
        round += eight;
    }
    place
}
