//! The hashes of a seed and what stands behind it in a shuffle: a round and a page's number, as the sources have it, or a round
//! alone, as the pivots have it. With its padding each is one block, whose first eight words are the seed's. What they decide
//! is computed once a seed: the variables behind the rounds that take them, and for the sources, of which mostly one further word
//! differs, the schedule's words before the first that reads it, and sums that further words are made from.

ghost use Rattle.std.specs.Prelude.{◌≡◌, ◌≢◌, ℕ, ◌+◌, ◌*◌, ◌^◌, ◌<◌, ◌≤◌, List, [], ◌∷◌, ◌++◌, length, slice_index, slice_index_or};
ghost use Rattle.std.specs.Int.{w32, to_le_bytes};
ghost use Rattle.sha2.specs.Sha256.{add32, padding, schedule, sha256, small_sigma0, word_at};
ghost use Rattle.hash_tree.specs.inside.Lanes.{Ahead, Common, lane_at, round_tail, source_block, source_tail};

use crate::rounds::{
    compress_rest, eight_steps, expand, expand_from, expand_near, far_sum, initial, schedule_room,
    spread,
};
use crate::vectors::{digest, turned};
use std::marker::Model;
use std::simd::u32x8;

/// Eight rounds from this one on.
#[inline(always)]
fn eight_rounds(first: u8) -> [u8; 8]
    requires { first + 8 ≤ 256 }
    ensures { (j : ℕ) → j < 8 → slice_index result j ≡ first + j }
{
    [
        first,
        first + 1,
        first + 2,
        first + 3,
        first + 4,
        first + 5,
        first + 6,
        first + 7,
    ]
}

/// Eight pages from this one on.
#[inline(always)]
fn eight_pages(first: u32) -> [u32; 8]
    requires { first + 8 ≤ 2 ^ 32 }
    ensures { (j : ℕ) → j < 8 → slice_index result j ≡ first + j }
{
    [
        first,
        first + 1,
        first + 2,
        first + 3,
        first + 4,
        first + 5,
        first + 6,
        first + 7,
    ]
}

/// The word of a source's block that holds the round and the page's first three bytes.
#[inline(always)]
fn source_head(round: u8, page: u32) -> u32
    ensures { result ≡ word_at (source_tail round page) 0 }
{
    let [a, b, c, _] = page.to_le_bytes();
    u32::from_be_bytes([round, a, b, c])
}

/// The word of a source's block that holds the page's last byte and the first one of the padding.
#[inline(always)]
fn page_end(round: u8, page: u32) -> u32
    ensures { result ≡ word_at (source_tail round page) 4 }
{
    let [_, _, _, d] = page.to_le_bytes();
    u32::from_be_bytes([d, 0x80, 0, 0])
}

/// The words of eight sources' blocks that hold the rounds.
#[inline(always)]
fn source_heads(rounds: &[u8; 8], pages: &[u32; 8]) -> u32x8
    ensures { (j : ℕ) → j < 8 → slice_index result j ≡ word_at (source_tail (slice_index rounds.now j) (slice_index pages.now j)) 0 }
{
    u32x8::from_array([
        source_head(rounds[0], pages[0]),
        source_head(rounds[1], pages[1]),
        source_head(rounds[2], pages[2]),
        source_head(rounds[3], pages[3]),
        source_head(rounds[4], pages[4]),
        source_head(rounds[5], pages[5]),
        source_head(rounds[6], pages[6]),
        source_head(rounds[7], pages[7]),
    ])
}

/// The words of eight sources' blocks that hold the pages' last bytes.
#[inline(always)]
fn page_ends(rounds: &[u8; 8], pages: &[u32; 8]) -> u32x8
    ensures { (j : ℕ) → j < 8 → slice_index result j ≡ word_at (source_tail (slice_index rounds.now j) (slice_index pages.now j)) 4 }
{
    u32x8::from_array([
        page_end(rounds[0], pages[0]),
        page_end(rounds[1], pages[1]),
        page_end(rounds[2], pages[2]),
        page_end(rounds[3], pages[3]),
        page_end(rounds[4], pages[4]),
        page_end(rounds[5], pages[5]),
        page_end(rounds[6], pages[6]),
        page_end(rounds[7], pages[7]),
    ])
}

/// What stands behind the seed in eight sources' blocks, word by word (the padding: FIPS 180-4, 5.1.1).
#[inline(always)]
fn source_tails(rounds: &[u8; 8], pages: &[u32; 8]) -> [u32x8; 8]
    ensures { (i : ℕ) → i < 8 → (j : ℕ) → j < 8 → lane_at result i j ≡ word_at (source_tail (slice_index rounds.now j) (slice_index pages.now j)) (4 * i) }
{
    let zeros = u32x8::splat(0);
    [
        source_heads(rounds, pages),
        page_ends(rounds, pages),
        zeros,
        zeros,
        zeros,
        zeros,
        zeros,
        u32x8::splat(8 * 37),
    ]
}

/// The word of a pivot's block that holds the round and the first byte of the padding.
#[inline(always)]
fn round_head(round: u8) -> u32
    ensures { result ≡ word_at (round_tail round) 0 }
{
    u32::from_be_bytes([round, 0x80, 0, 0])
}

/// The words of eight pivots' blocks that hold the rounds.
#[inline(always)]
fn round_heads(rounds: &[u8; 8]) -> u32x8
    ensures { (j : ℕ) → j < 8 → slice_index result j ≡ word_at (round_tail (slice_index rounds.now j)) 0 }
{
    u32x8::from_array([
        round_head(rounds[0]),
        round_head(rounds[1]),
        round_head(rounds[2]),
        round_head(rounds[3]),
        round_head(rounds[4]),
        round_head(rounds[5]),
        round_head(rounds[6]),
        round_head(rounds[7]),
    ])
}

/// What stands behind the seed in eight pivots' blocks, word by word.
#[inline(always)]
fn round_tails(rounds: &[u8; 8]) -> [u32x8; 8]
    ensures { (i : ℕ) → i < 8 → (j : ℕ) → j < 8 → lane_at result i j ≡ word_at (round_tail (slice_index rounds.now j)) (4 * i) }
{
    let zeros = u32x8::splat(0);
    [
        round_heads(rounds),
        zeros,
        zeros,
        zeros,
        zeros,
        zeros,
        zeros,
        u32x8::splat(8 * 33),
    ]
}

/// A word of the seed, at the head of each of its blocks.
#[inline(always)]
fn seed_word(seed: &[u8; 32], place: usize) -> u32
    requires { place < 8 }
    ensures { (tail : List ℕ) → result ≡ word_at (seed.now ++ tail) (4 * place) }
{
    let at = 4 * place;
    u32::from_be_bytes([seed[at], seed[at + 1], seed[at + 2], seed[at + 3]])
}

/// A word of eight blocks: of the seed, or of what stands behind it.
#[inline(always)]
fn words(seed: &[u8; 32], tails: &[u32x8; 8], place: usize) -> u32x8
    requires { place < 16 }
    ensures { (j : ℕ) (tail : List ℕ) → j < 8 → ((i : ℕ) → i < 8 → lane_at tails.now i j ≡ word_at tail (4 * i))
        → slice_index result j ≡ word_at (seed.now ++ tail) (4 * place) }
{
    if place < 8 {
        return u32x8::splat(seed_word(seed, place));
    }
    tails[place - 8]
}

/// Fills the schedules of eight blocks of a seed and what stands behind it.
#[inline(always)]
fn fill(seed: &[u8; 32], tails: &[u32x8; 8], w: &mut [u32x8; 64])
    ensures { (j : ℕ) (tail : List ℕ) → j < 8 → ((i : ℕ) → i < 8 → lane_at tails.now i j ≡ word_at tail (4 * i))
        → (k : ℕ) → k < 64 → lane_at w.new k j ≡ slice_index (schedule (seed.now ++ tail) 48) k }
{
    'load: for k in 0..16 {
        w[k] = words(seed, tails, k);
    }
    expand(w);
}

/// The first words of the schedule of the first lane.
fn first_words(w: &[u32x8; 64]) -> [u32; 23]
    ensures { (k : ℕ) → k < 23 → slice_index result k ≡ lane_at w.now k 0 }
{
    let mut words = [0; 23];
    'words: for k in 0..23 {
        words[k] = w[k].to_array()[0];
    }
    words
}

/// What the words at the places from 25 up to but not 38 take from the words fifteen and sixteen before them, in the first
/// lane.
fn far_sums(w: &[u32x8; 64]) -> [u32; 13]
    ensures { (k : ℕ) → k < 13 → slice_index result k ≡ add32 (small_sigma0 (lane_at w.now (k + 10) 0)) (lane_at w.now (k + 9) 0) }
{
    let mut sums = [0; 13];
    'sums: for k in 0..13 {
        sums[k] = far_sum(w, 25 + k).to_array()[0];
    }
    sums
}

/// A word that eight sources' schedules have in common.
#[inline(always)]
fn common_words(common: &[u32; 23], place: usize) -> u32x8
    requires place { place < 23 }
    requires no_round { place ≢ 8 }
    ensures { (j round page : ℕ) (seed : List ℕ) → j < 8 → page < 2 ^ 24 → Common seed common.now
        → slice_index result j ≡ slice_index (schedule (source_block seed round page) 48) place }
{
    u32x8::splat(common[place])
}

/// One of the first words of eight sources' schedules, from the words that hold the rounds.
#[inline(always)]
fn near_words(common: &[u32; 23], heads: u32x8, place: usize) -> u32x8
    requires { place < 23 }
    ensures { (j round page : ℕ) (seed : List ℕ) → j < 8 → page < 2 ^ 24 → Common seed common.now
        → slice_index heads j ≡ slice_index (schedule (source_block seed round page) 48) 8
        → slice_index result j ≡ slice_index (schedule (source_block seed round page) 48) place }
{
    if place == 8 {
        heads
    } else {
        common_words(common, place)
    }
}

/// Fills the schedules of eight sources' blocks, from the words that they have in common and those that hold the rounds.
#[inline(always)]
fn fill_near(common: &[u32; 23], sums: &[u32; 13], heads: u32x8, w: &mut [u32x8; 64])
    ensures { (j round page : ℕ) (seed : List ℕ) → j < 8 → page < 2 ^ 24 → Common seed common.now → Ahead seed sums.now
        → slice_index heads j ≡ slice_index (schedule (source_block seed round page) 48) 8
        → (k : ℕ) → k < 64 → lane_at w.new k j ≡ slice_index (schedule (source_block seed round page) 48) k }
{
    'load: for k in 0..23 {
        w[k] = near_words(common, heads, k);
    }
    expand_near(w, sums);
    expand_from(w, 38);
}

/// A seed, with the variables behind the first eight rounds of its blocks, and with the words of their schedules
/// that all sources of pages below 2^24 have in common: the words of those rounds are the seed's, and of the words before
/// place 23 only the one that holds the round and the page differs. The words from place 25 up to but not 38 take from the words
/// fifteen and sixteen before them what all those sources have in common too.
#[derive(Drop)]
pub struct Seed {
    bytes: [u8; 32],
    begun: [u32; 8],
    common: [u32; 23],
    sums: [u32; 13],
}

impl Model for Seed {
    ghost use Rattle.std.specs.Prelude.{ℕ, List};
    ghost use Rattle.hash_tree.specs.inside.Lanes.{Ahead, Begun, Common};

    ghost Value = { List ℕ };

    ghost view = { λ s. s.bytes };

    ghost invariant = { λ s. Begun s.bytes s.begun × (Common s.bytes s.common × Ahead s.bytes s.sums) };
}

impl Seed {
    /// The seed of these bytes.
    pub fn new(bytes: &[u8; 32]) -> Self
        ensures { result ≡ bytes.now }
    {
        let mut w = schedule_room();
        fill(bytes, &source_tails(&[0; 8], &[0; 8]), &mut w);
        let begun = turned(eight_steps(initial(), &w), 0);
        let common = first_words(&w);
        let sums = far_sums(&w);
        Seed {
            bytes: *bytes,
            begun,
            common,
            sums,
        }
    }

    /// Its bytes.
    pub fn bytes(&self) -> &[u8; 32]
        ensures { result.now ≡ self.now }
    {
        &self.bytes
    }

    /// Fills the schedules of eight sources' blocks, of which `last` is the highest page, where it can from the words that
    /// they have in common.
    #[inline(always)]
    fn fill_sources(&self, rounds: &[u8; 8], pages: &[u32; 8], last: u32, w: &mut [u32x8; 64])
        requires last { (j : ℕ) → j < 8 → slice_index pages.now j ≤ last }
        ensures { (j k : ℕ) → j < 8 → k < 64
            → lane_at w.new k j ≡ slice_index (schedule (source_block self.now (slice_index rounds.now j) (slice_index pages.now j)) 48) k }
    {
        if last < 1 << 24 {
            fill_near(&self.common, &self.sums, source_heads(rounds, pages), w);
        } else {
            fill(&self.bytes, &source_tails(rounds, pages), w);
        }
    }

    /// Writes the hash of each of eight messages that are the seed and bytes behind it, and fill one block with their padding,
    /// of which these are the schedules.
    #[inline(always)]
    fn hash_scheduled(&self, w: &[u32x8; 64], out: &mut [[u8; 32]; 8])
        ensures { (j : ℕ) (bytes : List ℕ) → j < 8 → length (bytes ++ padding (32 + length bytes)) ≡ 32
            → ((k : ℕ) → k < 64 → lane_at w.now k j ≡ slice_index (schedule (self.now ++ (bytes ++ padding (32 + length bytes))) 48) k)
            → slice_index_or out.new j [] ≡ sha256 (self.now ++ bytes) }
    {
        let h = compress_rest(initial(), spread(&self.begun), w);
        'hashes: for j in 0..8 {
            out[j] = digest(&turned(h, j));
        }
    }

    /// Writes the hash of the seed, a round and a page's number for each of eight rounds and pages, of which `last` is the
    /// highest page.
    #[inline(always)]
    fn hash_eight(
        &self,
        room: &mut [u32x8; 64],
        rounds: &[u8; 8],
        pages: &[u32; 8],
        last: u32,
        out: &mut [[u8; 32]; 8],
    )
        requires last { (j : ℕ) → j < 8 → slice_index pages.now j ≤ last }
        ensures { (j : ℕ) → j < 8
            → slice_index_or out.new j [] ≡ sha256 (self.now ++ slice_index rounds.now j ∷ to_le_bytes w32 (slice_index pages.now j)) }
    {
        self.fill_sources(rounds, pages, last, room);
        self.hash_scheduled(room, out);
    }

    /// Writes the hash of the seed, a round and a page's number, low byte first, for each of eight pages
    /// (beacon-chain.md, `compute_shuffled_index`: the sources of a round). The eight go through vectors. It takes no
    /// memory.
    pub fn hash_sources(&self, round: u8, first: u32, out: &mut [[u8; 32]; 8])
        requires { first + 8 ≤ 2 ^ 32 }
        ensures { (j : ℕ) → j < 8 → slice_index_or out.new j [] ≡ sha256 (self.now ++ round ∷ to_le_bytes w32 (first + j)) }
    {
        self.hash_sources_in(&mut schedule_room(), round, first, out);
    }

    /// Likewise, with room for the schedules that isn't made for each call: what it holds doesn't matter.
    pub fn hash_sources_in(
        &self,
        room: &mut [u32x8; 64],
        round: u8,
        first: u32,
        out: &mut [[u8; 32]; 8],
    )
        requires { first + 8 ≤ 2 ^ 32 }
        ensures { (j : ℕ) → j < 8 → slice_index_or out.new j [] ≡ sha256 (self.now ++ round ∷ to_le_bytes w32 (first + j)) }
    {
        self.hash_eight(room, &[round; 8], &eight_pages(first), first + 7, out);
    }

    /// Likewise for one page and eight rounds.
    pub fn hash_page_of_rounds(&self, first: u8, page: u32, out: &mut [[u8; 32]; 8])
        requires { first + 8 ≤ 256 }
        ensures { (j : ℕ) → j < 8 → slice_index_or out.new j [] ≡ sha256 (self.now ++ (first + j) ∷ to_le_bytes w32 page) }
    {
        let rounds = eight_rounds(first);
        self.hash_eight(&mut schedule_room(), &rounds, &[page; 8], page, out);
    }

    /// Writes the hash of the seed and a round for each of eight rounds (`compute_shuffled_index`: what the pivots are read
    /// from).
    pub fn hash_rounds(&self, first: u8, out: &mut [[u8; 32]; 8])
        requires { first + 8 ≤ 256 }
        ensures { (j : ℕ) → j < 8 → slice_index_or out.new j [] ≡ sha256 (self.now ++ (first + j) ∷ []) }
    {
        let mut w = schedule_room();
        fill(&self.bytes, &round_tails(&eight_rounds(first)), &mut w);
        self.hash_scheduled(&w, out);
    }
}
