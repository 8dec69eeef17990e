//! The block function of SHA-256 (FIPS 180-4, 6.2.2), on several blocks at a time, one a lane.

ghost use Rattle.std.specs.Prelude.{◌≡◌, ℕ, ◌+◌, ◌-◌, ◌*◌, ◌^◌, ◌<◌, ◌≤◌, List, [], ◌∷◌, length, slice_index};
ghost use Rattle.sha2.specs.Sha256.{add32, add_state, big_sigma1, compress, initial_hash_256, next_word, round};
ghost use Rattle.sha2.specs.Sha256.{rounds, schedule, small_sigma0, small_sigma1, word_at};
ghost use Rattle.hash_tree.specs.inside.Lanes.{Ahead, lane, lane_at, variables, padding_block, source_block};

use crate::constants::{INITIAL_HASH, PADDING_SUMS, ROUND_CONSTANTS};
use crate::words::{add, big_sigma0, big_sigma1, choose, majority, small_sigma0, small_sigma1};
use std::simd::{Simd, u32x4, u32x8};

/// The same variables in each of eight lanes.
#[inline(always)]
pub(crate) fn spread(v: &[u32; 8]) -> [u32x8; 8]
    ensures { (j : ℕ) → j < 8 → variables j result ≡ v.now }
{
    [
        u32x8::splat(v[0]),
        u32x8::splat(v[1]),
        u32x8::splat(v[2]),
        u32x8::splat(v[3]),
        u32x8::splat(v[4]),
        u32x8::splat(v[5]),
        u32x8::splat(v[6]),
        u32x8::splat(v[7]),
    ]
}

/// The same variables in each of four lanes.
#[inline(always)]
fn spread_four(v: &[u32; 8]) -> [u32x4; 8]
    ensures { (j : ℕ) → j < 4 → variables j result ≡ v.now }
{
    [
        u32x4::splat(v[0]),
        u32x4::splat(v[1]),
        u32x4::splat(v[2]),
        u32x4::splat(v[3]),
        u32x4::splat(v[4]),
        u32x4::splat(v[5]),
        u32x4::splat(v[6]),
        u32x4::splat(v[7]),
    ]
}

/// The hash value before the first block, in each of eight lanes.
#[inline(always)]
pub(crate) fn initial() -> [u32x8; 8]
    ensures { (j : ℕ) → j < 8 → variables j result ≡ initial_hash_256 }
{
    spread(&INITIAL_HASH)
}

/// The hash value before the first block, in each of four lanes.
#[inline(always)]
pub(crate) fn initial_four() -> [u32x4; 8]
    ensures { (j : ℕ) → j < 4 → variables j result ≡ initial_hash_256 }
{
    spread_four(&INITIAL_HASH)
}

/// Room for eight schedules, whose words are all still to be written. They don't begin as zeros, since those would be written by the
/// C library, in registers so wide that some processors lower their clock for a while.
#[inline(always)]
pub fn schedule_room() -> [u32x8; 64] {
    [u32x8::splat(ROUND_CONSTANTS[0]); 64]
}

/// Room for four schedules, likewise.
#[inline(always)]
pub(crate) fn room_for_four() -> [u32x4; 64] {
    [u32x4::splat(ROUND_CONSTANTS[0]); 64]
}

/// The word at a place of the schedule, from the words before it.
#[inline(always)]
fn following<const N: usize>(w: &[Simd<u32, N>; 64], t: usize) -> Simd<u32, N>
    requires low { 16 ≤ t }
    requires high { t < 64 }
    ensures { (j : ℕ) → j < N → slice_index result j ≡ next_word (lane j w.now) t }
{
    let near = add(small_sigma1(w[t - 2]), w[t - 7]);
    add(add(near, small_sigma0(w[t - 15])), w[t - 16])
}

/// What the word at a place takes from the words fifteen and sixteen before it.
#[inline(always)]
pub(crate) fn far_sum(w: &[u32x8; 64], t: usize) -> u32x8
    requires low { 16 ≤ t }
    requires high { t < 64 }
    ensures { (j : ℕ) → j < 8 → slice_index result j ≡ add32 (small_sigma0 (lane_at w.now (t - 15) j)) (lane_at w.now (t - 16) j) }
{
    add(small_sigma0(w[t - 15]), w[t - 16])
}

/// The word at a place, where that sum is the same in each lane.
#[inline(always)]
fn following_sum(w: &[u32x8; 64], t: usize, sum: u32) -> u32x8
    requires low { 16 ≤ t }
    requires high { t < 64 }
    ensures { (j : ℕ) → j < 8 → slice_index result j ≡ add32 (add32 (small_sigma1 (lane_at w.now (t - 2) j)) (lane_at w.now (t - 7) j)) sum }
{
    let near = add(small_sigma1(w[t - 2]), w[t - 7]);
    add(near, u32x8::splat(sum))
}

/// The word at a place of the schedules of a seed's sources, from the words before it and the sums that they have in common.
#[inline(always)]
fn following_near(w: &[u32x8; 64], sums: &[u32; 13], t: usize) -> u32x8
    requires low { 23 ≤ t }
    requires high { t < 38 }
    ensures { (j round page : ℕ) (seed : List ℕ) → j < 8 → page < 2 ^ 24 → Ahead seed sums.now
        → ((k : ℕ) → k < t → lane_at w.now k j ≡ slice_index (schedule (source_block seed round page) 48) k)
        → slice_index result j ≡ slice_index (schedule (source_block seed round page) 48) t }
{
    if t < 25 {
        return following(w, t);
    }
    following_sum(w, t, sums[t - 25])
}

/// Fills the schedules of a seed's sources from place 23 up to but not 38, likewise.
#[inline(always)]
pub(crate) fn expand_near(w: &mut [u32x8; 64], sums: &[u32; 13])
    ensures { (j round page : ℕ) (seed : List ℕ) → j < 8 → page < 2 ^ 24 → Ahead seed sums.now
        → ((k : ℕ) → k < 23 → lane_at w.old k j ≡ slice_index (schedule (source_block seed round page) 48) k)
        → (k : ℕ) → k < 38 → lane_at w.new k j ≡ slice_index (schedule (source_block seed round page) 48) k }
{
    'words: for t in 23..38 {
        w[t] = following_near(w, sums, t);
    }
}

/// Fills the schedule from a place on, from the words before it.
#[inline(always)]
pub(crate) fn expand_from<const N: usize>(w: &mut [Simd<u32, N>; 64], from: usize)
    requires low { 16 ≤ from }
    requires high { from ≤ 64 }
    ensures { (j : ℕ) (b : List ℕ) → j < N → ((k : ℕ) → k < from → lane_at w.old k j ≡ slice_index (schedule b 48) k)
        → (k : ℕ) → k < 64 → lane_at w.new k j ≡ slice_index (schedule b 48) k }
{
    'words: for t in from..64 {
        w[t] = following(w, t);
    }
}

/// Fills the schedule behind the words of the block.
#[inline(always)]
pub(crate) fn expand<const N: usize>(w: &mut [Simd<u32, N>; 64])
    ensures { (j : ℕ) (b : List ℕ) → j < N → ((k : ℕ) → k < 16 → lane_at w.old k j ≡ word_at b (4 * k))
        → (k : ℕ) → k < 64 → lane_at w.new k j ≡ slice_index (schedule b 48) k }
{
    expand_from(w, 16);
}

/// T 1 of a round. What takes longest, the function of the word that the round before made, is added last.
#[inline(always)]
fn first_sum<const N: usize>(
    h: Simd<u32, N>,
    e: Simd<u32, N>,
    chosen: Simd<u32, N>,
    constant: u32,
    word: Simd<u32, N>,
) -> Simd<u32, N>
    ensures { (j : ℕ) → j < N → slice_index result j
        ≡ add32 (add32 (add32 (add32 (slice_index h.entry j) (big_sigma1 (slice_index e.entry j))) (slice_index chosen.entry j)) constant) (slice_index word.entry j) }
{
    let ready = add(h, Simd::splat(constant));
    let begun = add(ready, word);
    let near = add(begun, chosen);
    let turned = big_sigma1(e);
    add(near, turned)
}

/// An array of eight has eight items.
#[inline(always)]
fn is_eight<const N: usize>(vectors: &[Simd<u32, N>; 8])
    ensures { length vectors.now ≡ 8 }
{}

/// Eight vectors as an array, in the place of `room`: for vectors of any number of lanes an array expression gets no proof.
#[inline(always)]
fn eight<const N: usize>(
    mut room: [Simd<u32, N>; 8],
    a: Simd<u32, N>,
    b: Simd<u32, N>,
    c: Simd<u32, N>,
    d: Simd<u32, N>,
    e: Simd<u32, N>,
    f: Simd<u32, N>,
    g: Simd<u32, N>,
    h: Simd<u32, N>,
) -> [Simd<u32, N>; 8]
    ensures { result ≡ a.entry ∷ b.entry ∷ c.entry ∷ d.entry ∷ e.entry ∷ f.entry ∷ g.entry ∷ h.entry ∷ [] }
{
    is_eight(&room);
    room[0] = a;
    room[1] = b;
    room[2] = c;
    room[3] = d;
    room[4] = e;
    room[5] = f;
    room[6] = g;
    room[7] = h;
    room
}

/// One round.
#[inline(always)]
fn round<const N: usize>(
    v: [Simd<u32, N>; 8],
    constant: u32,
    word: Simd<u32, N>,
) -> [Simd<u32, N>; 8]
    ensures { (j : ℕ) → j < N → variables j result ≡ round (variables j v.entry) constant (slice_index word.entry j) }
{
    let [a, b, c, d, e, f, g, h] = v;
    let first = first_sum(h, e, choose(e, f, g), constant, word);
    let second = add(big_sigma0(a), majority(a, b, c));
    eight(v, add(first, second), a, b, c, add(d, first), e, f, g)
}

/// The round with a word of a schedule.
#[inline(always)]
fn step<const N: usize>(w: &[Simd<u32, N>; 64], v: [Simd<u32, N>; 8], t: usize) -> [Simd<u32, N>; 8]
    requires { t < 64 }
    ensures { (j : ℕ) (h words : List ℕ) → j < N → lane_at w.now t j ≡ slice_index words t → variables j v.entry ≡ rounds h words t
        → variables j result ≡ rounds h words (t + 1) }
{
    round(v, ROUND_CONSTANTS[t], w[t])
}

/// Four rounds.
#[inline(always)]
fn four_steps<const N: usize>(
    w: &[Simd<u32, N>; 64],
    v: [Simd<u32, N>; 8],
    t: usize,
) -> [Simd<u32, N>; 8]
    requires { t + 4 ≤ 64 }
    ensures { (j : ℕ) (h words : List ℕ) → j < N → ((k : ℕ) → k < 64 → lane_at w.now k j ≡ slice_index words k) → variables j v.entry ≡ rounds h words t
        → variables j result ≡ rounds h words (t + 4) }
{
    let v = step(w, v, t);
    let v = step(w, v, t + 1);
    let v = step(w, v, t + 2);
    step(w, v, t + 3)
}

/// Sixteen rounds. They are a call of their own: four times in a row their code would be more than a processor keeps beside the
/// rest.
#[inline(never)]
fn sixteen_steps<const N: usize>(
    w: &[Simd<u32, N>; 64],
    v: [Simd<u32, N>; 8],
    t: usize,
) -> [Simd<u32, N>; 8]
    requires { t + 16 ≤ 64 }
    ensures { (j : ℕ) (h words : List ℕ) → j < N → ((k : ℕ) → k < 64 → lane_at w.now k j ≡ slice_index words k) → variables j v.entry ≡ rounds h words t
        → variables j result ≡ rounds h words (t + 16) }
{
    let v = four_steps(w, v, t);
    let v = four_steps(w, v, t + 4);
    let v = four_steps(w, v, t + 8);
    four_steps(w, v, t + 12)
}

/// The sums of two hash values.
#[inline(always)]
fn add_all<const N: usize>(h: [Simd<u32, N>; 8], v: [Simd<u32, N>; 8]) -> [Simd<u32, N>; 8]
    ensures { (j : ℕ) → j < N → variables j result ≡ add_state (variables j h.entry) (variables j v.entry) }
{
    eight(
        h,
        add(h[0], v[0]),
        add(h[1], v[1]),
        add(h[2], v[2]),
        add(h[3], v[3]),
        add(h[4], v[4]),
        add(h[5], v[5]),
        add(h[6], v[6]),
        add(h[7], v[7]),
    )
}

/// The hash value behind a block with this schedule.
#[inline(always)]
pub(crate) fn compress<const N: usize>(
    h: [Simd<u32, N>; 8],
    w: &[Simd<u32, N>; 64],
) -> [Simd<u32, N>; 8]
    ensures { (j : ℕ) (b : List ℕ) → j < N → ((k : ℕ) → k < 64 → lane_at w.now k j ≡ slice_index (schedule b 48) k)
        → variables j result ≡ compress (variables j h.entry) b }
{
    let v = sixteen_steps(w, h, 0);
    let v = sixteen_steps(w, v, 16);
    let v = sixteen_steps(w, v, 32);
    let v = sixteen_steps(w, v, 48);
    add_all(h, v)
}

/// The variables behind a block's first eight rounds.
#[inline(always)]
pub(crate) fn eight_steps(h: [u32x8; 8], w: &[u32x8; 64]) -> [u32x8; 8]
    ensures { (j : ℕ) (b : List ℕ) → j < 8 → ((k : ℕ) → k < 64 → lane_at w.now k j ≡ slice_index (schedule b 48) k)
        → variables j result ≡ rounds (variables j h) (schedule b 48) 8 }
{
    let v = four_steps(w, h, 0);
    four_steps(w, v, 4)
}

/// The hash value behind a block with this schedule, from the variables behind its first eight rounds.
#[inline(always)]
pub(crate) fn compress_rest(h: [u32x8; 8], v: [u32x8; 8], w: &[u32x8; 64]) -> [u32x8; 8]
    ensures { (j : ℕ) (b : List ℕ) → j < 8 → ((k : ℕ) → k < 64 → lane_at w.now k j ≡ slice_index (schedule b 48) k)
        → variables j v ≡ rounds (variables j h) (schedule b 48) 8 → variables j result ≡ compress (variables j h) b }
{
    let v = four_steps(w, v, 8);
    let v = four_steps(w, v, 12);
    let v = sixteen_steps(w, v, 16);
    let v = sixteen_steps(w, v, 32);
    let v = sixteen_steps(w, v, 48);
    add_all(h, v)
}

/// The round with a word of the padding's schedule. Constant and word are one number, and the word that is given is 0.
#[inline(always)]
fn padding_step<const N: usize>(v: [Simd<u32, N>; 8], t: usize) -> [Simd<u32, N>; 8]
    requires { t < 64 }
    ensures { (j : ℕ) (h : List ℕ) → j < N → variables j v.entry ≡ rounds h (schedule padding_block 48) t
        → variables j result ≡ rounds h (schedule padding_block 48) (t + 1) }
{
    round(v, PADDING_SUMS[t], Simd::splat(0))
}

/// Four such rounds.
#[inline(always)]
fn four_padding_steps<const N: usize>(v: [Simd<u32, N>; 8], t: usize) -> [Simd<u32, N>; 8]
    requires { t + 4 ≤ 64 }
    ensures { (j : ℕ) (h : List ℕ) → j < N → variables j v.entry ≡ rounds h (schedule padding_block 48) t
        → variables j result ≡ rounds h (schedule padding_block 48) (t + 4) }
{
    let v = padding_step(v, t);
    let v = padding_step(v, t + 1);
    let v = padding_step(v, t + 2);
    padding_step(v, t + 3)
}

/// Sixteen such rounds.
#[inline(never)]
fn sixteen_padding_steps<const N: usize>(v: [Simd<u32, N>; 8], t: usize) -> [Simd<u32, N>; 8]
    requires { t + 16 ≤ 64 }
    ensures { (j : ℕ) (h : List ℕ) → j < N → variables j v.entry ≡ rounds h (schedule padding_block 48) t
        → variables j result ≡ rounds h (schedule padding_block 48) (t + 16) }
{
    let v = four_padding_steps(v, t);
    let v = four_padding_steps(v, t + 4);
    let v = four_padding_steps(v, t + 8);
    four_padding_steps(v, t + 12)
}

/// The hash value behind the block of padding.
#[inline(always)]
pub(crate) fn compress_padding<const N: usize>(h: [Simd<u32, N>; 8]) -> [Simd<u32, N>; 8]
    ensures { (j : ℕ) → j < N → variables j result ≡ compress (variables j h.entry) padding_block }
{
    let v = sixteen_padding_steps(h, 0);
    let v = sixteen_padding_steps(v, 16);
    let v = sixteen_padding_steps(v, 32);
    let v = sixteen_padding_steps(v, 48);
    add_all(h, v)
}
