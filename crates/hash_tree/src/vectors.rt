//! As many pairs in as there are lanes, as many hashes out.

ghost use Rattle.std.specs.Prelude.{◌≡◌, ℕ, ◌+◌, ◌*◌, ◌<◌, List, [], length, slice_index, slice_index_or};
ghost use Rattle.sha2.specs.Sha256.{digest_bytes, initial_hash_256, sha256, word_at};
ghost use Rattle.hash_tree.specs.Pairs.{message};
ghost use Rattle.hash_tree.specs.inside.Lanes.{lane_at, variables};

use crate::rounds::{
    compress, compress_padding, expand, initial, initial_four, room_for_four, schedule_room,
};
use std::simd::Simd;

/// A root has 32 bytes.
#[inline(always)]
fn is_long(root: &[u8; 32])
    ensures { length root.now ≡ 32 }
{}

/// A word of a pair's 64 bytes.
#[inline(always)]
pub(crate) fn word(pair: &[[u8; 32]; 2], place: usize) -> u32
    requires { place < 16 }
    ensures word { result ≡ word_at (message pair.now) (4 * place) }
    ensures long { length (message pair.now) ≡ 64 }
{
    is_long(&pair[0]);
    is_long(&pair[1]);
    let root = &pair[place / 8];
    let at = place % 8 * 4;
    u32::from_be_bytes([root[at], root[at + 1], root[at + 2], root[at + 3]])
}

/// A word of each pair.
#[inline(always)]
fn words<const N: usize>(pairs: &[[[u8; 32]; 2]], place: usize) -> Simd<u32, N>
    requires pairs { length pairs.now ≡ N }
    requires place { place < 16 }
    ensures words { (j : ℕ) → j < N → slice_index result j ≡ word_at (message (slice_index_or pairs.now j [])) (4 * place) }
    ensures long { (j : ℕ) → j < N → length (message (slice_index_or pairs.now j [])) ≡ 64 }
{
    let mut lanes = [0; N];
    'lanes: for j in 0..N {
        lanes[j] = word(&pairs[j], place);
    }
    Simd::from_array(lanes)
}

/// The words of the pairs, at the head of a schedule.
#[inline(always)]
fn load<const N: usize>(pairs: &[[[u8; 32]; 2]], w: &mut [Simd<u32, N>; 64])
    requires { length pairs.now ≡ N }
    ensures words { (j k : ℕ) → j < N → k < 16 → lane_at w.new k j ≡ word_at (message (slice_index_or pairs.now j [])) (4 * k) }
    ensures long { (j : ℕ) → j < N → length (message (slice_index_or pairs.now j [])) ≡ 64 }
{
    'load: for k in 0..16 {
        w[k] = words(pairs, k);
    }
}

/// The bytes of a hash value.
pub(crate) fn digest(h: &[u32; 8]) -> [u8; 32]
    ensures { result ≡ digest_bytes h.now 8 }
{
    let mut bytes = [0; 32];
    'words: for i in 0..8 {
        bytes[4 * i..4 * i + 4].copy_from_slice(&h[i].to_be_bytes());
    }
    bytes
}

/// The words of the hash values, message by message.
#[inline(always)]
pub(crate) fn turned<const N: usize>(h: [Simd<u32, N>; 8], j: usize) -> [u32; 8]
    requires { j < N }
    ensures { result ≡ variables j h.entry }
{
    [
        h[0][j], h[1][j], h[2][j], h[3][j], h[4][j], h[5][j], h[6][j], h[7][j],
    ]
}

/// Writes the hash of each pair, from the hash value before the first block in each lane, with room for the schedules.
#[inline(always)]
fn hash_lanes<const N: usize>(
    initial: [Simd<u32, N>; 8],
    w: &mut [Simd<u32, N>; 64],
    pairs: &[[[u8; 32]; 2]],
    out: &mut [[u8; 32]],
)
    requires initial { (j : ℕ) → j < N → variables j initial ≡ initial_hash_256 }
    requires pairs { length pairs.now ≡ N }
    requires out { length out.old ≡ N }
    ensures { (j : ℕ) → j < N → slice_index_or out.new j [] ≡ sha256 (message (slice_index_or pairs.now j [])) }
{
    load(pairs, w);
    expand(w);
    let h = compress(initial, w);
    let h = compress_padding(h);
    'hashes: for j in 0..N {
        out[j] = digest(&turned(h, j));
    }
}

/// Writes the hash of each of eight pairs.
#[inline(never)]
pub(crate) fn hash_eight(pairs: &[[[u8; 32]; 2]], out: &mut [[u8; 32]])
    requires pairs { length pairs.now ≡ 8 }
    requires out { length out.old ≡ 8 }
    ensures { (j : ℕ) → j < 8 → slice_index_or out.new j [] ≡ sha256 (message (slice_index_or pairs.now j [])) }
{
    hash_lanes(initial(), &mut schedule_room(), pairs, out);
}

/// Writes the hash of each of four pairs.
#[inline(never)]
pub(crate) fn hash_four(pairs: &[[[u8; 32]; 2]], out: &mut [[u8; 32]])
    requires pairs { length pairs.now ≡ 4 }
    requires out { length out.old ≡ 4 }
    ensures { (j : ℕ) → j < 4 → slice_index_or out.new j [] ≡ sha256 (message (slice_index_or pairs.now j [])) }
{
    hash_lanes(initial_four(), &mut room_for_four(), pairs, out);
}
