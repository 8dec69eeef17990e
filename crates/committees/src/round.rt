//! What one round of the shuffle takes from the seed: its pivot, and a bit for each position.

ghost use Rattle.std.specs.Prelude.{◌≡◌, ℕ, ◌+◌, ◌<◌, ◌/◌, ◌%◌, ◌^◌, List, [], ◌∷◌, ◌++◌, take};
ghost use Rattle.std.specs.Int.{bit_at, from_le_bytes, w64};
ghost use Rattle.hash_tree.specs.Merkle.{hash};
ghost use Rattle.committees.specs.Shuffling.{pivot_of, source_of, bit_in};

use hash_tree::Root;
use sha2::{Digest, Sha256};

/// The number that the first eight bytes write.
fn first_number(bytes: &[u8; 32]) -> u64
    ensures { result ≡ from_le_bytes w64 (take 8 bytes.now) }
{
    u64::from_le_bytes([
        bytes[0], bytes[1], bytes[2], bytes[3], bytes[4], bytes[5], bytes[6], bytes[7],
    ])
}

/// The pivot of a round, below `count`, from the hash of the seed and the round's number.
pub fn pivot_in(round_hash: &[u8; 32], count: u64) -> u64
    requires { 0 < count }
    ensures pivot { (seed : List ℕ) (round : ℕ) → round_hash.now ≡ hash (seed ++ round ∷ []) → result ≡ pivot_of seed round count }
    ensures below { result < count }
{
    first_number(round_hash) % count
}

/// The bits of the page of 256 positions in which `position` is.
#[tactic(auto, unfolding(crate::specs::Shuffling::source_of, hash_tree::specs::Merkle::hash))]
pub fn source_at(seed: &Root, round: u8, position: u64) -> [u8; 32]
    requires { position < 2 ^ 40 }
    ensures { result ≡ source_of seed.now round (position / 256) }
{
    let page = (position / 256) as u32;
    let mut hasher = Sha256::new();
    hasher.update(seed);
    hasher.update(&[round]);
    hasher.update(&page.to_le_bytes());
    hasher.finalize()
}

/// The bit of a position in the source of its page.
#[tactic(auto, unfolding(crate::specs::Shuffling::bit_in))]
pub fn bit_at(source: &[u8; 32], position: u64) -> u8
    ensures bit { result ≡ bit_in source.now position }
    ensures below { result < 2 }
{
    (source[(position % 256 / 8) as usize] >> (position % 8)) % 2
}

/// The bits of sixteen positions, of which the first is a multiple of sixteen. Its bit is the lowest.
pub fn sixteen_bits(source: &[u8; 32], first: u64) -> u16
    requires { first % 16 ≡ 0 }
    ensures { (j : ℕ) → j < 16 → bit_at result j ≡ bit_in source.now (first + j) }
{
    let byte = (first % 256 / 8) as usize;
    u16::from_le_bytes([source[byte], source[byte + 1]])
}
