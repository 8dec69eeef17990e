//! The hashes of any number of pairs.

ghost use Rattle.std.specs.Prelude.{◌≡◌, ℕ, ◌+◌, ◌*◌, ◌<◌, ◌≤◌, [], length, slice_index_or};
ghost use Rattle.sha2.specs.Sha256.{sha256};
ghost use Rattle.hash_tree.specs.Pairs.{message, hashes_of, parents};

use crate::single::hash_pair;
use crate::vectors::{hash_eight, hash_four};

/// The hash of one pair.
fn hash_one(pair: &[[u8; 32]; 2]) -> [u8; 32]
    ensures { result ≡ sha256 (message pair.now) }
{
    hash_pair(&pair[0], &pair[1])
}

/// Writes the hashes of at most four pairs, through four lanes, of which some may be idle.
fn hash_in_four(pairs: &[[[u8; 32]; 2]], out: &mut [[u8; 32]])
    requires few { length pairs.now ≤ 4 }
    requires out { length out.old ≡ length pairs.now }
    ensures { (k : ℕ) → k < length pairs.now → slice_index_or out.new k [] ≡ sha256 (message (slice_index_or pairs.now k [])) }
{
    let mut room = [[[0; 32]; 2]; 4];
    room[..pairs.len()].copy_from_slice(pairs);
    let mut hashes = [[0; 32]; 4];
    hash_four(&room, &mut hashes);
    out.copy_from_slice(&hashes[..out.len()]);
}

/// Writes the hashes of at most eight pairs, through eight lanes, of which some may be idle.
fn hash_in_eight(pairs: &[[[u8; 32]; 2]], out: &mut [[u8; 32]])
    requires few { length pairs.now ≤ 8 }
    requires out { length out.old ≡ length pairs.now }
    ensures { (k : ℕ) → k < length pairs.now → slice_index_or out.new k [] ≡ sha256 (message (slice_index_or pairs.now k [])) }
{
    let mut room = [[[0; 32]; 2]; 8];
    room[..pairs.len()].copy_from_slice(pairs);
    let mut hashes = [[0; 32]; 8];
    hash_eight(&room, &mut hashes);
    out.copy_from_slice(&hashes[..out.len()]);
}

/// Writes the hashes of fewer than eight pairs: one alone, and more through lanes, some of which are idle.
fn hash_few(pairs: &[[[u8; 32]; 2]], out: &mut [[u8; 32]])
    requires few { length pairs.now < 8 }
    requires out { length out.old ≡ length pairs.now }
    ensures { (k : ℕ) → k < length pairs.now → slice_index_or out.new k [] ≡ sha256 (message (slice_index_or pairs.now k [])) }
{
    if pairs.len() > 4 {
        hash_in_eight(pairs, out);
    } else if pairs.len() > 2 {
        hash_in_four(pairs, out);
    } else {
        'pairs: for k in 0..pairs.len() {
            out[k] = hash_one(&pairs[k]);
        }
    }
}

/// Writes the hash of each pair. Eight at a time go through lanes, and so does the rest where it is more than two.
fn hash_each(pairs: &[[[u8; 32]; 2]], out: &mut [[u8; 32]])
    requires { length out.old ≡ length pairs.now }
    ensures each { (k : ℕ) → k < length pairs.now → slice_index_or out.new k [] ≡ sha256 (message (slice_index_or pairs.now k [])) }
    ensures room { length out.new ≡ length pairs.now }
{
    let whole = pairs.len() / 8;
    'eights: for i in 0..whole {
        hash_eight(&pairs[8 * i..8 * i + 8], &mut out[8 * i..8 * i + 8]);
    }
    hash_few(&pairs[8 * whole..], &mut out[8 * whole..]);
}

/// Writes the hash of each pair (simple-serialize.md, "Merkleization": the parents of a layer of nodes). It takes no memory.
pub fn hash_pairs(pairs: &[[[u8; 32]; 2]], out: &mut [[u8; 32]])
    requires { length out.old ≡ length pairs.now }
    ensures { out.new ≡ hashes_of pairs.now }
{
    hash_each(pairs, out);
}

/// Writes the parents of a layer of nodes. It takes no memory.
#[tactic(auto, using(crate::proofs::LayerPairs::pairs_of))]
pub fn hash_layer(nodes: &[[u8; 32]], out: &mut [[u8; 32]])
    requires { length nodes.now ≡ 2 * length out.old }
    ensures { out.new ≡ parents nodes.now }
{
    let (pairs, _) = nodes.as_chunks::<2>();
    hash_pairs(pairs, out);
}
