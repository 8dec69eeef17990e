//! The hash of two nodes, and the chunks of short values.
//!
//! Nodes come from `tree` and from the containers above; every inner node of a tree is a `hash_pair`.

ghost use Rattle.std.specs.Prelude.{◌≡◌, ◌≤◌, ◌++◌, length};
ghost use Rattle.hash_tree.specs.Merkle.{hash, padded_chunk};
ghost use Rattle.hash_tree.specs.Merkle.{mix_in_length as mixed_in};

use crate::Root;

/// The hash of two nodes that stand side by side.
#[tactic(auto, unfolding(crate::specs::Merkle::hash))]
pub fn hash_pair(a: &Root, b: &Root) -> Root
    ensures { result ≡ hash (a.now ++ b.now) }
{
    crate::single::hash_pair(a, b)
}

/// The chunk of at most 32 bytes: the bytes, filled up with zeros (simple-serialize.md, "pack").
#[tactic(auto, unfolding(crate::specs::Merkle::padded_chunk))]
pub fn chunk_root(bytes: &[u8]) -> Root
    requires { length bytes.now ≤ 32 }
    ensures { result ≡ padded_chunk bytes.now }
{
    let mut chunk = [0; 32];
    chunk[..bytes.len()].copy_from_slice(bytes);
    chunk
}

/// The root of a list, from the root of its chunks and the number of its items (simple-serialize.md,
/// "mix_in_length").
#[tactic(auto, unfolding(crate::specs::Merkle::mix_in_length, crate::specs::Merkle::length_chunk, crate::specs::Merkle::uint_to_bytes))]
pub fn mix_in_length(root: &Root, length: u64) -> Root
    ensures { result ≡ mixed_in root.now length }
{
    let mut chunk = [0; 32];
    chunk[..8].copy_from_slice(&length.to_le_bytes());
    hash_pair(root, &chunk)
}
