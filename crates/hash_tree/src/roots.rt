//! Merkle roots of slices, packed as simple-serialize.md says.
//!
//! Slices come from the containers and lists above, which mix in lengths themselves. Nothing is copied.

ghost use Rattle.std.specs.Prelude.{◌≡◌, ◌+◌, ◌/◌, ◌^◌, ◌≤◌, length, map};
ghost use Rattle.hash_tree.specs.Merkle.{merkle_root, merkleize, chunk_count, byte_chunks, u64_chunks};

use crate::Root;
use crate::depth::depth_of;
use crate::leaf::Leaf;
use crate::rows::{ByteRow, LeafRow, NumberRow};
use crate::tree::merkle_of;

/// The root of the chunks in a tree of this depth (simple-serialize.md, "merkleize").
pub fn merkle(chunks: &[Root], depth: u32) -> Root
    requires low { depth ≤ 40 }
    requires fits { length chunks.now ≤ 2 ^ depth }
    ensures { result ≡ merkle_root depth chunks.now }
{
    merkle_leaves(chunks, depth)
}

/// The root of a tree of this depth over the roots of the items.
pub fn merkle_leaves<T: Leaf>(items: &[T], depth: u32) -> Root
    requires low { depth ≤ 40 }
    requires fits { length items.now ≤ 2 ^ depth }
    ensures { result ≡ merkle_root depth (map T.root_of items.now) }
{
    let row = LeafRow { items };
    merkle_of(&row, depth)
}

/// The root of a tree of this depth over the bytes, packed into chunks.
#[tactic(auto, using(crate::proofs::Chunks::chunk_count))]
pub fn merkle_bytes(bytes: &[u8], depth: u32) -> Root
    requires low { depth ≤ 40 }
    requires fits { (length bytes.now + 31) / 32 ≤ 2 ^ depth }
    ensures { result ≡ merkle_root depth (byte_chunks bytes.now) }
{
    let row = ByteRow { bytes };
    merkle_of(&row, depth)
}

/// The root of a tree of this depth over the numbers, packed four to a chunk.
#[tactic(auto, using(crate::proofs::Chunks::number_chunk_facts))]
pub fn merkle_u64(numbers: &[u64], depth: u32) -> Root
    requires low { depth ≤ 40 }
    requires fits { (length numbers.now + 3) / 4 ≤ 2 ^ depth }
    ensures { result ≡ merkle_root depth (u64_chunks numbers.now) }
{
    let row = NumberRow { numbers };
    merkle_of(&row, depth)
}

/// The root of a container from the roots of its fields, in the tree over as many leaves as it has fields
/// (simple-serialize.md, "Merkleization").
#[tactic(auto, unfolding(crate::specs::Merkle::merkleize))]
pub fn fields_root(roots: &[Root]) -> Root
    requires few { length roots.now ≤ 2 ^ 40 }
    ensures { result ≡ merkleize roots.now (length roots.now) }
{
    merkle(roots, depth_of(roots.len() as u64))
}

/// The root of bytes, packed into as many chunks as they need (simple-serialize.md, "Merkleization": a vector of bytes).
#[tactic(auto, unfolding(crate::specs::Merkle::merkleize))]
pub fn bytes_root(bytes: &[u8]) -> Root
    requires few { length bytes.now ≤ 2 ^ 40 }
    ensures { result ≡ merkleize (byte_chunks bytes.now) (chunk_count (length bytes.now)) }
{
    merkle_bytes(bytes, depth_of(bytes.len().div_ceil(32) as u64))
}
