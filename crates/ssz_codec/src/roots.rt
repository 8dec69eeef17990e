//! The roots of vectors and lists (simple-serialize.md, "Merkleization"): values come from the types above, and the depth
//! of each tree from how many there may be.

ghost use Rattle.std.specs.Prelude.{◌≡◌, ◌≤◌, ◌+◌, ◌*◌, ◌/◌, ◌^◌, length, map};
ghost use Rattle.hash_tree.specs.Merkle.{merkleize, mix_in_length as mixed_in, chunk_count, u64_chunks};
ghost use Rattle.ssz_codec.specs.Basic.{uint64};
ghost use Rattle.ssz_codec.specs.Lists.{vector_codec, fixed_size_list, variable_size_list};

use crate::ssz::{FixedSsz, Ssz};
use hash_tree::{Leaf, Root, depth_of, merkle_leaves, merkle_u64, mix_in_length};

/// The root of a tree with a leaf for each value, of which there may be so many.
#[tactic(auto, unfolding(hash_tree::specs::Merkle::merkleize))]
fn leaves_root<T: Leaf>(values: &[T], limit: u64) -> Root
    requires low { limit ≤ 2 ^ 40 }
    requires fits { length values.now ≤ limit }
    ensures { result ≡ merkleize (map T.root_of values.now) limit }
{
    merkle_leaves(values, depth_of(limit))
}

/// The chunks of so many numbers of 64 bits.
fn number_chunks(count: u64) -> u64
    requires { count ≤ 2 ^ 40 }
    ensures exact { result ≡ chunk_count (8 * count) }
    ensures low { result ≤ 2 ^ 40 }
    ensures enough { (count + 3) / 4 ≤ result }
{
    (8 * count + 31) / 32
}

/// The root of a tree over numbers, of which there may be so many.
#[tactic(auto, unfolding(hash_tree::specs::Merkle::merkleize))]
fn numbers_root(numbers: &[u64], limit: u64) -> Root
    requires low { limit ≤ 2 ^ 40 }
    requires fits { length numbers.now ≤ limit }
    ensures { result ≡ merkleize (u64_chunks numbers.now) (chunk_count (8 * limit)) }
{
    merkle_u64(numbers, depth_of(number_chunks(limit)))
}

/// The root of a vector of so many composite values.
pub fn vector_root<T: FixedSsz>(values: &[T], count: u64) -> Root
    requires low { count ≤ 2 ^ 40 }
    requires len { length values.now ≡ count }
    ensures { result ≡ (vector_codec T.codec count).hash_tree_root values.now }
{
    leaves_root(values, count)
}

/// The root of a list of at most so many composite values of fixed size.
pub fn list_root<T: FixedSsz>(values: &[T], limit: u64) -> Root
    requires low { limit ≤ 2 ^ 40 }
    requires fits { length values.now ≤ limit }
    ensures { result ≡ (fixed_size_list T.codec limit).hash_tree_root values.now }
{
    mix_in_length(&leaves_root(values, limit), values.len() as u64)
}

/// The root of a list of at most so many values of variable size.
pub fn variable_list_root<T: Ssz>(values: &[T], limit: u64) -> Root
    requires low { limit ≤ 2 ^ 40 }
    requires fits { length values.now ≤ limit }
    ensures { result ≡ (variable_size_list T.codec limit).hash_tree_root values.now }
{
    mix_in_length(&leaves_root(values, limit), values.len() as u64)
}

/// The root of a list of at most so many numbers.
#[tactic(auto, unfolding(hash_tree::specs::Merkle::uints_to_bytes))]
pub fn number_list_root(numbers: &[u64], limit: u64) -> Root
    requires low { limit ≤ 2 ^ 40 }
    requires fits { length numbers.now ≤ limit }
    ensures { result ≡ (fixed_size_list uint64 limit).hash_tree_root numbers.now }
{
    mix_in_length(&numbers_root(numbers, limit), numbers.len() as u64)
}
