//! Merkle roots over chunks of 32 bytes, as simple-serialize.md defines them, and hashes of many pairs side by side.
//!
//! Chunks come from the SSZ containers above, and roots go back to them. `sha2` says what a hash is; here it is computed on
//! vectors of four or eight words, one lane for each message, and one pair alone in scalar words. No call takes memory.
#![tactic(auto)]

mod constants;
mod depth;
mod leaf;
mod pair;
mod pairs;
mod roots;
mod rounds;
mod rows;
mod single;
mod sources;
mod tree;
mod vectors;
mod words;
mod zero;

pub use depth::depth_of;
pub use leaf::{Leaf, bits_byte};
pub use pair::{chunk_root, hash_pair, mix_in_length};
pub use pairs::{hash_layer, hash_pairs};
pub use roots::{bytes_root, fields_root, merkle, merkle_bytes, merkle_leaves, merkle_u64};
pub use rounds::schedule_room;
pub use sources::Seed;
pub use zero::zero_hash;

/// A chunk, or the root of a tree of chunks (simple-serialize.md, "Merkleization").
pub type Root = [u8; 32];
