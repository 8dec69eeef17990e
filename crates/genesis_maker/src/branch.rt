//! The branch of a leaf, out of the layers.

ghost use Rattle.std.specs.Prelude.{◌≡◌, ◌+◌, ◌≤◌, ◌<◌, ◌^◌, length};
ghost use Rattle.hash_tree.specs.Merkle.{length_chunk as chunk_of};
ghost use Rattle.spec_genesis.specs.Branches.{sibling_of as sibling};
ghost use Rattle.genesis_maker.specs.inside.Layers.{siblings_in};
ghost use Rattle.genesis_maker.specs.inside.Trees.{nodes_of};

use crate::layer::Layer;
use hash_tree::{Root, chunk_root};

/// The place beside a place, under the same parent.
#[tactic(auto, unfolding(spec_genesis::specs::Branches::sibling_of))]
fn sibling_of(place: usize) -> usize
    requires { place < 2 ^ 32 }
    ensures { result ≡ sibling place }
{
    if place % 2 == 1 { place - 1 } else { place + 1 }
}

/// Writes the nodes beside the way of a leaf, from the first layer up, which has this level.
#[tactic(auto, unfolding(crate::specs::inside::Layers::siblings_in))]
pub(crate) fn fill_siblings(out: &mut [Root], layers: &[Layer], level: u32, place: usize)
    requires low { level + length layers.now ≤ 40 }
    requires few { length out.old ≤ length layers.now }
    requires place { place < 2 ^ 32 }
    ensures { out.new ≡ siblings_in (length out.old) level (nodes_of layers.now) place }
{
    match out.split_first_mut() {
        Some((first, rest)) => match layers.split_first() {
            Some((layer, above)) => {
                *first = layer.node(level, sibling_of(place));
                fill_siblings(rest, above, level + 1, place / 2);
            }
            None => unreachable!(),
        },
        None => {}
    }
}

/// A length as a chunk.
#[tactic(auto, unfolding(hash_tree::specs::Merkle::length_chunk, hash_tree::specs::Merkle::padded_chunk, hash_tree::specs::Merkle::uint_to_bytes))]
pub(crate) fn length_chunk(length: u64) -> Root
    ensures { result ≡ chunk_of length }
{
    chunk_root(&length.to_le_bytes())
}
