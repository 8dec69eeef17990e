//! The roots of a block's attestations, layer by layer: what the trees of up to eight attestations have at the same height is hashed
//! side by side.
//!
//! Attestations come from a block, and their roots go to `rooted_attestation`. Bits that fill more than two chunks are hashed alone.

ghost use Rattle.std.specs.Prelude.{◌≡◌, ◌*◌, ◌≤◌, length, map};
ghost use Rattle.std.specs.List.{flat_map};
ghost use Rattle.beacon_types.specs.Blocks.{attestation_codec};
ghost use Rattle.beacon_types.specs.inside.AttestationChunks.{signature_chunks, signature_chunk_root, signature_root, checkpoint_chunks, single_chunks, two_chunks_root, bits_root};
ghost use Rattle.beacon_types.specs.inside.AttestationChunks.{first_nodes, first_roots, second_nodes, second_roots, third_nodes, third_roots, fourth_nodes, fourth_roots, field_chunks, halves_of};

use crate::attestation::Attestation;
use hash_tree::{Leaf, Root, chunk_root, hash_layer, zero_hash};

/// Writes the chunks of an attestation's signature, and a zero chunk behind them.
fn write_signature(attestation: &Attestation, out: &mut [Root])
    requires { length out.old ≡ 4 }
    ensures { out.new ≡ signature_chunks attestation.now }
{
    let signature = &attestation.signature;
    out.copy_from_slice(&[
        chunk_root(&signature[..32]),
        chunk_root(&signature[32..64]),
        chunk_root(&signature[64..]),
        [0; 32],
    ]);
}

/// Writes the chunks below the roots of an attestation's checkpoints.
#[tactic(auto, unfolding(crate::specs::inside::AttestationChunks::checkpoint_chunks))]
fn write_checkpoint_chunks(attestation: &Attestation, out: &mut [Root])
    requires { length out.old ≡ 4 }
    ensures { out.new ≡ checkpoint_chunks attestation.now }
{
    let (source, target) = (&attestation.content.source, &attestation.content.target);
    out.copy_from_slice(&[
        source.epoch.root(),
        source.root,
        target.epoch.root(),
        target.root,
    ]);
}

/// Writes the chunks of an attestation's slot and its index, and the two of its first 512 bits.
#[tactic(auto, unfolding(crate::specs::inside::AttestationChunks::single_chunks, crate::specs::inside::AttestationChunks::bits_chunks))]
fn write_single_chunks(attestation: &Attestation, out: &mut [Root])
    requires { length out.old ≡ 4 }
    ensures { out.new ≡ single_chunks attestation.now }
{
    let content = &attestation.content;
    let [first, second] = attestation.aggregation_bits.as_bits().first_chunks();
    out.copy_from_slice(&[content.slot.root(), content.index.root(), first, second]);
}

/// Writes an attestation's nodes of the first layer.
#[tactic(auto, unfolding(crate::specs::inside::AttestationChunks::first_nodes))]
fn write_first_nodes(attestation: &Attestation, out: &mut [Root])
    requires { length out.old ≡ 12 }
    ensures { out.new ≡ first_nodes attestation.now }
{
    let (signature, rest) = out.split_at_mut(4);
    let (checkpoints, singles) = rest.split_at_mut(4);
    write_signature(attestation, signature);
    write_checkpoint_chunks(attestation, checkpoints);
    write_single_chunks(attestation, singles);
}

/// Writes the roots of the first layer of at most eight attestations.
fn write_first_roots(attestations: &[Attestation], out: &mut [Root])
    requires few { length attestations.now ≤ 8 }
    requires out { length out.old ≡ 6 * length attestations.now }
    ensures { out.new ≡ flat_map first_roots attestations.now }
{
    let count = attestations.len();
    let mut nodes = [[0; 32]; 96];
    'layer: for i in 0..count {
        write_first_nodes(&attestations[i], &mut nodes[12 * i..12 * i + 12]);
    }
    hash_layer(&nodes[..12 * count], out);
}

/// Writes an attestation's nodes of the second layer, over its roots of the first.
#[tactic(auto, unfolding(crate::specs::inside::AttestationChunks::first_roots, crate::specs::inside::AttestationChunks::second_nodes, crate::specs::inside::AttestationChunks::signature_halves))]
fn write_second_nodes(attestation: &Attestation, firsts: &[Root], out: &mut [Root])
    requires firsts { firsts.now ≡ first_roots attestation.now }
    requires out { length out.old ≡ 8 }
    ensures { out.new ≡ second_nodes attestation.now }
{
    out.copy_from_slice(&[
        firsts[0],
        firsts[1],
        attestation.content.beacon_block_root,
        firsts[2],
        firsts[3],
        [0; 32],
        firsts[5],
        zero_hash(1),
    ]);
}

/// Writes the roots of the second layer of at most eight attestations, over those of the first.
fn write_second_roots(attestations: &[Attestation], firsts: &[Root], out: &mut [Root])
    requires few { length attestations.now ≤ 8 }
    requires firsts { firsts.now ≡ flat_map first_roots attestations.now }
    requires out { length out.old ≡ 4 * length attestations.now }
    ensures { out.new ≡ flat_map second_roots attestations.now }
{
    let count = attestations.len();
    let mut nodes = [[0; 32]; 64];
    'layer: for i in 0..count {
        write_second_nodes(
            &attestations[i],
            &firsts[6 * i..6 * i + 6],
            &mut nodes[8 * i..8 * i + 8],
        );
    }
    hash_layer(&nodes[..8 * count], out);
}

/// Writes an attestation's nodes of the third layer, over its roots of the first and the second.
#[tactic(auto, unfolding(crate::specs::inside::AttestationChunks::first_roots, crate::specs::inside::AttestationChunks::second_roots, crate::specs::inside::AttestationChunks::third_nodes, crate::specs::inside::AttestationChunks::signature_halves))]
fn write_third_nodes(attestation: &Attestation, firsts: &[Root], seconds: &[Root], out: &mut [Root])
    requires firsts { firsts.now ≡ first_roots attestation.now }
    requires seconds { seconds.now ≡ second_roots attestation.now }
    requires out { length out.old ≡ 6 }
    ensures { out.new ≡ third_nodes attestation.now }
{
    out.copy_from_slice(&[
        firsts[4],
        seconds[1],
        seconds[2],
        zero_hash(1),
        seconds[3],
        zero_hash(2),
    ]);
}

/// Writes the roots of the third layer of at most eight attestations, over those of the first and the second.
fn write_third_roots(
    attestations: &[Attestation],
    firsts: &[Root],
    seconds: &[Root],
    out: &mut [Root],
)
    requires few { length attestations.now ≤ 8 }
    requires firsts { firsts.now ≡ flat_map first_roots attestations.now }
    requires seconds { seconds.now ≡ flat_map second_roots attestations.now }
    requires out { length out.old ≡ 3 * length attestations.now }
    ensures { out.new ≡ flat_map third_roots attestations.now }
{
    let count = attestations.len();
    let mut nodes = [[0; 32]; 48];
    'layer: for i in 0..count {
        write_third_nodes(
            &attestations[i],
            &firsts[6 * i..6 * i + 6],
            &seconds[4 * i..4 * i + 4],
            &mut nodes[6 * i..6 * i + 6],
        );
    }
    hash_layer(&nodes[..6 * count], out);
}

/// Writes an attestation's nodes of the fourth layer, over its roots of the third.
#[tactic(auto, unfolding(crate::specs::inside::AttestationChunks::third_roots, crate::specs::inside::AttestationChunks::fourth_nodes, crate::specs::inside::AttestationChunks::content_halves))]
fn write_fourth_nodes(attestation: &Attestation, thirds: &[Root], out: &mut [Root])
    requires thirds { thirds.now ≡ third_roots attestation.now }
    requires out { length out.old ≡ 4 }
    ensures { out.new ≡ fourth_nodes attestation.now }
{
    out.copy_from_slice(&[
        thirds[0],
        thirds[1],
        thirds[2],
        attestation.aggregation_bits.len().root(),
    ]);
}

/// Writes the roots of the fourth layer of at most eight attestations, over those of the third.
fn write_fourth_roots(attestations: &[Attestation], thirds: &[Root], out: &mut [Root])
    requires few { length attestations.now ≤ 8 }
    requires thirds { thirds.now ≡ flat_map third_roots attestations.now }
    requires out { length out.old ≡ 2 * length attestations.now }
    ensures { out.new ≡ flat_map fourth_roots attestations.now }
{
    let count = attestations.len();
    let mut nodes = [[0; 32]; 32];
    'layer: for i in 0..count {
        write_fourth_nodes(
            &attestations[i],
            &thirds[3 * i..3 * i + 3],
            &mut nodes[4 * i..4 * i + 4],
        );
    }
    hash_layer(&nodes[..4 * count], out);
}

/// The root of an attestation's bits: this one, where its first two chunks hold them all.
fn root_of_bits(attestation: &Attestation, two_chunks: &Root) -> Root
    requires { two_chunks.now ≡ two_chunks_root attestation.now }
    ensures { result ≡ bits_root attestation.now }
{
    if attestation.aggregation_bits.len() <= 512 {
        *two_chunks
    } else {
        attestation.aggregation_bits.root()
    }
}

/// The root of an attestation's signature is that over its chunks, since it has 96 bytes.
fn is_root_of_signature(attestation: &Attestation)
    ensures { signature_chunk_root attestation.now ≡ signature_root attestation.now }
{
    let _long = &attestation.signature;
}

/// Writes the chunks below an attestation's root, over its roots of the second and the fourth layer.
#[tactic(auto, unfolding(crate::specs::inside::AttestationChunks::second_roots, crate::specs::inside::AttestationChunks::fourth_roots, crate::specs::inside::AttestationChunks::field_chunks))]
fn write_fields(attestation: &Attestation, seconds: &[Root], fourths: &[Root], out: &mut [Root])
    requires seconds { seconds.now ≡ second_roots attestation.now }
    requires fourths { fourths.now ≡ fourth_roots attestation.now }
    requires out { length out.old ≡ 4 }
    ensures { out.new ≡ field_chunks attestation.now }
{
    is_root_of_signature(attestation);
    out.copy_from_slice(&[
        root_of_bits(attestation, &fourths[1]),
        fourths[0],
        seconds[0],
        [0; 32],
    ]);
}

/// Writes the two nodes below the root of each of at most eight attestations, over their roots of the second and the fourth layer.
fn write_halves(attestations: &[Attestation], seconds: &[Root], fourths: &[Root], out: &mut [Root])
    requires few { length attestations.now ≤ 8 }
    requires seconds { seconds.now ≡ flat_map second_roots attestations.now }
    requires fourths { fourths.now ≡ flat_map fourth_roots attestations.now }
    requires out { length out.old ≡ 2 * length attestations.now }
    ensures { out.new ≡ flat_map halves_of attestations.now }
{
    let count = attestations.len();
    let mut nodes = [[0; 32]; 32];
    'layer: for i in 0..count {
        write_fields(
            &attestations[i],
            &seconds[4 * i..4 * i + 4],
            &fourths[2 * i..2 * i + 2],
            &mut nodes[4 * i..4 * i + 4],
        );
    }
    hash_layer(&nodes[..4 * count], out);
}

/// Writes the two nodes below the root of each of at most eight attestations: that over its bits and its data, and that over its
/// signature. It takes no memory.
pub(crate) fn write_attestation_halves(attestations: &[Attestation], out: &mut [Root])
    requires few { length attestations.now ≤ 8 }
    requires out { length out.old ≡ 2 * length attestations.now }
    ensures { out.new ≡ flat_map halves_of attestations.now }
{
    let count = attestations.len();
    let mut room = [[0; 32]; 48];
    let firsts = &mut room[..6 * count];
    write_first_roots(attestations, firsts);
    let mut room = [[0; 32]; 32];
    let seconds = &mut room[..4 * count];
    write_second_roots(attestations, firsts, seconds);
    let mut room = [[0; 32]; 24];
    let thirds = &mut room[..3 * count];
    write_third_roots(attestations, firsts, seconds, thirds);
    let mut room = [[0; 32]; 16];
    let fourths = &mut room[..2 * count];
    write_fourth_roots(attestations, thirds, fourths);
    write_halves(attestations, seconds, fourths, out);
}

/// Writes the root of each attestation, of which these are the two nodes below it.
pub(crate) fn write_attestation_roots(
    attestations: &[Attestation],
    halves: &[Root],
    out: &mut [Root],
)
    requires halves { halves.now ≡ flat_map halves_of attestations.now }
    requires out { length out.old ≡ length attestations.now }
    ensures { out.new ≡ map attestation_codec.hash_tree_root attestations.now }
{
    hash_layer(halves, out);
}
