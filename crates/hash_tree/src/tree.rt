//! The Merkle root of a row of chunks, by halves, down to single chunks.
//!
//! Rows come from `rows`, and hold borrowed slices, so that nothing is copied. What a row lacks up to the tree's
//! width is taken from the table of zero roots, whole subtrees at a time. A subtree of 64 chunks is hashed layer by layer, several
//! pairs at a time, and so is one with room for 8, 16 or 32 where more than half of it is filled.

ghost use Rattle.std.specs.Prelude.{◌≡◌, ℕ, ◌-◌, ◌^◌, ◌<◌, ◌≤◌, List, [], length, get_or, take, drop};
ghost use Rattle.hash_tree.specs.Merkle.{merkle_root};

use crate::pairs::hash_layer;
use crate::{Root, hash_pair, zero_hash};

/// A row of chunks that is cut in two without copying it.
pub trait Row: Copy {
    /// The chunks of the row.
    ghost chunks: { Self → List (List ℕ) };

    /// How many chunks there are.
    fn count(&self) -> usize
        ensures { result ≡ length (chunks self.now) };

    /// The first chunk.
    fn first(&self) -> Root
        requires { 0 < length (chunks self.now) }
        ensures { result ≡ get_or (chunks self.now) 0 result };

    /// The chunks before a place, and those from there on.
    fn split(&self, at: usize) -> (Self, Self)
        requires { at < length (chunks self.now) }
        ensures front { chunks result.0 ≡ take at (chunks self.now) }
        ensures back { chunks result.1 ≡ drop at (chunks self.now) };

    /// Writes all chunks.
    fn write_to(&self, out: &mut [Root])
        requires { length out.old ≡ length (chunks self.now) }
        ensures { out.new ≡ chunks self.now }
    {
        'chunks: for i in 0..out.len() {
            out[i] = self.split(i).1.first();
        }
    }
}

/// The depth of a tree whose layers are hashed whole, where each of its leaves is a chunk.
const WHOLE_DEPTH: u32 = 6;

/// The root of so many nodes, layer by layer.
fn root_of_eight(nodes: &[Root; 8]) -> Root
    ensures { result ≡ merkle_root 3 nodes.now }
{
    let mut second = [[0; 32]; 4];
    hash_layer(nodes, &mut second);
    let mut first = [[0; 32]; 2];
    hash_layer(&second, &mut first);
    hash_pair(&first[0], &first[1])
}

/// The root of so many nodes, likewise.
fn root_of_sixteen(nodes: &[Root; 16]) -> Root
    ensures { result ≡ merkle_root 4 nodes.now }
{
    let mut above = [[0; 32]; 8];
    hash_layer(nodes, &mut above);
    root_of_eight(&above)
}

/// The root of so many nodes, likewise.
fn root_of_thirty_two(nodes: &[Root; 32]) -> Root
    ensures { result ≡ merkle_root 5 nodes.now }
{
    let mut above = [[0; 32]; 16];
    hash_layer(nodes, &mut above);
    root_of_sixteen(&above)
}

/// The root of so many nodes, likewise.
fn root_of_sixty_four(nodes: &[Root; 64]) -> Root
    ensures { result ≡ merkle_root 6 nodes.now }
{
    let mut above = [[0; 32]; 32];
    hash_layer(nodes, &mut above);
    root_of_thirty_two(&above)
}

/// The chunks of the row, and zeros behind them.
#[inline(always)]
fn filled<R: Row, const N: usize>(row: &R) -> [Root; N]
    requires { length (R.chunks row.now) ≤ N }
    ensures { (depth : ℕ) → 2 ^ depth ≡ N → merkle_root depth result ≡ merkle_root depth (R.chunks row.now) }
{
    let mut leaves = [[0; 32]; N];
    row.write_to(&mut leaves[..row.count()]);
    leaves
}

/// The root of the tree of this depth, from 3 to 6, over the row's chunks, layer by layer.
fn layered_root<R: Row>(row: &R, depth: u32) -> Root
    requires low { 3 ≤ depth }
    requires high { depth ≤ 6 }
    requires fits { length (R.chunks row.now) ≤ 2 ^ depth }
    ensures { result ≡ merkle_root depth (R.chunks row.now) }
{
    if depth == 3 {
        return root_of_eight(&filled(row));
    }
    if depth == 4 {
        return root_of_sixteen(&filled(row));
    }
    if depth == 5 {
        return root_of_thirty_two(&filled(row));
    }
    root_of_sixty_four(&filled(row))
}

/// How many chunks one half of a tree holds.
fn half_width(depth: u32) -> usize
    requires inner { 0 < depth }
    requires low { depth ≤ 40 }
    ensures { result ≡ 2 ^ (depth - 1) }
{
    1 << (depth - 1)
}

/// The root of the row's chunks in a tree of this depth.
pub fn merkle_of<R: Row>(row: &R, depth: u32) -> Root
    requires low { depth ≤ 40 }
    requires fits { length (R.chunks row.now) ≤ 2 ^ depth }
    ensures { result ≡ merkle_root depth (R.chunks row.now) }
{
    if row.count() == 0 {
        return zero_hash(depth);
    }
    if depth == 0 {
        return row.first();
    }
    if depth == WHOLE_DEPTH && row.count() == 64 {
        return layered_root(row, depth);
    }
    let half = half_width(depth);
    if row.count() <= half {
        return hash_pair(&merkle_of(row, depth - 1), &zero_hash(depth - 1));
    }
    if depth >= 3 && depth < WHOLE_DEPTH {
        return layered_root(row, depth);
    }
    let (left, right) = row.split(half);
    hash_pair(&merkle_of(&left, depth - 1), &merkle_of(&right, depth - 1))
}
