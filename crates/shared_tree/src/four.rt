//! Chunks of four numbers, which are the leaves of a list of numbers (simple-serialize.md, "pack").
//!
//! Numbers come from `packed_list`, and the tree takes the chunks.

ghost use Rattle.std.specs.Prelude.{◌≡◌, ℕ, ◌+◌, ◌*◌, ◌/◌, ◌<◌, ◌≤◌, ◌∷◌, List, length, get_or, slice_get, slice_set, Some, IfOk};
ghost use Rattle.std.specs.List.{AllByRecursion};
ghost use Rattle.hash_tree.specs.Merkle.{merkle_root, u64_chunks};
ghost use Rattle.ssz_codec.specs.Basic.{uint64};
ghost use Rattle.shared_tree.specs.inside.Fours.{first_four, packed};

use bc_words::NoMemory;
use hash_tree::{Leaf, Root, merkle_u64};
use std::alloc::Global;
use tree_nodes::Tree;

/// Four numbers of 64 bits. Where a list ends within them, the rest is 0.
#[derive(Clone, Copy)]
pub(crate) struct Four {
    numbers: [u64; 4],
}

impl Leaf for Four {
    ghost root_of = { λ four. merkle_root 0 (u64_chunks four.numbers) };

    /// The 32 bytes of the numbers.
    fn root(&self) -> Root {
        merkle_u64(&self.numbers, 0)
    }
}

/// The number at a place, or 0 behind the last.
fn number_at(numbers: &[u64], place: usize) -> u64
    ensures { result ≡ get_or numbers.now place 0 }
{
    numbers.get(place).copied().unwrap_or(0)
}

impl Four {
    /// The first four numbers.
    pub(crate) fn first(numbers: &[u64]) -> Four
        ensures { result ≡ first_four numbers.now }
    {
        Four {
            numbers: [
                number_at(numbers, 0),
                number_at(numbers, 1),
                number_at(numbers, 2),
                number_at(numbers, 3),
            ],
        }
    }

    /// The number at a place.
    pub(crate) fn get(&self, place: u64) -> u64
        requires { place < 4 }
        ensures { slice_get self.now.numbers place ≡ Some result }
    {
        self.numbers[place as usize]
    }

    /// The first number, and those behind it.
    pub(crate) fn split(&self) -> (u64, &[u64])
        ensures { result.0 ∷ result.1.now ≡ self.now.numbers }
    {
        (self.numbers[0], &self.numbers[1..])
    }

    /// The chunk with another number at a place.
    pub(crate) fn with(self, place: u64, number: u64) -> Four
        requires { place < 4 }
        ensures { result.numbers ≡ slice_set self.numbers place number }
    {
        let mut four = self;
        four.numbers[place as usize] = number;
        four
    }
}

/// The chunks of the numbers, each of which is below 2 ^ 64.
pub(crate) fn pack(alloc: Global, numbers: &[u64]) -> Result<Vec<Four>, NoMemory>
    ensures packed { IfOk result (λ fours. fours.items ≡ packed numbers.now) }
    ensures within { AllByRecursion uint64.Within numbers.now }
{
    let count = numbers.len().div_ceil(4);
    let mut fours = Vec::with_capacity(alloc, count)?;
    'fours: for k in 0..count {
        fours.push(Four::first(&numbers[4 * k..]))?;
    }
    Ok(fours)
}

/// The chunk at a place.
pub(crate) fn chunk_at(tree: &Tree<Four>, at: u64) -> Four
    requires { at < length tree.now.1 }
    ensures { slice_get tree.now.1 at ≡ Some result }
{
    match tree.get(at) {
        Some(four) => *four,
        None => unreachable!(),
    }
}
