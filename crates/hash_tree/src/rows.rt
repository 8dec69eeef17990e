//! Rows of chunks over borrowed slices: of items, of bytes and of numbers.
//!
//! They come from the calls of `roots`, and `tree` cuts them down to single chunks.

ghost use Rattle.std.specs.Prelude.{◌≡◌, ℕ, ◌-◌, ◌^◌, ◌<◌, ◌≤◌, List, ◌++◌, length, get_or, take, drop, map};
ghost use Rattle.hash_tree.specs.Merkle.{byte_chunks, uint_to_bytes, uints_to_bytes};

use crate::Root;
use crate::leaf::Leaf;
use crate::pair::chunk_root;
use crate::tree::Row;

/// Items, each of which has a root.
#[derive_where(Clone, Copy)]
pub struct LeafRow<'a, T: Leaf> {
    pub items: &'a [T],
}

impl<'a, T: Leaf> Row for LeafRow<'a, T> {
    ghost chunks = { λ row. map T.root_of row.items.now };

    fn count(&self) -> usize {
        self.items.len()
    }

    fn first(&self) -> Root {
        self.items[0].root()
    }

    fn split(&self, at: usize) -> (Self, Self) {
        let (front, back) = self.items.split_at(at);
        (LeafRow { items: front }, LeafRow { items: back })
    }

    fn write_to(&self, out: &mut [Root]) {
        T::write_roots(self.items, out);
    }
}

/// Bytes, 32 to a chunk.
#[derive(Clone, Copy)]
pub struct ByteRow<'a> {
    pub bytes: &'a [u8],
}

impl<'a> Row for ByteRow<'a> {
    ghost chunks = { λ row. byte_chunks row.bytes.now };

    #[tactic(auto, using(crate::proofs::Chunks::chunk_count))]
    fn count(&self) -> usize {
        self.bytes.len().div_ceil(32)
    }

    fn first(&self) -> Root {
        if self.bytes.len() < 32 {
            return chunk_root(self.bytes);
        }
        chunk_root(&self.bytes[..32])
    }

    fn split(&self, at: usize) -> (Self, Self) {
        let (front, back) = self.bytes.split_at(at * 32);
        (ByteRow { bytes: front }, ByteRow { bytes: back })
    }
}

/// Numbers of 64 bits, four to a chunk.
#[derive(Clone, Copy)]
pub struct NumberRow<'a> {
    pub numbers: &'a [u64],
}

impl<'a> Row for NumberRow<'a> {
    ghost chunks = { λ row. byte_chunks (uints_to_bytes row.numbers.now) };

    #[tactic(auto, using(crate::proofs::Chunks::number_chunk_facts))]
    fn count(&self) -> usize {
        self.numbers.len().div_ceil(4)
    }

    fn first(&self) -> Root {
        four_numbers(
            number_at(self.numbers, 0),
            number_at(self.numbers, 1),
            number_at(self.numbers, 2),
            number_at(self.numbers, 3),
        )
    }

    fn split(&self, at: usize) -> (Self, Self) {
        let (front, back) = self.numbers.split_at(at * 4);
        (NumberRow { numbers: front }, NumberRow { numbers: back })
    }
}

/// The number at a place, or 0 behind the last.
fn number_at(numbers: &[u64], place: usize) -> u64
    ensures { result ≡ get_or numbers.now place 0 }
{
    numbers.get(place).copied().unwrap_or(0)
}

/// The chunk of four numbers.
#[tactic(auto, unfolding(crate::specs::Merkle::uint_to_bytes))]
fn four_numbers(a: u64, b: u64, c: u64, d: u64) -> Root
    ensures { result ≡ uint_to_bytes a ++ (uint_to_bytes b ++ (uint_to_bytes c ++ uint_to_bytes d)) }
{
    let mut chunk = [0; 32];
    chunk[..8].copy_from_slice(&a.to_le_bytes());
    chunk[8..16].copy_from_slice(&b.to_le_bytes());
    chunk[16..24].copy_from_slice(&c.to_le_bytes());
    chunk[24..].copy_from_slice(&d.to_le_bytes());
    chunk
}
