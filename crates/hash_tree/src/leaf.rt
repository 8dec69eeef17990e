//! Values that have a root, as the items of lists and vectors and the fields of containers do.
//!
//! Basic values have theirs here; the containers above implement `Leaf` too, and `rows` and shared trees take the roots.

ghost use Rattle.std.specs.Prelude.{◌≡◌, ℕ, List, [], ◌∷◌, length, map};
ghost use Rattle.hash_tree.specs.Merkle.{padded_chunk, uint_to_bytes, bool_bytes, bits_number, bits_bytes, byte_chunks, chunk_count, bit_chunk_count, merkleize};

use crate::Root;
use crate::pair::chunk_root;
use crate::roots::bytes_root;

/// A value that has a root (simple-serialize.md, "Merkleization").
pub trait Leaf {
    /// The root by shape of what the value stands for.
    ghost root_of: { Self → List ℕ };

    /// The root of the value. It takes no memory.
    fn root(&self) -> Root
        ensures { result ≡ root_of self.now };

    /// Writes the root of each of the values. A type whose values have several chunks can hash those of many values side by
    /// side. It takes no memory.
    fn write_roots(values: &[Self], out: &mut [Root])
        requires { length out.old ≡ length values.now }
        ensures { out.new ≡ map root_of values.now }
    {
        'each: for i in 0..values.len() {
            out[i] = values[i].root();
        }
    }
}

impl Leaf for u64 {
    ghost root_of = { λ n. padded_chunk (uint_to_bytes n) };

    #[tactic(auto, unfolding(crate::specs::Merkle::uint_to_bytes))]
    fn root(&self) -> Root {
        chunk_root(&self.to_le_bytes())
    }
}

impl Leaf for bool {
    ghost root_of = { λ b. padded_chunk (bool_bytes b) };

    fn root(&self) -> Root {
        chunk_root(&[u8::from(*self)])
    }
}

impl Leaf for Root {
    ghost root_of = { λ chunk. chunk };

    fn root(&self) -> Root {
        *self
    }
}

impl Leaf for [u8; 4] {
    ghost root_of = { λ bytes. merkleize (byte_chunks bytes) (chunk_count 4) };

    fn root(&self) -> Root {
        bytes_root(self)
    }
}

impl Leaf for [u8; 48] {
    ghost root_of = { λ bytes. merkleize (byte_chunks bytes) (chunk_count 48) };

    fn root(&self) -> Root {
        bytes_root(self)
    }
}

impl Leaf for [u8; 96] {
    ghost root_of = { λ bytes. merkleize (byte_chunks bytes) (chunk_count 96) };

    fn root(&self) -> Root {
        bytes_root(self)
    }
}

/// The byte of four bits, the lowest first (simple-serialize.md, "Bitvector[N]").
pub fn bits_byte(bits: &[bool; 4]) -> u8
    ensures { result ≡ bits_number bits.now }
{
    let [a, b, c, d] = *bits;
    u8::from(a) + 2 * (u8::from(b) + 2 * (u8::from(c) + 2 * u8::from(d)))
}

impl Leaf for [bool; 4] {
    ghost root_of = { λ bits. merkleize (byte_chunks (bits_bytes bits)) (bit_chunk_count 4) };

    #[tactic(auto, using(crate::proofs::Bits::bits_bytes_one))]
    fn root(&self) -> Root {
        bytes_root(&[bits_byte(self)])
    }
}
