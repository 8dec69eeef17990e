//! Numbers, booleans, and vectors of bytes and bits.

ghost use Rattle.std.specs.Prelude.{◌≡◌, length, nat_lt, ◌^◌, ◌<◌, refl};
ghost use Rattle.ssz_codec.specs.Codec.{Codec};
ghost use Rattle.ssz_codec.specs.Basic.{uint64, boolean, bytes_codec, bytes4, bytes32, bytes48, bytes96, bitvector, number_bits};
ghost use Rattle.hash_tree.specs.Merkle.{bits_number};
ghost use Rattle.ssz_codec.specs.laws.Basic.{uint64_lawful, boolean_lawful, bytes_lawful, bytes32_lawful, bytes32_is_fixed, bitvector_lawful};
ghost use Rattle.ssz_codec.specs.Reads.{ReadsAs};

use crate::fault::SszFault;
use crate::layout::Field;
use crate::ssz::{FixedSsz, Ssz};
use crate::writer::Writer;
use bc_words::NoMemory;
use hash_tree::{Leaf, bits_byte};
use std::alloc::Global;

impl Ssz for u64 {
    ghost codec = { uint64 };

    fn field() -> Field {
        Field::Fixed(8)
    }

    fn parse(_alloc: Global, bytes: &[u8]) -> Result<u64, SszFault> {
        match bytes {
            [a, b, c, d, e, f, g, h] => Ok(u64::from_le_bytes([*a, *b, *c, *d, *e, *f, *g, *h])),
            _ => Err(SszFault::NotAWriting),
        }
    }

    fn append_to(&self, out: &mut Writer) -> Result<(), NoMemory> {
        out.put_u64(*self)
    }

    ghost lawful = { uint64_lawful };

    ghost roots = { refl };
}

impl Ssz for bool {
    ghost codec = { boolean };

    fn field() -> Field {
        Field::Fixed(1)
    }

    fn parse(_alloc: Global, bytes: &[u8]) -> Result<bool, SszFault> {
        match bytes {
            [0] => Ok(false),
            [1] => Ok(true),
            _ => Err(SszFault::NotAWriting),
        }
    }

    fn append_to(&self, out: &mut Writer) -> Result<(), NoMemory> {
        out.put_bool(*self)
    }

    ghost lawful = { boolean_lawful };

    ghost roots = { refl };
}

/// The vector of N bytes that these are.
fn byte_vector<const N: usize>(bytes: &[u8]) -> Result<[u8; N], SszFault>
    ensures { ReadsAs result ((bytes_codec N).deserialize bytes.now) }
{
    match <[u8; N]>::try_from(bytes) {
        Ok(vector) => Ok(vector),
        Err(_) => Err(SszFault::NotAWriting),
    }
}

impl Ssz for [u8; 4] {
    ghost codec = { bytes4 };

    fn field() -> Field {
        Field::Fixed(4)
    }

    fn parse(_alloc: Global, bytes: &[u8]) -> Result<[u8; 4], SszFault> {
        byte_vector::<4>(bytes)
    }

    fn append_to(&self, out: &mut Writer) -> Result<(), NoMemory> {
        out.put_bytes(self)
    }

    ghost lawful = { bytes_lawful 4 };

    ghost roots = { refl };
}

impl Ssz for [u8; 32] {
    ghost codec = { bytes32 };

    fn field() -> Field {
        Field::Fixed(32)
    }

    fn parse(_alloc: Global, bytes: &[u8]) -> Result<[u8; 32], SszFault> {
        byte_vector::<32>(bytes)
    }

    fn append_to(&self, out: &mut Writer) -> Result<(), NoMemory> {
        out.put_bytes(self)
    }

    ghost lawful = { bytes32_lawful };

    ghost roots = { refl };
}

impl FixedSsz for [u8; 32] {
    ghost is_fixed = { bytes32_is_fixed };

    ghost composite = { refl };
}

impl Ssz for [u8; 48] {
    ghost codec = { bytes48 };

    fn field() -> Field {
        Field::Fixed(48)
    }

    fn parse(_alloc: Global, bytes: &[u8]) -> Result<[u8; 48], SszFault> {
        byte_vector::<48>(bytes)
    }

    fn append_to(&self, out: &mut Writer) -> Result<(), NoMemory> {
        out.put_bytes(self)
    }

    ghost lawful = { bytes_lawful 48 };

    ghost roots = { refl };
}

impl Ssz for [u8; 96] {
    ghost codec = { bytes96 };

    fn field() -> Field {
        Field::Fixed(96)
    }

    fn parse(_alloc: Global, bytes: &[u8]) -> Result<[u8; 96], SszFault> {
        byte_vector::<96>(bytes)
    }

    fn append_to(&self, out: &mut Writer) -> Result<(), NoMemory> {
        out.put_bytes(self)
    }

    ghost lawful = { bytes_lawful 96 };

    ghost roots = { refl };
}

impl Ssz for [bool; 4] {
    ghost codec = { bitvector 4 };

    fn field() -> Field {
        Field::Fixed(1)
    }

    fn parse(_alloc: Global, bytes: &[u8]) -> Result<[bool; 4], SszFault> {
        match bytes {
            [n] if *n < 16 => Ok([
                *n % 2 == 1,
                *n / 2 % 2 == 1,
                *n / 2 / 2 % 2 == 1,
                *n / 2 / 2 / 2 % 2 == 1,
            ]),
            _ => Err(SszFault::NotAWriting),
        }
    }

    #[tactic(auto, using(hash_tree::proofs::Bits::bits_bytes_one))]
    fn append_to(&self, out: &mut Writer) -> Result<(), NoMemory> {
        out.put_bytes(&[bits_byte(self)])
    }

    ghost lawful = { bitvector_lawful 4 };

    ghost roots = { refl };
}
