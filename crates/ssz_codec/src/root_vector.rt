//! Vectors of roots whose type says how many there are. Bytes come from containers, which are read, written and rooted
//! with such a field as with any other.

ghost use Rattle.std.specs.Prelude.{◌≡◌, ℕ, ◌≤◌, ◌<◌, ◌^◌, ◌++◌, length, refl, IfOk, IsTrue, ◌↔◌};
ghost use Rattle.ssz_codec.specs.Basic.{bytes32};
ghost use Rattle.ssz_codec.specs.Lists.{vector_codec};
ghost use Rattle.ssz_codec.specs.laws.Basic.{bytes32_lawful, bytes32_is_fixed};
ghost use Rattle.ssz_codec.specs.laws.Lists.{vector_lawful};

use crate::fault::SszFault;
use crate::items::Items;
use crate::layout::Field;
use crate::lists::{append_items, read_items};
use crate::roots::vector_root;
use crate::ssz::Ssz;
use crate::writer::Writer;
use bc_words::NoMemory;
use hash_tree::{Leaf, Root};
use std::alloc::Global;
use std::marker::{Model, PhantomData};

/// How many values a vector has: a type of its own for each length.
pub trait VectorLength: Drop {
    /// The length.
    ghost LENGTH: { ℕ };

    /// The length.
    const LENGTH: u64;

    /// Trees are at most 40 deep.
    ghost low: { LENGTH ≤ 2 ^ 40 };
}

/// A vector of `L` roots (simple-serialize.md, "Vector[T, N]"). Clauses see it as the list alone.
#[derive(Drop)]
pub struct RootVector<L: VectorLength> {
    values: Items<Root>,
    count: PhantomData<L>,
}

impl<L: VectorLength> Model for RootVector<L> {
    ghost use Rattle.std.specs.Prelude.{◌≡◌, List, ℕ, length};

    ghost Value = { List (List ℕ) };

    ghost view = { λ vector. vector.values };

    ghost invariant = { λ vector. length vector.values ≡ L.LENGTH };
}

impl<L: VectorLength> RootVector<L> {
    /// The vector of these roots, which must be as many as its length.
    pub fn from_vec(values: Vec<Root>) -> RootVector<L>
        requires { length values.items ≡ L.LENGTH }
        ensures { result ≡ values.items }
    {
        RootVector {
            values: Items::from_vec(values),
            count: PhantomData,
        }
    }

    /// All of them.
    pub fn as_slice(&self) -> &[Root]
        ensures same { result.now ≡ self.now }
        ensures len { length self.now ≡ L.LENGTH }
    {
        self.values.as_slice()
    }

    /// The same roots once more.
    pub fn copy(&self) -> Result<RootVector<L>, NoMemory>
        ensures { IfOk result (λ copy. copy ≡ self.now) }
    {
        let _all = self.as_slice();
        match self.values.copy() {
            Ok(values) => Ok(RootVector {
                values,
                count: PhantomData,
            }),
            Err(refused) => Err(refused),
        }
    }

    /// Whether these are the same roots.
    pub fn equals(&self, other: &RootVector<L>) -> bool
        ensures { IsTrue result ↔ (self.now ≡ other.now) }
    {
        self.as_slice() == other.as_slice()
    }
}

impl<L: VectorLength> Leaf for RootVector<L> {
    ghost root_of = { (vector_codec bytes32 L.LENGTH).hash_tree_root };

    fn root(&self) -> Root {
        let _low = L::LENGTH;
        vector_root(self.as_slice(), L::LENGTH)
    }
}

impl<L: VectorLength> Ssz for RootVector<L> {
    ghost codec = { vector_codec bytes32 L.LENGTH };

    fn field() -> Field {
        Field::Fixed(L::LENGTH as usize * 32)
    }

    fn parse(alloc: Global, bytes: &[u8]) -> Result<RootVector<L>, SszFault> {
        match read_items(alloc, bytes, 32, L::LENGTH as usize) {
            Ok(values) => Ok(RootVector {
                values,
                count: PhantomData,
            }),
            Err(fault) => Err(fault),
        }
    }

    fn append_to(&self, out: &mut Writer) -> Result<(), NoMemory> {
        append_items(self.values.as_slice(), out)
    }

    ghost lawful = { vector_lawful bytes32 L.LENGTH bytes32_is_fixed bytes32_lawful };

    ghost roots = { refl };
}
