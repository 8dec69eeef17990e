//! Lists of numbers whose type says how many there may be. Bytes come from containers, which are read, written and rooted
//! with such a field as with any other.

ghost use Rattle.std.specs.Prelude.{◌≡◌, ◌≤◌, ◌++◌, length, refl, IfOk, IsTrue, ◌↔◌};
ghost use Rattle.ssz_codec.specs.Basic.{uint64};
ghost use Rattle.ssz_codec.specs.Lists.{fixed_size_list};
ghost use Rattle.ssz_codec.specs.laws.Basic.{uint64_lawful, uint64_is_fixed};
ghost use Rattle.ssz_codec.specs.laws.Lists.{list_lawful};

use crate::fault::SszFault;
use crate::items::Items;
use crate::layout::Field;
use crate::limited::ListLimit;
use crate::lists::{append_items, read_list};
use crate::roots::number_list_root;
use crate::ssz::Ssz;
use crate::writer::Writer;
use bc_words::NoMemory;
use hash_tree::{Leaf, Root};
use std::alloc::Global;
use std::marker::{Model, PhantomData};

/// A list of numbers of 64 bits, of which there may be at most `L` (simple-serialize.md, "List[T, N]"). Its root packs
/// four to a chunk. Clauses see it as the list alone.
#[derive(Drop)]
pub struct NumberList<L: ListLimit> {
    numbers: Items<u64>,
    limit: PhantomData<L>,
}

impl<L: ListLimit> Model for NumberList<L> {
    ghost use Rattle.std.specs.Prelude.{List, ℕ, ◌≤◌, length};

    ghost Value = { List ℕ };

    ghost view = { λ list. list.numbers };

    ghost invariant = { λ list. length list.numbers ≤ L.LIMIT };
}

impl<L: ListLimit> NumberList<L> {
    /// The list of these numbers, of which there must not be more than the limit.
    pub fn from_vec(numbers: Vec<u64>) -> NumberList<L>
        requires { length numbers.items ≤ L.LIMIT }
        ensures { result ≡ numbers.items }
    {
        NumberList {
            numbers: Items::from_vec(numbers),
            limit: PhantomData,
        }
    }

    /// All of them.
    pub fn as_slice(&self) -> &[u64]
        ensures same { result.now ≡ self.now }
        ensures limit { length self.now ≤ L.LIMIT }
    {
        self.numbers.as_slice()
    }

    /// How many there are.
    pub fn len(&self) -> u64
        ensures same { result ≡ length self.now }
        ensures limit { length self.now ≤ L.LIMIT }
    {
        self.numbers.len() as u64
    }

    /// The same numbers once more.
    pub fn copy(&self) -> Result<NumberList<L>, NoMemory>
        ensures { IfOk result (λ copy. copy ≡ self.now) }
    {
        let _len = self.len();
        match self.numbers.copy() {
            Ok(numbers) => Ok(NumberList {
                numbers,
                limit: PhantomData,
            }),
            Err(refused) => Err(refused),
        }
    }

    /// Whether these are the same numbers.
    pub fn equals(&self, other: &NumberList<L>) -> bool
        ensures { IsTrue result ↔ (self.now ≡ other.now) }
    {
        self.numbers.as_slice() == other.numbers.as_slice()
    }
}

impl<L: ListLimit> Leaf for NumberList<L> {
    ghost root_of = { (fixed_size_list uint64 L.LIMIT).hash_tree_root };

    fn root(&self) -> Root {
        let _low = L::LIMIT;
        number_list_root(self.as_slice(), L::LIMIT)
    }
}

impl<L: ListLimit> Ssz for NumberList<L> {
    ghost codec = { fixed_size_list uint64 L.LIMIT };

    fn field() -> Field {
        Field::Variable
    }

    fn parse(alloc: Global, bytes: &[u8]) -> Result<NumberList<L>, SszFault> {
        match read_list(alloc, bytes, 8, L::LIMIT) {
            Ok(numbers) => Ok(NumberList {
                numbers,
                limit: PhantomData,
            }),
            Err(fault) => Err(fault),
        }
    }

    fn append_to(&self, out: &mut Writer) -> Result<(), NoMemory> {
        append_items(self.numbers.as_slice(), out)
    }

    ghost lawful = { list_lawful uint64 L.LIMIT uint64_is_fixed uint64_lawful };

    ghost roots = { refl };
}
