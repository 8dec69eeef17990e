//! Lists whose type says how many values they may have, so that a container with such a field reads, writes and has its
//! root as any other.

ghost use Rattle.std.specs.Prelude.{◌≡◌, ℕ, ◌≤◌, ◌<◌, ◌^◌, ◌∷◌, ◌++◌, [], length, refl, OnOk, OnErr, IfOk, IsTrue, ◌↔◌};
ghost use Rattle.ssz_codec.specs.Layout.{field_length};
ghost use Rattle.ssz_codec.specs.Lists.{fixed_size_list};
ghost use Rattle.ssz_codec.specs.laws.Lists.{list_lawful};

use crate::fault::SszFault;
use crate::items::Items;
use crate::layout::Field;
use crate::list_value::{ListValue, all_equal, copy_all};
use crate::lists::{append_items, read_list};
use crate::roots::list_root;
use crate::ssz::{FixedSsz, Ssz};
use crate::writer::Writer;
use bc_words::NoMemory;
use hash_tree::{Leaf, Root};
use std::alloc::Global;
use std::marker::{Model, PhantomData};

/// How many values a list may have: a type of its own for each limit.
pub trait ListLimit: Drop {
    /// The limit.
    ghost LIMIT: { ℕ };

    /// The limit.
    const LIMIT: u64;

    /// Trees are at most 40 deep.
    ghost low: { LIMIT ≤ 2 ^ 40 };
}

/// A list of values of fixed size, of which there may be at most `L` (simple-serialize.md, "List[T, N]"). Clauses see it
/// as the list alone.
#[derive(Drop)]
pub struct LimitedList<T: FixedSsz, L: ListLimit> {
    values: Items<T>,
    limit: PhantomData<L>,
}

impl<T: FixedSsz, L: ListLimit> Model for LimitedList<T, L> {
    ghost use Rattle.std.specs.Prelude.{List, ◌≤◌, length};

    ghost Value = { List T };

    ghost view = { λ list. list.values };

    ghost invariant = { λ list. length list.values ≤ L.LIMIT };
}

/// The size of a value.
fn size_of<T: FixedSsz>() -> usize
    ensures exact { result ≡ field_length T.Ssz.codec.field }
    ensures some { 0 < result }
{
    match T::field() {
        Field::Fixed(size) => size,
        Field::Variable => unreachable!(),
    }
}

impl<T: FixedSsz, L: ListLimit> LimitedList<T, L> {
    /// The list of these values, of which there must not be more than the limit.
    pub fn from_items(values: Items<T>) -> LimitedList<T, L>
        requires { length values ≤ L.LIMIT }
        ensures { result ≡ values }
    {
        LimitedList {
            values,
            limit: PhantomData,
        }
    }

    /// All of them.
    pub fn as_slice(&self) -> &[T]
        ensures same { result.now ≡ self.now }
        ensures limit { length self.now ≤ L.LIMIT }
    {
        self.values.as_slice()
    }

    /// How many there are.
    pub fn len(&self) -> u64
        ensures same { result ≡ length self.now }
        ensures limit { length self.now ≤ L.LIMIT }
    {
        self.values.len() as u64
    }
}

impl<T: FixedSsz + ListValue, L: ListLimit> LimitedList<T, L> {
    /// The same values once more.
    pub fn copy(&self, alloc: Global) -> Result<LimitedList<T, L>, NoMemory>
        ensures { IfOk result (λ copy. copy ≡ self.now) }
    {
        let _len = self.len();
        match copy_all(alloc, self.values.as_slice()) {
            Ok(values) => Ok(LimitedList {
                values,
                limit: PhantomData,
            }),
            Err(refused) => Err(refused),
        }
    }

    /// Whether these are the same values.
    pub fn equals(&self, other: &LimitedList<T, L>) -> bool
        ensures { IsTrue result ↔ (self.now ≡ other.now) }
    {
        all_equal(self.as_slice(), other.as_slice())
    }
}

impl<T: FixedSsz, L: ListLimit> Leaf for LimitedList<T, L> {
    ghost root_of = { (fixed_size_list T.Ssz.codec L.LIMIT).hash_tree_root };

    fn root(&self) -> Root {
        let _low = L::LIMIT;
        list_root(self.as_slice(), L::LIMIT)
    }
}

impl<T: FixedSsz, L: ListLimit> Ssz for LimitedList<T, L> {
    ghost codec = { fixed_size_list T.Ssz.codec L.LIMIT };

    fn field() -> Field {
        Field::Variable
    }

    fn parse(alloc: Global, bytes: &[u8]) -> Result<LimitedList<T, L>, SszFault> {
        match read_list(alloc, bytes, size_of::<T>(), L::LIMIT) {
            Ok(values) => Ok(LimitedList {
                values,
                limit: PhantomData,
            }),
            Err(fault) => Err(fault),
        }
    }

    fn append_to(&self, out: &mut Writer) -> Result<(), NoMemory> {
        append_items(self.values.as_slice(), out)
    }

    ghost lawful = { list_lawful T.Ssz.codec L.LIMIT T.is_fixed T.Ssz.lawful };

    ghost roots = { refl };
}
