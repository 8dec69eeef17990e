//! Lists of values of variable size whose type says how many there may be, as blocks have of attestations. Bytes come
//! from containers, which are read, written and rooted with such a field as with any other.

ghost use Rattle.std.specs.Prelude.{◌≡◌, ◌≤◌, ◌*◌, ◌^◌, ◌++◌, length, map, replicate, take, refl, OnOk, OnErr, IfOk, IsTrue, ◌↔◌};
ghost use Rattle.ssz_codec.specs.declared.layout.Field.TheVariants.{Variable};
ghost use Rattle.ssz_codec.specs.Layout.{joined};
ghost use Rattle.ssz_codec.specs.Lists.{variable_size_list};
ghost use Rattle.ssz_codec.specs.laws.Lists.{variable_list_lawful};
ghost use Rattle.ssz_codec.specs.inside.Halves.{with_variable_parts};

use crate::fault::SszFault;
use crate::items::Items;
use crate::layout::Field;
use crate::limited::ListLimit;
use crate::list_value::{ListValue, all_equal, copy_all};
use crate::lists::read_variable_list;
use crate::parts_writer::{FieldRow, PartsWriter, append_fields};
use crate::roots::variable_list_root;
use crate::ssz::Ssz;
use crate::writer::Writer;
use bc_words::NoMemory;
use hash_tree::{Leaf, Root};
use std::alloc::Global;
use std::marker::{Model, PhantomData};

/// A value of variable size: a list of such values is written with an offset for each.
pub trait VariableSsz: Ssz {
    /// The same value once more.
    fn copy(&self) -> Result<Self, NoMemory>
        ensures { IfOk result (λ copy. copy ≡ self.now) };

    /// Its size is variable.
    ghost is_variable: { Self.Ssz.codec.field ≡ Variable };
}

/// A list of values of variable size, of which there may be at most `L` (simple-serialize.md, "List[T, N]"). Clauses see
/// it as the list alone.
#[derive(Drop)]
pub struct VariableList<T: VariableSsz, L: ListLimit> {
    values: Items<T>,
    limit: PhantomData<L>,
}

impl<T: VariableSsz, L: ListLimit> Model for VariableList<T, L> {
    ghost use Rattle.std.specs.Prelude.{List, ◌≤◌, length};

    ghost Value = { List T };

    ghost view = { λ list. list.values };

    ghost invariant = { λ list. length list.values ≤ L.LIMIT };
}

impl<T: VariableSsz, L: ListLimit> VariableList<T, L> {
    /// The list of these values, of which there must not be more than the limit.
    pub fn from_items(values: Items<T>) -> VariableList<T, L>
        requires { length values ≤ L.LIMIT }
        ensures { result ≡ values }
    {
        VariableList {
            values,
            limit: PhantomData,
        }
    }

    /// All of them.
    pub fn as_slice(&self) -> &[T]
        ensures same { result.now ≡ self.now }
        ensures limit { length self.now ≤ L.LIMIT }
    {
        self.values.as_slice()
    }

    /// How many there are.
    pub fn len(&self) -> u64
        ensures same { result ≡ length self.now }
        ensures limit { length self.now ≤ L.LIMIT }
    {
        self.values.len() as u64
    }
}

impl<T: VariableSsz + ListValue, L: ListLimit> VariableList<T, L> {
    /// The same values once more.
    pub fn copy(&self, alloc: Global) -> Result<VariableList<T, L>, NoMemory>
        ensures { IfOk result (λ copy. copy ≡ self.now) }
    {
        let _len = self.len();
        match copy_all(alloc, self.values.as_slice()) {
            Ok(values) => Ok(VariableList {
                values,
                limit: PhantomData,
            }),
            Err(refused) => Err(refused),
        }
    }

    /// Whether these are the same values.
    pub fn equals(&self, other: &VariableList<T, L>) -> bool
        ensures { IsTrue result ↔ (self.now ≡ other.now) }
    {
        all_equal(self.as_slice(), other.as_slice())
    }
}

/// The offsets and the writings of the values.
fn write_parts<T: Ssz>(values: &[T], parts: &mut PartsWriter) -> Result<(), NoMemory>
    ensures { OnOk result (parts.new ≡ with_variable_parts (map T.codec.serialize values.now) parts.old) }
{
    for value in values {
        match parts.add_variable(value) {
            Ok(()) => {}
            Err(refused) => return Err(refused),
        }
    }
    Ok(())
}

/// The values of a list, each of which is a variable part of it.
#[derive(Drop)]
struct ListParts<'a, T: Ssz> {
    values: &'a [T],
}

impl<'a, T: Ssz> FieldRow for ListParts<'a, T> {
    ghost adding = { λ list. with_variable_parts (map T.codec.serialize list.values.now) };

    fn add_to(&self, parts: &mut PartsWriter) -> Result<(), NoMemory> {
        write_parts(self.values, parts)
    }
}

/// Writes a list of values of variable size. Where memory is refused, a part of it may stand there.
#[tactic(auto, using(crate::proofs::Halves::list_joined))]
pub(crate) fn append_list<T: Ssz>(values: &[T], out: &mut Writer) -> Result<(), NoMemory>
    requires { length values.now ≤ 2 ^ 40 }
    ensures ok { OnOk result (out.new ≡ out.old ++ joined (replicate (length values.now) Variable) (map T.codec.serialize values.now)) }
    ensures err { OnErr result (take (length out.old) out.new ≡ out.old) }
{
    append_fields(&ListParts { values }, 4 * values.len() as u64, out)
}

impl<T: VariableSsz, L: ListLimit> Leaf for VariableList<T, L> {
    ghost root_of = { (variable_size_list T.Ssz.codec L.LIMIT).hash_tree_root };

    fn root(&self) -> Root {
        let _low = L::LIMIT;
        variable_list_root(self.as_slice(), L::LIMIT)
    }
}

impl<T: VariableSsz, L: ListLimit> Ssz for VariableList<T, L> {
    ghost codec = { variable_size_list T.Ssz.codec L.LIMIT };

    fn field() -> Field {
        Field::Variable
    }

    fn parse(alloc: Global, bytes: &[u8]) -> Result<VariableList<T, L>, SszFault> {
        match read_variable_list(alloc, bytes, L::LIMIT) {
            Ok(values) => Ok(VariableList {
                values,
                limit: PhantomData,
            }),
            Err(fault) => Err(fault),
        }
    }

    fn append_to(&self, out: &mut Writer) -> Result<(), NoMemory> {
        let _low = L::LIMIT;
        append_list(self.as_slice(), out)
    }

    ghost lawful = { variable_list_lawful T.Ssz.codec L.LIMIT T.Ssz.lawful };

    ghost roots = { refl };
}
