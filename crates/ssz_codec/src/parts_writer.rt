//! A container, or a list of variable parts, while it is written: the fixed part and the variable parts grow in two
//! buffers, and are joined at the end. Values come from the writers of containers, and the bytes go to theirs.

ghost use Rattle.std.specs.Prelude.{◌≡◌, ◌+◌, ◌++◌, ◌≤◌, ◌^◌, length, map, replicate, take, OnOk, OnErr, IfOk};
ghost use Rattle.std.specs.List.{flat_map};
ghost use Rattle.ssz_codec.specs.declared.layout.Field.TheVariants.{Variable};
ghost use Rattle.ssz_codec.specs.Layout.{offset_bytes, joined};
ghost use Rattle.ssz_codec.specs.inside.Halves.{nothing_written, with_fixed, with_variable, with_part, whole_of};

use crate::layout::Field;
use crate::lists::append_items;
use crate::ssz::Ssz;
use crate::variable_list::append_list;
use crate::writer::Writer;
use bc_words::NoMemory;
use std::alloc::Global;
use std::marker::Model;

/// What is written so far of a container (simple-serialize.md, "Serialization"). Where memory is refused, it is of no use
/// any more.
#[derive(Drop)]
pub struct PartsWriter {
    fixed: Writer,
    variable: Writer,
    start: u64,
}

impl Model for PartsWriter {
    ghost use Rattle.ssz_codec.specs.inside.Halves.{Halves};

    ghost Value = { Halves };

    ghost view = { λ w. record { fixed = w.fixed; variable = w.variable; start = w.start } };
}

impl PartsWriter {
    /// Nothing is written yet. The whole fixed part will have that length.
    pub fn new(alloc: Global, fixed_length: u64) -> PartsWriter
        ensures { result ≡ nothing_written fixed_length }
    {
        PartsWriter {
            fixed: Writer::new(alloc),
            variable: Writer::new(alloc),
            start: fixed_length,
        }
    }

    /// Nothing is written yet. The whole fixed part will have that length, and memory comes from where this writer's does.
    pub fn beside(out: &Writer, fixed_length: u64) -> PartsWriter
        ensures { result ≡ nothing_written fixed_length }
    {
        PartsWriter::new(out.alloc(), fixed_length)
    }

    /// The offset of the variable part that comes next, in four bytes. One that has no room there is cut.
    #[tactic(auto, unfolding(crate::specs::Layout::offset_bytes))]
    fn put_offset(&mut self) -> Result<(), NoMemory>
        ensures { OnOk result (self.new ≡ record { fixed = self.old.fixed ++ offset_bytes (self.old.start + length self.old.variable); variable = self.old.variable; start = self.old.start }) }
    {
        let offset = u128::from(self.start) + self.variable.len() as u128;
        self.fixed.put_bytes(&offset.to_le_bytes()[..4])
    }

    /// A variable part.
    pub fn add_variable<T: Ssz>(&mut self, value: &T) -> Result<(), NoMemory>
        ensures { OnOk result (self.new ≡ with_part Variable (T.codec.serialize value.now) self.old) }
    {
        match self.put_offset() {
            Ok(()) => value.write_to(&mut self.variable),
            Err(refused) => Err(refused),
        }
    }

    /// The next field.
    pub fn add<T: Ssz>(&mut self, value: &T) -> Result<(), NoMemory>
        ensures { OnOk result (self.new ≡ with_part T.codec.field (T.codec.serialize value.now) self.old) }
    {
        match T::field() {
            Field::Fixed(_) => value.write_to(&mut self.fixed),
            Field::Variable => self.add_variable(value),
        }
    }

    /// A vector of values of fixed size.
    pub fn add_vector<T: Ssz>(&mut self, values: &[T]) -> Result<(), NoMemory>
        ensures { OnOk result (self.new ≡ with_fixed (flat_map T.codec.serialize values.now) self.old) }
    {
        append_items(values, &mut self.fixed)
    }

    /// A list of values of fixed size.
    pub fn add_items<T: Ssz>(&mut self, values: &[T]) -> Result<(), NoMemory>
        ensures { OnOk result (self.new ≡ with_variable (flat_map T.codec.serialize values.now) self.old) }
    {
        match self.put_offset() {
            Ok(()) => append_items(values, &mut self.variable),
            Err(refused) => Err(refused),
        }
    }

    /// A list of values of variable size.
    pub fn add_list<T: Ssz>(&mut self, values: &[T]) -> Result<(), NoMemory>
        requires { length values.now ≤ 2 ^ 40 }
        ensures { OnOk result (self.new ≡ with_variable (joined (replicate (length values.now) Variable) (map T.codec.serialize values.now)) self.old) }
    {
        match self.put_offset() {
            Ok(()) => append_list(values, &mut self.variable),
            Err(refused) => Err(refused),
        }
    }

    /// All that is written goes behind these bytes. Where memory is refused, a part of it may stand there.
    pub fn append_to(&self, out: &mut Writer) -> Result<(), NoMemory>
        ensures ok { OnOk result (out.new ≡ out.old ++ whole_of self.now) }
        ensures err { OnErr result (take (length out.old) out.new ≡ out.old) }
    {
        match out.put_bytes(self.fixed.as_slice()) {
            Ok(()) => out.put_bytes(self.variable.as_slice()),
            Err(refused) => Err(refused),
        }
    }

    /// All that is written, in one piece.
    pub fn finish(self) -> Result<Vec<u8>, NoMemory>
        ensures { IfOk result (λ bytes. bytes.items ≡ whole_of self) }
    {
        let PartsWriter {
            mut fixed,
            variable,
            start: _,
        } = self;
        match fixed.put_bytes(variable.as_slice()) {
            Ok(()) => Ok(fixed.finish()),
            Err(refused) => Err(refused),
        }
    }
}

/// Fields of a container one behind another, as they are written into its two halves: a field and the others, or none.
pub trait FieldRow {
    ghost use Rattle.ssz_codec.specs.inside.Halves.{Halves};

    /// The two halves with these fields.
    ghost adding: { Self → Halves → Halves };

    /// Adds the fields in their order.
    fn add_to(&self, parts: &mut PartsWriter) -> Result<(), NoMemory>
        ensures { OnOk result (parts.new ≡ adding self.now parts.old) };
}

impl FieldRow for () {
    ghost adding = { λ _ halves. halves };

    fn add_to(&self, _parts: &mut PartsWriter) -> Result<(), NoMemory> {
        Ok(())
    }
}

impl<'a, T: Ssz, R: FieldRow> FieldRow for (&'a T, R) {
    ghost adding = { λ row halves. R.adding row.1 (with_part T.codec.field (T.codec.serialize row.0.now) halves) };

    fn add_to(&self, parts: &mut PartsWriter) -> Result<(), NoMemory> {
        match parts.add(self.0) {
            Ok(()) => self.1.add_to(parts),
            Err(refused) => Err(refused),
        }
    }
}

/// Adds the fields to what is written of a container, and all of it goes behind these bytes. Where memory is refused, a part
/// of it may stand there.
fn append_with<R: FieldRow>(
    fields: &R,
    parts: &mut PartsWriter,
    out: &mut Writer,
) -> Result<(), NoMemory>
    ensures ok { OnOk result (out.new ≡ out.old ++ whole_of (R.adding fields.now parts.old)) }
    ensures err { OnErr result (take (length out.old) out.new ≡ out.old) }
{
    match fields.add_to(parts) {
        Ok(()) => parts.append_to(out),
        Err(refused) => Err(refused),
    }
}

/// Writes a container whose fixed part has that length. Where memory is refused, a part of it may stand there.
pub fn append_fields<R: FieldRow>(
    fields: &R,
    fixed_length: u64,
    out: &mut Writer,
) -> Result<(), NoMemory>
    ensures ok { OnOk result (out.new ≡ out.old ++ whole_of (R.adding fields.now (nothing_written fixed_length))) }
    ensures err { OnErr result (take (length out.old) out.new ≡ out.old) }
{
    let mut parts = PartsWriter::beside(out, fixed_length);
    append_with(fields, &mut parts, out)
}
