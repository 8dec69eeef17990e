//! The values of a container's fields, read or written one behind another. The parts come from cutting the container,
//! and the values go into it; those that are written come from it.

ghost use Rattle.std.specs.Prelude.{◌≡◌, ◌<◌, ◌^◌, ◌∷◌, ◌++◌, List, [], ℕ, Option, OnOk, OnErr, length, map, take};
ghost use Rattle.ssz_codec.specs.Layout.{◌and_then◌, fixed_length, offset_bytes, cut as cut_of};
ghost use Rattle.ssz_codec.specs.Reads.{ReadsAs};
ghost use Rattle.ssz_codec.specs.inside.Rows.{nothing_read, read_before};

use crate::fault::SszFault;
use crate::layout::{Field, cut};
use crate::ssz::Ssz;
use crate::writer::Writer;
use bc_words::NoMemory;
use std::alloc::Global;

/// Values one behind another: a value and the others, or none.
pub trait Row: Drop {
    ghost use Rattle.ssz_codec.specs.declared.layout.Field.{Field};
    ghost use Rattle.std.specs.Prelude.{List, ℕ, Option};

    /// How the values stand in the fixed part of a container, in their order.
    ghost layout: { List Field };

    /// The values that the parts have, one each.
    ghost reading: { List (List ℕ) → Option Self };

    /// Notes how each value stands in the fixed part.
    fn put_fields(fields: &mut [Field])
        requires { length fields.old ≡ length layout }
        ensures { fields.new ≡ layout };

    /// Reads a value of each part.
    fn read_parts(alloc: Global, parts: &[&[u8]]) -> Result<Self, SszFault>
        ensures { ReadsAs result (reading (map (λ part. part.now) parts.now)) };
}

impl Row for () {
    ghost layout = { [] };

    ghost reading = { nothing_read };

    fn put_fields(_fields: &mut [Field]) {}

    fn read_parts(_alloc: Global, parts: &[&[u8]]) -> Result<(), SszFault> {
        match parts {
            [] => Ok(()),
            _ => Err(SszFault::NotAWriting),
        }
    }
}

impl<A: Ssz, R: Row> Row for (A, R) {
    ghost layout = { A.codec.field ∷ R.layout };

    ghost reading = { read_before A.codec R.reading };

    fn put_fields(fields: &mut [Field]) {
        fields[0] = A::field();
        R::put_fields(&mut fields[1..]);
    }

    fn read_parts(alloc: Global, parts: &[&[u8]]) -> Result<(A, R), SszFault> {
        match parts {
            [part, more @ ..] => {
                let value = match A::parse(alloc, part) {
                    Ok(value) => value,
                    Err(fault) => return Err(fault),
                };
                match R::read_parts(alloc, more) {
                    Ok(rest) => Ok((value, rest)),
                    Err(fault) => Err(fault),
                }
            }
            [] => Err(SszFault::NotAWriting),
        }
    }
}

/// Reads the values of the fields of a container. `fields` and `parts` have a place for each: how it stands in the fixed
/// part, and the bytes that the container is cut into for it.
pub fn read_row<'a, R: Row>(
    alloc: Global,
    bytes: &'a [u8],
    fields: &mut [Field],
    parts: &mut [&'a [u8]],
) -> Result<R, SszFault>
    requires fields { length fields.old ≡ length R.layout }
    requires parts { length parts.old ≡ length R.layout }
    requires room { fixed_length R.layout < 2 ^ 32 }
    ensures { ReadsAs result (cut_of R.layout bytes.now and_then R.reading) }
{
    R::put_fields(fields);
    match cut(bytes, fields, parts) {
        Ok(()) => R::read_parts(alloc, parts),
        Err(fault) => Err(fault),
    }
}

/// What is written into the fixed part of a container, or behind it.
pub trait Piece {
    /// Its bytes.
    ghost writing: { Self → List ℕ };

    /// Writes it behind what is written already. Where memory is refused, the writer is as before.
    fn put(&self, out: &mut Writer) -> Result<(), NoMemory>
        ensures ok { OnOk result (out.new ≡ out.old ++ writing self.now) }
        ensures err { OnErr result (out.new ≡ out.old) };
}

impl<'a, T: Ssz> Piece for &'a T {
    ghost writing = { λ value. T.codec.serialize value.now };

    fn put(&self, out: &mut Writer) -> Result<(), NoMemory> {
        (*self).write_to(out)
    }
}

/// The offset of a variable part.
#[derive(Drop)]
pub struct Offset(pub u32);

impl Piece for Offset {
    ghost writing = { λ offset. offset_bytes offset.0 };

    fn put(&self, out: &mut Writer) -> Result<(), NoMemory> {
        out.put_u32(self.0)
    }
}

/// Pieces one behind another: a piece and the others, or none.
pub trait Pieces {
    /// The bytes of all.
    ghost writings: { Self → List ℕ };

    /// Writes them behind what is written already. Where memory is refused, some of them may stand there.
    fn put_all(&self, out: &mut Writer) -> Result<(), NoMemory>
        ensures ok { OnOk result (out.new ≡ out.old ++ writings self.now) }
        ensures err { OnErr result (take (length out.old) out.new ≡ out.old) };
}

impl Pieces for () {
    ghost writings = { λ _. [] };

    fn put_all(&self, _out: &mut Writer) -> Result<(), NoMemory> {
        Ok(())
    }
}

impl<P: Piece, R: Pieces> Pieces for (P, R) {
    ghost writings = { λ pieces. P.writing pieces.0 ++ R.writings pieces.1 };

    fn put_all(&self, out: &mut Writer) -> Result<(), NoMemory> {
        match self.0.put(out) {
            Ok(()) => self.1.put_all(out),
            Err(refused) => Err(refused),
        }
    }
}
