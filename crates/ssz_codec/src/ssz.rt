//! The trait of everything that has a place in SSZ: its codec, and the reading and writing that follow from it.

ghost use Rattle.std.specs.Prelude.{◌≡◌, List, ℕ, Some, OnOk, OnErr, IfOk, ◌++◌, length, take, false};
ghost use Rattle.ssz_codec.specs.Codec.{Codec};
ghost use Rattle.ssz_codec.specs.Lawful.{IsLawful, IsFixed};
ghost use Rattle.ssz_codec.specs.Reads.{ReadsAs, Reads};

use crate::fault::SszFault;
use crate::layout::Field;
use crate::writer::Writer;
use bc_words::NoMemory;
use hash_tree::Leaf;
use std::alloc::Global;

/// A value with a writing and a root (simple-serialize.md). Its root is that of `Leaf`.
pub trait Ssz: Drop + Leaf {
    /// Which values there are, the writing and the root of each, and the reading.
    ghost codec: { Codec Self };

    /// How a value stands in the fixed part of a container.
    fn field() -> Field
        ensures { result ≡ codec.field };

    /// The value that the codec reads in the bytes.
    fn parse(alloc: Global, bytes: &[u8]) -> Result<Self, SszFault>
        ensures { ReadsAs result (codec.deserialize bytes.now) };

    /// Writes the value behind what is written already. Where memory is refused, a part of it may stand there, which
    /// `write_to` takes away.
    fn append_to(&self, out: &mut Writer) -> Result<(), NoMemory>
        ensures ok { OnOk result (out.new ≡ out.old ++ codec.serialize self.now) }
        ensures err { OnErr result (take (length out.old) out.new ≡ out.old) };

    /// Writes the value behind what is written already. Where memory is refused, the writer is as before.
    final fn write_to(&self, out: &mut Writer) -> Result<(), NoMemory>
        ensures ok { OnOk result (out.new ≡ out.old ++ codec.serialize self.now) }
        ensures err { OnErr result (out.new ≡ out.old) }
    {
        let start = out.len();
        match self.append_to(out) {
            Ok(()) => Ok(()),
            Err(refused) => {
                out.cut_back(start);
                Err(refused)
            }
        }
    }

    /// Reads exactly the bytes that are the writing of a value within the limits.
    final fn read(alloc: Global, bytes: &[u8]) -> Result<Self, SszFault>
        ensures reads { Reads codec result bytes.now }
        ensures parses { ReadsAs result (codec.deserialize bytes.now) }
    {
        Self::parse(alloc, bytes)
    }

    /// The writing of the value.
    final fn write(&self, alloc: Global) -> Result<Vec<u8>, NoMemory>
        ensures { IfOk result (λ bytes. bytes.items ≡ codec.serialize self.now) }
    {
        let mut out = Writer::new(alloc);
        match self.write_to(&mut out) {
            Ok(()) => Ok(out.finish()),
            Err(refused) => Err(refused),
        }
    }

    /// Bytes read as exactly the value whose writing they are.
    ghost lawful: { IsLawful codec };

    /// The root of a leaf is that of the codec.
    ghost roots: { Self.root_of ≡ codec.hash_tree_root };
}

/// A composite value of fixed size: a list of such values is written without offsets, and has a leaf for each.
pub trait FixedSsz: Ssz {
    /// Its size is fixed, and not 0.
    ghost is_fixed: { IsFixed Self.codec.field };

    /// It isn't basic.
    ghost composite: { Self.codec.basic ≡ false };
}

/// What was written is read again.
pub fn reads_back<T: Ssz>()
    ensures { (v : T) → T.codec.Within v → T.codec.deserialize (T.codec.serialize v) ≡ Some v }
{}

/// At most one value has a given writing.
pub fn one_writing<T: Ssz>()
    ensures { (v w : T) → T.codec.Within v → T.codec.Within w → T.codec.serialize v ≡ T.codec.serialize w → v ≡ w }
{}
