//! A vote of a committee.

ghost use Rattle.std.specs.Prelude.{◌≡◌, refl, IsTrue, ◌↔◌};
ghost use Rattle.beacon_types.specs.Blocks.{attestation_codec};
ghost use Rattle.beacon_types.specs.laws.Blocks.{attestation_lawful};

use crate::attestation_data::AttestationData;
use crate::pending_attestation::AggregationBits;
use bc_words::NoMemory;
use hash_tree::{Leaf, Root};
use ssz_codec::{
    Field, ListValue, Offset, Ssz, SszFault, VariableSsz, Writer, read_container,
    root_of_container, write_pieces,
};
use std::alloc::Global;

/// A vote with the members of a committee that cast it (beacon-chain.md, "Attestation").
pub struct Attestation {
    /// Which members of the committee attested.
    pub aggregation_bits: AggregationBits,
    /// What they voted for, the published field `data`.
    pub content: AttestationData,
    /// The signature, which is kept and not checked.
    pub signature: [u8; 96],
}

// Written by hand, so that a call that lets one go is one call, and not one for each of its lists.
impl Drop for Attestation {
    fn drop(self) {
        let Attestation {
            aggregation_bits,
            content: _,
            signature: _,
        } = self;
        drop(aggregation_bits);
    }
}

impl Attestation {
    /// Whether it is the same attestation.
    pub fn equals(&self, other: &Attestation) -> bool
        ensures { IsTrue result ↔ (self.now ≡ other.now) }
    {
        self.aggregation_bits.equals(&other.aggregation_bits)
            && self.content == other.content
            && self.signature == other.signature
    }
}

impl Leaf for Attestation {
    ghost root_of = { attestation_codec.hash_tree_root };

    fn root(&self) -> Root {
        root_of_container!(self, aggregation_bits, content, signature)
    }
}

impl Ssz for Attestation {
    ghost codec = { attestation_codec };

    fn field() -> Field {
        Field::Variable
    }

    fn parse(alloc: Global, bytes: &[u8]) -> Result<Attestation, SszFault> {
        read_container!(
            alloc,
            bytes,
            Attestation {
                aggregation_bits: AggregationBits,
                content: AttestationData,
                signature: [u8; 96]
            }
        )
    }

    #[tactic(auto, unfolding(ssz_codec::specs::Layout::joined, ssz_codec::specs::Layout::fixed_parts, ssz_codec::specs::Layout::variable_parts))]
    fn append_to(&self, out: &mut Writer) -> Result<(), NoMemory> {
        write_pieces!(
            out,
            Offset(228),
            &self.content,
            &self.signature,
            &self.aggregation_bits,
        )
    }

    ghost lawful = { attestation_lawful };

    ghost roots = { refl };
}

impl VariableSsz for Attestation {
    fn copy(&self) -> Result<Attestation, NoMemory> {
        match self.aggregation_bits.copy() {
            Ok(aggregation_bits) => Ok(Attestation {
                aggregation_bits,
                content: self.content,
                signature: self.signature,
            }),
            Err(refused) => Err(refused),
        }
    }

    ghost is_variable = { refl };
}

impl ListValue for Attestation {
    fn copied(&self) -> Result<Attestation, NoMemory> {
        self.copy()
    }

    fn same(&self, other: &Attestation) -> bool {
        self.equals(other)
    }
}
