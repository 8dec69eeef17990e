//! An attestation with the indices of its validators.

ghost use Rattle.std.specs.Prelude.{◌≡◌, refl, IsTrue, ◌↔◌};
ghost use Rattle.beacon_types.specs.Containers.{indexed_attestation_codec};
ghost use Rattle.beacon_types.specs.laws.Containers.{indexed_attestation_lawful};

use crate::attestation_data::AttestationData;
use crate::limits::CommitteeLimit;
use bc_words::NoMemory;
use hash_tree::{Leaf, Root};
use ssz_codec::{
    Field, NumberList, Offset, Ssz, SszFault, VariableSsz, Writer, read_container,
    root_of_container, write_pieces,
};
use std::alloc::Global;

/// The indices of the validators that attested.
pub type AttestingIndices = NumberList<CommitteeLimit>;

/// A vote with the validators that signed it (beacon-chain.md, "IndexedAttestation").
#[derive(Drop)]
pub struct IndexedAttestation {
    /// The validators.
    pub attesting_indices: AttestingIndices,
    /// What they voted for, the published field `data`.
    pub content: AttestationData,
    /// The signature, which is kept and not checked.
    pub signature: [u8; 96],
}

impl IndexedAttestation {
    /// Whether it is the same attestation.
    pub fn equals(&self, other: &IndexedAttestation) -> bool
        ensures { IsTrue result ↔ (self.now ≡ other.now) }
    {
        self.attesting_indices.equals(&other.attesting_indices)
            && self.content == other.content
            && self.signature == other.signature
    }
}

impl Leaf for IndexedAttestation {
    ghost root_of = { indexed_attestation_codec.hash_tree_root };

    fn root(&self) -> Root {
        root_of_container!(self, attesting_indices, content, signature)
    }
}

impl Ssz for IndexedAttestation {
    ghost codec = { indexed_attestation_codec };

    fn field() -> Field {
        Field::Variable
    }

    fn parse(alloc: Global, bytes: &[u8]) -> Result<IndexedAttestation, SszFault> {
        read_container!(
            alloc,
            bytes,
            IndexedAttestation {
                attesting_indices: AttestingIndices,
                content: AttestationData,
                signature: [u8; 96]
            }
        )
    }

    #[tactic(auto, unfolding(ssz_codec::specs::Layout::joined, ssz_codec::specs::Layout::fixed_parts, ssz_codec::specs::Layout::variable_parts))]
    fn append_to(&self, out: &mut Writer) -> Result<(), NoMemory> {
        write_pieces!(
            out,
            Offset(228),
            &self.content,
            &self.signature,
            &self.attesting_indices,
        )
    }

    ghost lawful = { indexed_attestation_lawful };

    ghost roots = { refl };
}

impl VariableSsz for IndexedAttestation {
    fn copy(&self) -> Result<IndexedAttestation, NoMemory> {
        match self.attesting_indices.copy() {
            Ok(attesting_indices) => Ok(IndexedAttestation {
                attesting_indices,
                content: self.content,
                signature: self.signature,
            }),
            Err(refused) => Err(refused),
        }
    }

    ghost is_variable = { refl };
}
