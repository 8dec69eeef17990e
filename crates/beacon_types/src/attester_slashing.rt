//! Two votes that may not both be cast.

ghost use Rattle.std.specs.Prelude.{◌≡◌, refl, IsTrue, ◌↔◌, IfOk};
ghost use Rattle.beacon_types.specs.Blocks.{attester_slashing_codec};
ghost use Rattle.beacon_types.specs.laws.Blocks.{attester_slashing_lawful};

use crate::indexed_attestation::IndexedAttestation;
use bc_words::NoMemory;
use hash_tree::{Leaf, Root};
use ssz_codec::{
    Field, ListValue, Ssz, SszFault, VariableSsz, Writer, read_container, root_of_container,
    write_variable_container,
};
use std::alloc::Global;

/// Two votes for which those who cast both are slashed (beacon-chain.md, "AttesterSlashing").
pub struct AttesterSlashing {
    /// One vote.
    pub attestation_1: IndexedAttestation,
    /// The other.
    pub attestation_2: IndexedAttestation,
}

// Written by hand, so that a call that lets one go is one call, and not one for each of its lists.
impl Drop for AttesterSlashing {
    fn drop(self) {
        let AttesterSlashing {
            attestation_1,
            attestation_2,
        } = self;
        drop(attestation_1);
        drop(attestation_2);
    }
}

impl AttesterSlashing {
    /// Whether it is the same slashing.
    pub fn equals(&self, other: &AttesterSlashing) -> bool
        ensures { IsTrue result ↔ (self.now ≡ other.now) }
    {
        self.attestation_1.equals(&other.attestation_1)
            && self.attestation_2.equals(&other.attestation_2)
    }
}

impl Leaf for AttesterSlashing {
    ghost root_of = { attester_slashing_codec.hash_tree_root };

    fn root(&self) -> Root {
        root_of_container!(self, attestation_1, attestation_2)
    }
}

impl Ssz for AttesterSlashing {
    ghost codec = { attester_slashing_codec };

    fn field() -> Field {
        Field::Variable
    }

    fn parse(alloc: Global, bytes: &[u8]) -> Result<AttesterSlashing, SszFault> {
        read_container!(
            alloc,
            bytes,
            AttesterSlashing {
                attestation_1: IndexedAttestation,
                attestation_2: IndexedAttestation
            }
        )
    }

    fn append_to(&self, out: &mut Writer) -> Result<(), NoMemory> {
        write_variable_container!(self, out, 8, attestation_1, attestation_2)
    }

    ghost lawful = { attester_slashing_lawful };

    ghost roots = { refl };
}

impl VariableSsz for AttesterSlashing {
    fn copy(&self) -> Result<AttesterSlashing, NoMemory> {
        let attestation_1 = self.attestation_1.copy()?;
        let attestation_2 = self.attestation_2.copy()?;
        Ok(AttesterSlashing {
            attestation_1,
            attestation_2,
        })
    }

    ghost is_variable = { refl };
}

impl ListValue for AttesterSlashing {
    fn copied(&self) -> Result<AttesterSlashing, NoMemory> {
        self.copy()
    }

    fn same(&self, other: &AttesterSlashing) -> bool {
        self.equals(other)
    }
}
