//! Two headers of one slot by one proposer.

ghost use Rattle.std.specs.Prelude.{◌≡◌, refl};
ghost use Rattle.beacon_types.specs.Blocks.{proposer_slashing_codec};
ghost use Rattle.beacon_types.specs.laws.Blocks.{proposer_slashing_lawful, proposer_slashing_fixed};

use crate::signed_header::SignedBeaconBlockHeader;
use bc_words::NoMemory;
use hash_tree::{Leaf, Root};
use ssz_codec::{
    Field, FixedSsz, ListValue, Ssz, SszFault, Writer, read_container, root_of_container,
    write_container,
};
use std::alloc::Global;

/// Two headers for which their proposer is slashed (beacon-chain.md, "ProposerSlashing").
#[derive(Clone, Copy, PartialEq, Eq)]
pub struct ProposerSlashing {
    /// One header.
    pub signed_header_1: SignedBeaconBlockHeader,
    /// The other.
    pub signed_header_2: SignedBeaconBlockHeader,
}

impl Leaf for ProposerSlashing {
    ghost root_of = { proposer_slashing_codec.hash_tree_root };

    fn root(&self) -> Root {
        root_of_container!(self, signed_header_1, signed_header_2)
    }
}

impl Ssz for ProposerSlashing {
    ghost codec = { proposer_slashing_codec };

    fn field() -> Field {
        Field::Fixed(416)
    }

    #[tactic(auto, using(ssz_codec::proofs::Fieldwise::two_read, ssz_codec::proofs::Fieldwise::two_unread))]
    fn parse(alloc: Global, bytes: &[u8]) -> Result<ProposerSlashing, SszFault> {
        read_container!(
            alloc,
            bytes,
            ProposerSlashing {
                signed_header_1: SignedBeaconBlockHeader,
                signed_header_2: SignedBeaconBlockHeader
            }
        )
    }

    #[tactic(auto, unfolding(ssz_codec::specs::Layout::joined, ssz_codec::specs::Layout::fixed_parts, ssz_codec::specs::Layout::variable_parts))]
    fn append_to(&self, out: &mut Writer) -> Result<(), NoMemory> {
        write_container!(self, out, signed_header_1, signed_header_2)
    }

    ghost lawful = { proposer_slashing_lawful };

    ghost roots = { refl };
}

impl FixedSsz for ProposerSlashing {
    ghost is_fixed = { proposer_slashing_fixed };

    ghost composite = { refl };
}

impl ListValue for ProposerSlashing {
    fn copied(&self) -> Result<ProposerSlashing, NoMemory> {
        Ok(*self)
    }

    fn same(&self, other: &ProposerSlashing) -> bool {
        self == other
    }
}
