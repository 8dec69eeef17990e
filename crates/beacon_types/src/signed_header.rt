//! A block header with its signature.

ghost use Rattle.std.specs.Prelude.{◌≡◌, refl};
ghost use Rattle.beacon_types.specs.Containers.{signed_header_codec};
ghost use Rattle.beacon_types.specs.laws.Containers.{signed_header_lawful, signed_header_fixed};

use crate::block_header::BeaconBlockHeader;
use bc_words::NoMemory;
use hash_tree::{Leaf, Root};
use ssz_codec::{
    Field, FixedSsz, Ssz, SszFault, Writer, read_container, root_of_container, write_container,
};
use std::alloc::Global;

/// A header that was signed (beacon-chain.md, "SignedBeaconBlockHeader").
#[derive(Clone, Copy, PartialEq, Eq)]
pub struct SignedBeaconBlockHeader {
    /// The header.
    pub message: BeaconBlockHeader,
    /// The signature, which is kept and not checked.
    pub signature: [u8; 96],
}

impl Leaf for SignedBeaconBlockHeader {
    ghost root_of = { signed_header_codec.hash_tree_root };

    fn root(&self) -> Root {
        root_of_container!(self, message, signature)
    }
}

impl Ssz for SignedBeaconBlockHeader {
    ghost codec = { signed_header_codec };

    fn field() -> Field {
        Field::Fixed(208)
    }

    fn parse(alloc: Global, bytes: &[u8]) -> Result<SignedBeaconBlockHeader, SszFault> {
        read_container!(
            alloc,
            bytes,
            SignedBeaconBlockHeader {
                message: BeaconBlockHeader,
                signature: [u8; 96]
            }
        )
    }

    #[tactic(auto, unfolding(ssz_codec::specs::Layout::joined, ssz_codec::specs::Layout::fixed_parts, ssz_codec::specs::Layout::variable_parts))]
    fn append_to(&self, out: &mut Writer) -> Result<(), NoMemory> {
        write_container!(self, out, message, signature)
    }

    ghost lawful = { signed_header_lawful };

    ghost roots = { refl };
}

impl FixedSsz for SignedBeaconBlockHeader {
    ghost is_fixed = { signed_header_fixed };

    ghost composite = { refl };
}
