//! A block with its signature.

ghost use Rattle.std.specs.Prelude.{◌≡◌, refl, IfOk};
ghost use Rattle.beacon_types.specs.Blocks.{signed_block_codec};
ghost use Rattle.beacon_types.specs.laws.Blocks.{signed_block_lawful};

use crate::block::BeaconBlock;
use bc_words::NoMemory;
use hash_tree::{Leaf, Root};
use ssz_codec::{
    Field, Offset, Ssz, SszFault, Writer, read_container, root_of_container, write_pieces,
};
use std::alloc::Global;

/// A block that was signed (beacon-chain.md, "SignedBeaconBlock").
pub struct SignedBeaconBlock {
    /// The block.
    pub message: BeaconBlock,
    /// The signature, which is kept and not checked.
    pub signature: [u8; 96],
}

// Written by hand, so that a call that lets one go is one call, and not one for each of its lists.
impl Drop for SignedBeaconBlock {
    fn drop(self) {
        let SignedBeaconBlock {
            message,
            signature: _,
        } = self;
        drop(message);
    }
}

impl SignedBeaconBlock {
    /// The same signed block once more.
    pub fn copy(&self, alloc: Global) -> Result<SignedBeaconBlock, NoMemory>
        ensures { IfOk result (λ copy. copy ≡ self.now) }
    {
        Ok(SignedBeaconBlock {
            message: self.message.copy(alloc)?,
            signature: self.signature,
        })
    }
}

impl Leaf for SignedBeaconBlock {
    ghost root_of = { signed_block_codec.hash_tree_root };

    fn root(&self) -> Root {
        root_of_container!(self, message, signature)
    }
}

impl Ssz for SignedBeaconBlock {
    ghost codec = { signed_block_codec };

    fn field() -> Field {
        Field::Variable
    }

    fn parse(alloc: Global, bytes: &[u8]) -> Result<SignedBeaconBlock, SszFault> {
        read_container!(
            alloc,
            bytes,
            SignedBeaconBlock {
                message: BeaconBlock,
                signature: [u8; 96]
            }
        )
    }

    #[tactic(auto, unfolding(ssz_codec::specs::Layout::joined, ssz_codec::specs::Layout::fixed_parts, ssz_codec::specs::Layout::variable_parts))]
    fn append_to(&self, out: &mut Writer) -> Result<(), NoMemory> {
        write_pieces!(out, Offset(100), &self.signature, &self.message,)
    }

    ghost lawful = { signed_block_lawful };

    ghost roots = { refl };
}
