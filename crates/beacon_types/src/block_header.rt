//! A block without its body.

ghost use Rattle.std.specs.Prelude.{◌≡◌, refl};
ghost use Rattle.beacon_types.specs.Containers.{block_header_codec};
ghost use Rattle.beacon_types.specs.laws.Containers.{block_header_lawful, block_header_fixed};

use bc_words::NoMemory;
use hash_tree::{Leaf, Root};
use ssz_codec::{
    Field, FixedSsz, Ssz, SszFault, Writer, read_container, root_of_container, write_container,
};
use std::alloc::Global;

/// A block, its body by root alone (beacon-chain.md, "BeaconBlockHeader").
#[derive(Clone, Copy, PartialEq, Eq)]
pub struct BeaconBlockHeader {
    /// The slot of the block.
    pub slot: u64,
    /// Who proposed it.
    pub proposer_index: u64,
    /// The root of the block before.
    pub parent_root: Root,
    /// The root of the state behind the block.
    pub state_root: Root,
    /// The root of its body.
    pub body_root: Root,
}

impl Leaf for BeaconBlockHeader {
    ghost root_of = { block_header_codec.hash_tree_root };

    fn root(&self) -> Root {
        root_of_container!(
            self,
            slot,
            proposer_index,
            parent_root,
            state_root,
            body_root
        )
    }
}

impl Ssz for BeaconBlockHeader {
    ghost codec = { block_header_codec };

    fn field() -> Field {
        Field::Fixed(112)
    }

    #[tactic(auto, using(ssz_codec::proofs::Fieldwise::five_read, ssz_codec::proofs::Fieldwise::five_unread))]
    fn parse(alloc: Global, bytes: &[u8]) -> Result<BeaconBlockHeader, SszFault> {
        read_container!(
            alloc,
            bytes,
            BeaconBlockHeader {
                slot: u64,
                proposer_index: u64,
                parent_root: Root,
                state_root: Root,
                body_root: Root
            }
        )
    }

    #[tactic(auto, unfolding(ssz_codec::specs::Layout::joined, ssz_codec::specs::Layout::fixed_parts, ssz_codec::specs::Layout::variable_parts))]
    fn append_to(&self, out: &mut Writer) -> Result<(), NoMemory> {
        write_container!(
            self,
            out,
            slot,
            proposer_index,
            parent_root,
            state_root,
            body_root
        )
    }

    ghost lawful = { block_header_lawful };

    ghost roots = { refl };
}

impl FixedSsz for BeaconBlockHeader {
    ghost is_fixed = { block_header_fixed };

    ghost composite = { refl };
}
