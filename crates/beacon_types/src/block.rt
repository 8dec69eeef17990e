//! A block.

ghost use Rattle.std.specs.Prelude.{◌≡◌, refl, IfOk, IsTrue, ◌↔◌};
ghost use Rattle.beacon_types.specs.Blocks.{block_codec};
ghost use Rattle.beacon_types.specs.laws.Blocks.{block_lawful};

use crate::body::BeaconBlockBody;
use bc_words::NoMemory;
use hash_tree::{Leaf, Root};
use ssz_codec::{
    Field, Offset, Ssz, SszFault, Writer, read_container, root_of_container, write_pieces,
};
use std::alloc::Global;

/// A block (beacon-chain.md, "BeaconBlock").
pub struct BeaconBlock {
    /// Its slot.
    pub slot: u64,
    /// Who proposed it.
    pub proposer_index: u64,
    /// The root of the block before.
    pub parent_root: Root,
    /// The root of the state behind the block.
    pub state_root: Root,
    /// What it carries.
    pub body: BeaconBlockBody,
}

// Written by hand, so that a call that lets one go is one call, and not one for each of its lists.
impl Drop for BeaconBlock {
    fn drop(self) {
        let BeaconBlock {
            slot: _,
            proposer_index: _,
            parent_root: _,
            state_root: _,
            body,
        } = self;
        drop(body);
    }
}

impl BeaconBlock {
    /// Whether it is the same block.
    pub fn equals(&self, other: &BeaconBlock) -> bool
        ensures { IsTrue result ↔ (self.now ≡ other.now) }
    {
        self.slot == other.slot
            && self.proposer_index == other.proposer_index
            && self.parent_root == other.parent_root
            && self.state_root == other.state_root
            && self.body.equals(&other.body)
    }

    /// The same block once more.
    pub fn copy(&self, alloc: Global) -> Result<BeaconBlock, NoMemory>
        ensures { IfOk result (λ copy. copy ≡ self.now) }
    {
        Ok(BeaconBlock {
            slot: self.slot,
            proposer_index: self.proposer_index,
            parent_root: self.parent_root,
            state_root: self.state_root,
            body: self.body.copy(alloc)?,
        })
    }
}

impl Leaf for BeaconBlock {
    ghost root_of = { block_codec.hash_tree_root };

    fn root(&self) -> Root {
        root_of_container!(self, slot, proposer_index, parent_root, state_root, body)
    }
}

impl Ssz for BeaconBlock {
    ghost codec = { block_codec };

    fn field() -> Field {
        Field::Variable
    }

    fn parse(alloc: Global, bytes: &[u8]) -> Result<BeaconBlock, SszFault> {
        read_container!(
            alloc,
            bytes,
            BeaconBlock {
                slot: u64,
                proposer_index: u64,
                parent_root: Root,
                state_root: Root,
                body: BeaconBlockBody
            }
        )
    }

    #[tactic(auto, unfolding(ssz_codec::specs::Layout::joined, ssz_codec::specs::Layout::fixed_parts, ssz_codec::specs::Layout::variable_parts))]
    fn append_to(&self, out: &mut Writer) -> Result<(), NoMemory> {
        write_pieces!(
            out,
            &self.slot,
            &self.proposer_index,
            &self.parent_root,
            &self.state_root,
            Offset(84),
            &self.body,
        )
    }

    ghost lawful = { block_lawful };

    ghost roots = { refl };
}
