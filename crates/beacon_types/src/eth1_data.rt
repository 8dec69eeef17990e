//! What is known of the deposit contract.

ghost use Rattle.std.specs.Prelude.{◌≡◌, refl};
ghost use Rattle.beacon_types.specs.Containers.{eth1_data_codec};
ghost use Rattle.beacon_types.specs.laws.Containers.{eth1_data_lawful, eth1_data_fixed};

use bc_words::NoMemory;
use hash_tree::{Leaf, Root};
use ssz_codec::{
    Field, FixedSsz, Ssz, SszFault, Writer, read_container, root_of_container, write_container,
};
use std::alloc::Global;

/// The deposit contract as a block of the execution chain has it (beacon-chain.md, "Eth1Data").
#[derive(Clone, Copy, PartialEq, Eq)]
pub struct Eth1Data {
    /// The root of the deposits' tree.
    pub deposit_root: Root,
    /// How many deposits there were.
    pub deposit_count: u64,
    /// The block of the execution chain.
    pub block_hash: [u8; 32],
}

impl Leaf for Eth1Data {
    ghost root_of = { eth1_data_codec.hash_tree_root };

    fn root(&self) -> Root {
        root_of_container!(self, deposit_root, deposit_count, block_hash)
    }
}

impl Ssz for Eth1Data {
    ghost codec = { eth1_data_codec };

    fn field() -> Field {
        Field::Fixed(72)
    }

    #[tactic(auto, using(ssz_codec::proofs::Fieldwise::three_read, ssz_codec::proofs::Fieldwise::three_unread))]
    fn parse(alloc: Global, bytes: &[u8]) -> Result<Eth1Data, SszFault> {
        read_container!(
            alloc,
            bytes,
            Eth1Data {
                deposit_root: Root,
                deposit_count: u64,
                block_hash: [u8; 32]
            }
        )
    }

    #[tactic(auto, unfolding(ssz_codec::specs::Layout::joined, ssz_codec::specs::Layout::fixed_parts, ssz_codec::specs::Layout::variable_parts))]
    fn append_to(&self, out: &mut Writer) -> Result<(), NoMemory> {
        write_container!(self, out, deposit_root, deposit_count, block_hash)
    }

    ghost lawful = { eth1_data_lawful };

    ghost roots = { refl };
}

impl FixedSsz for Eth1Data {
    ghost is_fixed = { eth1_data_fixed };

    ghost composite = { refl };
}
