//! Which fork a state is in.

ghost use Rattle.std.specs.Prelude.{◌≡◌, refl};
ghost use Rattle.beacon_types.specs.Containers.{fork_codec};
ghost use Rattle.beacon_types.specs.laws.Containers.{fork_lawful, fork_fixed};

use bc_words::NoMemory;
use hash_tree::{Leaf, Root};
use ssz_codec::{
    Field, FixedSsz, Ssz, SszFault, Writer, read_container, root_of_container, write_container,
};
use std::alloc::Global;

/// The versions of the fork (beacon-chain.md, "Fork").
#[derive(Clone, Copy, PartialEq, Eq)]
pub struct Fork {
    /// The version before.
    pub previous_version: [u8; 4],
    /// The version now.
    pub current_version: [u8; 4],
    /// The epoch of the latest fork.
    pub epoch: u64,
}

impl Leaf for Fork {
    ghost root_of = { fork_codec.hash_tree_root };

    fn root(&self) -> Root {
        root_of_container!(self, previous_version, current_version, epoch)
    }
}

impl Ssz for Fork {
    ghost codec = { fork_codec };

    fn field() -> Field {
        Field::Fixed(16)
    }

    #[tactic(auto, using(ssz_codec::proofs::Fieldwise::three_read, ssz_codec::proofs::Fieldwise::three_unread))]
    fn parse(alloc: Global, bytes: &[u8]) -> Result<Fork, SszFault> {
        read_container!(
            alloc,
            bytes,
            Fork {
                previous_version: [u8; 4],
                current_version: [u8; 4],
                epoch: u64
            }
        )
    }

    #[tactic(auto, unfolding(ssz_codec::specs::Layout::joined, ssz_codec::specs::Layout::fixed_parts, ssz_codec::specs::Layout::variable_parts))]
    fn append_to(&self, out: &mut Writer) -> Result<(), NoMemory> {
        write_container!(self, out, previous_version, current_version, epoch)
    }

    ghost lawful = { fork_lawful };

    ghost roots = { refl };
}

impl FixedSsz for Fork {
    ghost is_fixed = { fork_fixed };

    ghost composite = { refl };
}
