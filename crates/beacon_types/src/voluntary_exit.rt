//! A validator's wish to leave.

ghost use Rattle.std.specs.Prelude.{◌≡◌, refl};
ghost use Rattle.beacon_types.specs.Containers.{voluntary_exit_codec};
ghost use Rattle.beacon_types.specs.laws.Containers.{voluntary_exit_lawful, voluntary_exit_fixed};

use bc_words::NoMemory;
use hash_tree::{Leaf, Root};
use ssz_codec::{
    Field, FixedSsz, Ssz, SszFault, Writer, read_container, root_of_container, write_container,
};
use std::alloc::Global;

/// A validator that wants to exit (beacon-chain.md, "VoluntaryExit").
#[derive(Clone, Copy, PartialEq, Eq)]
pub struct VoluntaryExit {
    /// The epoch from which it may.
    pub epoch: u64,
    /// The validator.
    pub validator_index: u64,
}

impl Leaf for VoluntaryExit {
    ghost root_of = { voluntary_exit_codec.hash_tree_root };

    fn root(&self) -> Root {
        root_of_container!(self, epoch, validator_index)
    }
}

impl Ssz for VoluntaryExit {
    ghost codec = { voluntary_exit_codec };

    fn field() -> Field {
        Field::Fixed(16)
    }

    fn parse(alloc: Global, bytes: &[u8]) -> Result<VoluntaryExit, SszFault> {
        read_container!(
            alloc,
            bytes,
            VoluntaryExit {
                epoch: u64,
                validator_index: u64
            }
        )
    }

    #[tactic(auto, unfolding(ssz_codec::specs::Layout::joined, ssz_codec::specs::Layout::fixed_parts, ssz_codec::specs::Layout::variable_parts))]
    fn append_to(&self, out: &mut Writer) -> Result<(), NoMemory> {
        write_container!(self, out, epoch, validator_index)
    }

    ghost lawful = { voluntary_exit_lawful };

    ghost roots = { refl };
}

impl FixedSsz for VoluntaryExit {
    ghost is_fixed = { voluntary_exit_fixed };

    ghost composite = { refl };
}
