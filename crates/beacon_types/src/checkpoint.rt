//! A block at the beginning of an epoch.

ghost use Rattle.std.specs.Prelude.{◌≡◌, refl};
ghost use Rattle.beacon_types.specs.Containers.{checkpoint_codec};
ghost use Rattle.beacon_types.specs.Equality.{same_checkpoint};
ghost use Rattle.beacon_types.specs.laws.Containers.{checkpoint_lawful, checkpoint_fixed};

use bc_words::NoMemory;
use hash_tree::{Leaf, Root};
use ssz_codec::{
    Field, FixedSsz, Ssz, SszFault, Writer, read_container, root_of_container, write_container,
};
use std::alloc::Global;

/// An epoch and the block at its beginning (beacon-chain.md, "Checkpoint").
#[derive(Clone, Copy, Debug, PartialEq, Eq)]
pub struct Checkpoint {
    /// The epoch.
    pub epoch: u64,
    /// The root of the block.
    pub root: Root,
}

/// Whether the two are equal.
pub fn same_checkpoint(a: &Checkpoint, b: &Checkpoint) -> bool
    ensures { result ≡ same_checkpoint a.now b.now }
{
    a.epoch == b.epoch && a.root == b.root
}

impl Leaf for Checkpoint {
    ghost root_of = { checkpoint_codec.hash_tree_root };

    fn root(&self) -> Root {
        root_of_container!(self, epoch, root)
    }
}

impl Ssz for Checkpoint {
    ghost codec = { checkpoint_codec };

    fn field() -> Field {
        Field::Fixed(40)
    }

    #[tactic(auto, using(ssz_codec::proofs::Fieldwise::two_read, ssz_codec::proofs::Fieldwise::two_unread))]
    fn parse(alloc: Global, bytes: &[u8]) -> Result<Checkpoint, SszFault> {
        read_container!(
            alloc,
            bytes,
            Checkpoint {
                epoch: u64,
                root: Root
            }
        )
    }

    #[tactic(auto, unfolding(ssz_codec::specs::Layout::joined, ssz_codec::specs::Layout::fixed_parts, ssz_codec::specs::Layout::variable_parts))]
    fn append_to(&self, out: &mut Writer) -> Result<(), NoMemory> {
        write_container!(self, out, epoch, root)
    }

    ghost lawful = { checkpoint_lawful };

    ghost roots = { refl };
}

impl FixedSsz for Checkpoint {
    ghost is_fixed = { checkpoint_fixed };

    ghost composite = { refl };
}
