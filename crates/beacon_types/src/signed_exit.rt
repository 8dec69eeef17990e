//! A voluntary exit with its signature.

ghost use Rattle.std.specs.Prelude.{◌≡◌, refl};
ghost use Rattle.beacon_types.specs.Containers.{signed_exit_codec};
ghost use Rattle.beacon_types.specs.laws.Containers.{signed_exit_lawful, signed_exit_fixed};

use crate::voluntary_exit::VoluntaryExit;
use bc_words::NoMemory;
use hash_tree::{Leaf, Root};
use ssz_codec::{
    Field, FixedSsz, ListValue, Ssz, SszFault, Writer, read_container, root_of_container,
    write_container,
};
use std::alloc::Global;

/// An exit that was signed (beacon-chain.md, "SignedVoluntaryExit").
#[derive(Clone, Copy, PartialEq, Eq)]
pub struct SignedVoluntaryExit {
    /// The exit.
    pub message: VoluntaryExit,
    /// The signature, which is kept and not checked.
    pub signature: [u8; 96],
}

impl Leaf for SignedVoluntaryExit {
    ghost root_of = { signed_exit_codec.hash_tree_root };

    fn root(&self) -> Root {
        root_of_container!(self, message, signature)
    }
}

impl Ssz for SignedVoluntaryExit {
    ghost codec = { signed_exit_codec };

    fn field() -> Field {
        Field::Fixed(112)
    }

    #[tactic(auto, using(ssz_codec::proofs::Fieldwise::two_read, ssz_codec::proofs::Fieldwise::two_unread))]
    fn parse(alloc: Global, bytes: &[u8]) -> Result<SignedVoluntaryExit, SszFault> {
        read_container!(
            alloc,
            bytes,
            SignedVoluntaryExit {
                message: VoluntaryExit,
                signature: [u8; 96]
            }
        )
    }

    #[tactic(auto, unfolding(ssz_codec::specs::Layout::joined, ssz_codec::specs::Layout::fixed_parts, ssz_codec::specs::Layout::variable_parts))]
    fn append_to(&self, out: &mut Writer) -> Result<(), NoMemory> {
        write_container!(self, out, message, signature)
    }

    ghost lawful = { signed_exit_lawful };

    ghost roots = { refl };
}

impl FixedSsz for SignedVoluntaryExit {
    ghost is_fixed = { signed_exit_fixed };

    ghost composite = { refl };
}

impl ListValue for SignedVoluntaryExit {
    fn copied(&self) -> Result<SignedVoluntaryExit, NoMemory> {
        Ok(*self)
    }

    fn same(&self, other: &SignedVoluntaryExit) -> bool {
        self == other
    }
}
