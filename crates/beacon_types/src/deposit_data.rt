//! A deposit, as the contract on the execution chain took it.

ghost use Rattle.std.specs.Prelude.{◌≡◌, refl};
ghost use Rattle.beacon_types.specs.Containers.{deposit_data_codec};
ghost use Rattle.beacon_types.specs.laws.Containers.{deposit_data_lawful, deposit_data_fixed};

use bc_words::NoMemory;
use hash_tree::{Leaf, Root};
use ssz_codec::{
    Field, FixedSsz, Ssz, SszFault, Writer, read_container, root_of_container, write_container,
};
use std::alloc::Global;

/// A deposit (beacon-chain.md, "DepositData").
#[derive(Clone, Copy, PartialEq, Eq)]
pub struct DepositData {
    /// Its key.
    pub pubkey: [u8; 48],
    /// The commitment to what it is withdrawn to.
    pub withdrawal_credentials: [u8; 32],
    /// How much, in Gwei.
    pub amount: u64,
    /// The signature, which is kept and not checked.
    pub signature: [u8; 96],
}

impl Leaf for DepositData {
    ghost root_of = { deposit_data_codec.hash_tree_root };

    fn root(&self) -> Root {
        root_of_container!(self, pubkey, withdrawal_credentials, amount, signature)
    }
}

impl Ssz for DepositData {
    ghost codec = { deposit_data_codec };

    fn field() -> Field {
        Field::Fixed(184)
    }

    #[tactic(auto, using(ssz_codec::proofs::Fieldwise::four_read, ssz_codec::proofs::Fieldwise::four_unread))]
    fn parse(alloc: Global, bytes: &[u8]) -> Result<DepositData, SszFault> {
        read_container!(
            alloc,
            bytes,
            DepositData {
                pubkey: [u8; 48],
                withdrawal_credentials: [u8; 32],
                amount: u64,
                signature: [u8; 96]
            }
        )
    }

    #[tactic(auto, unfolding(ssz_codec::specs::Layout::joined, ssz_codec::specs::Layout::fixed_parts, ssz_codec::specs::Layout::variable_parts))]
    fn append_to(&self, out: &mut Writer) -> Result<(), NoMemory> {
        write_container!(self, out, pubkey, withdrawal_credentials, amount, signature)
    }

    ghost lawful = { deposit_data_lawful };

    ghost roots = { refl };
}

impl FixedSsz for DepositData {
    ghost is_fixed = { deposit_data_fixed };

    ghost composite = { refl };
}
