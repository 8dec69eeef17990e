//! A validator of the registry.

ghost use Rattle.std.specs.Prelude.{◌≡◌, refl};
ghost use Rattle.beacon_types.specs.Containers.{validator_codec};
ghost use Rattle.beacon_types.specs.laws.Containers.{validator_lawful, validator_fixed};

use crate::validator_roots::write_validator_roots;
use bc_words::NoMemory;
use hash_tree::{Leaf, Root};
use ssz_codec::{
    Field, FixedSsz, Ssz, SszFault, Writer, read_container, root_of_container, write_container,
};
use std::alloc::Global;

/// A validator (beacon-chain.md, "Validator").
#[derive(Clone, Copy, PartialEq, Eq)]
pub struct Validator {
    /// Its public key.
    pub pubkey: [u8; 48],
    /// The commitment to what its balance is withdrawn to.
    pub withdrawal_credentials: [u8; 32],
    /// The balance that counts, in Gwei.
    pub effective_balance: u64,
    /// Whether it was slashed.
    pub slashed: bool,
    /// The epoch from which it may be activated.
    pub activation_eligibility_epoch: u64,
    /// The first epoch in which it is active.
    pub activation_epoch: u64,
    /// The first epoch in which it is active no longer.
    pub exit_epoch: u64,
    /// The epoch from which its balance may be withdrawn.
    pub withdrawable_epoch: u64,
}

impl Leaf for Validator {
    ghost root_of = { validator_codec.hash_tree_root };

    fn root(&self) -> Root {
        root_of_container!(
            self,
            pubkey,
            withdrawal_credentials,
            effective_balance,
            slashed,
            activation_eligibility_epoch,
            activation_epoch,
            exit_epoch,
            withdrawable_epoch
        )
    }

    fn write_roots(validators: &[Validator], out: &mut [Root]) {
        write_validator_roots(validators, out);
    }
}

impl Ssz for Validator {
    ghost codec = { validator_codec };

    fn field() -> Field {
        Field::Fixed(121)
    }

    fn parse(alloc: Global, bytes: &[u8]) -> Result<Validator, SszFault> {
        read_container!(
            alloc,
            bytes,
            Validator {
                pubkey: [u8; 48],
                withdrawal_credentials: [u8; 32],
                effective_balance: u64,
                slashed: bool,
                activation_eligibility_epoch: u64,
                activation_epoch: u64,
                exit_epoch: u64,
                withdrawable_epoch: u64
            }
        )
    }

    #[tactic(auto, unfolding(ssz_codec::specs::Layout::joined, ssz_codec::specs::Layout::fixed_parts, ssz_codec::specs::Layout::variable_parts))]
    fn append_to(&self, out: &mut Writer) -> Result<(), NoMemory> {
        write_container!(
            self,
            out,
            pubkey,
            withdrawal_credentials,
            effective_balance,
            slashed,
            activation_eligibility_epoch,
            activation_epoch,
            exit_epoch,
            withdrawable_epoch
        )
    }

    ghost lawful = { validator_lawful };

    ghost roots = { refl };
}

impl FixedSsz for Validator {
    ghost is_fixed = { validator_fixed };

    ghost composite = { refl };
}
