//! A deposit with the branch that leads to it.

ghost use Rattle.std.specs.Prelude.{◌≡◌, ℕ, ◌≤◌, ◌^◌, refl, IfOk, IsTrue, ◌↔◌};
ghost use Rattle.beacon_types.specs.Containers.{deposit_codec};
ghost use Rattle.beacon_types.specs.laws.Containers.{deposit_lawful, deposit_fixed, deposit_proof_low};

use crate::deposit_data::DepositData;
use bc_words::NoMemory;
use hash_tree::{Leaf, Root};
use ssz_codec::{
    Field, FixedSsz, ListValue, RootVector, Ssz, SszFault, VectorLength, Writer, read_container,
    root_of_container, write_container,
};
use std::alloc::Global;

/// How many roots lead from a deposit to the deposit root: one more than the depth of the contract's tree, for the
/// number of deposits that is mixed in.
#[derive(Drop)]
pub struct DepositProofLength;

impl VectorLength for DepositProofLength {
    ghost LENGTH = { 33 };

    const LENGTH: u64 = 33;

    ghost low = { deposit_proof_low };
}

/// The roots beside the way from a deposit to the deposit root, from below.
pub type DepositProof = RootVector<DepositProofLength>;

/// A deposit in a block (beacon-chain.md, "Deposit").
#[derive(Drop)]
pub struct Deposit {
    /// The branch to the deposit root.
    pub proof: DepositProof,
    /// What the contract took, the published field `data`.
    pub content: DepositData,
}

impl Deposit {
    /// The same deposit once more.
    pub fn copy(&self) -> Result<Deposit, NoMemory>
        ensures { IfOk result (λ copy. copy ≡ self.now) }
    {
        match self.proof.copy() {
            Ok(proof) => Ok(Deposit {
                proof,
                content: self.content,
            }),
            Err(refused) => Err(refused),
        }
    }

    /// Whether it is the same deposit.
    pub fn equals(&self, other: &Deposit) -> bool
        ensures { IsTrue result ↔ (self.now ≡ other.now) }
    {
        self.proof.equals(&other.proof) && self.content == other.content
    }
}

impl Leaf for Deposit {
    ghost root_of = { deposit_codec.hash_tree_root };

    fn root(&self) -> Root {
        root_of_container!(self, proof, content)
    }
}

impl Ssz for Deposit {
    ghost codec = { deposit_codec };

    fn field() -> Field {
        Field::Fixed(1240)
    }

    #[tactic(auto, using(ssz_codec::proofs::Fieldwise::two_read, ssz_codec::proofs::Fieldwise::two_unread))]
    fn parse(alloc: Global, bytes: &[u8]) -> Result<Deposit, SszFault> {
        read_container!(
            alloc,
            bytes,
            Deposit {
                proof: DepositProof,
                content: DepositData
            }
        )
    }

    #[tactic(auto, unfolding(ssz_codec::specs::Layout::joined, ssz_codec::specs::Layout::fixed_parts, ssz_codec::specs::Layout::variable_parts))]
    fn append_to(&self, out: &mut Writer) -> Result<(), NoMemory> {
        write_container!(self, out, proof, content)
    }

    ghost lawful = { deposit_lawful };

    ghost roots = { refl };
}

impl FixedSsz for Deposit {
    ghost is_fixed = { deposit_fixed };

    ghost composite = { refl };
}

impl ListValue for Deposit {
    fn copied(&self) -> Result<Deposit, NoMemory> {
        self.copy()
    }

    fn same(&self, other: &Deposit) -> bool {
        self.equals(other)
    }
}
