//! Which votes of one validator are slashable together.

ghost use Rattle.std.specs.Prelude.{◌≡◌};
ghost use Rattle.std.specs.Bool.{Decides};
ghost use Rattle.beacon_types.specs.Equality.{same_data};
ghost use Rattle.beacon_types.specs.Slashable.{is_slashable_attestation_data};

use crate::attestation_data::AttestationData;

/// Whether the votes are a double vote, or the first surrounds the second (beacon-chain.md,
/// "is_slashable_attestation_data").
#[tactic(auto, unfolding(crate::specs::Slashable::is_slashable_attestation_data))]
pub fn is_slashable_data(a: &AttestationData, b: &AttestationData) -> bool
    ensures { result ≡ is_slashable_attestation_data a.now b.now }
{
    let double = a != b && a.target.epoch == b.target.epoch;
    let surround = a.source.epoch < b.source.epoch && b.target.epoch < a.target.epoch;
    double || surround
}

/// The equality in that definition is equality.
#[tactic(auto, using(crate::proofs::Equality::data_decides))]
pub fn same_data_is_equality()
    ensures { (a b : AttestationData) → Decides (same_data a b) (a ≡ b) }
{}
