//! Whether a validator may be slashed (beacon-chain.md, "is_slashable_validator").

ghost use Rattle.std.specs.Prelude.{◌≡◌};
ghost use Rattle.spec_state.specs.Predicates.{is_slashable_validator};

use beacon_types::Validator;

/// Whether the validator may be slashed at the epoch: it is not slashed, was activated, and its balance can't be withdrawn.
#[tactic(auto, unfolding(spec_state::specs::Predicates::is_slashable_validator))]
pub(crate) fn is_slashable_validator(validator: &Validator, epoch: u64) -> bool
    ensures { result ≡ is_slashable_validator validator.now epoch }
{
    !validator.slashed
        && validator.activation_epoch <= epoch
        && epoch < validator.withdrawable_epoch
}
