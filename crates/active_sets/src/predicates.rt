//! Whether a validator is active (beacon-chain.md, "Predicates").

ghost use Rattle.std.specs.Prelude.{◌≡◌};
ghost use Rattle.spec_state.specs.Predicates.{is_active_validator};

use beacon_types::Validator;
use validator_registry::Entry;

/// Whether the validator is active at the epoch (beacon-chain.md, `is_active_validator`).
#[tactic(auto, unfolding(spec_state::specs::Predicates::is_active_validator))]
pub fn is_active_validator(validator: &Validator, epoch: u64) -> bool
    ensures { result ≡ is_active_validator validator.now epoch }
{
    validator.activation_epoch <= epoch && epoch < validator.exit_epoch
}

/// The same of a validator where it stands in a registry.
#[tactic(auto, unfolding(spec_state::specs::Predicates::is_active_validator))]
pub fn is_active_entry(validator: &Entry, epoch: u64) -> bool
    ensures { result ≡ is_active_validator validator.now epoch }
{
    validator.activation_epoch() <= epoch && epoch < validator.exit_epoch()
}
