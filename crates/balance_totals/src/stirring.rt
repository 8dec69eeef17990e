//! Which validators the registry's updates may change.

ghost use Rattle.std.specs.Prelude.{◌≡◌, ◌||◌};
ghost use Rattle.spec_state.specs.Predicates.{is_eligible_for_activation_queue};
ghost use Rattle.balance_totals.specs.inside.Stirring.{is_ejected, is_pending, stirs};

use active_sets::is_active_entry;
use bc_preset::constants::FAR_FUTURE_EPOCH;
use bc_preset::{Config, Preset};
use beacon_state::Entry;

/// Whether a validator doesn't wait yet, and its effective balance is the greatest (beacon-chain.md,
/// `is_eligible_for_activation_queue`).
#[tactic(auto, unfolding(spec_state::specs::Predicates::is_eligible_for_activation_queue))]
pub fn may_wait(preset: &Preset, validator: &Entry) -> bool
    ensures { result ≡ is_eligible_for_activation_queue preset.now validator.now }
{
    validator.activation_eligibility_epoch() == FAR_FUTURE_EPOCH
        && validator.effective_balance() == preset.max_effective_balance
}

/// Whether a validator is ejected: it is active at the epoch, with too low an effective balance.
#[tactic(auto, unfolding(crate::specs::inside::Stirring::is_ejected))]
pub fn is_ejected(validator: &Entry, epoch: u64, config: &Config) -> bool
    ensures { result ≡ is_ejected config.now epoch validator.now }
{
    is_active_entry(validator, epoch) && validator.effective_balance() <= config.ejection_balance()
}

/// Whether a validator was found eligible and isn't activated.
#[tactic(auto, unfolding(crate::specs::inside::Stirring::is_pending))]
fn is_pending(validator: &Entry) -> bool
    ensures { result ≡ is_pending validator.now }
{
    validator.activation_eligibility_epoch() != FAR_FUTURE_EPOCH
        && validator.activation_epoch() == FAR_FUTURE_EPOCH
}

/// Whether a validator begins to wait, is ejected, or waits to be let in.
#[tactic(auto, unfolding(crate::specs::inside::Stirring::stirs))]
pub(crate) fn stirs(preset: &Preset, config: &Config, epoch: u64, validator: &Entry) -> bool
    ensures { result ≡ stirs preset.now config.now epoch validator.now }
{
    may_wait(preset, validator) || is_ejected(validator, epoch, config) || is_pending(validator)
}
