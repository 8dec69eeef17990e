//! Whether the validators of a state are those of genesis, in both epochs whose attestations its epoch processing counts.
//!
//! One pass over both registries by their iterators, which ends at the first difference and takes no memory.

ghost use Rattle.std.specs.Prelude.{◌≡◌, ◌&&◌, List, [], ◌∷◌};
ghost use Rattle.beacon_types.specs.declared.validator.Validator.{Validator};
ghost use Rattle.spec_forensics.specs.Steady.{is_steady_at};
ghost use Rattle.forensics.specs.inside.SideBySide.{stays_in, stays, stay};

use balance_totals::{current_epoch, is_active_entry, previous_epoch};
use beacon_state::{Entry, State};
use validator_registry::Validators;

/// Whether a validator is in an epoch as it is at genesis.
#[tactic(auto, unfolding(crate::specs::inside::SideBySide::stays_in))]
fn stays_in(epoch: u64, own: &Option<Entry<'_>>, validator: &Entry) -> bool
    ensures { result ≡ stays_in epoch own.now validator.now }
{
    let active = is_active_entry(validator, epoch);
    match own {
        Some(own) if is_active_entry(own, 0) => {
            active && validator.effective_balance() == own.effective_balance()
        }
        _ => !active,
    }
}

/// Whether it is in two epochs.
#[tactic(auto, unfolding(crate::specs::inside::SideBySide::stays))]
fn stays(previous: u64, current: u64, own: &Option<Entry<'_>>, validator: &Entry) -> bool
    ensures { result ≡ stays previous current own.now validator.now }
{
    stays_in(previous, own, validator) && stays_in(current, own, validator)
}

/// Whether a validator of a state stays beside the next one of genesis, which is taken off.
#[tactic(auto, using(crate::proofs::Places::next_place))]
fn next_stays(previous: u64, current: u64, owns: &mut Validators<'_>, validator: &Entry) -> bool
    ensures { (left : List Validator) → stay previous current owns.old (validator.now ∷ left) ≡ result && stay previous current owns.new left }
{
    let own = owns.next();
    stays(previous, current, &own, validator)
}

/// Whether none of the validators of genesis that a state doesn't have is active there.
#[tactic(auto, using(crate::proofs::Places::idling))]
fn are_idle(previous: u64, current: u64, owns: Validators<'_>) -> bool
    ensures { result ≡ stay previous current owns.entry [] }
{
    for own in owns {
        if is_active_entry(&own, 0) {
            return false;
        }
    }
    true
}

/// Whether the validators of a state are in both epochs as they are at genesis.
#[tactic(auto, using(crate::proofs::Places::walking))]
pub(crate) fn is_steady(genesis: &State, state: &State) -> bool
    ensures { result ≡ is_steady_at genesis.now state.now }
{
    let previous = previous_epoch(state);
    let current = current_epoch(state);
    let mut owns = genesis.registry().iter();
    for validator in state.registry().iter() {
        if !next_stays(previous, current, &mut owns, &validator) {
            return false;
        }
    }
    are_idle(previous, current, owns)
}
