//! Whether lists are those of the active validators of two epochs, which no list is made for.
//!
//! One pass over the registry beside both lists, which ends at the first difference and takes no memory.

ghost use Rattle.std.specs.Prelude.{◌≡◌, ℕ, ◌+◌, [], ◌∷◌, List, drop, IsTrue};
ghost use Rattle.beacon_types.specs.declared.validator.Validator.{Validator};
ghost use Rattle.spec_state.specs.Accessors.{get_active_validator_indices};
ghost use Rattle.forensics.specs.inside.ActiveLists.{active_from};

use balance_totals::is_active_entry;
use beacon_state::{Entry, State};

/// Whether a list has the index of a validator at a place, which is then the next one, or the validator isn't active at the epoch.
#[tactic(auto, using(crate::proofs::ActiveLists::passes_over, crate::proofs::ActiveLists::takes_off))]
fn goes_on(list: &[u64], place: &mut usize, epoch: u64, index: usize, validator: &Entry) -> bool
    ensures { (left : List Validator) → IsTrue result → drop place.new list.now ≡ active_from epoch (index + 1) left → drop place.old list.now ≡ active_from epoch index (validator.now ∷ left) }
{
    if !is_active_entry(validator, epoch) {
        return true;
    }
    if *place < list.len() && list[*place] == index as u64 {
        *place += 1;
        return true;
    }
    false
}

/// Whether a list ends at a place.
#[tactic(auto, using(crate::proofs::ActiveLists::ends))]
fn is_over(list: &[u64], place: usize) -> bool
    ensures { (epoch index : ℕ) → IsTrue result → drop place list.now ≡ active_from epoch index [] }
{
    place == list.len()
}

/// Whether two lists are those of the validators that are active at two epochs.
#[tactic(auto, using(crate::proofs::ActiveLists::all_active))]
pub(crate) fn are_active(
    state: &State,
    first: u64,
    firsts: &[u64],
    second: u64,
    seconds: &[u64],
) -> bool
    ensures first { IsTrue result → firsts.now ≡ get_active_validator_indices state.now first }
    ensures second { IsTrue result → seconds.now ≡ get_active_validator_indices state.now second }
{
    let mut place = 0;
    let mut other = 0;
    let registry = state.registry();
    let _count = registry.len();
    let validators = registry.iter();
    for (index, validator) in validators.enumerate() {
        if !goes_on(firsts, &mut place, first, index, &validator) {
            return false;
        }
        if !goes_on(seconds, &mut other, second, index, &validator) {
            return false;
        }
    }
    if !is_over(firsts, place) {
        return false;
    }
    is_over(seconds, other)
}
