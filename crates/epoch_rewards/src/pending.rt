//! The pending attestations of an epoch.

ghost use Rattle.std.specs.Prelude.{◌≡◌, length};
ghost use Rattle.std.specs.List.{slice_get};
ghost use Rattle.std.specs.Option.{option_map};
ghost use Rattle.spec_epochs.specs.Helpers.{get_matching_source_attestations};

use balance_totals::current_epoch;
use beacon_state::State;
use beacon_types::PendingAttestation;

/// How many attestations the epoch has, the current or the previous one.
#[tactic(auto, unfolding(spec_epochs::specs::Helpers::get_matching_source_attestations))]
pub(crate) fn pending_len(state: &State, epoch: u64) -> u64
    ensures { result ≡ length (get_matching_source_attestations state.now epoch) }
{
    if epoch == current_epoch(state) {
        return state.current_epoch_attestations_len();
    }
    state.previous_epoch_attestations_len()
}

/// The attestation of the epoch at a place. None exactly where the place is not below the length.
#[tactic(auto, unfolding(spec_epochs::specs::Helpers::get_matching_source_attestations))]
pub(crate) fn pending_at(state: &State, epoch: u64, i: u64) -> Option<&PendingAttestation>
    ensures { option_map (λ a. a.now) result ≡ slice_get (get_matching_source_attestations state.now epoch) i }
{
    if epoch == current_epoch(state) {
        return state.current_epoch_attestations_at(i);
    }
    state.previous_epoch_attestations_at(i)
}
