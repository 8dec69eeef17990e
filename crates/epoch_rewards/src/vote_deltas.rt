//! Rewards and penalties for one vote of the previous epoch's attestations (beacon-chain.md, "Components of attestation
//! deltas").

ghost use Rattle.std.specs.Prelude.{◌≡◌};
ghost use Rattle.bc_words.specs.Outcome.{Gives};
ghost use Rattle.spec_state.specs.Accessors.{get_previous_epoch};
ghost use Rattle.balance_totals.specs.inside.Stakes.{stakes_of};
ghost use Rattle.epoch_rewards.specs.inside.Statuses.{statuses_of};
ghost use Rattle.epoch_rewards.specs.inside.Components.{vote_deltas};

use crate::get_attestation_component_deltas::get_attestation_component_deltas;
use crate::matching::Vote;
use crate::table::Status;
use balance_totals::Stake;
use bc_words::Stop;
use beacon_state::State;
use spec_epochs::Deltas;
use std::alloc::Global;

/// What each validator gains and loses by a vote of the previous epoch's attestations. The stakes are the state's,
/// and the statuses those of that epoch.
#[tactic(auto, using(crate::proofs::Components::component_deltas_are))]
pub(crate) fn vote_deltas(
    alloc: Global,
    state: &State,
    stakes: &[Stake],
    statuses: &[Status],
    vote: Vote,
) -> Result<Deltas, Stop>
    requires stakes { stakes.now ≡ stakes_of state.now }
    requires statuses { statuses.now ≡ statuses_of state.now (get_previous_epoch state.now) }
    ensures { Gives result (vote_deltas state.now vote) }
{
    get_attestation_component_deltas(alloc, state, stakes, statuses, vote)
}
