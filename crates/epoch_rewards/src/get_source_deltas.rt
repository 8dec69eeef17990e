//! Rewards and penalties for the source of attestations (beacon-chain.md, "get_source_deltas").

ghost use Rattle.std.specs.Prelude.{◌≡◌};
ghost use Rattle.bc_words.specs.Outcome.{Gives};
ghost use Rattle.spec_state.specs.Accessors.{get_previous_epoch};
ghost use Rattle.spec_epochs.specs.GetSourceDeltas.{get_source_deltas};
ghost use Rattle.balance_totals.specs.inside.Stakes.{stakes_of};
ghost use Rattle.epoch_rewards.specs.inside.Statuses.{statuses_of};

use crate::matching::Vote;
use crate::table::Status;
use crate::vote_deltas::vote_deltas;
use balance_totals::Stake;
use bc_words::Stop;
use beacon_state::State;
use spec_epochs::Deltas;
use std::alloc::Global;

/// What each validator gains and loses by the source of the previous epoch's attestations (beacon-chain.md,
/// `get_source_deltas`). The stakes are the state's, and the statuses those of the previous epoch. Refused as an overflow exactly
/// where a sum or product does not fit.
#[tactic(auto, unfolding(spec_epochs::specs::GetSourceDeltas::get_source_deltas, crate::specs::inside::Votes::matching))]
pub fn source_deltas(
    alloc: Global,
    state: &State,
    stakes: &[Stake],
    statuses: &[Status],
) -> Result<Deltas, Stop>
    requires stakes { stakes.now ≡ stakes_of state.now }
    requires statuses { statuses.now ≡ statuses_of state.now (get_previous_epoch state.now) }
    ensures { Gives result (get_source_deltas state.now) }
{
    vote_deltas(alloc, state, stakes, statuses, Vote::Source)
}
