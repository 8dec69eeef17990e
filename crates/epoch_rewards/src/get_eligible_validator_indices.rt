//! Whom rewards and penalties reach (beacon-chain.md, "get_eligible_validator_indices"), and who attested, by what was gathered of
//! the registry and by the table of statuses.

ghost use Rattle.std.specs.Prelude.{◌≡◌, Some, slice_get};
ghost use Rattle.spec_epochs.specs.Each.{is_among};
ghost use Rattle.spec_epochs.specs.RewardHelpers.{get_eligible_validator_indices};
ghost use Rattle.balance_totals.specs.inside.Stakes.{stakes_of};
ghost use Rattle.epoch_rewards.specs.inside.Marks.{flagged};
ghost use Rattle.epoch_rewards.specs.inside.Statuses.{flags_of};
ghost use Rattle.epoch_rewards.specs.inside.Standings.{IsStanding};

use crate::matching::Vote;
use crate::standing::Standing;
use crate::table::{Status, flag_at};
use balance_totals::Stake;
use beacon_state::State;

/// Whether a validator is one of those whom rewards and penalties reach.
#[tactic(auto, using(crate::proofs::Gathered::eligible_here))]
pub(crate) fn is_eligible(state: &State, statuses: &[Status], standing: &Standing) -> bool
    requires { IsStanding state.now statuses.now standing.now }
    ensures { result ≡ is_among standing.now.index (get_eligible_validator_indices state.now) }
{
    standing.stake.eligible
}

/// Whether the validator with an index, of which this was read, has a vote right and isn't slashed.
#[tactic(auto, using(crate::proofs::Gathered::attestation))]
pub(crate) fn has_right(
    state: &State,
    statuses: &[Status],
    vote: Vote,
    index: u64,
    stake: Stake,
) -> bool
    requires { slice_get (stakes_of state.now) index ≡ Some stake }
    ensures { result ≡ is_among index (flagged state.now (flags_of vote statuses.now)) }
{
    if stake.slashed {
        return false;
    }
    flag_at(statuses, vote, index)
}

/// Whether a validator is one of those who have a vote right and aren't slashed.
pub(crate) fn is_attester(
    state: &State,
    statuses: &[Status],
    vote: Vote,
    standing: &Standing,
) -> bool
    requires { IsStanding state.now statuses.now standing.now }
    ensures { result ≡ is_among standing.now.index (flagged state.now (flags_of vote statuses.now)) }
{
    match vote {
        Vote::Source => standing.source,
        Vote::Target => standing.target,
        Vote::Head => standing.head,
    }
}
