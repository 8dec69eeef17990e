//! Reading the vector of slashed balances at a place that may be past its end.

ghost use Rattle.std.specs.Prelude.{◌<◌, length, IfOk};
ghost use Rattle.bc_words.specs.Outcome.{GivesExactly};
ghost use Rattle.spec_blocks.specs.Checks.{item_at};

use bc_words::{Refusal, Stop};
use beacon_state::State;

/// What was slashed in the latest epoch that has a place, in Gwei, refused exactly where there is no such place.
pub(crate) fn slashings_at(state: &State, place: u64) -> Result<u64, Stop>
    ensures exact { GivesExactly result (item_at state.now.slashings place) }
    ensures in_list { IfOk result (λ slashed. place < length state.now.slashings) }
{
    match state.slashings_at(place) {
        Some(slashed) => Ok(slashed),
        None => Err(Stop::Refused(Refusal::IndexRange)),
    }
}
