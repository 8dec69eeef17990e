//! The committees of a state's previous and current epoch, carried over from block to block.

ghost use Rattle.std.specs.Prelude.{◌≡◌, IfOk};
ghost use Rattle.spec_state.specs.Accessors.{get_current_epoch, get_previous_epoch};
ghost use Rattle.spec_state.specs.inside.EpochCommittees.{epoch_committees};

use crate::made::{Made, are_recent, committees_of};
use balance_totals::{current_epoch, previous_epoch};
use bc_words::NoMemory;
use beacon_state::State;
use std::alloc::Global;

/// The committees of the previous and the current epoch of a state.
#[derive(Drop)]
pub(crate) struct Recent {
    pub(crate) previous: Made,
    pub(crate) current: Made,
}

/// Those of a state, of which these may be those of its previous epoch.
fn make(alloc: Global, state: &State, last: Option<Made>) -> Result<Recent, NoMemory>
    ensures previous { IfOk result (λ recent. recent.previous ≡ epoch_committees state.now (get_previous_epoch state.now)) }
    ensures current { IfOk result (λ recent. recent.current ≡ epoch_committees state.now (get_current_epoch state.now)) }
{
    let previous = committees_of(alloc, state, previous_epoch(state), last)?;
    let current = committees_of(alloc, state, current_epoch(state), None)?;
    Ok(Recent { previous, current })
}

/// Those of a state: the kept ones where these are its own. Where an epoch is over, the current ones mostly become the previous ones.
pub(crate) fn recent_of(
    alloc: Global,
    state: &State,
    kept: Option<Recent>,
) -> Result<Recent, NoMemory>
    ensures previous { IfOk result (λ recent. recent.previous ≡ epoch_committees state.now (get_previous_epoch state.now)) }
    ensures current { IfOk result (λ recent. recent.current ≡ epoch_committees state.now (get_current_epoch state.now)) }
{
    let Some(recent) = kept else {
        return make(alloc, state, None);
    };
    if are_recent(&recent.previous, &recent.current, state) {
        return Ok(recent);
    }
    make(alloc, state, Some(recent.current))
}
