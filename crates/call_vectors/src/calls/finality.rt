//! Justification and finalisation.

use crate::calls::given::Given;
use anyhow::{Result, bail};
use balance_totals::{Stakes, gather};
use bc_words::Stop;
use beacon_state::State;
use epoch_rewards::{current_targets, previous_table};
use std::alloc::Global;
use transition::{is_sound, sound_within_epoch};

/// Justifies what the votes of the state's two epochs are enough for.
pub fn process_justification(
    alloc: Global,
    state: &mut State,
    given: &Given,
) -> Result<Result<(), Stop>> {
    if !is_sound(alloc, state)? {
        bail!("the state isn't sound");
    }
    sound_within_epoch();
    let config = given.config()?;
    let Stakes { list, stirs: _ } = gather(alloc, state, &config)?;
    let previous = previous_table(alloc, state)?;
    let current = current_targets(alloc, state)?;
    Ok(epoch_processing::process_justification(state, &list, &previous, &current))
}
