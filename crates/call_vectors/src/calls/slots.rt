//! The end of a slot.

use anyhow::Result;
use bc_words::Stop;
use beacon_state::State;

/// Ends the slot.
pub fn process_slot(state: &mut State) -> Result<Result<(), Stop>> {
    Ok(transition::process_slot::process_slot(state).map_err(|_| Stop::NoMemory))
}
