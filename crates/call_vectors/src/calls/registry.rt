//! The registry at the end of an epoch.

use crate::calls::given::Given;
use crate::gathered;
use anyhow::Result;
use bc_words::Stop;
use beacon_state::State;
use std::alloc::Global;

/// Lets in those that are due, and ejects those of too little balance.
pub fn process_registry(
    alloc: Global,
    state: &mut State,
    given: &Given,
) -> Result<Result<(), Stop>> {
    let config = given.config()?;
    Ok(gathered::process_registry(alloc, state, &config))
}
