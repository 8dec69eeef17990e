//! Those who leave.

use crate::calls::given::Given;
use anyhow::Result;
use bc_words::Stop;
use beacon_state::State;
use beacon_types::SignedVoluntaryExit;
use ssz_codec::Ssz;
use std::alloc::Global;

/// Reads an exit, and processes it.
pub fn process_voluntary_exit(
    alloc: Global,
    state: &mut State,
    given: &Given,
) -> Result<Result<(), Stop>> {
    let config = given.config()?;
    let exit = SignedVoluntaryExit::read(alloc, given.input()?)?;
    Ok(block_operations::process_voluntary_exit::process_voluntary_exit(state, &exit, &config))
}
