//! The closing parts of epoch processing.

use crate::calls::given::Given;
use crate::gathered;
use anyhow::Result;
use bc_words::Stop;
use beacon_state::State;
use epoch_processing::process_eth1_data_reset::process_eth1_reset;
use epoch_processing::process_historical_roots_update::process_historical_roots;
use epoch_processing::process_participation_record_updates::process_rotation;
use epoch_processing::process_randao_mixes_reset::process_randao_reset;
use epoch_processing::process_slashings::process_slashings;
use epoch_processing::process_slashings_reset::process_slashings_reset;
use std::alloc::Global;

/// Lets each validator's effective balance follow its balance.
pub fn process_effective_balances(
    alloc: Global,
    state: &mut State,
    given: &Given,
) -> Result<Result<(), Stop>> {
    let config = given.config()?;
    Ok(gathered::process_effective_balances(alloc, state, &config))
}

/// Makes one of the other calls on the state. None where it is no such call.
pub fn closing_part(alloc: Global, state: &mut State, call: &str) -> Option<Result<(), Stop>> {
    match call {
        "process_slashings" => Some(process_slashings(alloc, state)),
        "process_eth1_reset" => Some(process_eth1_reset(state)),
        "process_slashings_reset" => Some(process_slashings_reset(state)),
        "process_randao_reset" => Some(process_randao_reset(state)),
        "process_historical_roots" => Some(process_historical_roots(state)),
        "process_rotation" => Some(process_rotation(state)),
        _ => None,
    }
}
