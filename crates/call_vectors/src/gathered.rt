//! Calls that take what is gathered of the state before them.

use balance_totals::{Stakes, committees_of_epoch, current_epoch, gather, previous_epoch};
use bc_preset::Config;
use bc_words::Stop;
use beacon_state::State;
use beacon_types::Attestation;
use epoch_processing::{process_effective_balance_updates, process_registry_updates};
use std::alloc::Global;

/// Processes an attestation in a block of this proposer, with the committees of the state's epochs.
pub fn process_attestation(
    alloc: Global,
    state: &mut State,
    attestation: &Attestation,
    proposer: u64,
) -> Result<(), Stop> {
    let previous = committees_of_epoch(alloc, state, previous_epoch(state))?;
    let current = committees_of_epoch(alloc, state, current_epoch(state))?;
    block_operations::process_attestation::process_attestation(
        alloc,
        state,
        attestation,
        proposer,
        &previous,
        &current,
    )
}

/// Lets in those that are due, and ejects those of too little balance.
pub fn process_registry(alloc: Global, state: &mut State, config: &Config) -> Result<(), Stop> {
    let Stakes { list, stirs } = gather(alloc, state, config)?;
    drop(list);
    process_registry_updates::process_registry(alloc, state, config, stirs)
}

/// Lets each validator's effective balance follow its balance.
#[tactic(auto, using(epoch_processing::proofs::Gathered::gathered_balances))]
pub fn process_effective_balances(
    alloc: Global,
    state: &mut State,
    config: &Config,
) -> Result<(), Stop> {
    let Stakes { list, stirs: _ } = gather(alloc, state, config)?;
    process_effective_balance_updates::process_effective_balances(alloc, state, &list)
}
