//! Slashings of proposers and attesters.

use crate::calls::given::Given;
use anyhow::Result;
use bc_words::Stop;
use beacon_state::State;
use beacon_types::{AttesterSlashing, ProposerSlashing};
use ssz_codec::Ssz;
use std::alloc::Global;

/// Reads a proposer slashing, and processes it, where the number is the block's proposer.
pub fn process_proposer_slashing(
    alloc: Global,
    state: &mut State,
    given: &Given,
) -> Result<Result<(), Stop>> {
    let proposer = given.number()?;
    let config = given.config()?;
    let slashing = ProposerSlashing::read(alloc, given.input()?)?;
    Ok(
        block_operations::process_proposer_slashing::process_proposer_slashing(
            state, &slashing, proposer, &config,
        ),
    )
}

/// Reads an attester slashing, and processes it, where the number is the block's proposer.
pub fn process_attester_slashing(
    alloc: Global,
    state: &mut State,
    given: &Given,
) -> Result<Result<(), Stop>> {
    let proposer = given.number()?;
    let config = given.config()?;
    let slashing = AttesterSlashing::read(alloc, given.input()?)?;
    Ok(
        block_operations::process_attester_slashing::process_attester_slashing(
            state, &slashing, proposer, &config,
        ),
    )
}
