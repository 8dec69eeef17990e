//! Deposits.

use crate::calls::given::Given;
use anyhow::{Result, bail};
use bc_words::Stop;
use beacon_state::State;
use beacon_types::Deposit;
use block_operations::PubkeyIndex;
use ssz_codec::Ssz;
use std::alloc::Global;

/// Processes a deposit with the index of the state's keys.
fn processed(alloc: Global, state: &mut State, deposit: &Deposit) -> Result<Result<(), Stop>> {
    match PubkeyIndex::of(alloc, state) {
        Ok(mut keys) => Ok(block_operations::process_deposit::process_deposit(
            state, deposit, &mut keys,
        )),
        Err(_) => bail!("out of memory"),
    }
}

/// Reads a deposit, and processes it.
pub fn process_deposit(
    alloc: Global,
    state: &mut State,
    given: &Given,
) -> Result<Result<(), Stop>> {
    let deposit = Deposit::read(alloc, given.input()?)?;
    processed(alloc, state, &deposit)
}
