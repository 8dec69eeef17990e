//! The line that a call's answer is recorded as.

use anyhow::{Result, bail};
use bc_words::{Limit, Refusal, Stop};
use beacon_state::State;
use hash_tree::Root;
use std::alloc::Global;

/// The line of a call that was made, with a root.
pub fn root_line(alloc: Global, root: &Root) -> Result<String> {
    let root = hex::encode(alloc, root)?;
    Ok(format!(in alloc; "ok 0x{root}")?)
}

/// The line of a call that was made: the root of the state behind it.
pub fn done_line(alloc: Global, state: &State) -> Result<String> {
    root_line(alloc, &state.root())
}

/// The line of a refusal.
fn refused_line(alloc: Global, why: Refusal) -> Result<String> {
    let number = why.number();
    let name = why.name();
    Ok(format!(in alloc; "refused {number} {name}")?)
}

/// The line of a call's answer.
pub fn answer_line(alloc: Global, state: &State, outcome: Result<(), Stop>) -> Result<String> {
    match outcome {
        Ok(()) => done_line(alloc, state),
        Err(stop) => stop_line(alloc, stop),
    }
}

/// The line of a stop.
pub fn stop_line(alloc: Global, stop: Stop) -> Result<String> {
    match stop {
        Stop::Refused(why) => refused_line(alloc, why),
        Stop::Limit(Limit::Slots(slots)) => Ok(format!(in alloc; "limit Slots({slots})")?),
        Stop::Limit(Limit::Proposer) => bail!("no proposer"),
        Stop::NoMemory => bail!("out of memory"),
    }
}
