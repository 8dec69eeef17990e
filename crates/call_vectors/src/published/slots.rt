//! Slots without a block (beacon-chain.md, `process_slots`).

use crate::published::case::Case;
use crate::published::verdict::{Outside, Verdict, judged};
use anyhow::{Context, Result};
use beacon_state::State;
use std::rt::Files;
use transition::is_sound;
use transition::process_slots::process_slots;

/// Runs a case of `sanity/slots`.
pub fn run(rt: &(impl Files + AllocGlobal), case: &Case, state: &State) -> Result<Verdict> {
    if !is_sound(rt.alloc(), state)? {
        return Ok(Verdict::Outside(Outside::Unsound));
    }
    let slot = state
        .slot()
        .checked_add(case.number("slots")?)
        .context("too many slots")?;
    match process_slots(rt.alloc(), state, slot, case.config()) {
        Ok(step) => judged(rt, case, &step.state, Ok(())),
        Err(stop) => judged(rt, case, state, Err(stop)),
    }
}
