//! Slots and whole blocks. Many go over ends of epochs.

use crate::calls::answers::{done_line, stop_line};
use crate::calls::given::Given;
use anyhow::{Result, bail};
use bc_preset::Config;
use bc_words::Stop;
use beacon_state::State;
use beacon_types::SignedBeaconBlock;
use ssz_codec::Ssz;
use std::alloc::Global;
use transition::process_slots::visit_slots;
use transition::state_transition::visit_transition;
use transition::{States, is_sound};

/// The line of a state on which epoch processing was entered, behind the end of the one before it.
fn entered_line(alloc: Global, state: &State) -> Result<String> {
    let slot = state.slot();
    let root = hex::encode(alloc, &state.root())?;
    Ok(format!(in alloc; "\nentered {slot} 0x{root}")?)
}

/// Appends the line of a state on which epoch processing was entered.
fn append_entered(alloc: Global, lines: &mut String, state: &State) -> Result<()> {
    let line = entered_line(alloc, state)?;
    Ok(lines.push_str(line.as_str())?)
}

/// The lines of a step: the state's root, and then each state that was entered.
fn step_lines(alloc: Global, state: &State, entered: &States) -> Result<String> {
    let mut lines = done_line(alloc, state)?;
    for index in 0..entered.len() {
        if let Some(state) = entered.get(index) {
            append_entered(alloc, &mut lines, state)?;
        }
    }
    Ok(lines)
}

/// The lines of a step or of its stop.
fn lines_of(alloc: Global, outcome: &Result<State, Stop>, entered: &States) -> Result<String> {
    match outcome {
        Ok(state) => step_lines(alloc, state, entered),
        Err(stop) => stop_line(alloc, *stop),
    }
}

/// The lines of the step through slots, up to that of the number.
pub fn slots_lines(alloc: Global, state: &State, given: &Given) -> Result<String> {
    let slot = given.number()?;
    let config = given.config()?;
    let mut entered = States::new(alloc);
    match is_sound(alloc, state) {
        Ok(true) => {
            let begin = state.share()?;
            let outcome = visit_slots(alloc, begin, slot, &config, &mut entered);
            lines_of(alloc, &outcome, &entered)
        }
        _ => bail!("the state isn't sound"),
    }
}

/// The lines of the step by a block.
fn lines_behind(
    alloc: Global,
    state: &State,
    block: &SignedBeaconBlock,
    config: &Config,
) -> Result<String> {
    let mut entered = States::new(alloc);
    match is_sound(alloc, state) {
        Ok(true) => {
            let parent = state.share()?;
            let outcome = visit_transition(alloc, parent, block, config, &mut entered);
            lines_of(alloc, &outcome, &entered)
        }
        _ => bail!("the state isn't sound"),
    }
}

/// Reads a signed block. The lines of the step by it.
pub fn block_lines(alloc: Global, state: &State, given: &Given) -> Result<String> {
    let config = given.config()?;
    match SignedBeaconBlock::read(alloc, given.input()?) {
        Ok(block) => lines_behind(alloc, state, &block, &config),
        Err(fault) => Err(fault.into()),
    }
}
