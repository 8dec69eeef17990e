//! Blocks, one behind the other (beacon-chain.md, `state_transition`).

use crate::published::case::Case;
use crate::published::verdict::{Outside, Verdict, judged};
use anyhow::Result;
use beacon_state::State;
use beacon_types::SignedBeaconBlock;
use std::rt::Files;
use transition::is_sound;
use transition::state_transition::state_transition;

/// Takes the state through the block. A verdict where the case ends here.
fn take_block(
    rt: &(impl Files + AllocGlobal),
    case: &Case,
    state: &mut State,
    block: &SignedBeaconBlock,
) -> Result<Option<Verdict>> {
    if block.message.slot > state.slot() && block.message.parent_root != state.header_root() {
        return Ok(Some(Verdict::Outside(Outside::OtherParent)));
    }
    if !is_sound(rt.alloc(), state)? {
        return Ok(Some(Verdict::Outside(Outside::Unsound)));
    }
    match state_transition(rt.alloc(), state, block, case.config()) {
        Ok(step) => {
            *state = step.state;
            Ok(None)
        }
        Err(stop) => Ok(Some(judged(rt, case, state, Err(stop))?)),
    }
}

/// Reads the block of this number, and takes the state through it. A verdict where the case ends here.
fn read_block(
    rt: &(impl Files + AllocGlobal),
    case: &Case,
    state: &mut State,
    index: u64,
) -> Result<Option<Verdict>> {
    let name = format!(in rt.alloc(); "blocks_{index}")?;
    match case.value(rt, name.as_str()) {
        Ok(block) => take_block(rt, case, state, &block),
        Err(error) => Err(error),
    }
}

/// Runs a case of `sanity/blocks`, `finality` or `random`.
pub fn run(rt: &(impl Files + AllocGlobal), case: &Case, state: &mut State) -> Result<Verdict> {
    for index in 0..case.number("blocks_count")? {
        if let Some(verdict) = read_block(rt, case, state, index)? {
            return Ok(verdict);
        }
    }
    judged(rt, case, state, Ok(()))
}
