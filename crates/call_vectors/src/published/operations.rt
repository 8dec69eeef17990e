//! Single operations of a block, and its header, on a state of their slot (beacon-chain.md, "Block processing").

use crate::gathered;
use crate::published::case::Case;
use crate::published::verdict::{Outside, Verdict, judged};
use anyhow::Result;
use bc_words::Stop;
use beacon_state::State;
use beacon_types::{Attestation, BeaconBlock};
use block_operations::PubkeyIndex;
use hash_tree::Leaf;
use std::alloc::Global;
use std::rt::Files;
use transition::get_beacon_proposer_index::get_beacon_proposer_index;

/// Processes an attestation.
fn process_attestation(
    alloc: Global,
    state: &mut State,
    attestation: &Attestation,
) -> Result<(), Stop> {
    let proposer = get_beacon_proposer_index(alloc, state)?;
    gathered::process_attestation(alloc, state, attestation, proposer)
}

/// Reads an attester slashing, and processes it.
fn attester_slashing(
    rt: &(impl Files + AllocGlobal),
    case: &Case,
    state: &mut State,
) -> Result<Result<(), Stop>> {
    let slashing = case.value(rt, "attester_slashing")?;
    match get_beacon_proposer_index(rt.alloc(), state) {
        Ok(proposer) => Ok(
            block_operations::process_attester_slashing::process_attester_slashing(
                state,
                &slashing,
                proposer,
                case.config(),
            ),
        ),
        Err(stop) => Ok(Err(stop)),
    }
}

/// Reads a proposer slashing, and processes it.
fn proposer_slashing(
    rt: &(impl Files + AllocGlobal),
    case: &Case,
    state: &mut State,
) -> Result<Result<(), Stop>> {
    let slashing = case.value(rt, "proposer_slashing")?;
    match get_beacon_proposer_index(rt.alloc(), state) {
        Ok(proposer) => Ok(
            block_operations::process_proposer_slashing::process_proposer_slashing(
                state,
                &slashing,
                proposer,
                case.config(),
            ),
        ),
        Err(stop) => Ok(Err(stop)),
    }
}

/// Reads a deposit, and processes it with the index of the state's keys.
fn deposit(
    rt: &(impl Files + AllocGlobal),
    case: &Case,
    state: &mut State,
) -> Result<Result<(), Stop>> {
    let deposit = case.value(rt, "deposit")?;
    let mut keys = PubkeyIndex::of(rt.alloc(), state)?;
    Ok(block_operations::process_deposit::process_deposit(state, &deposit, &mut keys))
}

/// Reads an exit, and processes it.
fn voluntary_exit(
    rt: &(impl Files + AllocGlobal),
    case: &Case,
    state: &mut State,
) -> Result<Result<(), Stop>> {
    let exit = case.value(rt, "voluntary_exit")?;
    Ok(
        block_operations::process_voluntary_exit::process_voluntary_exit(
            state,
            &exit,
            case.config(),
        ),
    )
}

/// Which condition a header doesn't meet, that it is of the state's slot, behind the latest block's, and its child.
fn outside(state: &State, block: &BeaconBlock) -> Option<Outside> {
    let latest = state.latest_block_header();
    if block.slot != state.slot() {
        Some(Outside::OtherSlot)
    } else if block.slot <= latest.slot {
        Some(Outside::NotLater)
    } else if block.parent_root != latest.root() {
        Some(Outside::OtherParent)
    } else {
        None
    }
}

/// Processes the header of a block.
fn process_header(alloc: Global, state: &mut State, block: &BeaconBlock) -> Result<(), Stop> {
    let proposer = get_beacon_proposer_index(alloc, state)?;
    block_operations::process_header(state, block, proposer)
}

/// Reads a block, and processes its header.
fn run_header(rt: &(impl Files + AllocGlobal), case: &Case, state: &mut State) -> Result<Verdict> {
    let block: BeaconBlock = case.value(rt, "block")?;
    if let Some(why) = outside(state, &block) {
        return Ok(Verdict::Outside(why));
    }
    let outcome = process_header(rt.alloc(), state, &block);
    judged(rt, case, state, outcome)
}

/// Reads the operation that the handler names, and processes it. None where there is no such handler.
fn process(
    rt: &(impl Files + AllocGlobal),
    case: &Case,
    handler: &str,
    state: &mut State,
) -> Result<Option<Result<(), Stop>>> {
    match handler {
        "attestation" => {
            let attestation = case.value(rt, "attestation")?;
            Ok(Some(process_attestation(rt.alloc(), state, &attestation)))
        }
        "attester_slashing" => Ok(Some(attester_slashing(rt, case, state)?)),
        "proposer_slashing" => Ok(Some(proposer_slashing(rt, case, state)?)),
        "deposit" => Ok(Some(deposit(rt, case, state)?)),
        "voluntary_exit" => Ok(Some(voluntary_exit(rt, case, state)?)),
        _ => Ok(None),
    }
}

/// Runs a case of `operations`.
pub fn run(
    rt: &(impl Files + AllocGlobal),
    case: &Case,
    handler: &str,
    state: &mut State,
) -> Result<Verdict> {
    if handler == "block_header" {
        return run_header(rt, case, state);
    }
    match process(rt, case, handler, state)? {
        Some(outcome) => judged(rt, case, state, outcome),
        None => Ok(Verdict::Outside(Outside::Handler)),
    }
}
