//! Single calls on recorded states and bytes, compared with what an independent implementation gives.
//!
//! A case is a folder of `data/calls`: `call` names the call, with a word behind some, `pre.ssz` is the state before it, `input.ssz`
//! what it takes beside the state, `record` a list of events, `config.yaml` the configuration, and `answer` what it answers. A case
//! has the files that its call takes. All states but those of `read_state` and of made chains
//! are of the minimal preset.
//!
//! A module here, which bears the name of the cases' folder, has the calls of one kind.

mod answers;
mod blocks;
mod chains;
mod closing;
mod deliveries;
mod deposit_trees;
mod deposits;
mod exits;
mod finality;
mod given;
mod heads;
mod registry;
mod rewards;
mod slashings;
mod slots;
mod soundness;
mod states;
mod transitions;
mod votes;

use crate::calls::answers::answer_line;
use crate::calls::given::Given;
use anyhow::{Result, bail};
use bc_preset::Preset;
use bc_words::Stop;
use beacon_state::State;
use std::alloc::Global;
use std::fs;
use std::rt::Files;

/// Makes a call of block processing on the state.
fn block_part(alloc: Global, state: &mut State, given: &Given) -> Result<Result<(), Stop>> {
    match given.name.as_str() {
        "process_header" => heads::process_header(alloc, state, given),
        "process_randao" => heads::process_randao(alloc, state, given),
        "process_eth1_data" => heads::process_eth1_data(alloc, state, given),
        "process_proposer_slashing" => slashings::process_proposer_slashing(alloc, state, given),
        "process_attester_slashing" => slashings::process_attester_slashing(alloc, state, given),
        "process_attestation" => votes::process_attestation(alloc, state, given),
        "process_deposit" => deposits::process_deposit(alloc, state, given),
        "process_voluntary_exit" => exits::process_voluntary_exit(alloc, state, given),
        _ => bail!("no such call"),
    }
}

/// Makes a call that changes the state.
fn change(alloc: Global, state: &mut State, given: &Given) -> Result<Result<(), Stop>> {
    match given.name.as_str() {
        "process_slot" => slots::process_slot(state),
        "process_justification" => finality::process_justification(alloc, state, given),
        "process_rewards" => rewards::process_rewards(alloc, state, given),
        "process_registry" => registry::process_registry(alloc, state, given),
        "process_effective_balances" => closing::process_effective_balances(alloc, state, given),
        name => match closing::closing_part(alloc, state, name) {
            Some(outcome) => Ok(outcome),
            None => block_part(alloc, state, given),
        },
    }
}

/// The answer of a call on the state.
fn answer_on(alloc: Global, state: &mut State, given: &Given) -> Result<String> {
    match given.name.as_str() {
        "is_sound" => soundness::answer(alloc, state),
        "matching_votes" => votes::matching_line(alloc, state),
        "process_slots" => transitions::slots_lines(alloc, state, given),
        "state_transition" => transitions::block_lines(alloc, state, given),
        name if rewards::is_part(name) => rewards::deltas_answer(alloc, state, given),
        _ => {
            let outcome = change(alloc, state, given)?;
            answer_line(alloc, state, outcome)
        }
    }
}

/// The answer of a call.
fn answer_of(alloc: Global, given: &Given) -> Result<String> {
    match given.name.as_str() {
        "read_state" => states::answer(alloc, given),
        "read_block" => blocks::answer(alloc, given),
        "deliver" => deliveries::answer(alloc, given),
        "deposit_tree" => deposit_trees::answer(alloc, given),
        name if chains::is_chain(name) => chains::answer(alloc, given),
        _ => match State::read(alloc, &Preset::minimal(), given.state()?) {
            Ok(mut state) => answer_on(alloc, &mut state, given),
            Err(_) => bail!("the state doesn't read"),
        },
    }
}

/// Runs one case, and prints whether its answer is as expected.
pub fn run_case<R: Files + Print + AllocGlobal>(rt: &R, case: &str) -> Result<bool> {
    let alloc = rt.alloc();
    let given = Given::load(rt, case)?;
    let expected = fs::read_to_string(rt, format!(in alloc; "{case}/answer")?.as_str())?;
    let answer = answer_of(alloc, &given)?;
    let agrees = answer.as_str() == expected.trim();
    if agrees {
        println!(rt; "{case}: as expected")?;
    } else {
        println!(rt; "{case}: {answer}")?;
    }
    Ok(agrees)
}
