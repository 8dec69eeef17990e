//! The parts of epoch processing, each by its published name without `process_` (beacon-chain.md, "Epoch processing").

use crate::gathered::{process_effective_balances, process_registry};
use crate::published::case::Case;
use crate::published::verdict::{Outside, Verdict, judged};
use anyhow::Result;
use balance_totals::{Stakes, gather};
use bc_preset::Config;
use bc_words::Stop;
use beacon_state::State;
use epoch_processing::process_eth1_data_reset::process_eth1_reset;
use epoch_processing::process_historical_roots_update::process_historical_roots;
use epoch_processing::process_participation_record_updates::process_rotation;
use epoch_processing::process_randao_mixes_reset::process_randao_reset;
use epoch_processing::process_slashings::process_slashings;
use epoch_processing::process_slashings_reset::process_slashings_reset;
use epoch_rewards::{current_targets, previous_table};
use std::alloc::Global;
use std::rt::Files;
use transition::{is_sound, is_sound_within_epoch, sound_within_epoch};

/// Justifies what the votes of the state's two epochs are enough for. None where the state isn't sound.
fn justify(alloc: Global, state: &mut State, config: &Config) -> Result<Option<Result<(), Stop>>> {
    if !is_sound(alloc, state)? {
        return Ok(None);
    }
    sound_within_epoch();
    let Stakes { list, stirs: _ } = gather(alloc, state, config)?;
    let previous = previous_table(alloc, state)?;
    let current = current_targets(alloc, state)?;
    Ok(Some(epoch_processing::process_justification(state, &list, &previous, &current)))
}

/// Pays what the votes of the previous epoch bring and cost. None where the state isn't sound.
fn pay(alloc: Global, state: &mut State, config: &Config) -> Result<Option<Result<(), Stop>>> {
    if !is_sound_within_epoch(alloc, state)? {
        return Ok(None);
    }
    let Stakes { list, stirs: _ } = gather(alloc, state, config)?;
    let statuses = previous_table(alloc, state)?;
    Ok(Some(epoch_rewards::process_rewards(alloc, state, &list, statuses)))
}

/// A part that may be given any state. None where there is none of this name.
fn process(
    alloc: Global,
    state: &mut State,
    handler: &str,
    config: &Config,
) -> Option<Result<(), Stop>> {
    match handler {
        "registry_updates" => Some(process_registry(alloc, state, config)),
        "slashings" => Some(process_slashings(alloc, state)),
        "eth1_data_reset" => Some(process_eth1_reset(state)),
        "effective_balance_updates" => Some(process_effective_balances(alloc, state, config)),
        "slashings_reset" => Some(process_slashings_reset(state)),
        "randao_mixes_reset" => Some(process_randao_reset(state)),
        "historical_roots_update" => Some(process_historical_roots(state)),
        "participation_record_updates" => Some(process_rotation(state)),
        _ => None,
    }
}

/// Runs a case of `epoch_processing`.
pub fn run(
    rt: &(impl Files + AllocGlobal),
    case: &Case,
    handler: &str,
    state: &mut State,
) -> Result<Verdict> {
    let alloc = rt.alloc();
    let (outcome, otherwise) = match handler {
        "justification_and_finalization" => (
            justify(alloc, state, case.config())?,
            Outside::Unsound,
        ),
        "rewards_and_penalties" => (pay(alloc, state, case.config())?, Outside::Unsound),
        _ => (
            process(alloc, state, handler, case.config()),
            Outside::Handler,
        ),
    };
    match outcome {
        Some(outcome) => judged(rt, case, state, outcome),
        None => Ok(Verdict::Outside(otherwise)),
    }
}
