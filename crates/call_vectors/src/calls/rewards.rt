//! Rewards and penalties.

ghost use Rattle.std.specs.Prelude.{◌≡◌};
ghost use Rattle.spec_state.specs.Accessors.{get_previous_epoch};
ghost use Rattle.spec_state.specs.Soundness.{IsSoundWithinEpoch};
ghost use Rattle.balance_totals.specs.inside.Stakes.{stakes_of};
ghost use Rattle.epoch_rewards.specs.inside.Statuses.{statuses_of};

use crate::calls::answers::stop_line;
use crate::calls::given::Given;
use anyhow::{Result, bail};
use balance_totals::{Stake, Stakes, gather};
use bc_words::Stop;
use beacon_state::State;
use epoch_rewards::{
    Deltas, Status, head_deltas, inactivity_deltas, inclusion_deltas, previous_table,
    source_deltas, target_deltas,
};
use ssz_codec::Items;
use std::alloc::Global;
use transition::is_sound_within_epoch;

/// Adds to the balances what the previous epoch's attestations bring, and takes what they cost.
pub fn process_rewards(
    alloc: Global,
    state: &mut State,
    given: &Given,
) -> Result<Result<(), Stop>> {
    if !is_sound_within_epoch(alloc, state)? {
        bail!("the state isn't sound");
    }
    let config = given.config()?;
    let Stakes { list, stirs: _ } = gather(alloc, state, &config)?;
    let statuses = previous_table(alloc, state)?;
    Ok(epoch_rewards::process_rewards(alloc, state, &list, statuses))
}

/// Appends a number to a line.
fn append_number(alloc: Global, line: &mut String, number: u64) -> Result<()> {
    let more = format!(in alloc; " {number}")?;
    Ok(line.push_str(more.as_str())?)
}

/// Appends a line of numbers, behind the end of the line before it.
fn append_numbers(
    alloc: Global,
    lines: &mut String,
    word: &str,
    numbers: &Items<u64>,
) -> Result<()> {
    lines.push_str(word)?;
    for number in numbers.as_slice() {
        append_number(alloc, lines, *number)?;
    }
    Ok(())
}

/// The lines of rewards and penalties.
fn deltas_lines(alloc: Global, deltas: &Deltas) -> Result<String> {
    let mut lines = String::from_str(alloc, "ok")?;
    append_numbers(alloc, &mut lines, "\nrewards", &deltas.rewards)?;
    append_numbers(alloc, &mut lines, "\npenalties", &deltas.penalties)?;
    Ok(lines)
}

/// The lines of rewards and penalties, or why there are none.
fn lines_of(alloc: Global, outcome: &Result<Deltas, Stop>) -> Result<String> {
    match outcome {
        Ok(deltas) => deltas_lines(alloc, deltas),
        Err(stop) => stop_line(alloc, *stop),
    }
}

/// A part of rewards and penalties by its name. None where there is no such part.
fn part(
    alloc: Global,
    state: &State,
    stakes: &[Stake],
    statuses: &[Status],
    call: &str,
) -> Option<Result<Deltas, Stop>>
    requires sound { IsSoundWithinEpoch state.now }
    requires stakes { stakes.now ≡ stakes_of state.now }
    requires statuses { statuses.now ≡ statuses_of state.now (get_previous_epoch state.now) }
{
    match call {
        "source_deltas" => Some(source_deltas(alloc, state, stakes, statuses)),
        "target_deltas" => Some(target_deltas(alloc, state, stakes, statuses)),
        "head_deltas" => Some(head_deltas(alloc, state, stakes, statuses)),
        "inclusion_deltas" => Some(inclusion_deltas(alloc, state, stakes, statuses)),
        "inactivity_deltas" => Some(inactivity_deltas(alloc, state, stakes, statuses)),
        _ => None,
    }
}

/// Whether the call is a part of rewards and penalties.
pub fn is_part(call: &str) -> bool {
    matches!(
        call,
        "source_deltas" | "target_deltas" | "head_deltas" | "inclusion_deltas" | "inactivity_deltas"
    )
}

/// The answer of a part of rewards and penalties, by what was gathered of a sound state.
fn part_answer(
    alloc: Global,
    state: &State,
    stakes: &[Stake],
    statuses: &[Status],
    call: &str,
) -> Result<String>
    requires sound { IsSoundWithinEpoch state.now }
    requires stakes { stakes.now ≡ stakes_of state.now }
    requires statuses { statuses.now ≡ statuses_of state.now (get_previous_epoch state.now) }
{
    match part(alloc, state, stakes, statuses, call) {
        Some(outcome) => lines_of(alloc, &outcome),
        None => bail!("no such part"),
    }
}

/// The answer of a part of rewards and penalties.
pub fn deltas_answer(alloc: Global, state: &mut State, given: &Given) -> Result<String> {
    if !is_sound_within_epoch(alloc, state)? {
        bail!("the state isn't sound");
    }
    let config = given.config()?;
    let Stakes { list, stirs: _ } = gather(alloc, state, &config)?;
    let statuses = previous_table(alloc, state)?;
    part_answer(alloc, state, &list, &statuses, given.name.as_str())
}
