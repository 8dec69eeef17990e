//! One case of the published consensus tests, given to the calls that the blocks of `beacon` take.
//!
//! The folder has each container's bytes as `NAME.ssz`, and in the file `given` what the case's YAML files say, one `KEY VALUE` a line.
//! `tools/spec_tests/run` unpacks cases so.
//!
//! The line is `passed`, `passed: refused NUMBER NAME`, `failed: DIFFERENCE` or `outside: REASON`, where a condition of the calls isn't met. Status 0
//! says that there is a line.

mod blocks;
mod case;
mod difference;
mod epoch_part;
mod genesis;
mod operations;
mod rewards;
mod shuffling_core;
mod slots;
mod ssz_static;
mod verdict;

use crate::published::case::Case;
use crate::published::verdict::{Outside, Verdict};
use anyhow::Result;
use beacon_state::State;
use std::rt::Files;

/// Runs the case that has this state `pre`, by its runner and handler.
fn run_on(
    rt: &(impl Files + AllocGlobal),
    case: &Case,
    runner: &str,
    handler: &str,
    state: &mut State,
) -> Result<Verdict> {
    match runner {
        "operations" => operations::run(rt, case, handler, state),
        "epoch_processing" => epoch_part::run(rt, case, handler, state),
        "rewards" => rewards::run(rt, case, state),
        "sanity" if handler == "slots" => slots::run(rt, case, state),
        _ => blocks::run(rt, case, state),
    }
}

/// Runs the case by its runner and handler.
fn run(
    rt: &(impl Files + AllocGlobal),
    case: &Case,
    runner: &str,
    handler: &str,
) -> Result<Verdict> {
    match runner {
        "operations" | "epoch_processing" | "rewards" | "sanity" | "finality" | "random" => {
            match case.state(rt, "pre") {
                Ok(mut state) => run_on(rt, case, runner, handler, &mut state),
                Err(error) => Err(error),
            }
        }
        "shuffling" => shuffling_core::run(rt.alloc(), case),
        "ssz_static" => ssz_static::run(rt, case, handler),
        "genesis" => genesis::run(rt, case, handler),
        _ => Ok(Verdict::Outside(Outside::Runner)),
    }
}

/// Runs the case in a folder by its runner and handler, and prints what became of it.
pub fn run_case(
    rt: &(impl Files + Print + AllocGlobal),
    config: &str,
    runner: &str,
    handler: &str,
    folder: &str,
) -> Result<()> {
    let case = Case::load(rt, config, folder)?;
    let verdict = run(rt, &case, runner, handler)?;
    println!(rt; "{verdict}")?;
    Ok(())
}
