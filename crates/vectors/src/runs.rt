//! Runs of the program on recorded files, compared with what an independent implementation gives: configurations, genesis
//! states and records of all kinds of events, files of deposits, states whose duties are asked for, command words, and an
//! outside that fails.
//!
//! A case is a folder with the files that its words name, the expected lines `stdout` and the expected `status`; a file
//! that isn't there is that of the folder `common`. A file `NAME.filled` says how NAME goes on: a byte, and how often it
//! comes again. `pieces` says how many bytes the shelf hands out and the sink takes at once, one run each. The calls of the
//! shelf and of the sink that are to fail stand in `failing_calls` and `failing_writes`, by their numbers.

mod case;
mod expected;
pub mod hostile;

use crate::runs::case::Case;
use anyhow::Result;
use std::rt::Files;

/// Runs one case in each cutting, and prints one line.
pub fn run_case(rt: &(impl Files + Print + AllocGlobal), name: &str) -> Result<bool> {
    let case = Case::load(rt, name)?;
    for piece in case.pieces() {
        let answer = case.run(rt.alloc(), *piece)?;
        if let Some(difference) = case.difference(rt.alloc(), &answer)? {
            println!(rt; "{name}: pieces of {piece}: {difference}")?;
            return Ok(false);
        }
    }
    println!(rt; "{name}: {}", case.status())?;
    Ok(true)
}
