//! Runs recorded cases, and compares what they give with what an independent implementation gives: runs of the program, lists of
//! votes, and pairs of histories.
//!
//! `cases` lists the cases, each a folder of `data`: those below `offences` are lists of votes, those below `books` pairs of histories,
//! and all others are runs. Behind `hostile/` stands what is tried on a case, many times over.
#![tactic(auto)]

mod beginning;
mod books;
mod chain_book;
mod chain_stop;
mod offences;
mod runs;

use anyhow::Result;
use std::fs;
use std::rt::Files;

/// Runs the case of this name, and prints one line.
fn run_case(rt: &(impl Files + Print + AllocGlobal), name: &str) -> Result<bool> {
    match name.split_once('/') {
        Some(("books", _)) => books::run_case(rt, name),
        Some(("hostile", case)) => runs::hostile::run_case(rt, case),
        Some(("offences", _)) => offences::run_case(rt, name),
        _ => runs::run_case(rt, name),
    }
}

/// Runs all cases that the file `cases` lists, prints one line for each, and how many were as expected.
fn main(rt: HostRuntime) -> Result<()> {
    let cases = fs::read_to_string(&rt, "cases")?;
    let mut passed = 0u32;
    let mut failed = 0u32;
    for name in cases.lines() {
        if run_case(&rt, name)? {
            passed = passed.saturating_add(1);
        } else {
            failed = failed.saturating_add(1);
        }
    }
    println!(rt; "{passed} as expected, {failed} not")?;
    Ok(())
}
