//! Makes recorded calls, and compares what they give with what an independent implementation gives.
//!
//! `cases` lists the calls, each a folder of `data`; the file `third_shared` has calls of its own, of the weight that two lists share.
//!
//! Where there are words, they name one case of the published tests: the configuration's file, the runner, the handler and the case's folder. Then the
//! program gives this case to the same calls, and prints what became of it (`published`).
#![tactic(auto)]

mod calls;
mod gathered;
mod published;
mod shared_weights;

use anyhow::{Context, Result};
use std::rt::Files;
use std::{env, fs};

/// Makes all calls that the file `cases` lists and those of `third_shared`, prints a line for each case, and how many there were.
fn make_calls(rt: &(impl Files + Print + AllocGlobal)) -> Result<()> {
    let cases = fs::read_to_string(rt, "cases")?;
    let (mut made, mut wrong) = (0u32, 0u32);
    for case in cases.lines() {
        made = made.saturating_add(1);
        if !calls::run_case(rt, case)? {
            wrong = wrong.saturating_add(1);
        }
    }
    shared_weights::run_case(rt, "third_shared")?;
    println!(rt; "{made} calls, {wrong} of them not as expected")?;
    Ok(())
}

fn main(rt: HostRuntime) -> Result<()> {
    let mut words = env::args(&rt)?;
    let _program = words.next();
    let Some(config) = words.next() else {
        return make_calls(&rt);
    };
    let runner = words.next().context("RUNNER HANDLER FOLDER are wanted")?;
    let handler = words.next().context("HANDLER FOLDER are wanted")?;
    let folder = words.next().context("FOLDER is wanted")?;
    published::run_case(&rt, &config, &runner, &handler, &folder)
}
