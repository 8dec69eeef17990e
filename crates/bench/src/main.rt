//! Measures what has to be fast, each against the hashes that it can't do without or another part of the run, in one run.
//!
//! The word behind the program's name says what to measure: `pairs`, `shuffle`, `state`, `registry`, `change`, `iter`, `many`,
//! `slots`, `block`, `attestation`, `operations`, `epoch` or `head`. Without a word nothing is measured. `files` with a preset, a
//! number of validators and a number of slots writes the files of a chain, by which whole programs are measured.
#![tactic(auto)]

mod attestation;
mod block;
mod chain;
mod epoch;
mod files;
mod genesis;
mod hashes;
mod head;
mod operations;
mod pairs;
mod ratio;
mod shuffle;
mod state;
mod states;
mod tree_change;
mod tree_iter;
mod tree_many;
mod tree_slots;

use crate::ratio::tell_text;
use anyhow::Result;
use std::env;
use std::rt::Files;
use std::time::CpuClock;

/// What is printed where no word names a measurement.
const USAGE: &str =
    "name what to measure: pairs, shuffle, state, registry, change, iter, many, slots, block, attestation, operations, epoch or head";

/// Measures what a word names.
fn measure(rt: &(impl AllocGlobal + Print + CpuClock), word: &str) -> Result<()> {
    match word {
        "slots" => tree_slots::measure(rt),
        "epoch" => epoch::measure(rt),
        "block" => block::measure(rt),
        "operations" => operations::measure(rt),
        "attestation" => attestation::measure(rt),
        "head" => head::measure(rt),
        _ => measure_parts(rt, word),
    }
}

/// Measures what a word names among states and their trees, pairs of nodes and the shuffle.
fn measure_parts(rt: &(impl AllocGlobal + Print + CpuClock), word: &str) -> Result<()> {
    match word {
        "state" => state::measure(rt, 16_384),
        "registry" => state::measure(rt, 262_144),
        "change" => tree_change::measure(rt),
        "iter" => tree_iter::measure(rt),
        "many" => tree_many::measure(rt),
        "pairs" => pairs::measure(rt),
        "shuffle" => shuffle::measure(rt),
        _ => tell_text(rt, USAGE),
    }
}

/// Writes the files of the chain that the words behind `files` ask for, or measures what the one word names.
fn run(rt: &(impl AllocGlobal + Print + CpuClock + Files), words: &[String]) -> Result<()> {
    match words {
        [] => tell_text(rt, USAGE),
        [word] => measure(rt, word.as_str()),
        [word, asked @ ..] if word.as_str() == "files" => files::write(rt, asked),
        _ => tell_text(rt, USAGE),
    }
}

fn main(rt: HostRuntime) -> Result<()> {
    let mut words = Vec::new(rt.alloc());
    for word in env::args(&rt)?.skip(1) {
        words.push(word)?;
    }
    run(&rt, &words)
}
