//! Lists of carried votes, and the offences among them, compared with what an independent implementation gives.
//!
//! A case is a folder of `data/offences`: `votes` has a line for each vote, its validator and the vote as it is printed, and `answer`
//! a line for each offence. Each vote is added as an attestation of its one attester.

mod adding;
mod reading;

use crate::offences::adding::add_vote;
use crate::offences::reading::read_line;
use anyhow::Result;
use beacon_node::offence_line;
use forensics::CarriedVotes;
use spec_forensics::Offence;
use std::alloc::Global;
use std::fs;
use std::rt::Files;

/// How many validators the lists are of: all indices in them are below.
const VALIDATORS: usize = 16;

/// The votes of these lines.
fn read_votes(alloc: Global, lines: &str) -> Result<CarriedVotes> {
    let mut votes = CarriedVotes::new(alloc, VALIDATORS)?;
    for line in lines.lines() {
        add_vote(alloc, &mut votes, &read_line(line)?)?;
    }
    Ok(votes)
}

/// The lines of offences.
pub fn offence_lines(alloc: Global, offences: &[Offence]) -> Result<Vec<u8>> {
    let mut lines = Vec::new(alloc);
    for offence in offences {
        lines.extend_from_slice(&offence_line(alloc, offence)?)?;
    }
    Ok(lines)
}

/// Prints one line of a case: whether its lines are the expected ones.
pub fn tell(
    rt: &(impl Print + AllocGlobal),
    name: &str,
    answer: &[u8],
    expected: &[u8],
) -> Result<bool> {
    let agrees = answer == expected;
    if agrees {
        println!(rt; "{name}: as expected")?;
    } else {
        let (found, wanted) = (answer.len(), expected.len());
        println!(rt; "{name}: expected other lines ({wanted} bytes, found {found})")?;
    }
    Ok(agrees)
}

/// Runs the case of this name, and prints one line.
pub fn run_case(rt: &(impl Files + Print + AllocGlobal), name: &str) -> Result<bool> {
    let alloc = rt.alloc();
    let lines = fs::read_to_string(rt, format!(in alloc; "{name}/votes")?.as_str())?;
    let expected = fs::read(rt, format!(in alloc; "{name}/answer")?.as_str())?;
    let votes = read_votes(alloc, lines.as_str())?;
    let answer = offence_lines(alloc, &votes.offences(alloc)?)?;
    tell(rt, name, &answer, &expected)
}
