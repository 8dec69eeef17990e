//! Each call of the outside fails in turn: a run ends with the status of that fault, behind a prefix of its lines.

use crate::runs::case::{Answer, Case};
use anyhow::Result;
use std::alloc::{AllocError, Global};

/// How many calls a run has at most.
const MOST_CALLS: u64 = 100_000;

/// Whose calls fail.
#[derive(Clone, Copy)]
pub enum Side {
    /// Those that open and read files.
    Shelf,
    /// Those that write.
    Sink,
}

impl Side {
    /// The status of its faults.
    fn status(self) -> &'static str {
        match self {
            Side::Shelf => "6 ReadFault",
            Side::Sink => "7 WriteFault",
        }
    }

    /// Lets its call of this number fail, and no other one.
    fn fail(self, case: &mut Case, call: u64) -> Result<(), AllocError> {
        match self {
            Side::Shelf => case.fail_call(call),
            Side::Sink => case.fail_write(call),
        }
    }
}

/// What isn't as expected of a run that a failing call ended, if anything isn't.
fn wrong_with(answer: &Answer, case: &Case, side: Side) -> Option<&'static str> {
    if answer.status() != side.status() {
        return Some("another status than that of the fault");
    }
    if !case.lines().starts_with(answer.lines()) {
        return Some("no prefix of the lines");
    }
    None
}

/// What isn't as expected of a run in which no call failed, if anything isn't.
fn wrong_without(answer: &Answer, case: &Case) -> Option<&'static str> {
    if answer.lines() == case.lines() {
        None
    } else {
        Some("no call fails, and the lines are others")
    }
}

/// Whether no call failed, and what isn't as expected, if anything isn't.
fn judged(answer: &Answer, case: &Case, side: Side) -> (bool, Option<&'static str>) {
    if answer.status() == "0 Done" {
        (true, wrong_without(answer, case))
    } else {
        (false, wrong_with(answer, case, side))
    }
}

/// The same of the run whose call of this number fails.
fn run_failing(
    alloc: Global,
    case: &mut Case,
    side: Side,
    piece: u64,
    call: u64,
) -> Result<(bool, Option<&'static str>)> {
    side.fail(case, call)?;
    let answer = case.run(alloc, piece)?;
    Ok(judged(&answer, case, side))
}

/// What isn't as expected of a run whose calls fail, one a time and from the first one on, until there is no such call.
pub fn difference(
    alloc: Global,
    case: &mut Case,
    side: Side,
    piece: u64,
) -> Result<Option<String>> {
    for call in 1..MOST_CALLS {
        let (is_over, wrong) = run_failing(alloc, case, side, piece, call)?;
        if let Some(wrong) = wrong {
            return Ok(Some(format!(in alloc; "call {call}: {wrong}")?));
        }
        if is_over {
            return Ok(None);
        }
    }
    Ok(Some(String::from_str(alloc, "the calls don't end")?))
}
