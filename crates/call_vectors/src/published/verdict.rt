//! What becomes of a case.

use crate::published::case::Case;
use crate::published::difference::{Difference, compare_states};
use anyhow::{Result, bail};
use bc_words::{Refusal, Stop};
use beacon_state::State;
use std::alloc::Global;
use std::fmt;
use std::rt::Files;

/// Which condition of the calls a case doesn't meet.
#[derive(Clone, Copy)]
pub enum Outside {
    /// The state isn't one of a chain.
    Unsound,
    /// The block's slot isn't the state's.
    OtherSlot,
    /// The block's parent isn't the state's latest block.
    OtherParent,
    /// The state has a block of the block's slot already.
    NotLater,
    /// A bound of this program is met.
    Limit,
    /// The container is none of those that blocks and states are made of.
    Container,
    /// The handler is unknown.
    Handler,
    /// The runner is unknown.
    Runner,
}

impl Outside {
    /// What is said of it.
    fn text(self) -> &'static str {
        match self {
            Outside::Unsound => "the state isn't sound",
            Outside::OtherSlot => "the block is of another slot than the state",
            Outside::OtherParent => "the block's parent isn't the state's latest block",
            Outside::NotLater => "the state has a block of this slot already",
            Outside::Limit => "a bound of this program is met",
            Outside::Container => "the container is none of blocks and states",
            Outside::Handler => "no such handler",
            Outside::Runner => "no such runner",
        }
    }
}

/// What becomes of a case.
#[derive(Drop)]
pub enum Verdict {
    /// All is as expected.
    Passed,
    /// It is refused, as expected.
    Refused(Refusal),
    /// The first difference.
    Failed(String),
    /// It is refused and must be accepted.
    NotAccepted(Refusal),
    /// It is accepted and must be refused.
    NotRefused,
    /// The calls aren't made.
    Outside(Outside),
}

/// A refusal, as the lines of a run have it.
fn write_refusal<W: fmt::Write>(f: &mut fmt::Formatter<W>, why: Refusal) -> fmt::Result {
    write!(f, "refused {} {}", why.number(), why.name())
}

impl fmt::Display for Verdict {
    fn fmt<W: fmt::Write>(&self, f: &mut fmt::Formatter<W>) -> fmt::Result {
        match self {
            Verdict::Passed => write!(f, "passed"),
            Verdict::Refused(why) => {
                write!(f, "passed: ")?;
                write_refusal(f, *why)
            }
            Verdict::Failed(difference) => write!(f, "failed: {difference}"),
            Verdict::NotAccepted(why) => {
                write!(f, "failed: ")?;
                write_refusal(f, *why)?;
                write!(f, ", and must be accepted")
            }
            Verdict::NotRefused => write!(f, "failed: accepted, and must be refused"),
            Verdict::Outside(why) => write!(f, "outside: {}", why.text()),
        }
    }
}

/// What becomes of a case that must be refused.
fn refused(outcome: Result<(), Stop>) -> Result<Verdict> {
    match outcome {
        Ok(()) => Ok(Verdict::NotRefused),
        Err(Stop::Refused(why)) => Ok(Verdict::Refused(why)),
        Err(Stop::Limit(_)) => Ok(Verdict::Outside(Outside::Limit)),
        Err(Stop::NoMemory) => bail!("out of memory"),
    }
}

/// What becomes of a case that must be accepted and is not.
pub fn not_accepted(stop: Stop) -> Result<Verdict> {
    match stop {
        Stop::Refused(why) => Ok(Verdict::NotAccepted(why)),
        Stop::Limit(_) => Ok(Verdict::Outside(Outside::Limit)),
        Stop::NoMemory => bail!("out of memory"),
    }
}

/// What becomes of a case that must be accepted, where the call left our state and theirs is expected.
fn accepted(
    alloc: Global,
    outcome: Result<(), Stop>,
    ours: &State,
    theirs: &State,
) -> Result<Verdict> {
    match outcome {
        Ok(()) => {
            let mut difference = Difference::new(alloc);
            compare_states(ours, theirs, &mut difference)?;
            Ok(difference.verdict())
        }
        Err(stop) => not_accepted(stop),
    }
}

/// What becomes of a case whose call left this state. Where the case has no state `post`, it must be refused.
pub fn judged(
    rt: &(impl Files + AllocGlobal),
    case: &Case,
    state: &State,
    outcome: Result<(), Stop>,
) -> Result<Verdict> {
    if !case.has(rt, "post")? {
        return refused(outcome);
    }
    let expected = case.state(rt, "post")?;
    accepted(rt.alloc(), outcome, state, &expected)
}
