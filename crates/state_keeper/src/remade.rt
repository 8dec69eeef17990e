//! States that are made again: steps from the nearest ancestor whose state is kept.

ghost use Rattle.std.specs.Prelude.{◌≡◌, ◌+◌, ◌<◌, ◌≤◌, ◌%◌, Some, Ok, length, IfOk, IsOk, OnOk};
ghost use Rattle.state_keeper.specs.inside.Entries.{StandsFor, HasKept, IsStep, AreEntries, AreKept, ancestor_at, parent_at, distance_at};
ghost use Rattle.state_keeper.specs.Chain.{kept_every};

use crate::entry::{Entry, KEPT_EVERY};
use crate::stepper::Stepper;
use bc_words::{NoMemory, Steps, Stop};
use beacon_state::State;
use std::alloc::Global;
use std::sync::ledger::Ledger;

/// The number of a block's parent.
fn parent_at<B: Drop>(entries: &[Entry<B, State>], n: u32) -> u32
    ensures { result ≡ parent_at entries.now n }
{
    match entries.get(n as usize) {
        Some(entry) => entry.parent,
        None => 0,
    }
}

/// How many steps a block is from the first block.
pub(crate) fn distance_at<B: Drop>(entries: &[Entry<B, State>], n: u32) -> u32
    ensures { result ≡ distance_at entries.now n }
{
    match entries.get(n as usize) {
        Some(entry) => entry.distance,
        None => 0,
    }
}

/// The number of the block so many parents before another one.
fn ancestor_at<B: Drop>(entries: &[Entry<B, State>], n: u32, back: u32) -> u32
    ensures { result ≡ ancestor_at entries.now n back }
{
    let mut number = n;
    for step in 0..back {
        number = parent_at(entries, number);
    }
    number
}

/// The state of a block whose state is kept.
fn kept_state<B: Drop>(
    entries: &[Entry<B, State>],
    states: &[State],
    n: u32,
) -> Result<State, NoMemory>
    requires { HasKept entries.now states.now n }
    ensures { IfOk result (λ state. StandsFor entries.now n state) }
{
    match entries[n as usize].kept {
        Some(place) => states[place].share(),
        None => unreachable!(),
    }
}

/// The state of a block, by a counted step from that of its parent.
fn step_to<P: Stepper, L: Ledger>(
    alloc: Global,
    stepper: &P,
    entries: &[Entry<P::Block, State>],
    n: u32,
    state: &State,
    steps: &mut Steps<L>,
) -> Result<State, NoMemory>
    requires { IsStep (P.can_step stepper.now) (P.plain_step stepper.now) entries.now n state.now }
    ensures state { IfOk result (λ next. StandsFor entries.now n next) }
    ensures steps { steps.new ≡ steps.old + 1 }
{
    steps.tick();
    match stepper.step(alloc, state, &entries[n as usize].block) {
        Ok(next) => Ok(next),
        Err(Stop::NoMemory) => Err(NoMemory),
        Err(Stop::Refused(_)) => unreachable!(),
        Err(Stop::Limit(_)) => unreachable!(),
    }
}

/// Puts what was made into its place, if it was made.
fn put_in<S: Drop>(place: &mut S, made: Result<S, NoMemory>) -> Result<(), NoMemory>
    ensures { OnOk result (made ≡ Ok place.new) }
{
    *place = made?;
    Ok(())
}

/// The state, if what had to be done with it was done.
fn once_done<S: Drop>(done: Result<(), NoMemory>, state: S) -> Result<S, NoMemory>
    ensures same { IfOk result (λ s. s ≡ state) }
    ensures done { OnOk result (IsOk done) }
{
    done?;
    Ok(state)
}

/// Takes the state of a block's parent to that of the block, by a counted step.
fn step_on<P: Stepper, L: Ledger>(
    alloc: Global,
    stepper: &P,
    entries: &[Entry<P::Block, State>],
    n: u32,
    state: &mut State,
    steps: &mut Steps<L>,
) -> Result<(), NoMemory>
    requires { IsStep (P.can_step stepper.now) (P.plain_step stepper.now) entries.now n state.old }
    ensures state { OnOk result (StandsFor entries.now n state.new) }
    ensures steps { steps.new ≡ steps.old + 1 }
{
    let made = step_to(alloc, stepper, entries, n, state, steps);
    put_in(state, made)
}

/// Takes the state of the block so many parents before another one down to that one's.
fn steps_down<P: Stepper, L: Ledger>(
    alloc: Global,
    stepper: &P,
    entries: &[Entry<P::Block, State>],
    n: u32,
    far: u32,
    state: &mut State,
    steps: &mut Steps<L>,
) -> Result<(), NoMemory>
    requires entries { AreEntries (P.can_step stepper.now) (P.plain_step stepper.now) entries.now }
    requires inside { n < length entries.now }
    requires far { far ≤ distance_at entries.now n }
    requires state { StandsFor entries.now (ancestor_at entries.now n far) state.old }
    ensures state { OnOk result (StandsFor entries.now n state.new) }
    ensures steps { steps.new ≤ steps.old + far }
{
    for done in 0..far {
        let next = ancestor_at(entries, n, far - 1 - done);
        step_on(alloc, stepper, entries, next, state, steps)?;
    }
    Ok(())
}

/// The state of a block, made again by steps from its nearest ancestor whose state is kept.
pub(crate) fn remade<P: Stepper, L: Ledger>(
    alloc: Global,
    stepper: &P,
    entries: &[Entry<P::Block, State>],
    states: &[State],
    n: u32,
    steps: &mut Steps<L>,
) -> Result<State, NoMemory>
    requires entries { AreEntries (P.can_step stepper.now) (P.plain_step stepper.now) entries.now }
    requires kept { AreKept entries.now states.now }
    requires inside { n < length entries.now }
    ensures state { IfOk result (λ state. StandsFor entries.now n state) }
    ensures steps { steps.new ≤ steps.old + distance_at entries.now n % kept_every }
{
    let far = distance_at(entries, n) % KEPT_EVERY;
    let mut state = kept_state(entries, states, ancestor_at(entries, n, far))?;
    let done = steps_down(alloc, stepper, entries, n, far, &mut state, steps);
    once_done(done, state)
}
