//! 128 slots without a block on a state of 262,144 validators, with the votes of two epochs of all of them, against the first of
//! these slots, which ends an epoch.

ghost use Rattle.spec_state.specs.Soundness.{IsSound};

use crate::ratio::{Time, now, tell_ratio, tell_time, time_since};
use crate::states::{CONFIG, Shape, read_mainnet};
use anyhow::{Result, bail};
use bc_preset::Config;
use bc_words::Stop;
use beacon_state::State;
use std::time::CpuClock;
use transition::is_sound;
use transition::process_slots::process_slots;

/// The time in which the state comes to a slot.
fn time_to(
    rt: &(impl AllocGlobal + CpuClock),
    state: &State,
    slot: u64,
    config: &Config,
) -> Result<Time, Stop>
    requires { IsSound state.now }
{
    let begin = now(rt);
    let _step = process_slots(rt.alloc(), state, slot, config)?;
    Ok(time_since(rt, begin))
}

/// What the slots took.
#[derive(Clone, Copy)]
struct Times {
    /// The first slot.
    first: Time,
    /// Those behind it that end no epoch.
    rest: Time,
    /// All of them.
    whole: Time,
}

/// Times the slots behind the first, and all of them.
fn time_behind(
    rt: &(impl AllocGlobal + CpuClock),
    state: &State,
    next: &State,
    config: &Config,
    first: Time,
) -> Result<Times, Stop>
    requires sound { IsSound state.now }
    requires next { IsSound next.now }
{
    let rest = time_to(rt, next, 127, config)?;
    let whole = time_to(rt, state, 95 + 128, config)?;
    Ok(Times { first, rest, whole })
}

/// Takes the sound state through its first slot, and then through the others.
fn time_slots(
    rt: &(impl AllocGlobal + CpuClock),
    state: &State,
    config: &Config,
) -> Result<Times, Stop>
    requires { IsSound state.now }
{
    let begin = now(rt);
    match process_slots(rt.alloc(), state, 96, config) {
        Ok(step) => time_behind(rt, state, &step.state, config, time_since(rt, begin)),
        Err(stop) => Err(stop),
    }
}

/// Takes the state through the slots, where it is sound, and prints what they took.
fn measure_on(rt: &(impl AllocGlobal + Print + CpuClock), state: &State) -> Result<()> {
    let config = Config::read(CONFIG)?;
    if !is_sound(rt.alloc(), state)? {
        bail!("the state isn't sound");
    }
    let Times { first, rest, whole } = time_slots(rt, state, &config)?;
    let what =
        "128 slots on 262144 validators, with votes of two epochs, against the first, which ends one";
    tell_ratio(rt, what, whole, first).and(tell_time(
        rt,
        "the 31 behind the first, which end none",
        rest,
    ))
}

/// Reads the state, takes it through the slots, and prints both times.
pub fn measure(rt: &(impl AllocGlobal + Print + CpuClock)) -> Result<()> {
    let shape = Shape {
        validators: 262_144,
        slot: 95,
        previous: 2048,
        current: 1984,
    };
    match read_mainnet(rt, &shape) {
        Ok(reading) => measure_on(rt, &reading.state),
        Err(error) => Err(error),
    }
}
