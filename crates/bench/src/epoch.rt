//! The parts of an epoch's end on a state whose validators all attested, without roots: on 262,144 validators against
//! passes of reading registry and balances, and against 16,384 validators.

ghost use Rattle.std.specs.Prelude.{◌≡◌, ◌≤◌, ◌^◌};
ghost use Rattle.spec_state.specs.Accessors.{get_current_epoch, get_previous_epoch};
ghost use Rattle.spec_state.specs.inside.EpochCommittees.{epoch_committees};
ghost use Rattle.spec_state.specs.Soundness.{IsSound, IsSoundWithinEpoch};

use crate::ratio::{Time, now, tell_numbers, tell_ratio, tell_times, time_since};
use crate::states::{CONFIG, Shape, read_mainnet};
use anyhow::{Result, bail};
use balance_totals::{Stakes, committees_of_epoch, current_epoch, gather, previous_epoch};
use bc_preset::Config;
use bc_words::{NoMemory, Stop};
use beacon_state::State;
use committees::EpochCommittees;
use epoch_processing::process_effective_balance_updates::process_effective_balances;
use epoch_processing::process_eth1_data_reset::process_eth1_reset;
use epoch_processing::process_historical_roots_update::process_historical_roots;
use epoch_processing::process_justification;
use epoch_processing::process_participation_record_updates::process_rotation;
use epoch_processing::process_randao_mixes_reset::process_randao_reset;
use epoch_processing::process_slashings::process_slashings;
use epoch_processing::process_slashings_reset::process_slashings_reset;
use epoch_rewards::{current_flags, previous_statuses, process_rewards};
use std::alloc::Global;
use std::time::CpuClock;
use transition::{is_sound, is_sound_within_epoch, sound_within_epoch};

/// How often the registry is read.
const PASSES: u32 = 20;

/// What was timed on a state.
#[derive(Clone, Copy)]
struct Times {
    /// So many passes of reading each validator and balance.
    reading: Time,
    /// What these are joined to.
    joined: u64,
    /// The committees of two epochs.
    committees: Time,
    /// How many committees a slot of either epoch has, joined.
    per_slot: u64,
    /// The parts of the epoch's end, and what the first two read.
    justified: Justified,
    rewards: Time,
    closing: Closing,
}

/// What the closing parts took.
#[derive(Clone, Copy)]
struct Closing {
    slashings: Time,
    effective_balances: Time,
    /// The short ones together.
    resets: Time,
}

impl Times {
    /// All parts of the epoch's end but the committees.
    fn passes(&self) -> Time {
        let closing = self.closing;
        self.justified
            .tables
            .plus(self.justified.gathering)
            .plus(self.justified.justification)
            .plus(self.rewards)
            .plus(closing.slashings)
            .plus(closing.effective_balances)
            .plus(closing.resets)
    }

    /// The same with the committees.
    fn whole(&self) -> Time {
        self.committees.plus(self.passes())
    }
}

/// Reads every validator and balance once, in order, joined so that none is left out.
fn read_all(state: &State) -> u64 {
    let mut joined = 0u64;
    for validator in state.registry().iter() {
        joined = joined.wrapping_add(validator.effective_balance() ^ validator.exit_epoch());
    }
    for balance in state.balance_list().iter() {
        joined = joined.wrapping_add(balance);
    }
    joined
}

/// The time of so many passes over registry and balances, and what they are joined to.
fn time_reading(rt: &impl CpuClock, state: &State) -> (Time, u64) {
    let begin = now(rt);
    let mut joined = 0;
    for _ in 0..PASSES {
        joined ^= read_all(state);
    }
    (time_since(rt, begin), joined)
}

/// How many committees a slot of an epoch has.
fn per_slot(alloc: Global, state: &State, epoch: u64) -> Result<u64, NoMemory>
    requires { epoch ≤ 2 ^ 61 }
{
    match committees_of_epoch(alloc, state, epoch) {
        Ok(committees) => Ok(committees.per_slot()),
        Err(refused) => Err(refused),
    }
}

/// The time of the committees of two epochs, and how many a slot of either has, joined.
fn time_committees(
    rt: &(impl AllocGlobal + CpuClock),
    state: &State,
) -> Result<(Time, u64), NoMemory> {
    let begin = now(rt);
    let previous = per_slot(rt.alloc(), state, previous_epoch(state))?;
    let current = per_slot(rt.alloc(), state, current_epoch(state))?;
    Ok((time_since(rt, begin), previous ^ current))
}

/// The times of the tables of both epochs, with these committees, of gathering what is read of each validator, and of justification by
/// these.
#[derive(Clone, Copy)]
struct Justified {
    tables: Time,
    gathering: Time,
    justification: Time,
}

/// The times of both tables, with these committees, of gathering, and of justification.
fn time_justified(
    rt: &(impl AllocGlobal + CpuClock),
    state: &mut State,
    config: &Config,
    previous: &EpochCommittees,
    current: &EpochCommittees,
) -> Result<Justified, Stop>
    requires sound { IsSound state.old }
    requires previous { previous.now ≡ epoch_committees state.old (get_previous_epoch state.old) }
    requires current { current.now ≡ epoch_committees state.old (get_current_epoch state.old) }
{
    sound_within_epoch();
    let begin = now(rt);
    let before = previous_statuses(rt.alloc(), state, previous)?;
    let latest = current_flags(rt.alloc(), state, current)?;
    let tables = time_since(rt, begin);
    let begin = now(rt);
    let Stakes { list, stirs: _ } = gather(rt.alloc(), state, config)?;
    let gathering = time_since(rt, begin);
    let begin = now(rt);
    process_justification(state, &list, &before, &latest)?;
    Ok(Justified {
        tables,
        gathering,
        justification: time_since(rt, begin),
    })
}

/// The times of both tables, of gathering and of justification on a sound state.
fn time_sound(
    rt: &(impl AllocGlobal + CpuClock),
    state: &mut State,
    config: &Config,
) -> Result<Justified, Stop>
    requires { IsSound state.old }
{
    let previous = committees_of_epoch(rt.alloc(), state, previous_epoch(state))?;
    let current = committees_of_epoch(rt.alloc(), state, current_epoch(state))?;
    time_justified(rt, state, config, &previous, &current)
}

/// The times of both tables, of gathering and of justification.
fn time_justification(
    rt: &(impl AllocGlobal + CpuClock),
    state: &mut State,
    config: &Config,
) -> Result<Justified> {
    if !is_sound(rt.alloc(), state)? {
        bail!("the state isn't sound");
    }
    Ok(time_sound(rt, state, config)?)
}

/// The time of rewards on a state that is sound within its epoch's end.
fn time_rewarded(
    rt: &(impl AllocGlobal + CpuClock),
    state: &mut State,
    config: &Config,
) -> Result<Time, Stop>
    requires { IsSoundWithinEpoch state.old }
{
    let previous = committees_of_epoch(rt.alloc(), state, previous_epoch(state))?;
    let statuses = previous_statuses(rt.alloc(), state, &previous)?;
    let Stakes { list, stirs: _ } = gather(rt.alloc(), state, config)?;
    let begin = now(rt);
    process_rewards(rt.alloc(), state, &list, statuses)?;
    Ok(time_since(rt, begin))
}

/// The time of rewards.
fn time_rewards(
    rt: &(impl AllocGlobal + CpuClock),
    state: &mut State,
    config: &Config,
) -> Result<Time> {
    if !is_sound_within_epoch(rt.alloc(), state)? {
        bail!("the state isn't sound within its epoch's end");
    }
    Ok(time_rewarded(rt, state, config)?)
}

/// The time of the short closing parts.
fn time_resets(rt: &impl CpuClock, state: &mut State) -> Result<Time, Stop> {
    let begin = now(rt);
    process_eth1_reset(state)?;
    process_slashings_reset(state)?;
    process_randao_reset(state)?;
    process_historical_roots(state)?;
    process_rotation(state)?;
    Ok(time_since(rt, begin))
}

/// The time of the effective balances.
#[tactic(auto, using(epoch_processing::proofs::Gathered::gathered_balances))]
fn time_effective_balances(
    rt: &(impl AllocGlobal + CpuClock),
    state: &mut State,
    config: &Config,
) -> Result<Time, Stop> {
    let Stakes { list, stirs: _ } = gather(rt.alloc(), state, config)?;
    let begin = now(rt);
    process_effective_balances(rt.alloc(), state, &list)?;
    Ok(time_since(rt, begin))
}

/// The times of the closing parts.
fn time_closing(
    rt: &(impl AllocGlobal + CpuClock),
    state: &mut State,
    config: &Config,
) -> Result<Closing, Stop> {
    let begin = now(rt);
    process_slashings(rt.alloc(), state)?;
    let slashings = time_since(rt, begin);
    Ok(Closing {
        slashings,
        effective_balances: time_effective_balances(rt, state, config)?,
        resets: time_resets(rt, state)?,
    })
}

/// The times of all parts.
fn time_parts(
    rt: &(impl AllocGlobal + CpuClock),
    state: &mut State,
    config: &Config,
) -> Result<Times> {
    let (reading, joined) = time_reading(rt, state);
    let (committees, per_slot) = time_committees(rt, state)?;
    Ok(Times {
        reading,
        joined,
        committees,
        per_slot,
        justified: time_justification(rt, state, config)?,
        rewards: time_rewards(rt, state, config)?,
        closing: time_closing(rt, state, config)?,
    })
}

/// The times on a state at the end of its third epoch, with so many committees of 128 in a slot, one for each 4,096 validators.
fn time_on(rt: &(impl AllocGlobal + CpuClock), config: &Config, per_slot: u8) -> Result<Times> {
    let per_slot = u32::from(per_slot);
    let shape = Shape {
        validators: 4096 * per_slot,
        slot: 95,
        previous: 32 * per_slot,
        current: 31 * per_slot,
    };
    match read_mainnet(rt, &shape) {
        Ok(mut reading) => time_parts(rt, &mut reading.state, config),
        Err(error) => Err(error),
    }
}

/// Prints the times of a state.
fn tell_parts(rt: &impl Print, validators: u64, times: &Times) -> Result<()> {
    let closing = times.closing;
    let numbers = [
        ("an epoch's end on validators", validators),
        ("  passes of reading, joined", times.joined),
        ("  committees of a slot, joined", times.per_slot),
    ];
    let parts = [
        ("  passes of reading", times.reading),
        ("  committees", times.committees),
        ("  tables of both epochs", times.justified.tables),
        ("  gathering", times.justified.gathering),
        ("  justification", times.justified.justification),
        ("  rewards", times.rewards),
        ("  slashings", closing.slashings),
        ("  effective balances", closing.effective_balances),
        ("  resets", closing.resets),
    ];
    tell_numbers(rt, &numbers).and(tell_times(rt, &parts))
}

/// Prints what an epoch's end takes on the larger state, by what it is measured by.
fn tell(rt: &impl Print, small: &Times, large: &Times) -> Result<()> {
    let growth = "262,144 validators against 16,384";
    let passes = "20 times without committees, against as many passes of reading";
    tell_ratio(rt, growth, large.whole(), small.whole()).and(tell_ratio(
        rt,
        passes,
        large.passes().times(PASSES),
        large.reading,
    ))
}

/// Measures an epoch's end on both states, and prints all times.
pub fn measure(rt: &(impl AllocGlobal + Print + CpuClock)) -> Result<()> {
    let config = Config::read(CONFIG)?;
    let small = time_on(rt, &config, 4)?;
    tell_parts(rt, 16_384, &small)?;
    let large = time_on(rt, &config, 64)?;
    tell_parts(rt, 262_144, &large)?;
    tell(rt, &small, &large)
}
