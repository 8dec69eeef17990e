//! One attestation into a state whose active validators are counted, as a block's are: on 65,536 validators against 4,096.

ghost use Rattle.std.specs.Prelude.{◌≡◌, length};
ghost use Rattle.spec_state.specs.Accessors.{get_current_epoch, get_previous_epoch, get_active_validator_indices};

use crate::ratio::{Time, now, tell_ratio, time_since};
use crate::states::{Shape, put_offset, put_vote, read_mainnet};
use anyhow::Result;
use balance_totals::{count_active, current_epoch, previous_epoch};
use bc_words::Stop;
use beacon_state::State;
use beacon_types::{Attestation, RootedAttestation};
use block_operations::PendingVotes;
use block_operations::process_attestation::process_counted_attestation;
use ssz_codec::Ssz;
use std::time::CpuClock;

/// How often an attestation goes into an equal state.
const TIMES: u32 = 32;

/// The time of one attestation.
fn time_one(
    rt: &(impl AllocGlobal + CpuClock),
    state: &mut State,
    attestation: &Attestation,
    previous: u64,
    current: u64,
) -> Result<Time, Stop>
    requires previous { previous ≡ length (get_active_validator_indices state.old (get_previous_epoch state.old)) }
    requires current { current ≡ length (get_active_validator_indices state.old (get_current_epoch state.old)) }
{
    let begin = now(rt);
    let rooted = RootedAttestation::of(attestation);
    let mut votes = PendingVotes::none(rt.alloc(), state);
    process_counted_attestation(state, &rooted, 0, previous, current, &mut votes)?;
    votes.put(state)?;
    Ok(time_since(rt, begin))
}

/// The time of one attestation into an equal state.
fn time_shared(
    rt: &(impl AllocGlobal + CpuClock),
    state: &State,
    attestation: &Attestation,
    previous: u64,
    current: u64,
) -> Result<Time, Stop>
    requires previous { previous ≡ length (get_active_validator_indices state.now (get_previous_epoch state.now)) }
    requires current { current ≡ length (get_active_validator_indices state.now (get_current_epoch state.now)) }
{
    let mut shared = state.share()?;
    time_one(rt, &mut shared, attestation, previous, current)
}

/// The time of so many attestations, each into an equal state, with how many validators are active in its two epochs.
fn time_times(
    rt: &(impl AllocGlobal + CpuClock),
    state: &State,
    attestation: &Attestation,
    previous: u64,
    current: u64,
) -> Result<Time, Stop>
    requires previous { previous ≡ length (get_active_validator_indices state.now (get_previous_epoch state.now)) }
    requires current { current ≡ length (get_active_validator_indices state.now (get_current_epoch state.now)) }
{
    let mut sum = Time::none();
    for _ in 0..TIMES {
        sum = sum.plus(time_shared(rt, state, attestation, previous, current)?);
    }
    Ok(sum)
}

/// The time of so many attestations, each into an equal state.
fn time_all(
    rt: &(impl AllocGlobal + CpuClock),
    state: &State,
    attestation: &Attestation,
) -> Result<Time, Stop> {
    let previous = count_active(state, previous_epoch(state));
    let current = count_active(state, current_epoch(state));
    time_times(rt, state, attestation, previous, current)
}

/// A vote of the first committee of slot 0.
fn vote(rt: &impl AllocGlobal) -> Result<Attestation> {
    let mut bytes = [0; 245];
    put_offset(&mut bytes, 0, 228);
    put_vote(&mut bytes, 4, 228, 0, 0);
    match Attestation::read(rt.alloc(), &bytes) {
        Ok(attestation) => Ok(attestation),
        Err(fault) => Err(fault.into()),
    }
}

/// The time of so many votes.
fn time_votes(rt: &(impl AllocGlobal + CpuClock), state: &State) -> Result<Time> {
    let attestation = vote(rt)?;
    match time_all(rt, state, &attestation) {
        Ok(time) => Ok(time),
        Err(stop) => Err(stop.into()),
    }
}

/// The time of so many attestations on so many validators.
fn time_on(rt: &(impl AllocGlobal + CpuClock), validators: u32) -> Result<Time> {
    let mut shape = Shape::at_genesis(validators);
    shape.slot = 1;
    match read_mainnet(rt, &shape) {
        Ok(reading) => time_votes(rt, &reading.state),
        Err(error) => Err(error),
    }
}

/// Takes attestations on both, and prints both times.
pub fn measure(rt: &(impl AllocGlobal + Print + CpuClock)) -> Result<()> {
    let measure = time_on(rt, 4096)?;
    let whole = time_on(rt, 65_536)?;
    let what = "an attestation, 32 times, on 65,536 validators against 4,096";
    tell_ratio(rt, what, whole, measure)
}
