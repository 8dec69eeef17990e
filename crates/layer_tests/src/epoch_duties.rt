//! Committees, proposers and seeds, with expected values of a program that follows the published text line by line.

ghost use Rattle.std.specs.Prelude.{◌≡◌, ℕ, ◌<◌, ◌≤◌, ◌^◌, length, slice_index, IfOk};

use crate::small_state::SmallState;
use bc_preset::Preset;
use bc_words::{Limit, Refusal, Stop};
use committees::{
    DOMAIN_BEACON_ATTESTER, DOMAIN_BEACON_PROPOSER, EpochCommittees, members_stand_once,
    pick_proposer, seed_of,
};
use std::alloc::{AllocError, Global};
use std::process::Abort;
use std::test::Fail;

fn indices(alloc: Global, count: u64) -> Result<Vec<u64>, AllocError>
    ensures { IfOk result (λ v. (length v.items ≡ count) × ((k : ℕ) → k < count → slice_index v.items k ≡ k)) }
{
    let mut indices = Vec::new(alloc);
    for index in 0..count {
        indices.push(index)?;
    }
    Ok(indices)
}

fn pick(
    alloc: Global,
    state: &SmallState,
    count: u64,
    bound: u64,
) -> Result<Result<u64, Stop>, AllocError>
    requires count { count ≤ state.now.1 }
    requires fits { count ≤ 2 ^ 40 }
{
    let active = indices(alloc, count)?;
    Ok(pick_proposer(&active, state, &[7; 32], bound))
}

fn committees(alloc: Global, count: u64) -> Result<EpochCommittees, Fail>
    requires { count ≤ 2 ^ 40 }
{
    let active = indices(alloc, count)?;
    members_stand_once(&active, &[7; 32], &Preset::minimal());
    Ok(EpochCommittees::new(alloc, active, &[7; 32], &Preset::minimal())?)
}

/// A slot, an index, and the members of the committee. None where there is no committee.
type Row = (u64, u64, &'static [u64]);

/// Rows of the committees of 64 validators.
const OF_64: [Row; 4] = [
    (8, 0, &[34, 26, 18, 27]),
    (7, 1, &[37, 53, 2, 22]),
    (7, 2, &[]),
    (0, u64::MAX, &[]),
];

/// Rows of the committees of 100 validators.
const OF_100: [Row; 3] = [
    (0, 0, &[48, 26, 80, 51]),
    (1, 2, &[65, 93, 82, 72, 54]),
    (7, 2, &[89, 57, 35, 87, 79]),
];

/// Whether a committee has its members, and there is none where the row has none.
fn row_holds(committees: &EpochCommittees, row: &Row) -> bool {
    match committees.committee(row.0, row.1) {
        Some(members) => !row.2.is_empty() && members == row.2,
        None => row.2.is_empty(),
    }
}

/// Compares committees with their rows.
fn rows_hold(rt: &impl Abort, committees: &EpochCommittees, per_slot: u64, rows: &[Row]) {
    assert!(rt; committees.per_slot() == per_slot);
    for row in rows {
        assert!(rt; row_holds(committees, row));
    }
}

/// Compares the committees of so many validators with their rows.
fn committees_are(
    rt: &(impl AllocGlobal + Abort),
    count: u64,
    per_slot: u64,
    rows: &[Row],
) -> Result<(), Fail>
    requires { count ≤ 2 ^ 40 }
{
    match committees(rt.alloc(), count) {
        Ok(committees) => Ok(rows_hold(rt, &committees, per_slot, rows)),
        Err(fail) => Err(fail),
    }
}

#[test]
fn committees_have_their_members(rt: HostRuntime) -> Result<(), Fail> {
    committees_are(&rt, 64, 2, &OF_64)?;
    committees_are(&rt, 100, 3, &OF_100)
}

/// The balance of each of 64 validators, how many are active, how many candidates there are at most, and who is picked.
const PICKS: [(u64, u64, u64, Result<u64, Stop>); 7] = [
    (32_000_000_000, 64, 65_536, Ok(34)),
    (
        32_000_000_000,
        0,
        65_536,
        Err(Stop::Refused(Refusal::NoActive)),
    ),
    (32_000_000_000, 64, 0, Err(Stop::Limit(Limit::Proposer))),
    (1_000_000_000, 64, 65_536, Ok(63)),
    (1_000_000_000, 64, 139, Err(Stop::Limit(Limit::Proposer))),
    (0, 1, 1, Err(Stop::Limit(Limit::Proposer))),
    (u64::MAX, 1, 1, Err(Stop::Refused(Refusal::Overflow))),
];

#[test]
fn proposers_pass_the_test(rt: HostRuntime) -> Result<(), Fail> {
    for (balance, count, bound, picked) in PICKS.iter() {
        assert!(rt; *count <= 64);
        let state = SmallState::new(Preset::minimal(), 64, *balance);
        assert!(rt; pick(rt.alloc(), &state, *count, *bound)? == *picked);
    }
    Ok(())
}

#[test]
fn seeds_take_the_right_mix(rt: HostRuntime) {
    let small = SmallState::new(Preset::minimal(), 64, 32_000_000_000);
    let seed = seed_of(&small, 3, DOMAIN_BEACON_ATTESTER);
    assert!(rt; seed[..4] == [139, 223, 194, 41]);
    let large = SmallState::new(Preset::mainnet(), 64, 32_000_000_000);
    let seed = seed_of(&large, 0, DOMAIN_BEACON_PROPOSER);
    assert!(rt; seed[..4] == [16, 21, 211, 44]);
}
