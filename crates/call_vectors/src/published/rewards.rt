//! The five parts of rewards and penalties (beacon-chain.md, "Rewards and penalties").

ghost use Rattle.std.specs.Prelude.{◌≡◌};
ghost use Rattle.spec_state.specs.Accessors.{get_previous_epoch};
ghost use Rattle.spec_state.specs.Soundness.{IsSoundWithinEpoch};
ghost use Rattle.balance_totals.specs.inside.Stakes.{stakes_of};
ghost use Rattle.epoch_rewards.specs.inside.Statuses.{statuses_of};

use crate::published::case::Case;
use crate::published::difference::Difference;
use crate::published::verdict::{Outside, Verdict, not_accepted};
use anyhow::Result;
use balance_totals::{Stake, Stakes, committees_of_epoch, gather, previous_epoch};
use bc_words::Stop;
use beacon_state::State;
use epoch_rewards::{
    Deltas, Status, head_deltas, inactivity_deltas, inclusion_deltas, previous_statuses,
    source_deltas, target_deltas,
};
use ssz_codec::{Field, Items, cut, read_list};
use std::alloc::Global;
use std::rt::Files;
use transition::is_sound_within_epoch;

/// The most validators that a registry has (`VALIDATOR_REGISTRY_LIMIT`).
const VALIDATOR_REGISTRY_LIMIT: u64 = 1 << 40;

/// A part of rewards and penalties.
#[derive(Clone, Copy)]
enum Part {
    Source,
    Target,
    Head,
    InclusionDelay,
    InactivityPenalty,
}

/// All parts.
const PARTS: [Part; 5] = [
    Part::Source,
    Part::Target,
    Part::Head,
    Part::InclusionDelay,
    Part::InactivityPenalty,
];

impl Part {
    /// The name of the case's container.
    fn name(self) -> &'static str {
        match self {
            Part::Source => "source_deltas",
            Part::Target => "target_deltas",
            Part::Head => "head_deltas",
            Part::InclusionDelay => "inclusion_delay_deltas",
            Part::InactivityPenalty => "inactivity_penalty_deltas",
        }
    }

    /// What it gives.
    fn deltas(
        self,
        alloc: Global,
        state: &State,
        stakes: &[Stake],
        statuses: &[Status],
    ) -> Result<Deltas, Stop>
        requires sound { IsSoundWithinEpoch state.now }
        requires stakes { stakes.now ≡ stakes_of state.now }
        requires statuses { statuses.now ≡ statuses_of state.now (get_previous_epoch state.now) }
    {
        match self {
            Part::Source => source_deltas(alloc, state, stakes, statuses),
            Part::Target => target_deltas(alloc, state, stakes, statuses),
            Part::Head => head_deltas(alloc, state, stakes, statuses),
            Part::InclusionDelay => inclusion_deltas(alloc, state, stakes, statuses),
            Part::InactivityPenalty => inactivity_deltas(alloc, state, stakes, statuses),
        }
    }
}

/// Notes where numbers are others than those whose writing these bytes are.
fn compare_numbers(
    alloc: Global,
    part: Part,
    field: &str,
    ours: &Items<u64>,
    bytes: &[u8],
    difference: &mut Difference,
) -> Result<()> {
    let theirs = read_list(alloc, bytes, 8, VALIDATOR_REGISTRY_LIMIT)?;
    difference.numbers(part.name(), field, ours.as_slice(), theirs.as_slice())
}

/// Notes where deltas are others than those whose writing these bytes are.
fn compare(
    alloc: Global,
    part: Part,
    ours: &Deltas,
    bytes: &[u8],
    difference: &mut Difference,
) -> Result<()> {
    let mut parts: [&[u8]; 2] = [&[], &[]];
    cut(bytes, &[Field::Variable, Field::Variable], &mut parts)?;
    compare_numbers(alloc, part, ".rewards", &ours.rewards, parts[0], difference)?;
    compare_numbers(
        alloc,
        part,
        ".penalties",
        &ours.penalties,
        parts[1],
        difference,
    )
}

/// Notes where the deltas of a part are others than those of the case. The stop, where the part gives none.
fn run_part(
    rt: &(impl Files + AllocGlobal),
    case: &Case,
    part: Part,
    state: &State,
    stakes: &[Stake],
    statuses: &[Status],
    difference: &mut Difference,
) -> Result<Option<Stop>>
    requires sound { IsSoundWithinEpoch state.now }
    requires stakes { stakes.now ≡ stakes_of state.now }
    requires statuses { statuses.now ≡ statuses_of state.now (get_previous_epoch state.now) }
{
    let bytes = case.bytes(rt, part.name())?;
    match part.deltas(rt.alloc(), state, stakes, statuses) {
        Ok(deltas) => {
            compare(rt.alloc(), part, &deltas, bytes.as_slice(), difference)?;
            Ok(None)
        }
        Err(stop) => Ok(Some(stop)),
    }
}

/// Runs the parts on a sound state with what was gathered of its validators, and how each attested in the previous epoch.
fn run_parts(
    rt: &(impl Files + AllocGlobal),
    case: &Case,
    state: &State,
    stakes: &[Stake],
    statuses: &[Status],
) -> Result<Verdict>
    requires sound { IsSoundWithinEpoch state.now }
    requires stakes { stakes.now ≡ stakes_of state.now }
    requires statuses { statuses.now ≡ statuses_of state.now (get_previous_epoch state.now) }
{
    let mut difference = Difference::new(rt.alloc());
    for part in PARTS {
        if let Some(stop) = run_part(rt, case, part, state, stakes, statuses, &mut difference)? {
            return not_accepted(stop);
        }
    }
    Ok(difference.verdict())
}

/// Runs a case of `rewards`.
pub fn run(rt: &(impl Files + AllocGlobal), case: &Case, state: &State) -> Result<Verdict> {
    if !is_sound_within_epoch(rt.alloc(), state)? {
        return Ok(Verdict::Outside(Outside::Unsound));
    }
    let Stakes { list, stirs: _ } = gather(rt.alloc(), state, case.config())?;
    let previous = committees_of_epoch(rt.alloc(), state, previous_epoch(state))?;
    let statuses = previous_statuses(rt.alloc(), state, &previous)?;
    run_parts(rt, case, state, &list, &statuses)
}
