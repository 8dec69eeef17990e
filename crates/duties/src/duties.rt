//! The duties of an epoch of a state.

ghost use Rattle.std.specs.Prelude.{◌≡◌, ◌<◌, ◌+◌, ◌*◌, ◌^◌, ◌≤◌, IfOk};
ghost use Rattle.bc_words.specs.Outcome.{GivesBy};
ghost use Rattle.spec_state.specs.Misc.{compute_start_slot_at_epoch};
ghost use Rattle.spec_state.specs.inside.EpochCommittees.{epoch_committees};
ghost use Rattle.duties.specs.Duties.{AnswersDuties, current_proposers, duty_lists, duty_stop, get_duties};

use crate::proposers::{ProposerDuty, proposers_of};
use balance_totals::{committees_of_epoch, current_epoch};
use bc_words::{Limit, Refusal, Stop, checked_mul};
use beacon_state::State;
use committees::EpochCommittees;
use std::alloc::Global;

/// Who attests and who proposes in an epoch: its committees, and, where it is the state's current one, the proposer of each
/// of its slots.
#[derive(Drop)]
pub struct Duties {
    /// The first slot of the epoch.
    pub first_slot: u64,
    /// The committees of the epoch.
    pub committees: EpochCommittees,
    /// The proposers of its slots, in order, where they are known.
    pub proposers: Vec<ProposerDuty>,
}

/// Why an epoch has no duties to tell.
#[derive(Clone, Copy, Debug, PartialEq, Eq)]
pub enum DutyStop {
    /// The epoch is neither the state's current one nor the next.
    Epoch,
    /// A number doesn't fit in 64 bits, or nobody is active to propose.
    Refused(Refusal),
    /// None of the candidates that may be tried for a slot's proposer passes.
    Limit(Limit),
    /// Memory ran out.
    NoMemory,
}

/// The stop of a call of the layers.
fn duty_stop(stop: Stop) -> DutyStop
    ensures { result ≡ duty_stop stop }
{
    match stop {
        Stop::Refused(why) => DutyStop::Refused(why),
        Stop::Limit(bound) => DutyStop::Limit(bound),
        Stop::NoMemory => DutyStop::NoMemory,
    }
}

/// The proposers of the epoch's slots, where it is the current one: before, nobody knows who will be active enough.
fn current_proposers(alloc: Global, state: &State, epoch: u64) -> Result<Vec<ProposerDuty>, Stop>
    requires { (epoch + 1) * state.now.preset.slots_per_epoch < 2 ^ 64 }
    ensures { GivesBy (λ duties. duties.items) result (current_proposers state.now epoch) }
{
    if epoch == current_epoch(state) {
        proposers_of(alloc, state)
    } else {
        Ok(Vec::new(alloc))
    }
}

/// The duties of an epoch whose proposers are known, or are not asked for.
fn found(alloc: Global, state: &State, epoch: u64) -> Result<Duties, Stop>
    requires { epoch ≤ 2 ^ 61 + 1 }
    ensures exact { GivesBy duty_lists result (get_duties state.now epoch) }
    ensures table { IfOk result (λ duties. (duties.first_slot ≡ compute_start_slot_at_epoch state.now.preset epoch) × (duties.committees ≡ epoch_committees state.now epoch)) }
{
    let preset = state.preset();
    preset.bounds();
    let slots = preset.slots_per_epoch;
    checked_mul(epoch + 1, slots)?;
    let proposers = current_proposers(alloc, state, epoch)?;
    let committees = committees_of_epoch(alloc, state, epoch)?;
    Ok(Duties {
        first_slot: epoch * slots,
        committees,
        proposers,
    })
}

/// The duties of the state's current epoch or of the next: the committees that `get_beacon_committee` gives for each slot
/// and index, and, in the current epoch alone, the proposer that `get_beacon_proposer_index` gives at each slot
/// (beacon-chain.md).
///
/// Refused as an overflow where the epoch's end doesn't fit in 64 bits; then by slot, each slot's first stop: as `NoActive`
/// where nobody is active, as an overflow where a balance is too great to be weighed, limited where no candidate passes.
/// `committees` is the table of the epoch's committees, from its first slot on.
pub fn duties_of(alloc: Global, state: &State, epoch: u64) -> Result<Duties, DutyStop>
    ensures answers { AnswersDuties state.now epoch result }
    ensures table { IfOk result (λ duties. (duties.first_slot ≡ compute_start_slot_at_epoch state.now.preset epoch) × (duties.committees ≡ epoch_committees state.now epoch)) }
{
    let current = current_epoch(state);
    if epoch != current && epoch != current + 1 {
        return Err(DutyStop::Epoch);
    }
    found(alloc, state, epoch).map_err(duty_stop)
}
