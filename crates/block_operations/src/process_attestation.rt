//! The vote of a committee (beacon-chain.md, "Attestations").

ghost use Rattle.std.specs.Prelude.{◌≡◌, length, OnOk};
ghost use Rattle.bc_words.specs.Outcome.{Changes, Gives, GivesExactly, Moves, done};
ghost use Rattle.spec_state.specs.Misc.{compute_epoch_at_slot};
ghost use Rattle.spec_state.specs.Accessors.{get_current_epoch, get_previous_epoch, get_active_validator_indices};
ghost use Rattle.spec_state.specs.inside.EpochCommittees.{epoch_committees};
ghost use Rattle.spec_blocks.specs.ProcessAttestation.{check_times, check_committee, process_attestation};
ghost use Rattle.block_operations.specs.WithVotes.{with_votes, HasRoom};
ghost use Rattle.block_operations.specs.inside.Attested.{is_attested, Attests, IsTimely};

use crate::counted::counted_in;
use crate::pending::{pending_of, vote_attested};
use crate::pending_votes::PendingVotes;
use balance_totals::{current_epoch, previous_epoch};
use bc_words::{Refusal, Stop, checked_add, checked_sub};
use beacon_state::State;
use beacon_types::{Attestation, AttestationData, RootedAttestation};
use committees::EpochCommittees;
use std::alloc::Global;

/// The epoch of a slot.
fn epoch_at_slot(state: &State, slot: u64) -> u64
    ensures { result ≡ compute_epoch_at_slot state.now.preset slot }
{
    let preset = state.preset();
    preset.bounds();
    slot / preset.slots_per_epoch
}

/// Refused where the vote's target is of another epoch than the previous and the current one, or than its slot; where the
/// inclusion delay hasn't passed; or where more than an epoch has.
#[tactic(auto, unfolding(spec_blocks::specs::ProcessAttestation::check_times))]
fn check_times(state: &State, content: &AttestationData) -> Result<(), Stop>
    ensures timely { OnOk result (IsTimely state.now content.now) }
    ensures exact { GivesExactly result (check_times state.now content.now) }
{
    let epoch = content.target.epoch;
    if epoch != previous_epoch(state) && epoch != current_epoch(state) {
        return Err(Stop::Refused(Refusal::AtTargetEpoch));
    }
    if epoch != epoch_at_slot(state, content.slot) {
        return Err(Stop::Refused(Refusal::AtSlotEpoch));
    }
    let preset = state.preset();
    if state.slot() < checked_add(content.slot, preset.min_attestation_inclusion_delay)? {
        return Err(Stop::Refused(Refusal::AtEarly));
    }
    if checked_add(content.slot, preset.slots_per_epoch)? < state.slot() {
        return Err(Stop::Refused(Refusal::AtLate));
    }
    Ok(())
}

/// Puts the vote of a committee among those for its epoch, where it comes in time and it is known whether somebody attested, or why
/// that is refused.
#[tactic(auto, unfolding(spec_blocks::specs::ProcessAttestation::process_attestation, crate::specs::inside::Pending::with_attested, crate::specs::inside::Attested::is_attested, crate::specs::WithVotes::with_votes))]
fn take_vote(
    state: &State,
    rooted: &RootedAttestation<'_>,
    proposer: u64,
    attested: Result<bool, Stop>,
    votes: &mut PendingVotes,
) -> Result<(), Stop>
    requires times { check_times (with_votes state.now votes.old) rooted.now.content ≡ done tt }
    requires attested { Attests attested (check_committee (with_votes state.now votes.old) rooted.now.content rooted.now.aggregation_bits) (is_attested (with_votes state.now votes.old) rooted.now) }
    requires room { HasRoom state.now votes.old }
    ensures step { Moves result (with_votes state.now votes.new) (process_attestation (with_votes state.now votes.old) rooted.now proposer) }
    ensures room { OnOk result (HasRoom state.now votes.new) }
{
    let attestation = rooted.attestation();
    let has_one = attested?;
    let delay = checked_sub(state.slot(), attestation.content.slot)?;
    let pending = pending_of(attestation, delay, proposer)?;
    let root = rooted.pending_root(delay, proposer);
    vote_attested(state, pending, root, has_one, votes)
}

/// Puts the vote of a committee among those that are to come into the lists where they wait for the end of their epoch
/// (beacon-chain.md, `process_attestation`). `proposer` is the block's proposer; `previous` and `current` are how many validators
/// are active in the state's previous and current epoch. The members of a committee aren't needed, since the signature isn't
/// checked: how many there are decides. The vote comes with its roots, which the block's root took in too.
///
/// Refused, in this order: `AtTargetEpoch`, `AtSlotEpoch`, `AtEarly`, `AtLate`, `AtIndex`, `AtBits`, `AtSource`, `ListFull`,
/// `AtEmpty`, and `Overflow` where a sum on the way doesn't fit. It leaves any votes after a stop.
#[tactic(auto, unfolding(spec_blocks::specs::ProcessAttestation::process_attestation))]
pub fn process_counted_attestation(
    state: &State,
    rooted: &RootedAttestation<'_>,
    proposer: u64,
    previous: u64,
    current: u64,
    votes: &mut PendingVotes,
) -> Result<(), Stop>
    requires previous { previous ≡ length (get_active_validator_indices state.now (get_previous_epoch state.now)) }
    requires current { current ≡ length (get_active_validator_indices state.now (get_current_epoch state.now)) }
    requires room { HasRoom state.now votes.old }
    ensures step { Moves result (with_votes state.now votes.new) (process_attestation (with_votes state.now votes.old) rooted.now proposer) }
    ensures room { OnOk result (HasRoom state.now votes.new) }
{
    let attestation = rooted.attestation();
    check_times(state, &attestation.content)?;
    let attested = counted_in(state, attestation, previous, current);
    take_vote(state, rooted, proposer, attested, votes)
}

/// The state with a vote in the list of its epoch, where `previous` and `current` are how many validators are active in its
/// previous and current epoch.
fn with_vote(
    alloc: Global,
    state: &State,
    attestation: &Attestation,
    proposer: u64,
    previous: u64,
    current: u64,
) -> Result<State, Stop>
    requires previous { previous ≡ length (get_active_validator_indices state.now (get_previous_epoch state.now)) }
    requires current { current ≡ length (get_active_validator_indices state.now (get_current_epoch state.now)) }
    ensures { Gives result (process_attestation state.now attestation.now proposer) }
{
    let mut next = state.share()?;
    let mut votes = PendingVotes::none(alloc, state);
    let rooted = RootedAttestation::of(attestation);
    process_counted_attestation(state, &rooted, proposer, previous, current, &mut votes)?;
    votes.put(&mut next)?;
    Ok(next)
}

/// Puts one vote into the list of its epoch, where `previous` and `current` are the committees of the state's previous and current
/// epoch: as many validators are active as are members of committees. After a stop the state is as before.
#[tactic(auto, using(crate::proofs::AmongActive::members_are_active))]
pub fn process_attestation(
    alloc: Global,
    state: &mut State,
    attestation: &Attestation,
    proposer: u64,
    previous: &EpochCommittees,
    current: &EpochCommittees,
) -> Result<(), Stop>
    requires previous { previous.now ≡ epoch_committees state.old (get_previous_epoch state.old) }
    requires current { current.now ≡ epoch_committees state.old (get_current_epoch state.old) }
    ensures { Changes result state.old state.new (process_attestation state.old attestation.now proposer) }
{
    let _preset = state.preset();
    let (previous, current) = (previous.member_count(), current.member_count());
    *state = with_vote(alloc, state, attestation, proposer, previous, current)?;
    Ok(())
}
