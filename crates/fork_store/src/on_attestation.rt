//! Attestations, from the wire or from a block (fork-choice.md, "on_attestation").
//!
//! They come from events. The committees are those of the target's state, and what changes is the latest votes.

ghost use Rattle.bc_words.specs.Outcome.{GivesBy};
ghost use Rattle.committees.specs.Committees.{committee_at};
ghost use Rattle.spec_state.specs.Misc.{compute_epoch_at_slot};
ghost use Rattle.std.specs.Prelude.{◌≡◌, Some, IfErr};
ghost use Rattle.fork_store.specs.inside.CheckpointStates.{IsStateOf};
ghost use Rattle.fork_store.specs.inside.Votes.{attesters_among, attesters_of, judged, event_of};
ghost use Rattle.bc_words.specs.Events.{StoreChanges, accepted, on_the_way};
ghost use Rattle.spec_fork_choice.specs.OnAttestation.{on_attestation};
ghost use Rattle.fork_store.specs.Arrays.{AreNodesOf};
ghost use Rattle.fork_store.specs.Keepers.{IsKeeperOf};
ghost use Rattle.fork_store.specs.inside.Wholes.{AreParts};

use crate::chain_stepper::ChainStepper;
use crate::checkpoint_states::CheckpointState;
use crate::ready_balances::ReadyBalances;
use crate::store::Store;
use crate::store_fields::StoreFields;
use crate::store_target_checkpoint_state::checkpoint_state_anew;
use crate::update_latest_messages::update_latest_messages;
use crate::validate_on_attestation::validate_on_attestation;
use bc_words::{Refusal, Stop, StoreStop};
use beacon_types::{AggregationBits, Attestation, AttestationData};
use block_array::BlockArray;
use block_operations::attesting_indices;
use committees::EpochCommittees;
use state_keeper::Keeper;
use std::alloc::Global;

/// The members of a committee that attest. Refused where there are fewer bits than members, and where nobody attests; bits
/// behind those of the members are ignored.
#[tactic(auto, unfolding(crate::specs::inside::Votes::attesters_among))]
fn attesters_among(
    alloc: Global,
    committee: &[u64],
    bits: &AggregationBits,
) -> Result<Vec<u64>, Stop>
    ensures { GivesBy (λ members. members.items) result (attesters_among (Some committee.now) bits.now) }
{
    if bits.len() < committee.len() as u64 {
        return Err(Stop::Refused(Refusal::FcBitsShort));
    }
    let members = attesting_indices(alloc, committee, bits.as_bits())?;
    if members.is_empty() {
        return Err(Stop::Refused(Refusal::FcEmpty));
    }
    Ok(members)
}

/// The attesters of a vote, by the committees of its epoch. Refused where there is no such committee, and as above.
#[tactic(auto, unfolding(crate::specs::inside::Votes::attesters_among))]
fn attesters_at(
    alloc: Global,
    committees: &EpochCommittees,
    content: &AttestationData,
    bits: &AggregationBits,
) -> Result<Vec<u64>, Stop>
    ensures { GivesBy (λ members. members.items) result (attesters_among (committee_at committees.now content.now.slot content.now.index) bits.now) }
{
    match committees.committee(content.slot, content.index) {
        Some(committee) => attesters_among(alloc, committee, bits),
        None => Err(Stop::Refused(Refusal::FcCommittee)),
    }
}

/// The attesters of an attestation whose target's epoch is that of its slot, by the target's state with its committees.
#[tactic(auto, using(crate::proofs::CheckpointStates::attesters_by_kept))]
pub fn attesters_by(
    alloc: Global,
    store: &StoreFields,
    target: &CheckpointState,
    attestation: &Attestation,
) -> Result<Vec<u64>, Stop>
    requires epoch { compute_epoch_at_slot store.now.config.preset attestation.now.content.slot ≡ attestation.now.content.target.epoch }
    requires own { IsStateOf store.now target.now }
    requires target { target.now.checkpoint ≡ attestation.now.content.target }
    ensures { GivesBy (λ members. members.items) result (attesters_of store.now attestation.now) }
{
    let _store = store;
    let bits = &attestation.aggregation_bits;
    attesters_at(alloc, target.committees(), &attestation.content, bits)
}

/// The attesters of such an attestation by its target's state, which was made for it and is kept. What contracts see of the store
/// stays.
pub fn attesters_by_made(
    alloc: Global,
    store: &mut StoreFields,
    made: CheckpointState,
    attestation: &Attestation,
) -> Result<Vec<u64>, Stop>
    requires epoch { compute_epoch_at_slot store.old.config.preset attestation.now.content.slot ≡ attestation.now.content.target.epoch }
    requires own { IsStateOf store.old made }
    requires target { made.checkpoint ≡ attestation.now.content.target }
    ensures exact { GivesBy (λ members. members.items) result (attesters_of store.old attestation.now) }
    ensures same { store.new ≡ store.old }
{
    let indices = attesters_by(alloc, store, &made, attestation)?;
    store.keep_checkpoint_state(made)?;
    Ok(indices)
}

/// The attesters of such an attestation, whose target's state has to be made, and is kept. What contracts see of the store and the
/// keeper stays.
#[tactic(auto, unfolding(crate::specs::inside::Votes::attesters_of), using(crate::proofs::Votes::start_is_low))]
fn attesters_anew(
    alloc: Global,
    store: &mut StoreFields,
    keeper: &mut Keeper<ChainStepper>,
    attestation: &Attestation,
) -> Result<Vec<u64>, Stop>
    requires epoch { compute_epoch_at_slot store.old.config.preset attestation.now.content.slot ≡ attestation.now.content.target.epoch }
    requires keeper { IsKeeperOf store.old keeper.old }
    ensures exact { GivesBy (λ members. members.items) result (attesters_of store.old attestation.now) }
    ensures same { store.new ≡ store.old }
    ensures keeper { keeper.new ≡ keeper.old }
{
    let _slot = attestation.content.slot;
    let made = checkpoint_state_anew(alloc, store, keeper, attestation.content.target)?;
    attesters_by_made(alloc, store, made, attestation)
}

/// The attesters of such an attestation. Its target's state is kept. What contracts see of the store and the keeper stays.
fn attesters_of(
    alloc: Global,
    store: &mut StoreFields,
    keeper: &mut Keeper<ChainStepper>,
    attestation: &Attestation,
) -> Result<Vec<u64>, Stop>
    requires epoch { compute_epoch_at_slot store.old.config.preset attestation.now.content.slot ≡ attestation.now.content.target.epoch }
    requires keeper { IsKeeperOf store.old keeper.old }
    ensures exact { GivesBy (λ members. members.items) result (attesters_of store.old attestation.now) }
    ensures same { store.new ≡ store.old }
    ensures keeper { keeper.new ≡ keeper.old }
{
    match store.checkpoint_state(attestation.content.target) {
        Some(target) => attesters_by(alloc, store, target, attestation),
        None => attesters_anew(alloc, store, keeper, attestation),
    }
}

/// The attesters of an attestation that may count now. Its target's state is kept. What contracts see of the store and the keeper
/// stays.
#[tactic(auto, unfolding(crate::specs::inside::Votes::judged))]
fn judge(
    alloc: Global,
    store: &mut StoreFields,
    keeper: &mut Keeper<ChainStepper>,
    array: &BlockArray,
    attestation: &Attestation,
    is_from_block: bool,
) -> Result<Vec<u64>, Stop>
    requires nodes { AreNodesOf store.old.blocks array.now.nodes }
    requires keeper { IsKeeperOf store.old keeper.old }
    ensures exact { GivesBy (λ members. members.items) result (judged store.old attestation.now is_from_block) }
    ensures same { store.new ≡ store.old }
    ensures keeper { keeper.new ≡ keeper.old }
{
    validate_on_attestation(store, keeper, array, attestation, is_from_block)?;
    attesters_of(alloc, store, keeper, attestation)
}

/// Takes the votes of an attestation from the wire or from a block into a store (fork-choice.md, `on_attestation`). The signature
/// isn't checked.
///
/// Refused, in this order: as `validate_on_attestation` has it; as the slots up to the target's first one are, with their
/// limit; `FcCommittee`, `FcBitsShort`, `FcEmpty`. After a stop the store, its array and its keeper are as before. It never clashes,
/// and gives the array no balances.
#[tactic(auto, using(crate::proofs::Votes::attestation_stops))]
fn on_attestation(
    alloc: Global,
    store: &mut StoreFields,
    keeper: &mut Keeper<ChainStepper>,
    array: &mut BlockArray,
    ready: &Option<ReadyBalances>,
    attestation: &Attestation,
    is_from_block: bool,
) -> Result<(), StoreStop>
    requires parts { AreParts store.old array.old keeper.old ready.now }
    ensures exact { StoreChanges result store.old store.new (event_of (on_attestation store.old attestation.now is_from_block)) }
    ensures parts { AreParts store.new array.new keeper.new ready.now }
    ensures balances_set_stays { array.new.balances_set ≡ array.old.balances_set }
    ensures same { keeper.new ≡ keeper.old }
    ensures stays { IfErr result (λ _. array.new ≡ array.old) }
{
    let indices = judge(alloc, store, keeper, array, attestation, is_from_block)?;
    update_latest_messages(store, array, ready, &indices, attestation)?;
    Ok(())
}

impl Store {
    /// Takes the votes of an attestation from the wire or from a block (fork-choice.md, `on_attestation`). The signature isn't
    /// checked.
    ///
    /// Refused, in this order: as `validate_on_attestation` has it; as the slots up to the target's first one are, with their
    /// limit; `FcCommittee`, `FcBitsShort`, `FcEmpty`. After a stop all is as before. It never clashes, and gives the array no
    /// balances.
    pub fn on_attestation(
        &mut self,
        alloc: Global,
        attestation: &Attestation,
        from_block: bool,
    ) -> Result<(), StoreStop>
        ensures exact { StoreChanges result self.old.plain self.new.plain (on_the_way (on_attestation self.old.plain attestation.now from_block) accepted) }
        ensures balances_set_stays { self.new.array.balances_set ≡ self.old.array.balances_set }
        ensures stays { IfErr result (λ _. self.new ≡ self.old) }
        ensures keeper { self.new.keeper ≡ self.old.keeper }
    {
        on_attestation(
            alloc,
            &mut self.fields,
            &mut self.keeper,
            &mut self.array,
            &self.ready,
            attestation,
            from_block,
        )
    }
}
