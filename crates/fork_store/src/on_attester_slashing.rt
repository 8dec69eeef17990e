//! Attester slashings (fork-choice.md of later releases, "on_attester_slashing").
//!
//! They come from events. The registry is that of the justified root's own state, and what changes is who is silenced in the array of
//! nodes.

ghost use Rattle.std.specs.Prelude.{◌≡◌, fold, IfErr, IfOk};
ghost use Rattle.bc_words.specs.Events.{StoreChanges, accepted, on_the_way};
ghost use Rattle.bc_words.specs.Outcome.{Becomes, Gives, GivesExactly};
ghost use Rattle.spec_blocks.specs.ProcessAttesterSlashing.{in_both};
ghost use Rattle.spec_fork_choice.specs.OnAttesterSlashing.{with_equivocating, on_attester_slashing};
ghost use Rattle.fork_store.specs.Keepers.{IsKeeperOf};
ghost use Rattle.fork_store.specs.inside.ArrayVotes.{silenced_array};
ghost use Rattle.fork_store.specs.inside.Messages.{AllBelow};
ghost use Rattle.fork_store.specs.inside.Slashings.{check_indices, check_registered, judged_slashing};
ghost use Rattle.fork_store.specs.inside.Votes.{event_of};
ghost use Rattle.fork_store.specs.inside.Wholes.{AreParts, IsWhole};

use crate::chain_stepper::ChainStepper;
use crate::kept_blocks::node_number;
use crate::kept_state::kept_state;
use crate::ready_balances::ReadyBalances;
use crate::store::Store;
use crate::store_fields::StoreFields;
use crate::update_latest_messages::places_for;
use bc_words::{NoMemory, Refusal, Stop, StoreStop};
use beacon_state::State;
use beacon_types::{AttesterSlashing, is_slashable_data};
use block_array::BlockArray;
use block_operations::is_valid_indexed_attestation::is_valid_indexed_attestation;
use block_operations::process_attester_slashing::is_among;
use state_keeper::Keeper;
use std::alloc::Global;

/// Refused where the indices of one attestation or of the other may not stand there, by the registry of a state.
#[tactic(auto, unfolding(crate::specs::inside::Slashings::check_indices))]
fn check_indices(state: &State, slashing: &AttesterSlashing) -> Result<(), Stop>
    ensures { GivesExactly result (check_indices state.now slashing.now) }
{
    is_valid_indexed_attestation(state, &slashing.attestation_1)?;
    is_valid_indexed_attestation(state, &slashing.attestation_2)
}

/// The same by the registry of the justified root's own state, which is kept. The keeper is as before.
#[tactic(auto, using(crate::proofs::Silences::unregistered))]
fn check_registered(
    store: &StoreFields,
    keeper: &mut Keeper<ChainStepper>,
    slashing: &AttesterSlashing,
) -> Result<(), Stop>
    requires { IsKeeperOf store.now keeper.old }
    ensures exact { Gives result (check_registered store.now slashing.now) }
    ensures same { keeper.new ≡ keeper.old }
{
    let justified = store.justified();
    let Some(number) = node_number(store.blocks(), justified.root) else {
        return Err(Stop::Refused(Refusal::IndexRange));
    };
    let state = kept_state(store.blocks(), keeper, number)?;
    check_indices(&state, slashing)
}

/// Refused where the votes aren't slashable together, in their order, and as above. The keeper is as before.
#[tactic(auto, unfolding(crate::specs::inside::Slashings::judged_slashing))]
fn judge(
    store: &StoreFields,
    keeper: &mut Keeper<ChainStepper>,
    slashing: &AttesterSlashing,
) -> Result<(), Stop>
    requires { IsKeeperOf store.now keeper.old }
    ensures exact { Gives result (judged_slashing store.now slashing.now) }
    ensures same { keeper.new ≡ keeper.old }
{
    let first = &slashing.attestation_1.content;
    if !is_slashable_data(first, &slashing.attestation_2.content) {
        return Err(Stop::Refused(Refusal::AsData));
    }
    check_registered(store, keeper, slashing)
}

/// The indices of the first list that are in the second one too.
#[tactic(auto, using(crate::proofs::Silences::common))]
fn common_indices(alloc: Global, first: &[u64], second: &[u64]) -> Result<Vec<u64>, NoMemory>
    ensures { IfOk result (λ common. common.items ≡ in_both first.now second.now) }
{
    let mut common = Vec::new(alloc);
    for i in 0..first.len() {
        if is_among(second, first[i]) {
            common.push(first[i])?;
        }
    }
    Ok(common)
}

/// Silences these validators. There is room for all.
#[tactic(auto, using(crate::proofs::Silences::each_silences))]
pub fn silence_all(array: &mut BlockArray, indices: &[u64])
    requires { AllBelow array.old.spare_validators indices.now }
    ensures { array.new ≡ silenced_array array.old indices.now }
{
    for i in 0..indices.len() {
        let _room = array.silence(indices[i]);
    }
}

/// These validators are equivocating from then on. Where memory is refused, the store and its array are as before: all room is made
/// first.
fn add_equivocating(
    store: &mut StoreFields,
    array: &mut BlockArray,
    ready: &Option<ReadyBalances>,
    indices: &[u64],
) -> Result<(), NoMemory>
    requires { IsWhole store.old array.old ready.now }
    ensures exact { Becomes result store.old store.new (fold with_equivocating store.old indices.now) }
    ensures whole { IsWhole store.new array.new ready.now }
    ensures balances_set_stays { array.new.balances_set ≡ array.old.balances_set }
    ensures config { store.new.config ≡ store.old.config }
    ensures blocks { store.new.blocks ≡ store.old.blocks }
    ensures stays { IfErr result (λ _. array.new ≡ array.old) }
{
    let places = places_for(indices)?;
    array.reserve(places as u64)?;
    silence_all(array, indices);
    store.take_votes(array);
    Ok(())
}

/// Takes an attester slashing into a store (fork-choice.md, `on_attester_slashing`). The signatures aren't checked.
///
/// Refused, in this order: `AsData`; `AsIndices` and `IndexRange` of the first attestation and then of the second. After a stop the
/// store, its array and its keeper are as before. It meets no limit, never clashes, and gives the array no balances.
#[tactic(auto, using(crate::proofs::Silences::slashing))]
fn on_attester_slashing(
    alloc: Global,
    store: &mut StoreFields,
    keeper: &mut Keeper<ChainStepper>,
    array: &mut BlockArray,
    ready: &Option<ReadyBalances>,
    slashing: &AttesterSlashing,
) -> Result<(), StoreStop>
    requires parts { AreParts store.old array.old keeper.old ready.now }
    ensures exact { StoreChanges result store.old store.new (event_of (on_attester_slashing store.old slashing.now)) }
    ensures parts { AreParts store.new array.new keeper.new ready.now }
    ensures balances_set_stays { array.new.balances_set ≡ array.old.balances_set }
    ensures same { keeper.new ≡ keeper.old }
    ensures stays { IfErr result (λ _. array.new ≡ array.old) }
{
    judge(store, keeper, slashing)?;
    let first = slashing.attestation_1.attesting_indices.as_slice();
    let second = slashing.attestation_2.attesting_indices.as_slice();
    let common = common_indices(alloc, first, second)?;
    add_equivocating(store, array, ready, &common)?;
    Ok(())
}

impl Store {
    /// Takes an attester slashing (fork-choice.md of later releases, `on_attester_slashing`): the validators that cast both votes
    /// weigh nothing from then on, and none of their votes is taken. Where nobody cast both, nothing changes. The signatures aren't
    /// checked.
    ///
    /// Refused, in this order: `AsData`; `AsIndices` and `IndexRange` of the first attestation and then of the second, by the registry
    /// of the justified root's own state. After a stop all is as before. It meets no limit, never clashes, and gives the array no
    /// balances.
    pub fn on_attester_slashing(
        &mut self,
        alloc: Global,
        slashing: &AttesterSlashing,
    ) -> Result<(), StoreStop>
        ensures exact { StoreChanges result self.old.plain self.new.plain (on_the_way (on_attester_slashing self.old.plain slashing.now) accepted) }
        ensures balances_set_stays { self.new.array.balances_set ≡ self.old.array.balances_set }
        ensures stays { IfErr result (λ _. self.new ≡ self.old) }
        ensures keeper { self.new.keeper ≡ self.old.keeper }
    {
        on_attester_slashing(
            alloc,
            &mut self.fields,
            &mut self.keeper,
            &mut self.array,
            &self.ready,
            slashing,
        )
    }
}
