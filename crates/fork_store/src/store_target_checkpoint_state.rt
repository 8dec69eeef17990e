//! The state of a checkpoint (fork-choice.md, "store_target_checkpoint_state"), computed where it isn't kept yet.

ghost use Rattle.std.specs.Prelude.{◌≡◌, ◌<◌, ◌≤◌, ◌^◌, IfOk};
ghost use Rattle.bc_words.specs.Outcome.{Gives, GivesBy};
ghost use Rattle.spec_state.specs.Soundness.{IsSound};
ghost use Rattle.spec_state.specs.inside.EpochCommittees.{epoch_committees};
ghost use Rattle.spec_fork_choice.specs.Slots.{start_slot_of};
ghost use Rattle.spec_fork_choice.specs.StoreTargetCheckpointState.{store_target_checkpoint_state};
ghost use Rattle.fork_store.specs.inside.CheckpointStates.{IsStateOf};
ghost use Rattle.fork_store.specs.Keepers.{IsKeeperOf};

use crate::chain_stepper::ChainStepper;
use crate::checkpoint_states::CheckpointState;
use crate::kept_blocks::node_number;
use crate::kept_state::kept_state;
use crate::slots::start_slot;
use crate::state_at::state_at;
use crate::store_fields::StoreFields;
use balance_totals::{kept_committees, note_total};
use bc_words::{NoMemory, Refusal, Stop};
use beacon_state::State;
use beacon_types::Checkpoint;
use committees::EpochCommittees;
use state_keeper::Keeper;
use std::alloc::Global;
use std::rc::Rc;

/// The state of a checkpoint whose epoch begins at a slot of 64 bits, made anew: that of its root, taken on to the first slot of
/// its epoch. The keeper is as before.
///
/// Refused as `FcTargetUnknown` where the root isn't kept, and refused and limited as the slots are.
#[tactic(auto, using(crate::proofs::Keepers::targeting))]
fn state_anew(
    alloc: Global,
    store: &StoreFields,
    keeper: &mut Keeper<ChainStepper>,
    target: Checkpoint,
) -> Result<State, Stop>
    requires low { start_slot_of store.now target < 2 ^ 64 }
    requires keeper { IsKeeperOf store.now keeper.old }
    ensures exact { Gives result (store_target_checkpoint_state store.now target) }
    ensures sound { IfOk result (λ state. IsSound state) }
    ensures preset { IfOk result (λ state. state.preset ≡ store.now.config.preset) }
    ensures same { keeper.new ≡ keeper.old }
{
    store.is_sound();
    let Some(number) = node_number(store.blocks(), target.root) else {
        return Err(Stop::Refused(Refusal::FcTargetUnknown));
    };
    let state = kept_state(store.blocks(), keeper, number)?;
    let slot = start_slot(store, target) as u64;
    state_at(alloc, store, &state, slot)
}

/// The state of a checkpoint whose epoch begins at a slot of 64 bits (fork-choice.md, `store_target_checkpoint_state`): the
/// one that is kept of it, or else one made anew, with the refusals and limits of that. The keeper is as before.
pub(crate) fn store_target_checkpoint_state(
    alloc: Global,
    store: &StoreFields,
    keeper: &mut Keeper<ChainStepper>,
    target: Checkpoint,
) -> Result<State, Stop>
    requires low { start_slot_of store.now target < 2 ^ 64 }
    requires keeper { IsKeeperOf store.now keeper.old }
    ensures state { Gives result (store_target_checkpoint_state store.now target) }
    ensures same { keeper.new ≡ keeper.old }
{
    match store.checkpoint_state(target) {
        Some(kept) => Ok(kept.state().share()?),
        None => state_anew(alloc, store, keeper, target),
    }
}

/// The committees of an epoch, which is at most 2^61. The state keeps them, and the balance of those who are active at it.
fn lent_committees(
    alloc: Global,
    state: &mut State,
    epoch: u64,
) -> Result<Rc<EpochCommittees>, NoMemory>
    requires { epoch ≤ 2 ^ 61 }
    ensures same { state.new ≡ state.old }
    ensures committees { IfOk result (λ committees. committees.value ≡ epoch_committees state.old epoch) }
{
    let committees = kept_committees(alloc, state, epoch)?;
    note_total(state, epoch);
    Ok(committees)
}

/// The state of such a checkpoint, made anew, with the committees of its epoch. The keeper is as before.
#[tactic(auto, using(crate::proofs::CheckpointStates::epoch_is_low))]
pub(crate) fn checkpoint_state_anew(
    alloc: Global,
    store: &StoreFields,
    keeper: &mut Keeper<ChainStepper>,
    target: Checkpoint,
) -> Result<CheckpointState, Stop>
    requires low { start_slot_of store.now target < 2 ^ 64 }
    requires keeper { IsKeeperOf store.now keeper.old }
    ensures exact { GivesBy (λ made. made.state) result (store_target_checkpoint_state store.now target) }
    ensures own { IfOk result (λ made. IsStateOf store.now made) }
    ensures checkpoint { IfOk result (λ made. made.checkpoint ≡ target) }
    ensures same { keeper.new ≡ keeper.old }
{
    store.config().preset().bounds();
    let mut state = state_anew(alloc, store, keeper, target)?;
    let committees = lent_committees(alloc, &mut state, target.epoch)?;
    Ok(CheckpointState::new(target, state, committees))
}

/// Keeps the state of such a checkpoint, unless it is kept already, or refused or limited. What contracts see of the store and the
/// keeper stays.
pub(crate) fn keep_checkpoint_state(
    alloc: Global,
    store: &mut StoreFields,
    keeper: &mut Keeper<ChainStepper>,
    checkpoint: Checkpoint,
) -> Result<(), NoMemory>
    requires low { start_slot_of store.old checkpoint < 2 ^ 64 }
    requires keeper { IsKeeperOf store.old keeper.old }
    ensures same { store.new ≡ store.old }
    ensures keeper { keeper.new ≡ keeper.old }
{
    if store.checkpoint_state(checkpoint).is_some() {
        return Ok(());
    }
    match checkpoint_state_anew(alloc, store, keeper, checkpoint) {
        Ok(made) => store.keep_checkpoint_state(made),
        Err(Stop::NoMemory) => Err(NoMemory),
        Err(_) => Ok(()),
    }
}
