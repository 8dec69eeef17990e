//! How a valid block's slot and root and its state's checkpoints move a store's boost and checkpoints (fork-choice.md, "on_block").

ghost use Rattle.spec_fork_choice.specs.OnBlock.{is_before_attesting_interval, with_best_justified, with_better_justified};
ghost use Rattle.spec_fork_choice.specs.Slots.{start_slot_of};
ghost use Rattle.std.specs.Prelude.{◌≡◌, ◌<◌, ◌^◌};
ghost use Rattle.fork_store.specs.inside.Accepted.{boosted, justified_by};
ghost use Rattle.fork_store.specs.Arrays.{AreNodesOf};
ghost use Rattle.fork_store.specs.Stores.{IsLate};
ghost use Rattle.fork_store.specs.inside.Following.{may_move, may_be_left};

use crate::should_update_justified_checkpoint::should_update_justified_checkpoint;
use crate::slots::current_slot;
use crate::store_fields::StoreFields;
use beacon_state::State;
use beacon_types::{Checkpoint, same_checkpoint};
use block_array::{BlockArray, Facts};
use hash_tree::Root;

/// The checkpoints of a state.
pub fn facts_of(state: &State) -> Facts
    ensures { result ≡ record { justified = state.now.current_justified_checkpoint; finalized = state.now.finalized_checkpoint } }
{
    Facts {
        justified: state.current_justified_checkpoint(),
        finalized: state.finalized_checkpoint(),
    }
}

/// Whether a state's checkpoints may move the store's.
#[tactic(auto, unfolding(crate::specs::inside::Following::may_move))]
pub fn may_move(store: &StoreFields, facts: Facts) -> bool
    ensures { result ≡ may_move store.now facts.justified facts.finalized }
{
    store.justified().epoch < facts.justified.epoch
        || store.finalized().epoch < facts.finalized.epoch
}

/// Whether the best justified checkpoint may be left behind by this one with no balances held ready.
#[tactic(auto, unfolding(crate::specs::inside::Following::may_be_left))]
pub fn may_be_left(store: &StoreFields, justified: Checkpoint) -> bool
    ensures { result ≡ may_be_left store.now justified }
{
    same_checkpoint(&store.best_justified(), &store.justified())
        && justified.epoch <= store.justified().epoch
}

/// In how many intervals a slot is cut (fork-choice.md, "Constants").
const INTERVALS_PER_SLOT: u64 = 3;

/// Whether blocks are timely now: the slot's first interval isn't over.
#[tactic(auto, unfolding(spec_fork_choice::specs::OnBlock::is_before_attesting_interval))]
fn is_before_attesting_interval(store: &StoreFields) -> bool
    ensures { result ≡ is_before_attesting_interval store.now }
{
    let seconds_per_slot = store.config().seconds_per_slot();
    (store.time() - store.genesis_time()) % seconds_per_slot < seconds_per_slot / INTERVALS_PER_SLOT
}

/// A timely block of the current slot has the boost.
#[tactic(auto, unfolding(crate::specs::inside::Accepted::boosted))]
pub fn boost(store: &mut StoreFields, slot: u64, root: Root)
    ensures exact { store.new ≡ boosted store.old slot root }
    ensures config { store.new.config ≡ store.old.config }
    ensures blocks { store.new.blocks ≡ store.old.blocks }
{
    if current_slot(store) == slot && is_before_attesting_interval(store) {
        store.set_boost_root(root);
    }
}

/// The best justified checkpoint is the one of the greatest epoch.
#[tactic(auto, unfolding(spec_fork_choice::specs::OnBlock::with_best_justified))]
fn take_best(store: &mut StoreFields, checkpoint: Checkpoint)
    requires low { start_slot_of store.old checkpoint < 2 ^ 64 }
    requires late { IsLate store.old checkpoint }
    ensures exact { store.new ≡ with_best_justified store.old checkpoint }
    ensures config { store.new.config ≡ store.old.config }
    ensures blocks { store.new.blocks ≡ store.old.blocks }
{
    if store.best_justified().epoch < checkpoint.epoch {
        store.set_best_justified(checkpoint);
    }
}

/// A better checkpoint is justified at once where it may be.
#[tactic(auto, unfolding(spec_fork_choice::specs::OnBlock::with_better_justified))]
fn take_better(store: &mut StoreFields, array: &BlockArray, checkpoint: Checkpoint)
    requires nodes { AreNodesOf store.old.blocks array.now.nodes }
    requires low { start_slot_of store.old checkpoint < 2 ^ 64 }
    requires late { IsLate store.old checkpoint }
    ensures exact { store.new ≡ with_better_justified store.old checkpoint }
    ensures config { store.new.config ≡ store.old.config }
    ensures blocks { store.new.blocks ≡ store.old.blocks }
{
    take_best(store, checkpoint);
    if should_update_justified_checkpoint(store, array, checkpoint) {
        store.set_justified(checkpoint);
    }
}

/// The state's justified checkpoint is taken where it is of a greater epoch.
#[tactic(auto, unfolding(crate::specs::inside::Accepted::justified_by))]
pub fn justify(store: &mut StoreFields, array: &BlockArray, checkpoint: Checkpoint)
    requires nodes { AreNodesOf store.old.blocks array.now.nodes }
    requires low { start_slot_of store.old checkpoint < 2 ^ 64 }
    ensures exact { store.new ≡ justified_by store.old checkpoint }
    ensures config { store.new.config ≡ store.old.config }
    ensures blocks { store.new.blocks ≡ store.old.blocks }
{
    if store.justified().epoch < checkpoint.epoch {
        take_better(store, array, checkpoint);
    }
}
