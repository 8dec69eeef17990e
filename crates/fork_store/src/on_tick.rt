//! Ticks (fork-choice.md, "on_tick").
//!
//! A time comes from an event; the checkpoints and the boost of the store follow it, and the array follows these.

ghost use Rattle.std.specs.Prelude.{◌≡◌, ◌⊎◌, IfErr};
ghost use Rattle.bc_words.specs.Outcome.{ChangesOrRefuses};
ghost use Rattle.spec_fork_choice.specs.OnTick.{is_better_justified, in_new_epoch, in_new_slot, on_tick};
ghost use Rattle.fork_store.specs.Arrays.{AreNodesOf, IsArrayOf};
ghost use Rattle.fork_store.specs.inside.Wholes.{IsReady, IsWhole};
ghost use Rattle.fork_store.specs.inside.Following.{with_told, AreKept};

use crate::feed::feed_best;
use crate::follow::{Told, follow, told_of};
use crate::get_ancestor::is_behind;
use crate::ready_balances::ReadyBalances;
use crate::slots::{current_slot, slots_since_epoch_start};
use crate::store::Store;
use crate::store_fields::StoreFields;
use bc_words::Refusal;
use block_array::BlockArray;

/// Whether the best justified checkpoint is better than the justified one, and behind the finalized one.
#[tactic(auto, unfolding(spec_fork_choice::specs::OnTick::is_better_justified))]
fn is_better_justified(store: &StoreFields, array: &BlockArray) -> bool
    requires { AreNodesOf store.now.blocks array.now.nodes }
    ensures { result ≡ is_better_justified store.now }
{
    let best = store.best_justified();
    store.justified().epoch < best.epoch && is_behind(store, array, best.root, store.finalized())
}

/// In an epoch's first slot the best justified checkpoint becomes the justified one, where it is better.
#[tactic(auto, unfolding(spec_fork_choice::specs::OnTick::in_new_epoch))]
fn in_new_epoch(store: &mut StoreFields, array: &BlockArray)
    requires { AreNodesOf store.old.blocks array.now.nodes }
    ensures exact { store.new ≡ in_new_epoch store.old }
    ensures config { store.new.config ≡ store.old.config }
    ensures blocks { store.new.blocks ≡ store.old.blocks }
{
    if is_better_justified(store, array) {
        let best = store.best_justified();
        store.set_justified(best);
    }
}

/// A new slot has no boost.
#[tactic(auto, unfolding(spec_fork_choice::specs::OnTick::in_new_slot))]
fn in_new_slot(store: &mut StoreFields, array: &BlockArray)
    requires { AreNodesOf store.old.blocks array.now.nodes }
    ensures exact { store.new ≡ in_new_slot store.old }
    ensures config { store.new.config ≡ store.old.config }
    ensures blocks { store.new.blocks ≡ store.old.blocks }
{
    let behind = slots_since_epoch_start(store.config().preset(), current_slot(store));
    store.set_boost_root([0; 32]);
    if behind == 0 {
        in_new_epoch(store, array);
    }
}

/// The time, in seconds, is this one now.
#[tactic(auto, unfolding(spec_fork_choice::specs::OnTick::on_tick))]
fn tick(store: &mut StoreFields, array: &BlockArray, time: u64) -> Result<(), Refusal>
    requires { AreNodesOf store.old.blocks array.now.nodes }
    ensures exact { ChangesOrRefuses result store.old store.new (on_tick store.old time) }
    ensures config { store.new.config ≡ store.old.config }
    ensures blocks { store.new.blocks ≡ store.old.blocks }
{
    if time < store.time() {
        return Err(Refusal::TickBack);
    }
    let before = current_slot(store);
    store.set_time(time);
    if before < current_slot(store) {
        in_new_slot(store, array);
    }
    Ok(())
}

/// The array follows a tick.
fn follow_tick(
    store: &StoreFields,
    array: &mut BlockArray,
    ready: &mut Option<ReadyBalances>,
    before: &Told,
)
    requires array { IsArrayOf (with_told store.now before.now) array.old }
    requires ready { IsReady (with_told store.now before.now) ready.old }
    requires best { store.now.best_justified_checkpoint ≡ before.now.best_justified }
    requires moved { (store.now.justified_checkpoint ≡ before.now.justified) ⊎ (store.now.justified_checkpoint ≡ before.now.best_justified) }
    requires kept { AreKept store.now }
    ensures array { IsArrayOf store.now array.new }
    ensures ready { IsReady store.now ready.new }
    ensures balances_set_stays { store.now.justified_checkpoint ≡ before.now.justified → array.new.balances_set ≡ array.old.balances_set }
{
    feed_best(store, array, ready, before);
    follow(store, array, before);
}

/// The time of a store, in seconds, is this one now, and the array follows (fork-choice.md, `on_tick`). It takes no memory: the
/// balances that the array may need are held ready.
///
/// Refused as `TickBack` where it is before the store's; then all is as it was. Where the justified checkpoint stays, the array is
/// given no balances.
fn on_tick(
    store: &mut StoreFields,
    array: &mut BlockArray,
    ready: &mut Option<ReadyBalances>,
    time: u64,
) -> Result<(), Refusal>
    requires { IsWhole store.old array.old ready.old }
    ensures exact { ChangesOrRefuses result store.old store.new (on_tick store.old time) }
    ensures whole { IsWhole store.new array.new ready.new }
    ensures config { store.new.config ≡ store.old.config }
    ensures blocks { store.new.blocks ≡ store.old.blocks }
    ensures balances_set_stays { store.new.justified_checkpoint ≡ store.old.justified_checkpoint → array.new.balances_set ≡ array.old.balances_set }
    ensures stays { IfErr result (λ _. array.new ≡ array.old) }
{
    let before = told_of(store);
    tick(store, array, time)?;
    follow_tick(store, array, ready, &before);
    Ok(())
}

impl Store {
    /// The time, in seconds, is this one now (fork-choice.md, `on_tick`). It takes no memory.
    ///
    /// Refused as `TickBack` where it is before the store's; then all is as it was. Where the justified checkpoint stays, the
    /// array is given no balances.
    pub fn on_tick(&mut self, time: u64) -> Result<(), Refusal>
        ensures exact { ChangesOrRefuses result self.old.plain self.new.plain (on_tick self.old.plain time) }
        ensures balances_set_stays { self.new.plain.justified_checkpoint ≡ self.old.plain.justified_checkpoint → self.new.array.balances_set ≡ self.old.array.balances_set }
        ensures stays { IfErr result (λ _. self.new ≡ self.old) }
    {
        on_tick(&mut self.fields, &mut self.array, &mut self.ready, time)
    }
}
