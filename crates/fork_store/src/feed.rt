//! The array of nodes is given the balances of another justified checkpoint.
//!
//! A handler moves the store's fields. Balances of a checkpoint's state come from what was held ready or made for it, and go to the
//! array, or are held ready. What stayed isn't given again, so that nothing is counted anew for it.

ghost use Rattle.std.specs.Prelude.{◌≡◌, ◌⊎◌, true, false, is_some, IfSome};
ghost use Rattle.block_array.specs.Calls.{with_balances};
ghost use Rattle.beacon_types.specs.Equality.{same_checkpoint};
ghost use Rattle.fork_store.specs.Arrays.{IsArrayOf};
ghost use Rattle.fork_store.specs.inside.Wholes.{IsReady};
ghost use Rattle.fork_store.specs.inside.Following.{with_told, IsFed, IsMoved, AreGiven};

use crate::follow::Told;
use crate::ready_balances::ReadyBalances;
use crate::store_fields::StoreFields;
use beacon_types::same_checkpoint;
use block_array::{BlockArray, Facts};
use hash_tree::Root;

/// Gives the array the balances that are ready.
fn give_ready(array: &mut BlockArray, ready: &mut Option<ReadyBalances>)
    requires { is_some ready.old ≡ true }
    ensures { IfSome ready.old (λ balances. array.new ≡ with_balances array.old balances.list balances.count balances.total) }
{
    match ready.take() {
        Some(balances) => balances.give(array),
        None => unreachable!(),
    }
}

/// Gives the array the balances that are ready, where the best justified checkpoint became the justified one.
#[tactic(auto, using(crate::proofs::Following::ticking))]
pub(crate) fn feed_best(
    store: &StoreFields,
    array: &mut BlockArray,
    ready: &mut Option<ReadyBalances>,
    before: &Told,
)
    requires array { IsArrayOf (with_told store.now before.now) array.old }
    requires ready { IsReady (with_told store.now before.now) ready.old }
    requires best { store.now.best_justified_checkpoint ≡ before.now.best_justified }
    requires moved { (store.now.justified_checkpoint ≡ before.now.justified) ⊎ (store.now.justified_checkpoint ≡ before.now.best_justified) }
    ensures fed { IsFed store.now before.now array.new }
    ensures ready { IsReady store.now ready.new }
    ensures balances_set_stays { store.now.justified_checkpoint ≡ before.now.justified → array.new.balances_set ≡ array.old.balances_set }
{
    if !same_checkpoint(&store.justified(), &before.justified) {
        give_ready(array, ready);
    }
}

/// The balances that a block's justified checkpoint may need: its own, and those of the best justified one of the time before, where
/// it may be left behind with none held ready.
#[derive(Drop)]
pub(crate) struct Given {
    pub(crate) justified: Option<ReadyBalances>,
    pub(crate) best_justified: Option<ReadyBalances>,
}

/// Holds ready the balances of the best justified checkpoint, where one that it wasn't became the justified one. None are needed
/// where it is the justified one now, and they are held already where it wasn't that before.
#[tactic(auto, using(crate::proofs::Following::leaving))]
fn hold_left(
    store: &StoreFields,
    ready: &mut Option<ReadyBalances>,
    given: &mut Given,
    before: &Told,
    root: Root,
    facts: Facts,
)
    requires ready { IsReady (with_told store.now before.now) ready.old }
    requires moved { IsMoved (with_told store.now before.now) store.now root facts.justified facts.finalized }
    requires given { AreGiven (with_told store.now before.now) given.old.justified given.old.best_justified facts.justified facts.finalized }
    requires other { same_checkpoint store.now.justified_checkpoint before.now.justified ≡ false }
    requires another { same_checkpoint store.now.justified_checkpoint before.now.best_justified ≡ false }
    ensures ready { IsReady store.now ready.new }
    ensures same { given.new.justified ≡ given.old.justified }
{
    if same_checkpoint(&store.best_justified(), &store.justified()) {
        *ready = None;
    } else if same_checkpoint(&before.best_justified, &before.justified) {
        *ready = given.best_justified.take();
    }
}

/// Gives the array the balances of another justified checkpoint, which is that of a block's state.
#[tactic(auto, using(crate::proofs::Following::justifying))]
fn feed_justified(
    store: &StoreFields,
    array: &mut BlockArray,
    ready: &mut Option<ReadyBalances>,
    given: &mut Given,
    before: &Told,
    root: Root,
    facts: Facts,
)
    requires array { IsArrayOf (with_told store.now before.now) array.old }
    requires ready { IsReady (with_told store.now before.now) ready.old }
    requires moved { IsMoved (with_told store.now before.now) store.now root facts.justified facts.finalized }
    requires given { AreGiven (with_told store.now before.now) given.old.justified given.old.best_justified facts.justified facts.finalized }
    requires other { same_checkpoint store.now.justified_checkpoint before.now.justified ≡ false }
    ensures fed { IsFed store.now before.now array.new }
    ensures ready { IsReady store.now ready.new }
{
    if same_checkpoint(&store.justified(), &before.best_justified) {
        give_ready(array, ready);
    } else {
        hold_left(store, ready, given, before, root, facts);
        give_ready(array, &mut given.justified);
    }
}

/// Holds ready the balances of another best justified checkpoint, which is that of a block's state.
#[tactic(auto, using(crate::proofs::Following::holding))]
fn hold_best(
    store: &StoreFields,
    ready: &mut Option<ReadyBalances>,
    given: &mut Given,
    before: &Told,
    root: Root,
    facts: Facts,
)
    requires ready { IsReady (with_told store.now before.now) ready.old }
    requires moved { IsMoved (with_told store.now before.now) store.now root facts.justified facts.finalized }
    requires given { AreGiven (with_told store.now before.now) given.old.justified given.old.best_justified facts.justified facts.finalized }
    requires same { same_checkpoint store.now.justified_checkpoint before.now.justified ≡ true }
    ensures { IsReady store.now ready.new }
{
    if !same_checkpoint(&store.best_justified(), &before.best_justified) {
        *ready = given.justified.take();
    }
}

/// Gives the array the balances of another justified checkpoint, and holds ready those of another best justified one, where a
/// block of this root, whose state has these checkpoints, moved them.
#[tactic(auto, using(crate::proofs::Following::staying, crate::proofs::Following::unset_other))]
pub(crate) fn feed(
    store: &StoreFields,
    array: &mut BlockArray,
    ready: &mut Option<ReadyBalances>,
    given: &mut Given,
    before: &Told,
    root: Root,
    facts: Facts,
)
    requires array { IsArrayOf (with_told store.now before.now) array.old }
    requires ready { IsReady (with_told store.now before.now) ready.old }
    requires moved { IsMoved (with_told store.now before.now) store.now root facts.justified facts.finalized }
    requires given { AreGiven (with_told store.now before.now) given.old.justified given.old.best_justified facts.justified facts.finalized }
    ensures fed { IsFed store.now before.now array.new }
    ensures ready { IsReady store.now ready.new }
    ensures balances_set_stays { store.now.justified_checkpoint ≡ before.now.justified → array.new.balances_set ≡ array.old.balances_set }
{
    if same_checkpoint(&store.justified(), &before.justified) {
        hold_best(store, ready, given, before, root, facts);
    } else {
        feed_justified(store, array, ready, given, before, root, facts);
    }
}
