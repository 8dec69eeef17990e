//! The array follows the store's fields.
//!
//! A handler moves the fields; then the array is told what moved: the checkpoints and the boosted node. What stayed isn't told again,
//! so that nothing is counted anew for it.

ghost use Rattle.std.specs.Prelude.{◌≡◌, ◌&&◌};
ghost use Rattle.beacon_types.specs.Equality.{same_checkpoint};
ghost use Rattle.fork_store.specs.Arrays.{IsArrayOf};
ghost use Rattle.fork_store.specs.inside.Following.{told_of, IsFed, AreKept};

use crate::kept_blocks::{boosted_node, node_number};
use crate::store_fields::StoreFields;
use beacon_types::{Checkpoint, same_checkpoint};
use block_array::BlockArray;
use hash_tree::Root;

/// What an array was told of a store: its checkpoints, and the boosted block's root.
#[derive(Drop)]
pub struct Told {
    /// The justified checkpoint.
    pub justified: Checkpoint,
    /// The best justified checkpoint.
    pub best_justified: Checkpoint,
    /// The finalized checkpoint.
    pub finalized: Checkpoint,
    /// The boosted block's root, and zero where none is boosted.
    pub boost_root: Root,
}

/// What there is to tell of a store.
pub fn told_of(store: &StoreFields) -> Told
    ensures { result ≡ told_of store.now }
{
    Told {
        justified: store.justified(),
        best_justified: store.best_justified(),
        finalized: store.finalized(),
        boost_root: store.boost_root(),
    }
}

/// Whether the store's checkpoints are those that the array was told.
fn same_told(store: &StoreFields, before: &Told) -> bool
    ensures { result ≡ (same_checkpoint before.now.justified store.now.justified_checkpoint && same_checkpoint before.now.finalized store.now.finalized_checkpoint) }
{
    same_checkpoint(&before.justified, &store.justified())
        && same_checkpoint(&before.finalized, &store.finalized())
}

/// Tells the array the checkpoints.
#[tactic(auto, using(crate::proofs::Following::feeding))]
fn tell_checkpoints(store: &StoreFields, array: &mut BlockArray, before: &Told)
    requires fed { IsFed store.now before.now array.old }
    requires kept { AreKept store.now }
    ensures fed { IsFed store.now (record before.now { justified = store.now.justified_checkpoint; finalized = store.now.finalized_checkpoint }) array.new }
    ensures balances_set_stays { array.new.balances_set ≡ array.old.balances_set }
{
    let justified = store.justified();
    match node_number(store.blocks(), justified.root) {
        Some(node) => array.set_checkpoints(node, justified, store.finalized()),
        None => unreachable!(),
    }
}

/// Tells the array the checkpoints, where they aren't those that it was told.
#[tactic(auto, using(crate::proofs::Following::feeding))]
fn follow_checkpoints(store: &StoreFields, array: &mut BlockArray, before: &Told)
    requires fed { IsFed store.now before.now array.old }
    requires kept { AreKept store.now }
    ensures fed { IsFed store.now (record before.now { justified = store.now.justified_checkpoint; finalized = store.now.finalized_checkpoint }) array.new }
    ensures balances_set_stays { array.new.balances_set ≡ array.old.balances_set }
{
    if !same_told(store, before) {
        tell_checkpoints(store, array, before);
    }
}

/// Tells the array the boosted node, where it isn't the one that it was told. It was told the checkpoints already.
#[tactic(auto, using(crate::proofs::Following::boosting))]
fn follow_boost(store: &StoreFields, array: &mut BlockArray, told: &Told)
    requires fed { IsFed store.now told.now array.old }
    requires justified { told.now.justified ≡ store.now.justified_checkpoint }
    requires finalized { told.now.finalized ≡ store.now.finalized_checkpoint }
    requires kept { AreKept store.now }
    ensures array { IsArrayOf store.now array.new }
    ensures balances_set_stays { array.new.balances_set ≡ array.old.balances_set }
{
    let root = store.boost_root();
    if told.boost_root == root {
        return;
    }
    array.boost(boosted_node(store.blocks(), root));
}

/// Tells the array the checkpoints and the boost. It has the balances of the justified checkpoint already.
pub fn follow(store: &StoreFields, array: &mut BlockArray, before: &Told)
    requires fed { IsFed store.now before.now array.old }
    requires kept { AreKept store.now }
    ensures array { IsArrayOf store.now array.new }
    ensures balances_set_stays { array.new.balances_set ≡ array.old.balances_set }
{
    follow_checkpoints(store, array, before);
    let told = Told {
        justified: store.justified(),
        best_justified: before.best_justified,
        finalized: store.finalized(),
        boost_root: before.boost_root,
    };
    follow_boost(store, array, &told);
}
