//! Changes of the registry beside which the lists of active validators are kept: what isn't true of the new registry is given up.

ghost use Rattle.std.specs.Prelude.{◌≡◌, ◌<◌, ◌≤◌, ◌^◌, length, slice_set};
ghost use Rattle.bc_words.specs.Outcome.{Pushes, Becomes, checked_push};
ghost use Rattle.tree_nodes.specs.Changes.{AreChanges};
ghost use Rattle.validator_registry.specs.Registries.{with_balances};
ghost use Rattle.active_sets.specs.inside.Kept.{AreActiveIn};

use active_sets::ActiveLists;
use bc_words::{NoMemory, PushStop};
use beacon_types::Validator;
use state_parts::Validators;

/// Writes another validator at a place. Where memory is refused, the registry is as before.
#[tactic(auto, using(crate::proofs::Followed::active_become))]
pub(crate) fn set(
    validators: &mut Validators,
    lists: &mut ActiveLists,
    i: u64,
    validator: &Validator,
) -> Result<(), NoMemory>
    requires place { i < length validators.old }
    requires active { AreActiveIn validators.old lists.old }
    ensures set { Becomes result validators.old validators.new (slice_set validators.old i validator.now) }
    ensures active { AreActiveIn validators.new lists.new }
{
    lists.follow_set(validators.registry(), i, validator);
    validators.set(i, validator)
}

/// Writes other effective balances at many places, in Gwei. Where memory is refused, the registry is as before.
#[tactic(auto, using(crate::proofs::Followed::active_become))]
pub(crate) fn set_effective_balances(
    validators: &mut Validators,
    lists: &mut ActiveLists,
    changes: Vec<(u64, u64)>,
) -> Result<(), NoMemory>
    requires places { AreChanges 0 (length validators.old) changes.items }
    requires active { AreActiveIn validators.old lists.old }
    ensures set { Becomes result validators.old validators.new (with_balances validators.old changes.items) }
    ensures active { AreActiveIn validators.new lists.new }
{
    lists.follow_balances(validators.registry(), &changes);
    validators.set_effective_balances(changes)
}

/// Appends one more validator, where there are fewer than the limit, which is that of each preset. On an error the registry is as
/// before.
#[tactic(auto, using(crate::proofs::Followed::active_pushed))]
pub(crate) fn push(
    validators: &mut Validators,
    lists: &mut ActiveLists,
    validator: &Validator,
    limit: u64,
) -> Result<(), PushStop>
    requires limit { limit ≡ 2 ^ 40 }
    requires active { AreActiveIn validators.old lists.old }
    ensures pushes { Pushes result validators.old validators.new (checked_push limit validators.old validator.now) }
    ensures fits { length validators.new ≤ limit }
    ensures active { AreActiveIn validators.new lists.new }
{
    lists.follow_push(validators.registry(), validator);
    validators.push(validator)
}
