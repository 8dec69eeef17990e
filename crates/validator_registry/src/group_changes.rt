//! Changes of many effective balances, as changes of the groups that they stand in.
//!
//! Changes come from the registry, and the tree takes those of the groups.

ghost use Rattle.std.specs.Prelude.{◌≡◌, ◌+◌, ◌/◌, ◌<◌, ◌≤◌, List, length, slice_get, slice_set, Some, IfOk, OnOk};
ghost use Rattle.beacon_types.specs.declared.validator.Validator.{Validator};
ghost use Rattle.tree_nodes.specs.Changes.{AreChanges, changed};
ghost use Rattle.validator_registry.specs.Registries.{with_balance, with_balances};
ghost use Rattle.validator_registry.specs.inside.Groups.{joined, AreGroups};

use crate::group::Group;
use bc_words::NoMemory;
use std::alloc::Global;
use tree_nodes::{Tree, next_of, reaches};

/// The group at a place, which shares all but the balances.
fn shared_group(tree: &Tree<Group>, at: u64) -> Result<Group, NoMemory>
    requires { at < length tree.now.1 }
    ensures { IfOk result (λ group. slice_get tree.now.1 at ≡ Some group) }
{
    match tree.get(at) {
        Some(group) => group.share(),
        None => unreachable!(),
    }
}

/// The group at a place behind which no group is changed yet: the changed one, which is taken off the list, or one that shares
/// all but the balances of that of the tree.
fn held_group(
    tree: &Tree<Group>,
    groups: &mut Vec<(u64, Group)>,
    at: u64,
) -> Result<Group, NoMemory>
    requires within { at < length tree.now.1 }
    requires places { AreChanges 0 (at + 1) groups.old.items }
    ensures places { AreChanges 0 at groups.new.items }
    ensures fewer { length groups.new.items ≤ length groups.old.items }
    ensures held { IfOk result (λ group. slice_get (changed tree.now.1 groups.old.items) at ≡ Some group) }
    ensures set { (group : List Validator) → slice_set (changed tree.now.1 groups.new.items) at group ≡ slice_set (changed tree.now.1 groups.old.items) at group }
{
    if reaches(groups, at) {
        return match groups.pop() {
            Some((_at, group)) => Ok(group),
            None => unreachable!(),
        };
    }
    shared_group(tree, at)
}

/// Changes an effective balance too, which is behind those that are changed.
fn add_balance(
    tree: &Tree<Group>,
    groups: &mut Vec<(u64, Group)>,
    at: u64,
    balance: u64,
) -> Result<(), NoMemory>
    requires groups { AreGroups (changed tree.now.1 groups.old.items) }
    requires within { at < length (joined (changed tree.now.1 groups.old.items)) }
    requires places { AreChanges 0 (at / 16 + 1) groups.old.items }
    ensures places { OnOk result (AreChanges 0 (at / 16 + 1) groups.new.items) }
    ensures few { OnOk result (length groups.new.items ≤ length groups.old.items + 1) }
    ensures groups { OnOk result (AreGroups (changed tree.now.1 groups.new.items)) }
    ensures joined { OnOk result (joined (changed tree.now.1 groups.new.items) ≡ with_balance (joined (changed tree.now.1 groups.old.items)) at balance) }
{
    let place = at / 16;
    let mut group = held_group(tree, groups, place)?;
    group.set_effective_balance((at % 16) as usize, balance);
    groups.push((place, group))?;
    Ok(())
}

/// The groups that have other effective balances, each with its place. All but the balances is shared.
pub(crate) fn group_changes(
    tree: &Tree<Group>,
    changes: Vec<(u64, u64)>,
    alloc: Global,
) -> Result<Vec<(u64, Group)>, NoMemory>
    requires groups { AreGroups tree.now.1 }
    requires places { AreChanges 0 (length (joined tree.now.1)) changes.items }
    ensures places { IfOk result (λ groups. AreChanges 0 (length tree.now.1) groups.items) }
    ensures few { IfOk result (λ groups. length groups.items ≤ length changes.items) }
    ensures groups { IfOk result (λ groups. AreGroups (changed tree.now.1 groups.items)) }
    ensures joined { IfOk result (λ groups. joined (changed tree.now.1 groups.items) ≡ with_balances (joined tree.now.1) changes.items) }
{
    let count = changes.len();
    let mut groups = Vec::new(alloc);
    let mut rest = changes.into_iter();
    'balances: for k in 0..count {
        let (at, balance) = next_of(&mut rest);
        add_balance(tree, &mut groups, at, balance)?;
    }
    Ok(groups)
}
