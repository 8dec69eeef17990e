//! The full tree of the groups of a registry's validators.
//!
//! Validators and groups come from `registry`, which keeps the tree.

ghost use Rattle.std.specs.Prelude.{◌≡◌, ◌+◌, ◌*◌, ◌<◌, ◌≤◌, ◌^◌, length, map, IfOk};
ghost use Rattle.validator_registry.specs.inside.Groups.{joined, AreGroups, IsTreeOf};
ghost use Rattle.validator_registry.specs.inside.Places.{places};

use crate::group::Group;
use bc_words::{NoMemory, Steps};
use beacon_types::Validator;
use std::alloc::Global;
use std::sync::ledger::Ledger;
use tree_nodes::Tree;

/// The least depth of a tree with room for so many groups.
pub(crate) fn depth_over(groups: u64) -> u32
    requires { groups ≤ 2 ^ 36 }
    ensures low { result ≤ 36 }
    ensures room { groups ≤ 2 ^ result }
{
    let mut depth = 0;
    'depths: while depth < 36 {
        if groups <= 1 << depth {
            return depth;
        }
        depth += 1;
    }
    36
}

/// The groups of the validators, each with its place.
pub(crate) fn cut(validators: &[Validator], alloc: Global) -> Result<Vec<(u64, Group)>, NoMemory>
    requires { length validators.now ≤ 2 ^ 40 }
    ensures placed { IfOk result (λ groups. groups.items ≡ places 0 (map (λ group. group.1) groups.items)) }
    ensures groups { IfOk result (λ groups. AreGroups (map (λ group. group.1) groups.items)) }
    ensures joined { IfOk result (λ groups. joined (map (λ group. group.1) groups.items) ≡ validators.now) }
    ensures few { IfOk result (λ groups. length groups.items ≤ 2 ^ 36) }
{
    let len = validators.len();
    let count = len.div_ceil(16);
    let mut groups = Vec::with_capacity(alloc, count)?;
    'groups: for k in 0..count {
        let end = len.min(16 * k + 16);
        let group = Group::of(&validators[16 * k..end], alloc)?;
        groups.push((k as u64, group))?;
    }
    Ok(groups)
}

/// The groups of a tree, each with its place. All but the balances is shared.
fn shared(tree: &Tree<Group>, alloc: Global) -> Result<Vec<(u64, Group)>, NoMemory>
    ensures { IfOk result (λ groups. groups.items ≡ places 0 tree.now.1) }
{
    let mut groups = Vec::new(alloc);
    let mut walk = tree.iter();
    'groups: for k in 0..tree.len() {
        match walk.next() {
            Some(group) => groups.push((k, group.share()?))?,
            None => unreachable!(),
        }
    }
    Ok(groups)
}

/// The tree of this depth over groups, each with its place, and empty ones behind them. At most a step for each level and group,
/// and no more than the tree has nodes, and one for each level.
pub(crate) fn tree_of<L: Ledger>(
    groups: Vec<(u64, Group)>,
    depth: u32,
    alloc: Global,
    steps: &mut Steps<L>,
) -> Result<Tree<Group>, NoMemory>
    requires low { depth ≤ 36 }
    requires placed { groups.items ≡ places 0 (map (λ group. group.1) groups.items) }
    requires groups { AreGroups (map (λ group. group.1) groups.items) }
    requires room { length groups.items ≤ 2 ^ depth }
    ensures tree { IfOk result (λ tree. IsTreeOf (joined (map (λ group. group.1) groups.items)) tree depth) }
    ensures at_most { steps.new ≤ steps.old + length groups.items * depth }
{
    let none = Group::of(&[], alloc)?;
    let mut tree = Tree::repeated(none, depth, alloc)?;
    tree.put_many(groups, steps)?;
    Ok(tree)
}

/// The tree that has twice as many groups, of which those that are new are empty.
pub(crate) fn doubled<L: Ledger>(
    tree: &Tree<Group>,
    depth: u32,
    alloc: Global,
    steps: &mut Steps<L>,
) -> Result<Tree<Group>, NoMemory>
    requires low { depth < 36 }
    requires tree { IsTreeOf (joined tree.now.1) tree.now depth }
    ensures tree { IfOk result (λ more. IsTreeOf (joined tree.now.1) more (depth + 1)) }
    ensures at_most { steps.new ≤ steps.old + 2 ^ depth * (depth + 1) }
{
    let groups = shared(tree, alloc)?;
    tree_of(groups, depth + 1, alloc, steps)
}
