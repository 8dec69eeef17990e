//! What differs between a list of the state and new values for it, so that only the paths to changed places are made anew.
//!
//! New values come from who writes a whole list, and the changes go to the list's tree.

ghost use Rattle.std.specs.Prelude.{◌≡◌, length, IfOk, IfSome, OnOk};
ghost use Rattle.tree_nodes.specs.Changes.{AreChanges, changed};
ghost use Rattle.state_parts.specs.inside.Differences.{IsCompared};

use crate::in_range::InRange;
use bc_words::NoMemory;
use shared_tree::{PackedList, SharedList};
use std::alloc::Global;

/// Of so many numbers one may differ, and else they are no longer few: the tree of most of them is sooner built anew than changed.
const FEW: usize = 8;

/// Puts a value among the changes, where another one is kept at its place.
fn compare<T: InRange>(
    kept: &T,
    value: &T,
    i: u64,
    changes: &mut Vec<(u64, T)>,
) -> Result<(), NoMemory>
    ensures { OnOk result (IsCompared kept.now value.now i changes.old.items changes.new.items) }
{
    if kept.same(value) {
        return Ok(());
    }
    let copy = value.copied()?;
    changes.push((i, copy))?;
    Ok(())
}

/// The places at which the list has another value than these, of which there are as many, and that value. The list is walked.
#[tactic(auto, using(crate::proofs::LeftOf::first_left))]
pub(crate) fn differences<T: InRange>(
    alloc: Global,
    list: &SharedList<T>,
    values: &[T],
) -> Result<Vec<(u64, T)>, NoMemory>
    requires { length values.now ≡ length list.now.items }
    ensures places { IfOk result (λ changes. AreChanges 0 (length list.now.items) changes.items) }
    ensures made { IfOk result (λ changes. changed list.now.items changes.items ≡ values.now) }
{
    let mut changes = Vec::new(alloc);
    let kept_values = list.iter();
    for (i, kept) in kept_values.enumerate() {
        compare(kept, &values[i], i as u64, &mut changes)?;
    }
    Ok(changes)
}

/// Puts a number among the changes, where another one is kept at its place.
fn compare_number(
    kept: u64,
    number: u64,
    i: u64,
    changes: &mut Vec<(u64, u64)>,
) -> Result<(), NoMemory>
    ensures { OnOk result (IsCompared kept number i changes.old.items changes.new.items) }
{
    if kept == number {
        return Ok(());
    }
    changes.push((i, number))?;
    Ok(())
}

/// The places at which the list has another number than these, of which there are as many, and that number; or None, where they are
/// not few. The list is walked up to there.
#[tactic(auto, using(crate::proofs::LeftOf::first_left))]
pub(crate) fn few_differences(
    alloc: Global,
    list: &PackedList,
    numbers: &[u64],
) -> Result<Option<Vec<(u64, u64)>>, NoMemory>
    requires { length numbers.now ≡ length list.now.items }
    ensures places { IfOk result (λ few. IfSome few (λ changes. AreChanges 0 (length list.now.items) changes.items)) }
    ensures made { IfOk result (λ few. IfSome few (λ changes. changed list.now.items changes.items ≡ numbers.now)) }
{
    let most = numbers.len() / FEW;
    let mut changes = Vec::new(alloc);
    let kept_numbers = list.iter();
    for (i, kept) in kept_numbers.enumerate() {
        compare_number(kept, numbers[i], i as u64, &mut changes)?;
        if changes.len() > most {
            return Ok(None);
        }
    }
    Ok(Some(changes))
}
