//! Shared lists against the roots of their items.

ghost use Rattle.std.specs.Prelude.{◌≡◌, ◌+◌, ◌<◌, ◌≤◌, length, IfOk, OnOk};
ghost use Rattle.tree_nodes.specs.Changes.{AreChanges};

use bc_words::{NoMemory, PushStop, Steps};
use hash_tree::{Leaf, Root, merkle_leaves, merkle_u64, mix_in_length};
use shared_tree::{PackedList, SharedList, set_after_share};
use std::alloc::Global;
use std::marker::Brand;
use std::sync::ledger::{Blank, Ledger};
use std::test::Fail;
use tree_nodes::NewLeaf;

/// The root of a list of these items, of at most sixteen.
fn root_of(items: &[u64]) -> Root
    requires { length items.now ≤ 16 }
{
    mix_in_length(&merkle_leaves(items, 4), items.len() as u64)
}

/// The root of a list after some of its items were set at once.
#[tactic(auto, using(tree_nodes::proofs::Changes::length_changed))]
fn set_some<L: Ledger>(
    alloc: Global,
    list: &mut SharedList<u64>,
    changes: &[(u64, u64)],
    steps: &mut Steps<L>,
) -> Result<Root, NoMemory>
    requires { AreChanges 0 (length list.old.items) changes.now }
    ensures { OnOk result (length list.new.items ≡ length list.old.items) }
{
    list.set_many(Vec::from_slice(alloc, changes)?, steps)?;
    Ok(list.root())
}

/// Sets an item of a list that was shared. The roots of both, and the item in the other.
fn set_shared<L: Ledger>(
    list: &mut SharedList<u64>,
    steps: &mut Steps<L>,
) -> Result<(Root, Root, Option<u64>), NoMemory>
    requires { length list.old.items ≡ 13 }
{
    let (other, root) = set_after_share(list, 1, 5, steps)?;
    Ok((list.root(), root, other.get(1).copied()))
}

/// Appends an item to a list that has room for one. Another one is too many.
fn push_last<L: Ledger>(
    list: &mut SharedList<u64>,
    steps: &mut Steps<L>,
) -> Result<bool, PushStop> {
    list.push(14, steps)?;
    Ok(matches!(list.push(15, steps), Err(PushStop::Full)))
}

/// Whether three items that are set one by one give their root.
fn few_are_set<L: Ledger>(
    alloc: Global,
    list: &mut SharedList<u64>,
    steps: &mut Steps<L>,
) -> Result<bool, NoMemory>
    requires { length list.old.items ≡ 13 }
    ensures { OnOk result (length list.new.items ≡ 13) }
{
    let few = set_some(alloc, list, &[(0, 6), (3, 7), (4, 8)], steps)?;
    Ok(few == root_of(&[6, 2, 3, 7, 8, 6, 7, 8, 9, 10, 11, 12, 13]))
}

/// Nine changes, which are made layer by layer.
const NINE: [(u64, u64); 9] = [
    (0, 20),
    (1, 21),
    (2, 22),
    (4, 23),
    (5, 24),
    (6, 25),
    (9, 26),
    (10, 27),
    (11, 28),
];

/// Whether nine items that are set at once give their root, and another one behind a share leaves the other list alone.
fn many_are_set<L: Ledger>(
    alloc: Global,
    list: &mut SharedList<u64>,
    steps: &mut Steps<L>,
) -> Result<bool, NoMemory>
    requires { length list.old.items ≡ 13 }
{
    let many = set_some(alloc, list, &NINE, steps)?;
    let shared = set_shared(list, steps)?;
    let before = root_of(&[20, 21, 22, 7, 23, 24, 25, 8, 9, 26, 27, 28, 13]);
    let set = root_of(&[20, 5, 22, 7, 23, 24, 25, 8, 9, 26, 27, 28, 13]);
    Ok(many == before && shared == (set, before, Some(21)))
}

/// Whether a list of thirteen, of at most fourteen, has the roots of its items: three items set one by one, nine set layer by
/// layer, one set behind a share, and one more.
fn items_change<L: Ledger>(
    alloc: Global,
    list: &mut SharedList<u64>,
    steps: &mut Steps<L>,
) -> Result<bool, PushStop>
    requires { length list.old.items ≡ 13 }
{
    let few = few_are_set(alloc, list, steps)?;
    let many = many_are_set(alloc, list, steps)?;
    let full = push_last(list, steps)?;
    let pushed = root_of(&[20, 5, 22, 7, 23, 24, 25, 8, 9, 26, 27, 28, 13, 14]);
    Ok(few && many && full && list.root() == pushed)
}

/// The leaf of a number.
fn new_leaf(alloc: Global, item: u64) -> Result<NewLeaf<u64>, NoMemory> {
    let root = item.root();
    NewLeaf::known(item, root, alloc)
}

/// The leaves of numbers.
fn new_leaves(alloc: Global, items: &[u64]) -> Result<Vec<NewLeaf<u64>>, NoMemory>
    ensures { IfOk result (λ leaves. length leaves.items ≡ length items.now) }
{
    let mut leaves = Vec::new(alloc);
    'items: for k in 0..items.len() {
        leaves.push(new_leaf(alloc, items[k])?)?;
    }
    Ok(leaves)
}

/// Appends items to a list at once. The root.
fn push_some<L: Ledger>(
    alloc: Global,
    list: &mut SharedList<u64>,
    items: &[u64],
    steps: &mut Steps<L>,
) -> Result<Root, NoMemory>
    requires { length list.old.items + length items.now ≤ list.old.limit }
    ensures { OnOk result ((length list.new.items ≡ length list.old.items + length items.now) × (list.new.limit ≡ list.old.limit)) }
{
    let leaves = new_leaves(alloc, items)?;
    list.push_many(leaves, steps)?;
    Ok(list.root())
}

/// Whether a list of three numbers, of at most sixteen, has the roots of its items: after two more at once, and then nine more,
/// by each of which its tree becomes deeper.
fn more_are_pushed<L: Ledger>(alloc: Global, steps: &mut Steps<L>) -> Result<bool, NoMemory> {
    let items = vec![in alloc; 1, 2, 3]?;
    let mut list = SharedList::<u64>::from_vec(items, 16)?;
    let few = push_some(alloc, &mut list, &[4, 5], steps)?;
    let many = push_some(alloc, &mut list, &[6, 7, 8, 9, 10, 11, 12, 13, 14], steps)?;
    let all = root_of(&[1, 2, 3, 4, 5, 6, 7, 8, 9, 10, 11, 12, 13, 14]);
    Ok(few == root_of(&[1, 2, 3, 4, 5]) && many == all)
}

/// Sets two of three numbers at once. The root.
#[tactic(auto, using(tree_nodes::proofs::Changes::length_changed))]
fn set_two<L: Ledger>(
    alloc: Global,
    list: &mut PackedList,
    steps: &mut Steps<L>,
) -> Result<Root, NoMemory>
    requires { length list.old.items ≡ 3 }
    ensures { OnOk result (length list.new.items ≡ 3) }
{
    let changes = vec![in alloc; (0, 6), (2, 7)]?;
    list.set_many(changes, steps)?;
    Ok(list.root())
}

/// Appends two numbers to a list of at most five. One more is too many.
fn push_two<L: Ledger>(list: &mut PackedList, steps: &mut Steps<L>) -> Result<bool, PushStop> {
    list.push(4, steps)?;
    list.push(5, steps)?;
    Ok(matches!(list.push(8, steps), Err(PushStop::Full)))
}

/// Whether two of three numbers that are set at once, and then one, give their roots.
fn numbers_are_set<L: Ledger>(
    alloc: Global,
    list: &mut PackedList,
    steps: &mut Steps<L>,
) -> Result<bool, NoMemory>
    requires { length list.old.items ≡ 3 }
{
    let many = set_two(alloc, list, steps)?;
    list.set(1, u64::MAX, steps)?;
    let both = mix_in_length(&merkle_u64(&[6, 2, 7], 1), 3);
    let one = mix_in_length(&merkle_u64(&[6, u64::MAX, 7], 1), 3);
    Ok(many == both && list.root() == one)
}

/// Whether a list of three numbers, of at most five, has the roots of its numbers: two set at once, one set, and two pushed.
fn numbers_change<L: Ledger>(
    alloc: Global,
    list: &mut PackedList,
    steps: &mut Steps<L>,
) -> Result<bool, PushStop>
    requires { length list.old.items ≡ 3 }
{
    let set = numbers_are_set(alloc, list, steps)?;
    let full = push_two(list, steps)?;
    let pushed = mix_in_length(&merkle_u64(&[6, u64::MAX, 7, 4, 5], 1), 5);
    Ok(set && full && list.root() == pushed && list.get(1) == Some(u64::MAX))
}

/// Whether a list of thirteen changes well.
fn list_changes<L: Ledger>(alloc: Global, steps: &mut Steps<L>) -> Result<bool, PushStop> {
    let items = vec![in alloc; 1, 2, 3, 4, 5, 6, 7, 8, 9, 10, 11, 12, 13]?;
    let mut list = SharedList::<u64>::from_vec(items, 14)?;
    items_change(alloc, &mut list, steps)
}

/// Whether a list of three numbers changes well.
fn packed_list_changes<L: Ledger>(alloc: Global, steps: &mut Steps<L>) -> Result<bool, PushStop> {
    let numbers = vec![in alloc; 1, 2, 3]?;
    let mut list = PackedList::from_vec(numbers, 5)?;
    numbers_change(alloc, &mut list, steps)
}

/// Whether both kinds of lists do, and one that many items are appended to at once.
fn lists_change<L: Ledger>(alloc: Global, blank: Blank) -> Result<bool, PushStop>
    requires name { blank.name ≡ L.name }
    requires parts { blank.parts ≡ L.parts }
    requires some { 0 < blank.parts }
{
    let mut steps = Steps::<L>::new(blank);
    let values = list_changes(alloc, &mut steps)?;
    let more = more_are_pushed(alloc, &mut steps)?;
    let numbers = packed_list_changes(alloc, &mut steps)?;
    Ok(values && more && numbers)
}

#[test]
fn lists_have_the_roots_of_their_items(rt: HostRuntime) -> Result<(), Fail> {
    assert!(rt; lists_change::<Brand>(rt.alloc(), Blank::new(1))?);
    Ok(())
}
