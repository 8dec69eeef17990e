//! What sharing means: a change of one list is none of the other.

ghost use Rattle.std.specs.Prelude.{◌≡◌, ◌+◌, ◌<◌, length, map, slice_set, IfOk, OnOk};
ghost use Rattle.hash_tree.specs.Merkle.{merkleize, mix_in_length as mixed_in, depth_of as depth_for};

use crate::shared_list::SharedList;
use bc_words::{NoMemory, Steps};
use hash_tree::{Leaf, Root};
use std::sync::ledger::Ledger;

/// Shares a list, and then sets one of its items. The other list and its root are as the list was before, and the list's
/// change costs the steps of one path.
pub fn set_after_share<T: Leaf + Drop, L: Ledger>(
    list: &mut SharedList<T>,
    i: u64,
    value: T,
    steps: &mut Steps<L>,
) -> Result<(SharedList<T>, Root), NoMemory>
    requires { i < length list.old.items }
    ensures other { IfOk result (λ other. other.0 ≡ list.old) }
    ensures root { IfOk result (λ other. other.1 ≡ mixed_in (merkleize (map T.root_of list.old.items) list.old.limit) (length list.old.items)) }
    ensures set { OnOk result (list.new ≡ record list.old { items = slice_set list.old.items i value }) }
    ensures path { OnOk result (steps.new ≡ steps.old + depth_for list.old.limit) }
{
    let other = list.share()?;
    list.set(i, value, steps)?;
    let root = other.root();
    Ok((other, root))
}
