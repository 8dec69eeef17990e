//! The item at a place of a tree.

ghost use Rattle.std.specs.Prelude.{◌≡◌, ◌≤◌, map, slice_get};
ghost use Rattle.std.specs.Option.{option_map};

use crate::node::{Item, Kind, Node, half_width};
use hash_tree::Leaf;
use std::rc::Rc;

/// The item of the leaf at a place. None exactly where there is none.
fn item_at<T: Leaf + Drop>(leaves: &[Rc<Item<T>>], at: u64) -> Option<&T>
    ensures { option_map (λ x. x.now) result ≡ slice_get (map (λ leaf. leaf.value.item) leaves.now) at }
{
    match leaves.get(at as usize) {
        Some(leaf) => Some(&leaf.item),
        None => None,
    }
}

/// The item at a place. None exactly where there is none.
pub(crate) fn find<T: Leaf + Drop>(node: &Node<T>, depth: u32, at: u64) -> Option<&T>
    requires same { depth ≡ node.now.0 }
    requires low { depth ≤ 40 }
    ensures { option_map (λ x. x.now) result ≡ slice_get node.now.1 at }
{
    match &node.kind {
        Kind::Absent(_) => None,
        Kind::Item(leaf) => { if at == 0 { Some(&leaf.item) } else { None } }
        Kind::Pair(pair) => {
            let half = half_width(depth);
            if at < half {
                find(&pair.left, depth - 1, at)
            } else {
                find(&pair.right, depth - 1, at - half)
            }
        }
        Kind::Broad(broad) => item_at(&broad.leaves, at),
    }
}
