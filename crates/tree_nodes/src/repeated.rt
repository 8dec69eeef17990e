//! Trees in which each leaf is the same item.
//!
//! A list that is full of one value comes from `tree`. A level has one node, which is both halves of the one above.

ghost use Rattle.std.specs.Prelude.{◌≡◌, ◌≤◌, ◌^◌, replicate, IfOk};

use crate::node::Node;
use bc_words::NoMemory;
use hash_tree::Leaf;
use std::alloc::Global;

/// The tree of this depth in which each leaf is the item. A hash for each level.
pub(crate) fn repeat_item<T: Leaf + Drop>(
    item: T,
    depth: u32,
    alloc: Global,
) -> Result<Node<T>, NoMemory>
    requires { depth ≤ 40 }
    ensures { IfOk result (λ node. node ≡ (depth, replicate (2 ^ depth) item)) }
{
    let mut node = Node::item(item, alloc)?;
    'levels: for level in 0..depth {
        let left = node.share()?;
        node = Node::pair(left, node, alloc)?;
    }
    Ok(node)
}
