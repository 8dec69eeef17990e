//! Ancestors of nodes (fork-choice.md, "get_ancestor").

ghost use Rattle.std.specs.Prelude.{◌≡◌, ◌<◌, length, slice_get, Some};
ghost use Rattle.block_array.specs.PlainArray.{slot_at, parent_at};
ghost use Rattle.block_array.specs.GetAncestor.{parent_or_self, get_ancestor};
ghost use Rattle.block_array.specs.inside.Tree.{IsTree};

use crate::node::Node;

/// The slot of a node.
#[tactic(auto, unfolding(crate::specs::PlainArray::slot_at), using(crate::proofs::Items::getting))]
pub(crate) fn slot_of(nodes: &[Node], number: usize) -> u64
    requires { number < length nodes.now }
    ensures { result ≡ slot_at nodes.now number }
{
    nodes[number].slot
}

/// The parent of a node. The first node stands for its own.
#[tactic(auto, unfolding(crate::specs::PlainArray::parent_at, crate::specs::GetAncestor::parent_or_self), using(crate::proofs::Items::getting))]
fn parent_or_self(nodes: &[Node], number: u32) -> u32
    requires { number < length nodes.now }
    ensures { result ≡ parent_or_self nodes.now number }
{
    match nodes[number as usize].parent {
        Some(parent) => parent,
        None => number,
    }
}

/// The node at a slot on the chain of a node, or the last one before it (fork-choice.md, `get_ancestor`).
#[tactic(auto, using(crate::proofs::Walks::walking))]
pub(crate) fn get_ancestor(nodes: &[Node], number: u32, slot: u64) -> u32
    requires inside { number < length nodes.now }
    requires tree { IsTree nodes.now }
    ensures { result ≡ get_ancestor nodes.now number slot }
{
    let mut number = number;
    for step in 0..nodes.len() {
        if slot_of(nodes, number as usize) <= slot {
            return number;
        }
        number = parent_or_self(nodes, number);
    }
    number
}
