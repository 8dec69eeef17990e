//! The weight of a node before the justified one, of which the pass over the nodes makes nothing.
//!
//! What is counted comes from the tally: the boost, and a balance for each validator. It weighs for a node where this is on the
//! chain of the node that it is counted at.

ghost use Rattle.std.specs.Prelude.{◌≡◌, ◌<◌, length, if◌then◌else◌};
ghost use Rattle.block_array.specs.GetLatestAttestingBalance.{is_on_chain_of, get_latest_attesting_balance};
ghost use Rattle.block_array.specs.inside.BestDescendants.{IsCounted};
ghost use Rattle.block_array.specs.inside.Tree.{IsTree};

use crate::get_ancestor::{get_ancestor, slot_of};
use crate::inputs::Inputs;
use crate::node::Node;
use crate::tally::Tally;

/// Whether a node is on the chain of another one.
#[tactic(auto, unfolding(crate::specs::GetLatestAttestingBalance::is_on_chain_of))]
fn is_on_chain_of(nodes: &[Node], number: u32, descendant: u32) -> bool
    requires number { number < length nodes.now }
    requires descendant { descendant < length nodes.now }
    requires tree { IsTree nodes.now }
    ensures { result ≡ is_on_chain_of nodes.now number descendant }
{
    get_ancestor(nodes, descendant, slot_of(nodes, number as usize)) == number
}

/// What an amount that is counted at a node weighs for another one.
fn share(nodes: &[Node], number: u32, node: u32, amount: u128) -> u128
    requires number { number < length nodes.now }
    requires node { node < length nodes.now }
    requires tree { IsTree nodes.now }
    ensures { result ≡ (if is_on_chain_of nodes.now number node then amount else 0) }
{
    if is_on_chain_of(nodes, number, node) {
        amount
    } else {
        0
    }
}

/// The weight of a node (fork-choice.md, `get_latest_attesting_balance`), where all that is due is counted.
pub(crate) fn weight_of(inputs: &Inputs, tally: &Tally, number: u32) -> u128
    requires number { number < length inputs.now.array.nodes }
    requires counted { IsCounted inputs.now.array tally.now }
    ensures { result ≡ get_latest_attesting_balance inputs.now.array number }
{
    tally.bounds();
    let nodes = inputs.nodes();
    let mut weight = share(nodes, number, tally.boosted_node(), tally.boost());
    for validator in 0..tally.validators() {
        let counted = tally.counted(validator);
        weight += share(nodes, number, counted.node, u128::from(counted.balance));
    }
    weight
}
