//! One pass from the last node to the justified one makes the weights of these nodes and the head.
//!
//! What is counted at the nodes comes from the tally. Each node gives its weight to its parent and offers itself as the
//! parent's best child, if it is viable; the head from it on is that from its own best child on. The head is looked for from
//! the justified node on, so nothing is made of the nodes before it, of which there are more and more.

ghost use Rattle.std.specs.Prelude.{◌≡◌, ℕ, suc, ◌+◌, ◌*◌, ◌<◌, ◌≤◌, ◌^◌, false, true, Some, None, is_some, IfSome, length, vec_capacity, slice_get, slice_set, if◌then◌else◌};
ghost use Rattle.block_array.specs.PlainArray.{root_at};
ghost use Rattle.block_array.specs.FilterBlockTree.{agrees};
ghost use Rattle.block_array.specs.GetHead.{is_greater_root, goes_before};
ghost use Rattle.block_array.specs.GetLatestAttestingBalance.{get_latest_attesting_balance};
ghost use Rattle.block_array.specs.inside.Counts.{own_at};
ghost use Rattle.block_array.specs.inside.BestDescendants.{best_descendant_at, best_child, better_child, IsHeadFrom, IsCounted, AreBest, IsMade, IsWeighed, AreFresh, CanGive, given};

use crate::best_descendant::{BestDescendant, best_descendant_at};
use crate::inputs::Inputs;
use crate::node::Node;
use crate::tally::Tally;
use bc_words::Steps;
use beacon_types::same_checkpoint;
use hash_tree::Root;
use std::sync::ledger::Ledger;

/// Makes of a node what it is before its children are looked at. One visit.
#[tactic(auto, using(crate::proofs::BestDescendants::setting_best))]
fn begin_one<L: Ledger>(
    tally: &Tally,
    bests: &mut Vec<BestDescendant>,
    number: usize,
    steps: &mut Steps<L>,
)
    requires inside { number < length bests.old.items }
    requires node { number < tally.now.nodes }
    requires few { number < 2 ^ 32 }
    ensures set { bests.new.items ≡ slice_set bests.old.items number (record { weight = own_at tally.now number; has_child = false; child = None; descendant = 0 }) }
    ensures room { vec_capacity bests.new ≡ vec_capacity bests.old }
    ensures steps { steps.new ≡ steps.old + 1 }
{
    steps.tick();
    bests[number] = BestDescendant {
        weight: tally.own(number),
        has_child: false,
        child: None,
        descendant: 0,
    };
}

/// Makes of each node from a first one on what it is before its children are looked at. One visit of each.
#[tactic(auto, using(crate::proofs::BestDescendants::beginning))]
fn begin<L: Ledger>(
    tally: &Tally,
    bests: &mut Vec<BestDescendant>,
    first: usize,
    steps: &mut Steps<L>,
)
    requires nodes { length bests.old.items ≡ tally.now.nodes }
    requires few { length bests.old.items < 2 ^ 32 }
    requires first { first ≤ length bests.old.items }
    ensures length_is { length bests.new.items ≡ tally.now.nodes }
    ensures fresh { AreFresh tally.now first bests.new.items (length bests.new.items) }
    ensures room { vec_capacity bests.new ≡ vec_capacity bests.old }
    ensures steps { steps.new + first ≡ steps.old + length bests.old.items }
{
    for number in first..bests.len() {
        begin_one(tally, bests, number, steps);
    }
}

/// The node at a number.
#[tactic(auto, using(crate::proofs::Items::getting))]
fn node_at(nodes: &[Node], number: usize) -> Node
    requires { number < length nodes.now }
    ensures { slice_get nodes.now number ≡ Some result }
{
    nodes[number]
}

/// The root of a node.
#[tactic(auto, unfolding(crate::specs::PlainArray::root_at), using(crate::proofs::Items::getting))]
fn root_of(nodes: &[Node], number: usize) -> Root
    requires { number < length nodes.now }
    ensures { result ≡ root_at nodes.now number }
{
    nodes[number].root
}

/// Whether a root is greater than another one, byte by byte from the first.
#[tactic(auto, unfolding(crate::specs::GetHead::is_greater_root))]
fn is_greater_root(a: Root, b: Root) -> bool
    ensures { result ≡ is_greater_root a b }
{
    a.cmp(&b).is_gt()
}

/// Whether a node goes before another one: it weighs more, or as much and has the greater root.
#[tactic(auto, unfolding(crate::specs::GetHead::goes_before, crate::specs::inside::BestDescendants::IsWeighed))]
fn goes_before(inputs: &Inputs, bests: &[BestDescendant], a: usize, b: usize) -> bool
    requires bests { length bests.now ≡ length inputs.now.array.nodes }
    requires a_in { a < length bests.now }
    requires b_in { b < length bests.now }
    requires a_weighed { IsWeighed inputs.now.array bests.now a }
    requires b_weighed { IsWeighed inputs.now.array bests.now b }
    ensures { result ≡ goes_before inputs.now.array a b }
{
    let weight = best_descendant_at(bests, a).weight;
    let other = best_descendant_at(bests, b).weight;
    let nodes = inputs.nodes();
    other < weight || (other == weight && is_greater_root(root_of(nodes, a), root_of(nodes, b)))
}

/// The better one of a child and the best so far, if there is one.
#[tactic(auto, unfolding(crate::specs::inside::BestDescendants::better_child, crate::specs::inside::BestDescendants::better))]
fn better_child(inputs: &Inputs, bests: &[BestDescendant], number: u32, best: Option<u32>) -> u32
    requires bests { length bests.now ≡ length inputs.now.array.nodes }
    requires inside { number < length bests.now }
    requires weighed { IsWeighed inputs.now.array bests.now number }
    requires best_in { IfSome best (λ b. b < length bests.now) }
    requires best_weighed { IfSome best (λ b. IsWeighed inputs.now.array bests.now b) }
    ensures { result ≡ better_child inputs.now.array number best }
{
    match best {
        Some(other) => {
            if goes_before(inputs, bests, other as usize, number as usize) {
                other
            } else {
                number
            }
        }
        None => number,
    }
}

/// Whether the state behind a node agrees on the justified and on the finalized checkpoint.
#[tactic(auto, unfolding(crate::specs::FilterBlockTree::agrees))]
fn agrees(inputs: &Inputs, node: &Node) -> bool
    ensures { result ≡ agrees inputs.now.array node.now }
{
    let justified = inputs.justified();
    let finalized = inputs.finalized();
    (justified.epoch == 0 || same_checkpoint(&node.facts.justified, &justified))
        && (finalized.epoch == 0 || same_checkpoint(&node.facts.finalized, &finalized))
}

/// Whether a node is viable: where it has children, a child is; and else its own state agrees.
fn is_viable(inputs: &Inputs, node: &Node, best: BestDescendant) -> bool
    ensures { result ≡ (if best.has_child then is_some best.child else agrees inputs.now.array node.now) }
{
    if best.has_child {
        best.child.is_some()
    } else {
        agrees(inputs, node)
    }
}

/// The head from a node on, where those behind it are done.
#[tactic(auto, using(crate::proofs::BestDescendants::heading))]
fn head_from(inputs: &Inputs, tally: &Tally, bests: &[BestDescendant], number: usize) -> u32
    requires inside { number < length inputs.now.array.nodes }
    requires made { inputs.now.array.justified_node ≤ number }
    requires are_best { AreBest inputs.now.array tally.now bests.now (suc number) }
    ensures { IsHeadFrom inputs.now.array number result }
{
    let _nodes = inputs.nodes();
    match best_descendant_at(bests, number).child {
        Some(child) => best_descendant_at(bests, child as usize).descendant,
        None => number as u32,
    }
}

/// Gives a node's weight to its parent, and offers it as the parent's best child where it is viable.
#[tactic(auto, unfolding(crate::specs::inside::BestDescendants::given))]
fn give(inputs: &Inputs, bests: &mut Vec<BestDescendant>, number: u32, parent: u32, viable: bool)
    requires { CanGive inputs.now.array bests.old.items number parent }
    ensures room { vec_capacity bests.new ≡ vec_capacity bests.old }
    ensures gave { bests.new.items ≡ slice_set bests.old.items parent (given inputs.now.array bests.old.items number parent viable) }
{
    let mine = best_descendant_at(bests, number as usize);
    let theirs = best_descendant_at(bests, parent as usize);
    let child = if viable {
        Some(better_child(inputs, bests, number, theirs.child))
    } else {
        theirs.child
    };
    bests[parent as usize] = BestDescendant {
        weight: theirs.weight + mine.weight,
        has_child: true,
        child,
        descendant: theirs.descendant,
    };
}

/// Makes a node from the justified one on, where those behind it are done. One visit.
fn apply_score_change<L: Ledger>(
    inputs: &Inputs,
    tally: &Tally,
    bests: &mut Vec<BestDescendant>,
    number: usize,
    steps: &mut Steps<L>,
)
    requires inside { number < length inputs.now.array.nodes }
    requires made { inputs.now.array.justified_node ≤ number }
    requires counted { IsCounted inputs.now.array tally.now }
    requires are_best { AreBest inputs.now.array tally.now bests.old.items (suc number) }
    ensures are_best { AreBest inputs.now.array tally.now bests.new.items number }
    ensures room { vec_capacity bests.new ≡ vec_capacity bests.old }
    ensures steps { steps.new ≡ steps.old + 1 }
{
    steps.tick();
    tally.bounds();
    let node = node_at(inputs.nodes(), number);
    let mine = best_descendant_at(bests, number);
    let viable = is_viable(inputs, &node, mine);
    let descendant = head_from(inputs, tally, bests, number);
    bests[number] = BestDescendant {
        weight: mine.weight,
        has_child: mine.has_child,
        child: mine.child,
        descendant,
    };
    match node.parent {
        Some(parent) => {
            if inputs.justified_node() <= parent {
                give(inputs, bests, number as u32, parent, viable);
            }
        }
        None => {}
    }
}

/// Makes the weights of the nodes from the justified one on, and the head, where all that is due is counted. Two visits of
/// each of these nodes.
pub(crate) fn apply_score_changes<L: Ledger>(
    inputs: &Inputs,
    tally: &Tally,
    bests: &mut Vec<BestDescendant>,
    steps: &mut Steps<L>,
)
    requires length_is { length bests.old.items ≡ length inputs.now.array.nodes }
    requires counted { IsCounted inputs.now.array tally.now }
    ensures length_is { length bests.new.items ≡ length inputs.now.array.nodes }
    ensures made { IsMade inputs.now.array bests.new.items }
    ensures room { vec_capacity bests.new ≡ vec_capacity bests.old }
    ensures steps { steps.new ≤ steps.old + 2 * length inputs.now.array.nodes }
{
    let count = inputs.nodes().len();
    let first = inputs.justified_node() as usize;
    tally.bounds();
    begin(tally, bests, first, steps);
    for done in 0..count - first {
        apply_score_change(inputs, tally, bests, count - 1 - done, steps);
    }
}
