//! A leaf more in all layers.

ghost use Rattle.std.specs.Prelude.{◌≡◌, ◌+◌, ◌-◌, ◌≤◌, length, OnOk};
ghost use Rattle.bc_words.specs.Outcome.{Becomes};
ghost use Rattle.genesis_maker.specs.inside.Layers.{push_from as pushed};
ghost use Rattle.genesis_maker.specs.inside.Trees.{nodes_of, HaveRoom, HavePlaces};

use crate::layer::Layer;
use bc_words::{NoMemory, Steps};
use hash_tree::Root;
use std::sync::ledger::Ledger;

/// Makes room for one node more in each layer. The nodes stay.
fn reserve_all(layers: &mut [Layer]) -> Result<(), NoMemory>
    ensures same { nodes_of layers.new ≡ nodes_of layers.old }
    ensures room { OnOk result (HaveRoom layers.new) }
{
    match layers.split_first_mut() {
        Some((first, rest)) => {
            first.reserve()?;
            reserve_all(rest)
        }
        None => Ok(()),
    }
}

/// A node takes its place in the first layer, which has this level, and its parents theirs. A step for each layer but the first.
#[tactic(auto, unfolding(crate::specs::inside::Layers::push_from))]
fn push_from<L: Ledger>(
    layers: &mut [Layer],
    level: u32,
    place: usize,
    node: Root,
    steps: &mut Steps<L>,
)
    requires low { level + length layers.old ≤ 40 }
    requires room { HaveRoom layers.old }
    requires places { HavePlaces place (nodes_of layers.old) }
    ensures put { nodes_of layers.new ≡ pushed level place node (nodes_of layers.old) }
    ensures steps { steps.new ≡ steps.old + (length layers.old - 1) }
{
    match layers.split_first_mut() {
        Some((first, rest)) => {
            if !rest.is_empty() {
                let parent = first.parent_of_last(level, place, &node);
                steps.tick();
                push_from(rest, level + 1, place / 2, parent, steps);
            }
            first.put(place, node);
        }
        None => {}
    }
}

/// A leaf more, behind so many. Where memory is refused, the nodes stay. A step for each layer but the first.
pub(crate) fn grow<L: Ledger>(
    layers: &mut [Layer],
    place: usize,
    leaf: Root,
    steps: &mut Steps<L>,
) -> Result<(), NoMemory>
    requires low { length layers.old ≤ 40 }
    requires places { HavePlaces place (nodes_of layers.old) }
    ensures put { Becomes result (nodes_of layers.old) (nodes_of layers.new) (pushed 0 place leaf (nodes_of layers.old)) }
    ensures steps { steps.new ≤ steps.old + (length layers.old - 1) }
{
    reserve_all(layers)?;
    push_from(layers, 0, place, leaf, steps);
    Ok(())
}
