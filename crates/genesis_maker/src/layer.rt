//! The nodes of one level of a tree, from the left up to the last that has a leaf below it.

ghost use Rattle.std.specs.Prelude.{◌≡◌, ℕ, List, [], ◌<◌, ◌≤◌, length, OnOk, vec_capacity};
ghost use Rattle.genesis_maker.specs.inside.Layers.{put, parent_of_last as parent, node_in};

use bc_words::NoMemory;
use hash_tree::{Root, hash_pair, zero_hash};
use std::alloc::Global;
use std::marker::Model;

/// The nodes of a level. Contracts see them, and how many have room.
#[derive(Drop)]
pub struct Layer {
    nodes: Vec<Root>,
}

impl Model for Layer {
    ghost use Rattle.std.specs.Prelude.{ℕ, List, vec_capacity};

    ghost Value = { List (List ℕ) × ℕ };

    ghost view = { λ layer. (layer.nodes.items, vec_capacity layer.nodes) };
}

impl Layer {
    /// No node.
    pub(crate) fn new(alloc: Global) -> Layer
        ensures { result.0 ≡ [] }
    {
        Layer {
            nodes: Vec::new(alloc),
        }
    }

    /// How many nodes there are.
    pub(crate) fn len(&self) -> usize
        ensures { result ≡ length self.now.0 }
    {
        self.nodes.len()
    }

    /// Makes room for one node more. The nodes stay.
    pub(crate) fn reserve(&mut self) -> Result<(), NoMemory>
        ensures same { self.new.0 ≡ self.old.0 }
        ensures room { OnOk result (length self.new.0 < self.new.1) }
    {
        self.nodes.reserve(1)?;
        Ok(())
    }

    /// A node takes its place, which is one of the layer's or the next one.
    #[tactic(auto, unfolding(crate::specs::inside::Layers::put))]
    pub(crate) fn put(&mut self, place: usize, node: Root)
        requires place { place ≤ length self.old.0 }
        requires room { length self.old.0 < self.old.1 }
        ensures { self.new.0 ≡ put self.old.0 place node }
    {
        if place == self.nodes.len() {
            self.nodes.push_reserved(node);
        } else {
            self.nodes[place] = node;
        }
    }

    /// The parent of the last node, which takes this place: nothing stands right of it.
    #[tactic(auto, unfolding(crate::specs::inside::Layers::parent_of_last))]
    pub(crate) fn parent_of_last(&self, level: u32, place: usize, node: &Root) -> Root
        requires low { level ≤ 40 }
        requires place { place ≤ length self.now.0 }
        ensures { result ≡ parent level self.now.0 place node.now }
    {
        if place % 2 == 1 {
            hash_pair(&self.nodes[place - 1], node)
        } else {
            hash_pair(node, &zero_hash(level))
        }
    }

    /// The node at a place, which is the root of zero chunks behind the last.
    #[tactic(auto, unfolding(crate::specs::inside::Layers::node_in))]
    pub(crate) fn node(&self, level: u32, place: usize) -> Root
        requires low { level ≤ 40 }
        ensures { result ≡ node_in level self.now.0 place }
    {
        match self.nodes.get(place) {
            Some(node) => *node,
            None => zero_hash(level),
        }
    }
}
