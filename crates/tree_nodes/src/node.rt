//! The nodes of a tree, each of which keeps its root.
//!
//! `build` makes them of items, and `put` makes a path of them anew.

ghost use Rattle.std.specs.Prelude.{◌≡◌, ℕ, suc, ◌+◌, ◌<◌, ◌≤◌, ◌^◌, List, [], ◌∷◌, ◌++◌, length, map, IfOk, OnOk};
ghost use Rattle.hash_tree.specs.Merkle.{hash, merkle_root};
ghost use Rattle.tree_nodes.specs.inside.Nodes.{AreHalves, Splits};

use bc_words::NoMemory;
use hash_tree::{Leaf, Root, hash_pair, zero_hash};
use std::alloc::Global;
use std::marker::Model;
use std::rc::Rc;

/// How deep the halves are of a node that keeps its leaves. More leaves make walks over items faster, and changes of one slower.
const BROAD: u32 = 3;

/// How many leaves such a node has room for.
const LEAVES: usize = 16;

/// A tree of some depth over the items in its first leaves, which contracts see as the depth and the items.
#[cycle(tree)]
#[derive(Drop)]
pub(crate) struct Node<T: Leaf + Drop> {
    pub(crate) kind: Kind<T>,
}

/// What a node is: a tree of so many levels without items, an item, two trees of the same depth, or two with their leaves.
#[cycle(tree)]
#[derive(Drop)]
pub(crate) enum Kind<T: Leaf + Drop> {
    Absent(u32),
    Item(Rc<Item<T>>),
    Pair(Rc<Pair<T>>),
    Broad(Rc<Broad<T>>),
}

/// An item and its root.
#[derive(Drop)]
pub(crate) struct Item<T: Leaf + Drop> {
    root: Root,
    pub(crate) item: T,
}

/// Two trees and the hash of their roots.
#[cycle(tree)]
#[derive(Drop)]
pub(crate) struct Pair<T: Leaf + Drop> {
    root: Root,
    pub(crate) left: Node<T>,
    pub(crate) right: Node<T>,
}

/// Two trees and the hash of their roots, and the leaves of both in order: a walk over items reads none of the nodes between.
#[cycle(tree)]
#[derive(Drop)]
pub(crate) struct Broad<T: Leaf + Drop> {
    root: Root,
    pub(crate) left: Node<T>,
    pub(crate) right: Node<T>,
    pub(crate) leaves: Vec<Rc<Item<T>>>,
}

/// An item that is to be a leaf of a tree, with its root. Contracts see it as the item.
#[derive(Drop)]
pub struct NewLeaf<T: Leaf + Drop> {
    leaf: Rc<Item<T>>,
}

impl<T: Leaf + Drop> Model for NewLeaf<T> {
    ghost Value = { T };

    ghost view = { λ new. new.leaf.value.item };

    ghost invariant = { λ new. new.leaf.value.root ≡ T.root_of new.leaf.value.item };
}

impl<T: Leaf + Drop> NewLeaf<T> {
    /// The leaf of an item, whose root is known.
    pub fn known(item: T, root: Root, alloc: Global) -> Result<NewLeaf<T>, NoMemory>
        requires { root ≡ T.root_of item }
        ensures { IfOk result (λ new. new ≡ item) }
    {
        let leaf = Rc::new(alloc, Item { root, item })?;
        Ok(NewLeaf { leaf })
    }

    /// The item.
    pub fn item(&self) -> &T
        ensures { result.now ≡ self.now }
    {
        &self.leaf.item
    }

    /// The tree that is this leaf.
    pub(crate) fn node(self) -> Node<T>
        ensures { result ≡ (0, self ∷ []) }
    {
        Node {
            kind: Kind::Item(self.leaf),
        }
    }
}

impl<T: Leaf + Drop> Model for Node<T> {
    ghost use Rattle.std.specs.Prelude.{ℕ, List};

    ghost Value = { ℕ × List T };

    ghost use Rattle.tree_nodes.specs.inside.Nodes.{seen, IsNode};

    ghost view = { λ node. seen node.kind };

    ghost invariant = { λ node. IsNode T.root_of node.kind };

    ghost size = { λ tree. tree.0 };

    ghost use Rattle.std.proofs.Common.{arith};

    ghost size_decreases = { λ node h. Prim.grind arith };
}

impl<T: Leaf + Drop> Node<T> {
    /// The root. It is kept, or that of a tree without items.
    pub(crate) fn root(&self) -> Root
        ensures { result ≡ merkle_root self.now.0 (map T.root_of self.now.1) }
    {
        match &self.kind {
            Kind::Absent(depth) => zero_hash(*depth),
            Kind::Item(leaf) => leaf.root,
            Kind::Pair(pair) => pair.root,
            Kind::Broad(broad) => broad.root,
        }
    }

    /// A tree without items.
    pub(crate) fn absent(depth: u32) -> Node<T>
        requires { depth ≤ 40 }
        ensures { result ≡ (depth, []) }
    {
        Node {
            kind: Kind::Absent(depth),
        }
    }

    /// A leaf that is an item.
    pub(crate) fn item(item: T, alloc: Global) -> Result<Node<T>, NoMemory>
        ensures { IfOk result (λ node. node ≡ (0, item ∷ [])) }
    {
        let root = item.root();
        Node::known(item, root, alloc)
    }

    /// A leaf that is an item, where its root is known.
    pub(crate) fn known(item: T, root: Root, alloc: Global) -> Result<Node<T>, NoMemory>
        requires { root ≡ T.root_of item }
        ensures { IfOk result (λ node. node ≡ (0, item ∷ [])) }
    {
        let leaf = NewLeaf::known(item, root, alloc)?;
        Ok(leaf.node())
    }

    /// The tree over two halves, where the hash of their roots is known.
    pub(crate) fn rooted(
        left: Node<T>,
        right: Node<T>,
        root: Root,
        alloc: Global,
    ) -> Result<Node<T>, NoMemory>
        requires halves { AreHalves left right }
        requires root { root ≡ hash (merkle_root left.0 (map T.root_of left.1) ++ merkle_root right.0 (map T.root_of right.1)) }
        ensures { IfOk result (λ node. node ≡ (suc left.0, left.1 ++ right.1)) }
    {
        if is_high(&left, BROAD) {
            return Node::broad(left, right, root, alloc);
        }
        let pair = Rc::new(alloc, Pair { root, left, right })?;
        Ok(Node {
            kind: Kind::Pair(pair),
        })
    }

    /// The same, which keeps its leaves.
    fn broad(left: Node<T>, right: Node<T>, root: Root, alloc: Global) -> Result<Node<T>, NoMemory>
        requires halves { AreHalves left right }
        requires root { root ≡ hash (merkle_root left.0 (map T.root_of left.1) ++ merkle_root right.0 (map T.root_of right.1)) }
        ensures { IfOk result (λ node. node ≡ (suc left.0, left.1 ++ right.1)) }
    {
        let leaves = leaves_of(&left, &right, alloc)?;
        let broad = Rc::new(
            alloc,
            Broad {
                root,
                left,
                right,
                leaves,
            },
        )?;
        Ok(Node {
            kind: Kind::Broad(broad),
        })
    }

    /// The tree over two halves.
    pub(crate) fn pair(left: Node<T>, right: Node<T>, alloc: Global) -> Result<Node<T>, NoMemory>
        requires { AreHalves left right }
        ensures { IfOk result (λ node. node ≡ (suc left.0, left.1 ++ right.1)) }
    {
        let root = hash_pair(&left.root(), &right.root());
        Node::rooted(left, right, root, alloc)
    }

    /// The same tree, whose nodes are those of this one.
    pub(crate) fn share(&self) -> Result<Node<T>, NoMemory>
        ensures { IfOk result (λ node. node ≡ self.now) }
    {
        let kind = match &self.kind {
            Kind::Absent(depth) => Kind::Absent(*depth),
            Kind::Item(leaf) => Kind::Item(leaf.clone()?),
            Kind::Pair(pair) => Kind::Pair(pair.clone()?),
            Kind::Broad(broad) => Kind::Broad(broad.clone()?),
        };
        Ok(Node { kind })
    }

    /// The two halves. None where the node has no more than one item, and has none but for a leaf.
    pub(crate) fn halves(&self) -> Option<(&Node<T>, &Node<T>)>
        ensures { Splits self.now result }
    {
        match &self.kind {
            Kind::Absent(_) => None,
            Kind::Item(_) => None,
            Kind::Pair(pair) => Some((&pair.left, &pair.right)),
            Kind::Broad(broad) => Some((&broad.left, &broad.right)),
        }
    }
}

/// Whether the first leaf of a node is so many pairs below it.
fn is_high<T: Leaf + Drop>(node: &Node<T>, levels: u32) -> bool {
    match &node.kind {
        Kind::Item(_) => levels == 0,
        Kind::Pair(pair) => levels > 0 && is_high(&pair.left, levels - 1),
        _ => false,
    }
}

/// The leaves of two nodes.
fn leaves_of<T: Leaf + Drop>(
    left: &Node<T>,
    right: &Node<T>,
    alloc: Global,
) -> Result<Vec<Rc<Item<T>>>, NoMemory>
    ensures { IfOk result (λ leaves. map (λ leaf. leaf.value.item) leaves.items ≡ left.now.1 ++ right.now.1) }
{
    let mut leaves = Vec::with_capacity(alloc, LEAVES)?;
    gather(left, &mut leaves)?;
    gather(right, &mut leaves)?;
    Ok(leaves)
}

/// Puts a node that has no halves behind the leaves, if it is one.
fn push_leaf<T: Leaf + Drop>(node: &Node<T>, leaves: &mut Vec<Rc<Item<T>>>) -> Result<(), NoMemory>
    requires { 0 < node.now.0 → node.now.1 ≡ [] }
    ensures { OnOk result (map (λ leaf. leaf.value.item) leaves.new.items ≡ map (λ leaf. leaf.value.item) leaves.old.items ++ node.now.1) }
{
    if let Kind::Item(leaf) = &node.kind {
        let leaf = leaf.clone()?;
        leaves.push(leaf)?;
    }
    Ok(())
}

/// Puts the leaves of a node behind the others.
fn gather<T: Leaf + Drop>(node: &Node<T>, leaves: &mut Vec<Rc<Item<T>>>) -> Result<(), NoMemory>
    ensures { OnOk result (map (λ leaf. leaf.value.item) leaves.new.items ≡ map (λ leaf. leaf.value.item) leaves.old.items ++ node.now.1) }
{
    match node.halves() {
        Some((left, right)) => {
            gather(left, leaves)?;
            gather(right, leaves)
        }
        None => push_leaf(node, leaves),
    }
}

/// How many leaves one half of a tree has.
pub(crate) fn half_width(depth: u32) -> u64
    requires inner { 0 < depth }
    requires low { depth ≤ 40 }
    ensures half { result + result ≡ 2 ^ depth }
    ensures lower { (lower : ℕ) → depth ≡ suc lower → result ≡ 2 ^ lower }
{
    1 << (depth - 1)
}
