//! The tree of the deposits so far.

ghost use Rattle.std.specs.Prelude.{◌≡◌, ◌+◌, ◌≤◌, ◌<◌, ◌^◌, [], ◌∷◌, ◌++◌, true, length, slice_index_or, IfOk, IfSome, MatchOption};
ghost use Rattle.bc_words.specs.Outcome.{Becomes};
ghost use Rattle.hash_tree.specs.Merkle.{merkle_root, mix_in_length as mixed_in};
ghost use Rattle.spec_blocks.specs.IsValidMerkleBranch.{is_valid_merkle_branch};
ghost use Rattle.spec_genesis.specs.Branches.{branch_of};

use crate::branch::{fill_siblings, length_chunk};
use crate::layer::Layer;
use crate::push::grow;
use bc_words::{NoMemory, Steps};
use hash_tree::{Root, mix_in_length};
use std::alloc::Global;
use std::array::from_fn;
use std::marker::{Brand, Model};
use std::sync::ledger::{Blank, Ledger};

/// The tree of List[DepositData, 2^32]. Contracts see it as the list of its leaves.
#[derive(Drop)]
pub struct DepositTree {
    layers: [Layer; 33],
}

impl Model for DepositTree {
    ghost use Rattle.std.specs.Prelude.{ℕ, List};
    ghost use Rattle.genesis_maker.specs.inside.Trees.{leaves_of, IsTree};

    ghost Value = { List (List ℕ) };

    ghost view = { λ tree. leaves_of tree.layers };

    ghost invariant = { λ tree. IsTree tree.layers };
}

/// Puts one more leaf at the end of a tree, with a counter of its own.
fn push_leaf<L: Ledger>(tree: &mut DepositTree, leaf: Root, blank: Blank) -> Result<(), NoMemory>
    requires name { blank.name ≡ L.name }
    requires parts { blank.parts ≡ L.parts }
    requires some { 0 < blank.parts }
    requires room { length tree.old < 2 ^ 32 }
    ensures { Becomes result tree.old tree.new (tree.old ++ leaf ∷ []) }
{
    let mut steps = Steps::<L>::new(blank);
    tree.push_counted(leaf, &mut steps)
}

impl DepositTree {
    /// No leaf yet. It takes no memory.
    pub fn new(alloc: Global) -> DepositTree
        ensures { result ≡ [] }
    {
        DepositTree {
            layers: from_fn(
                |_level|
                    ensures { result.0 ≡ [] }
                { Layer::new(alloc) },
            ),
        }
    }

    /// How many leaves there are.
    pub fn len(&self) -> u64
        ensures len { result ≡ length self.now }
        ensures fits { length self.now ≤ 2 ^ 32 }
    {
        self.layers[0].len() as u64
    }

    /// One leaf more. Where memory is refused, the tree is as before.
    pub fn push(&mut self, leaf: Root) -> Result<(), NoMemory>
        requires { length self.old < 2 ^ 32 }
        ensures { Becomes result self.old self.new (self.old ++ leaf ∷ []) }
    {
        push_leaf::<Brand>(self, leaf, Blank::new(1))
    }

    /// The same, where the hashes of nodes are counted: those of the leaf's path, 32 at most.
    pub fn push_counted<L: Ledger>(
        &mut self,
        leaf: Root,
        steps: &mut Steps<L>,
    ) -> Result<(), NoMemory>
        requires { length self.old < 2 ^ 32 }
        ensures leaf { Becomes result self.old self.new (self.old ++ leaf ∷ []) }
        ensures steps { steps.new ≤ steps.old + 32 }
    {
        let place = self.layers[0].len();
        grow(&mut self.layers, place, leaf, steps)
    }

    /// The root of the list of the leaves. It is kept but for the number of leaves, which is one hash.
    pub fn root(&self) -> Root
        ensures { result ≡ mixed_in (merkle_root 32 self.now) (length self.now) }
    {
        mix_in_length(&self.layers[32].node(32, 0), self.len())
    }

    /// The branch of a leaf: the nodes beside its way up, and the number of leaves. None exactly where there is no such leaf. It
    /// takes no hash.
    pub fn branch(&self, index: u64) -> Option<[Root; 33]>
        ensures branch { MatchOption result (length self.now ≤ index) (λ b. (index < length self.now) × (b ≡ branch_of self.now index)) }
        ensures holds { IfSome result (λ b. is_valid_merkle_branch (slice_index_or self.now index []) b 33 index (mixed_in (merkle_root 32 self.now) (length self.now)) ≡ true) }
    {
        if index >= self.len() {
            return None;
        }
        let mut branch = [[0; 32]; 33];
        fill_siblings(&mut branch[..32], &self.layers, 0, index as usize);
        branch[32] = length_chunk(self.len());
        Some(branch)
    }
}
