//! The kept blocks in the order of their acceptance, looked up by their roots: each goes by its place, the first one being 0.
//!
//! Blocks come from the handlers of the store, and go with their states to the keeper; a root is looked up here.

ghost use Rattle.std.specs.Prelude.{◌≡◌, ◌<◌, ◌≤◌, ◌-◌, ◌^◌, ◌∷◌, ◌++◌, [], false, length, Some, IfErr, IfOk, OnOk};
ghost use Rattle.std.specs.List.{AllByRecursion};
ghost use Rattle.bc_words.specs.Outcome.{Becomes};
ghost use Rattle.indexmap.specs.IndexSet.{spare, IsUnchanged};
ghost use Rattle.spec_fork_choice.specs.Store.{is_kept, block_of};
ghost use Rattle.fork_store.specs.inside.Accepted.{kept_of};
ghost use Rattle.fork_store.specs.Arrays.{node_number, IsBoostedNode};
ghost use Rattle.fork_store.specs.Keepers.{kept_blocks};
ghost use Rattle.fork_store.specs.inside.Keepers.{IsStepOn};
ghost use Rattle.fork_store.specs.Stores.{IsKept};
ghost use Rattle.fork_store.specs.inside.Boosts.{IsZeroOrKept};
ghost use Rattle.std.specs.Option.{option_map};

use crate::chain_stepper::ChainStepper;
use bc_words::NoMemory;
use beacon_state::State;
use beacon_types::{BeaconBlock, SignedBeaconBlock};
use hash_tree::Root;
use indexmap::IndexSet;
use state_keeper::Keeper;
use std::alloc::Global;
use std::marker::Model;
use std::snapshot::Snapshot;

/// Kept blocks in the order of their acceptance, each looked up by its root. Clauses see the list of them.
///
/// The blocks and the states behind them are in the keeper alone. What is here are their roots, in the same order, as a map from a
/// root to its number, and the keeper as it was when a block was last kept, which only clauses read.
#[derive(Drop)]
pub struct KeptBlocks {
    roots: IndexSet<Root>,
    seen: Snapshot<Keeper<ChainStepper>>,
}

impl Model for KeptBlocks {
    ghost use Rattle.std.specs.Prelude.{◌≡◌, List};
    ghost use Rattle.std.specs.List.{AllByRecursion};
    ghost use Rattle.spec_fork_choice.specs.Store.{KeptBlock as PlainBlock};
    ghost use Rattle.fork_store.specs.Keepers.{kept_blocks};
    ghost use Rattle.fork_store.specs.Roots.{roots_of};
    ghost use Rattle.fork_store.specs.Stores.{IsKept};

    ghost Value = { List PlainBlock };

    ghost view = { λ blocks. kept_blocks blocks.seen.value.blocks };

    ghost invariant = { λ blocks. (blocks.roots.keys ≡ roots_of (kept_blocks blocks.seen.value.blocks)) × AllByRecursion IsKept (kept_blocks blocks.seen.value.blocks) };
}

/// Makes room for one block more, with its root.
fn make_room(roots: &mut IndexSet<Root>, keeper: &mut Keeper<ChainStepper>) -> Result<(), NoMemory>
    ensures keys { IsUnchanged roots.old roots.new }
    ensures spare { OnOk result (1 ≤ spare roots.new) }
    ensures stepper { keeper.new.stepper ≡ keeper.old.stepper }
    ensures blocks { keeper.new.blocks ≡ keeper.old.blocks }
    ensures room { OnOk result (0 < keeper.new.spare) }
{
    roots.reserve(1)?;
    keeper.reserve()
}

impl KeptBlocks {
    ghost use Rattle.fork_store.specs.Roots.{roots_of};

    /// The one block of a keeper, with this root.
    pub fn of_first(
        alloc: Global,
        keeper: &Keeper<ChainStepper>,
        root: Root,
    ) -> Result<KeptBlocks, NoMemory>
        requires root { roots_of (kept_blocks keeper.now.blocks) ≡ root ∷ [] }
        requires kept { AllByRecursion IsKept (kept_blocks keeper.now.blocks) }
        ensures { IfOk result (λ blocks. blocks ≡ kept_blocks keeper.now.blocks) }
    {
        let mut roots = IndexSet::new(alloc);
        let _first = roots.insert(root)?;
        Ok(KeptBlocks {
            roots,
            seen: Snapshot::of(keeper),
        })
    }

    /// The law of all kept blocks. It does nothing when it runs.
    pub fn are_kept(&self)
        ensures { AllByRecursion IsKept self.now }
    {
        let _roots = &self.roots;
    }

    /// How many there are.
    pub fn len(&self) -> usize
        ensures { result ≡ length self.now }
    {
        self.roots.len()
    }

    /// Their roots.
    pub fn roots(&self) -> &[Root]
        ensures { result.now ≡ roots_of self.now }
    {
        self.roots.as_slice()
    }

    /// The number of the block of a root, the first one being 0. None exactly where the root isn't kept.
    pub fn node_number(&self, root: Root) -> Option<usize>
        ensures { result ≡ node_number self.now root }
    {
        self.roots.get_index_of(&root)
    }

    /// Adds a block behind the others, whose root isn't kept yet, to the keeper of these blocks: the number of its parent is known,
    /// and the step from that one's state gives this one. Where memory is refused, they are as before: all room is made first.
    pub fn push(
        &mut self,
        keeper: &mut Keeper<ChainStepper>,
        parent: u32,
        root: Root,
        block: SignedBeaconBlock,
        state: State,
    ) -> Result<(), NoMemory>
        requires keeper { kept_blocks keeper.old.blocks ≡ self.old }
        requires few { length self.old < 2 ^ 32 - 1 }
        requires fresh { is_kept self.old root ≡ false }
        requires kept { IsKept (kept_of root block.message state) }
        requires parent { Some parent ≡ node_number self.old block.message.parent_root }
        requires step { IsStepOn keeper.old.stepper self.old block state }
        ensures blocks { Becomes result self.old self.new (self.old ++ kept_of root block.message state ∷ []) }
        ensures keeper { kept_blocks keeper.new.blocks ≡ self.new }
        ensures stepper { keeper.new.stepper ≡ keeper.old.stepper }
        ensures stays { IfErr result (λ _. keeper.new.blocks ≡ keeper.old.blocks) }
    {
        make_room(&mut self.roots, keeper)?;
        let _number = keeper.add(parent, block, state);
        let _room = self.roots.insert(root);
        self.seen = Snapshot::of(keeper);
        Ok(())
    }
}

/// The number of a root's block. None exactly where the root isn't kept.
#[tactic(auto, using(crate::proofs::Finds::inside))]
pub fn node_number(blocks: &KeptBlocks, root: Root) -> Option<u32>
    requires { length blocks.now < 2 ^ 32 }
    ensures { result ≡ node_number blocks.now root }
{
    match blocks.node_number(root) {
        Some(number) => Some(number as u32),
        None => None,
    }
}

/// The number of the boosted block's root. None exactly where that is zero.
#[tactic(auto, unfolding(crate::specs::Arrays::IsBoostedNode), using(crate::proofs::Following::boosting))]
pub fn boosted_node(blocks: &KeptBlocks, root: Root) -> Option<u32>
    requires few { length blocks.now < 2 ^ 32 }
    requires kept { IsZeroOrKept blocks.now root }
    ensures { IsBoostedNode blocks.now root result }
{
    if root == [0; 32] {
        return None;
    }
    node_number(blocks, root)
}

/// The block of a root. None exactly where the root isn't kept.
#[tactic(auto, using(crate::proofs::Keepers::reading))]
pub fn block_of<'a>(
    blocks: &KeptBlocks,
    keeper: &'a Keeper<ChainStepper>,
    root: Root,
) -> Option<&'a BeaconBlock>
    requires few { length blocks.now < 2 ^ 32 }
    requires keeper { kept_blocks keeper.now.blocks ≡ blocks.now }
    ensures { option_map (λ block. block.now) result ≡ option_map (λ kept. kept.block) (block_of blocks.now root) }
{
    match node_number(blocks, root) {
        Some(number) => Some(&keeper.block(number).message),
        None => None,
    }
}
