//! The blocks of a history in the order in which they were first accepted, each looked up by its root. Genesis is the first of them.

ghost use Rattle.std.specs.Prelude.{◌≡◌, [], length, take, is_some, if◌then◌else◌, Some, None, IfOk};
ghost use Rattle.std.specs.Option.{option_map};
ghost use Rattle.bc_words.specs.Outcome.{Becomes};
ghost use Rattle.spec_fork_choice.specs.Store.{block_of, is_kept};
ghost use Rattle.spec_fork_choice.specs.Clash.{is_another as another, place_of};
ghost use Rattle.spec_fork_choice.specs.GetForkchoiceStore.{genesis_block};
ghost use Rattle.spec_fork_choice.specs.SameBlock.{same_block as same_blocks};
ghost use Rattle.spec_forensics.specs.Clash.{first_accepted, clash_among};
ghost use Rattle.forensics.specs.inside.Kept.{with_kept};

use bc_words::NoMemory;
use beacon_state::State;
use beacon_types::{BeaconBlock, default_block_body};
use hash_tree::Root;
use indexmap::IndexMap;
use std::alloc::Global;
use std::marker::Model;
use std::snapshot::Snapshot;

/// A block, and the state behind it, which only clauses see.
pub(crate) struct Kept {
    block: BeaconBlock,
    state: Snapshot<State>,
}

// Written by hand, so that a call that lets one go is one call, and not one for each of its parts.
impl Drop for Kept {
    fn drop(self) {
        let Kept { block, state } = self;
        drop(block);
        drop(state);
    }
}

/// Blocks in the order of their first acceptance, each looked up by its root. Clauses see the list of them.
pub(crate) struct KeptBlocks {
    entries: IndexMap<Root, Kept>,
}

// Written by hand, so that a call that lets one go is one call, and not one for each of its parts.
impl Drop for KeptBlocks {
    fn drop(self) {
        let KeptBlocks { entries: _entries } = self;
    }
}

impl Model for KeptBlocks {
    ghost use Rattle.std.specs.Prelude.{List};
    ghost use Rattle.spec_fork_choice.specs.Store.{KeptBlock as PlainBlock};
    ghost use Rattle.forensics.specs.inside.Kept.{kept_blocks};

    ghost Value = { List PlainBlock };

    ghost view = { λ blocks. kept_blocks blocks.entries.entries };

    ghost invariant = { λ blocks. Unit {0} };
}

/// The block of a genesis state (beacon-chain.md, "Genesis block").
#[tactic(auto, unfolding(spec_fork_choice::specs::GetForkchoiceStore::genesis_block))]
fn genesis_block(alloc: Global, genesis: &State) -> BeaconBlock
    ensures { result ≡ genesis_block genesis.now }
{
    BeaconBlock {
        slot: 0,
        proposer_index: 0,
        parent_root: [0; 32],
        state_root: genesis.root(),
        body: default_block_body(alloc),
    }
}

/// Whether two blocks are the same.
#[tactic(auto, using(spec_fork_choice::proofs::SameBlock::block_decides))]
fn same_block(a: &BeaconBlock, b: &BeaconBlock) -> bool
    ensures { result ≡ same_blocks a.now b.now }
{
    a.equals(b)
}

/// Whether a kept block is there and is another one.
#[tactic(auto, unfolding(spec_fork_choice::specs::Clash::is_another))]
fn is_another(kept: Option<&BeaconBlock>, new: &BeaconBlock) -> bool
    ensures { result ≡ another (option_map (λ b. b.now) kept.entry) new.now }
{
    match kept {
        Some(other) => !same_block(other, new),
        None => false,
    }
}

impl KeptBlocks {
    /// The genesis block alone.
    pub(crate) fn at_genesis(alloc: Global, genesis: &State) -> Result<KeptBlocks, NoMemory>
        ensures { IfOk result (λ blocks. blocks ≡ first_accepted genesis.now []) }
    {
        let mut entries = IndexMap::new(alloc);
        let block = genesis_block(alloc, genesis);
        let state = Snapshot::of(genesis);
        let _none = entries.insert(genesis.header_root(), Kept { block, state })?;
        Ok(KeptBlocks { entries })
    }

    /// The block of a root. None exactly where the root isn't kept.
    fn block(&self, root: Root) -> Option<&BeaconBlock>
        ensures { option_map (λ b. b.now) result ≡ option_map (λ k. k.block) (block_of self.now root) }
    {
        match self.entries.get(&root) {
            Some(kept) => Some(&kept.block),
            None => None,
        }
    }

    /// The place of a root's block, or their number where the root isn't kept.
    fn place(&self, root: Root) -> usize
        ensures { result ≡ place_of self.now root }
    {
        match self.entries.get_index_of(&root) {
            Some(place) => place,
            None => self.entries.len(),
        }
    }

    /// The place of the kept block that has a block's root and another content. None exactly where there is none.
    #[tactic(auto, unfolding(spec_forensics::specs::Clash::clash_among))]
    pub(crate) fn clash(&self, root: Root, block: &BeaconBlock) -> Option<usize>
        ensures { result ≡ clash_among self.now root block.now }
    {
        if is_another(self.block(root), block) {
            Some(self.place(root))
        } else {
            None
        }
    }

    /// Keeps a block behind the others, unless its root is kept. Where memory is refused, they are as before.
    pub(crate) fn keep(
        &mut self,
        alloc: Global,
        root: Root,
        block: &BeaconBlock,
        state: &State,
    ) -> Result<(), NoMemory>
        ensures { Becomes result self.old self.new (with_kept self.old record { root = root; block = block.now; state = state.now }) }
    {
        if self.entries.contains_key(&root) {
            return Ok(());
        }
        let block = block.copy(alloc)?;
        let state = Snapshot::of(state);
        let _none = self.entries.insert(root, Kept { block, state })?;
        Ok(())
    }

    /// How many there are.
    pub(crate) fn len(&self) -> usize
        ensures { result ≡ length self.now }
    {
        self.entries.len()
    }

    /// Keeps the first so many alone.
    #[tactic(auto, unfolding(crate::specs::inside::Kept::kept_blocks))]
    pub(crate) fn truncate(&mut self, len: usize)
        ensures { self.new ≡ take len self.old }
    {
        self.entries.truncate(len);
    }
}
