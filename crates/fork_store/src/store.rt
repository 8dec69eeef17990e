//! The store of fork choice (fork-choice.md, "Store").
//!
//! Beside its fields it keeps the array of nodes, by which blocks are weighed, and the keeper of the states behind them, and holds
//! ready the balances of the best justified checkpoint, so that neither a tick nor the head takes memory.

ghost use Rattle.std.specs.Prelude.{◌≡◌, ◌<◌, ◌^◌, ℕ, true, length, IfOk};
ghost use Rattle.std.specs.Option.{option_map};
ghost use Rattle.spec_fork_choice.specs.Clash.{clash_among};
ghost use Rattle.spec_fork_choice.specs.Store.{block_of, is_kept};
ghost use Rattle.spec_fork_choice.specs.StoreTargetCheckpointState.{store_target_checkpoint_state};
ghost use Rattle.fork_store.specs.KeptSteps.{IsStepOfParent};
ghost use Rattle.fork_store.specs.Arrays.{IsArrayOf};
ghost use Rattle.fork_store.specs.Done.{IsDone};
ghost use Rattle.fork_store.specs.Keepers.{IsKeeperOf};
ghost use Rattle.fork_store.specs.Roots.{roots_of};

use crate::chain_stepper::ChainStepper;
use crate::clashes::clash_among;
use crate::kept_blocks::{block_of, node_number};
use crate::kept_state::kept_state;
use crate::ready_balances::ReadyBalances;
use crate::store_fields::StoreFields;
use bc_words::NoMemory;
use beacon_state::State;
use beacon_types::{BeaconBlock, Checkpoint};
use block_array::BlockArray;
use hash_tree::Root;
use state_keeper::Keeper;
use std::marker::Model;

/// The store. Contracts see the plain store, and beside it the array and the keeper, which are always those of the plain store.
pub struct Store {
    pub(crate) fields: StoreFields,
    pub(crate) array: BlockArray,
    pub(crate) keeper: Keeper<ChainStepper>,
    pub(crate) ready: Option<ReadyBalances>,
}

// Written by hand, so that a call that lets one go is one call, and not one for each of its lists.
impl Drop for Store {
    fn drop(self) {
        let Store {
            fields,
            array,
            keeper,
            ready,
        } = self;
        drop(fields);
        drop(array);
        drop(keeper);
        drop(ready);
    }
}

impl Model for Store {
    ghost use Rattle.fork_store.specs.Seen.{Seen};
    ghost use Rattle.fork_store.specs.inside.Wholes.{AreParts};

    ghost Value = { Seen };

    ghost view = { λ s. record { plain = s.fields; array = s.array; keeper = s.keeper } };

    ghost invariant = { λ s. AreParts s.fields s.array s.keeper s.ready };
}

impl Store {
    /// The array of nodes: the kept blocks in order, with the latest messages, the checkpoints, the boost, and the balances of the
    /// justified checkpoint.
    pub fn array(&self) -> &BlockArray
        ensures same { result.now ≡ self.now.array }
        ensures of_store { IsArrayOf self.now.plain self.now.array }
    {
        &self.array
    }

    /// The keeper of states: the kept blocks in order, each with its signature as it first came, its parent's number and the state
    /// behind it, which it gives whichever states were dropped.
    pub fn keeper(&self) -> &Keeper<ChainStepper>
        ensures same { result.now ≡ self.now.keeper }
        ensures of_store { IsKeeperOf self.now.plain self.now.keeper }
    {
        &self.keeper
    }

    /// The law that the justified checkpoint's block is kept and that its state is there: the slots up to its epoch are neither
    /// refused nor limited, since an accepted block passed them. It does nothing when it runs.
    #[tactic(auto, using(crate::proofs::Chains::justified_law))]
    pub fn justified_state_is_done(&self)
        ensures kept { is_kept self.now.plain.blocks self.now.plain.justified_checkpoint.root ≡ true }
        ensures done { IsDone (store_target_checkpoint_state self.now.plain self.now.plain.justified_checkpoint) }
    {
        let _store = &self.fields;
    }

    /// The law that each kept block but the first one is the keeper's of its number, behind its parent's, and that the state behind it is
    /// the step of its parent's state by it. Where it comes again, the states that it leaves are those that this step entered. It does
    /// nothing when it runs.
    pub fn steps_were_taken(&self)
        ensures { (number : ℕ) → 0 < number → number < length self.now.plain.blocks → IsStepOfParent self.now.plain self.now.keeper number }
    {
        self.fields.is_sound();
        self.keeper.steps_were_taken();
    }

    /// The justified checkpoint.
    pub fn justified(&self) -> Checkpoint
        ensures { result ≡ self.now.plain.justified_checkpoint }
    {
        self.fields.justified()
    }

    /// The finalized checkpoint.
    pub fn finalized(&self) -> Checkpoint
        ensures { result ≡ self.now.plain.finalized_checkpoint }
    {
        self.fields.finalized()
    }

    /// The roots of the kept blocks in the order of their acceptance, the one that the store opened at first.
    pub fn accepted(&self) -> &[Root]
        ensures { result.now ≡ roots_of self.now.plain.blocks }
    {
        self.fields.blocks().roots()
    }

    /// The block of a root. None exactly where the root isn't kept.
    #[tactic(auto, using(crate::proofs::Keepers::keeping))]
    pub fn block(&self, root: Root) -> Option<&BeaconBlock>
        ensures { option_map (λ block. block.now) result ≡ option_map (λ kept. kept.block) (block_of self.now.plain.blocks root) }
    {
        block_of(self.fields.blocks(), &self.keeper, root)
    }

    /// The place of the kept block that has this root and another content than this block. None exactly where there is none. Signatures
    /// don't count.
    #[tactic(auto, using(crate::proofs::Keepers::keeping))]
    pub fn other_block(&self, root: Root, block: &BeaconBlock) -> Option<u32>
        requires { length self.now.plain.blocks < 2 ^ 32 }
        ensures { result ≡ clash_among self.now.plain.blocks root block.now }
    {
        clash_among(self.fields.blocks(), &self.keeper, root, block)
    }

    /// The state behind the block of a root. None exactly where the root isn't kept. The store is as before: a state that was dropped
    /// is made again.
    #[tactic(auto, using(crate::proofs::Keepers::answering, crate::proofs::Keepers::keeping))]
    pub fn state(&mut self, root: Root) -> Result<Option<State>, NoMemory>
        ensures state { IfOk result (λ state. state ≡ option_map (λ kept. kept.state) (block_of self.old.plain.blocks root)) }
        ensures same { self.new ≡ self.old }
    {
        let Some(number) = node_number(self.fields.blocks(), root) else {
            return Ok(None);
        };
        let state = kept_state(self.fields.blocks(), &mut self.keeper, number)?;
        Ok(Some(state))
    }
}
