//! The fields of the store of fork choice (fork-choice.md, "Store").
//!
//! They come from an anchor or genesis, and the handlers of events change them.

ghost use Rattle.std.specs.Prelude.{◌≡◌, ◌∷◌, ◌++◌, ◌≤◌, ◌<◌, ◌-◌, ◌^◌, [], length, Some, IfErr, IfSome};
ghost use Rattle.bc_words.specs.Outcome.{Becomes};
ghost use Rattle.std.specs.List.{AllByRecursion};
ghost use Rattle.bc_preset.specs.Presets.{IsPreset};
ghost use Rattle.fork_store.specs.inside.Accepted.{kept_of};
ghost use Rattle.fork_store.specs.Keepers.{IsKeeperOf};
ghost use Rattle.fork_store.specs.inside.Keepers.{IsStepOn};
ghost use Rattle.fork_store.specs.Stays.{KeeperStays};
ghost use Rattle.fork_store.specs.Stores.{HasPreset, IsKept, IsLate, IsStore, first_epoch};
ghost use Rattle.fork_store.specs.Trees.{Follows, IsTree};
ghost use Rattle.spec_fork_choice.specs.Store.{first_slot, is_kept};
ghost use Rattle.spec_fork_choice.specs.Slots.{start_slot_of};
ghost use Rattle.spec_state.specs.Misc.{compute_start_slot_at_epoch};
ghost use Rattle.fork_store.specs.Arrays.{messages_at, node_number};
ghost use Rattle.fork_store.specs.inside.Openings.{as_opened};
ghost use Rattle.fork_store.specs.inside.CheckpointStates.{IsStateOf};

use crate::chain_stepper::ChainStepper;
use crate::checkpoint_states::{CheckpointState, CheckpointStates};
use crate::kept_blocks::KeptBlocks;
use bc_preset::Config;
use bc_words::NoMemory;
use beacon_state::State;
use beacon_types::{Checkpoint, SignedBeaconBlock};
use block_array::BlockArray;
use hash_tree::Root;
use state_keeper::Keeper;
use std::marker::Model;
use std::snapshot::Snapshot;

/// The fields: the configuration, the time, three checkpoints, the boosted block's root, and the roots of the kept blocks.
///
/// The blocks and the states behind them are kept in the keeper alone, and the latest votes and the equivocating validators in the
/// array of nodes alone. What is here of them is the keeper as it was when a block was last kept, and the array as it was when votes were last taken, which only
/// clauses read.
pub struct StoreFields {
    config: Config,
    time: u64,
    genesis_time: u64,
    justified: Checkpoint,
    finalized: Checkpoint,
    best_justified: Checkpoint,
    boost_root: Root,
    blocks: KeptBlocks,
    voted: Option<Snapshot<BlockArray>>,
    states: CheckpointStates,
}

// Written by hand, so that a call that lets one go is one call, and not one for each of its lists.
impl Drop for StoreFields {
    fn drop(self) {
        let StoreFields {
            config,
            time: _,
            genesis_time: _,
            justified: _,
            finalized: _,
            best_justified: _,
            boost_root: _,
            blocks,
            voted,
            states,
        } = self;
        drop(config);
        drop(blocks);
        drop(voted);
        drop(states);
    }
}

impl Model for StoreFields {
    ghost use Rattle.spec_fork_choice.specs.Store.{Store as PlainStore};
    ghost use Rattle.fork_store.specs.inside.Plain.{plain_of};
    ghost use Rattle.fork_store.specs.Stores.{IsStore};
    ghost use Rattle.fork_store.specs.inside.CheckpointStates.{AreStatesOf};

    ghost Value = { PlainStore };

    ghost view = { plain_of };

    ghost invariant = { λ store. IsStore (plain_of store) × AreStatesOf store.config store.blocks store.states };
}

impl StoreFields {
    /// The store as it opens: its times and its three checkpoints are these, and there is no boost.
    pub fn as_opened(
        config: Config,
        time: u64,
        genesis_time: u64,
        checkpoint: Checkpoint,
        blocks: KeptBlocks,
        states: CheckpointStates,
    ) -> StoreFields
        requires presets { AllByRecursion (HasPreset config.preset) blocks }
        requires tree { IsTree blocks }
        requires later { genesis_time ≤ time }
        requires low { compute_start_slot_at_epoch config.preset checkpoint.epoch < 2 ^ 64 }
        requires begins { compute_start_slot_at_epoch config.preset (first_epoch config.preset blocks) ≡ first_slot blocks }
        requires late { first_epoch config.preset blocks ≤ checkpoint.epoch }
        requires none { states ≡ [] }
        ensures { result ≡ as_opened config time genesis_time checkpoint blocks [] }
    {
        StoreFields {
            config,
            time,
            genesis_time,
            justified: checkpoint,
            finalized: checkpoint,
            best_justified: checkpoint,
            boost_root: [0; 32],
            blocks,
            voted: None,
            states,
        }
    }

    /// The law that holds of all fields. It does nothing when it runs.
    pub fn is_sound(&self)
        ensures store { IsStore self.now }
        ensures kept { AllByRecursion IsKept self.now.blocks }
        ensures preset { IsPreset self.now.config.preset }
    {
        self.blocks.are_kept();
        let _preset = self.config.preset();
    }

    /// The configuration.
    pub fn config(&self) -> &Config
        ensures { result.now ≡ self.now.config }
    {
        &self.config
    }

    /// The time, in seconds, and not before genesis.
    pub fn time(&self) -> u64
        ensures same { result ≡ self.now.time }
        ensures later { self.now.genesis_time ≤ self.now.time }
    {
        self.time
    }

    /// The time of genesis, in seconds.
    pub fn genesis_time(&self) -> u64
        ensures { result ≡ self.now.genesis_time }
    {
        self.genesis_time
    }

    /// The justified checkpoint, whose epoch begins at a slot of 64 bits, which isn't before the first kept block.
    #[tactic(auto, using(crate::proofs::FirstSlots::late_start))]
    pub fn justified(&self) -> Checkpoint
        ensures same { result ≡ self.now.justified_checkpoint }
        ensures low { start_slot_of self.now self.now.justified_checkpoint < 2 ^ 64 }
        ensures epoch { IsLate self.now self.now.justified_checkpoint }
        ensures late { first_slot self.now.blocks ≤ start_slot_of self.now self.now.justified_checkpoint }
    {
        self.justified
    }

    /// The finalized checkpoint, whose epoch begins no earlier than the first kept block.
    #[tactic(auto, using(crate::proofs::FirstSlots::late_start))]
    pub fn finalized(&self) -> Checkpoint
        ensures same { result ≡ self.now.finalized_checkpoint }
        ensures epoch { IsLate self.now self.now.finalized_checkpoint }
        ensures late { first_slot self.now.blocks ≤ start_slot_of self.now self.now.finalized_checkpoint }
    {
        self.finalized
    }

    /// The best justified checkpoint, whose epoch begins at a slot of 64 bits.
    pub fn best_justified(&self) -> Checkpoint
        ensures same { result ≡ self.now.best_justified_checkpoint }
        ensures low { start_slot_of self.now self.now.best_justified_checkpoint < 2 ^ 64 }
        ensures epoch { IsLate self.now self.now.best_justified_checkpoint }
    {
        self.best_justified
    }

    /// The root of the boosted block, and zero where none is boosted.
    pub fn boost_root(&self) -> Root
        ensures { result ≡ self.now.proposer_boost_root }
    {
        self.boost_root
    }

    /// The kept blocks.
    pub fn blocks(&self) -> &KeptBlocks
        ensures { result.now ≡ self.now.blocks }
    {
        &self.blocks
    }

    /// Whether a root is a kept block's.
    #[tactic(auto, using(crate::proofs::Finds::keeping))]
    pub fn is_kept(&self, root: Root) -> bool
        ensures { result ≡ is_kept self.now.blocks root }
    {
        self.blocks.node_number(root).is_some()
    }

    /// The latest votes and the equivocating validators are those that the array has now. It takes no memory.
    pub fn take_votes(&mut self, array: &BlockArray)
        ensures { self.new ≡ record self.old { latest_messages = messages_at array.now.nodes array.now.latest_messages; equivocating_indices = array.now.silenced_validators } }
    {
        self.voted = Some(Snapshot::of(array));
    }

    /// Takes another time, which isn't before genesis.
    pub fn set_time(&mut self, time: u64)
        requires { self.old.genesis_time ≤ time }
        ensures { self.new ≡ record self.old { time = time } }
    {
        self.time = time;
    }

    /// Takes another justified checkpoint.
    pub fn set_justified(&mut self, checkpoint: Checkpoint)
        requires low { start_slot_of self.old checkpoint < 2 ^ 64 }
        requires late { IsLate self.old checkpoint }
        ensures { self.new ≡ record self.old { justified_checkpoint = checkpoint } }
    {
        self.justified = checkpoint;
    }

    /// Takes another finalized checkpoint.
    pub fn set_finalized(&mut self, checkpoint: Checkpoint)
        requires late { IsLate self.old checkpoint }
        ensures { self.new ≡ record self.old { finalized_checkpoint = checkpoint } }
    {
        self.finalized = checkpoint;
    }

    /// Takes another best justified checkpoint.
    pub fn set_best_justified(&mut self, checkpoint: Checkpoint)
        requires low { start_slot_of self.old checkpoint < 2 ^ 64 }
        requires late { IsLate self.old checkpoint }
        ensures { self.new ≡ record self.old { best_justified_checkpoint = checkpoint } }
    {
        self.best_justified = checkpoint;
    }

    /// Boosts the block of another root, or none where it is zero.
    pub fn set_boost_root(&mut self, root: Root)
        ensures { self.new ≡ record self.old { proposer_boost_root = root } }
    {
        self.boost_root = root;
    }

    /// Keeps a block behind the others, in the keeper of these blocks. Where memory is refused, the store is as before, and the keeper
    /// but for its room.
    pub fn keep(
        &mut self,
        keeper: &mut Keeper<ChainStepper>,
        parent: u32,
        root: Root,
        block: SignedBeaconBlock,
        state: State,
    ) -> Result<(), NoMemory>
        requires keeper { IsKeeperOf self.old keeper.old }
        requires few { length self.old.blocks < 2 ^ 32 - 1 }
        requires preset { state.preset ≡ self.old.config.preset }
        requires follows { Follows self.old.blocks (kept_of root block.message state) }
        requires kept { IsKept (kept_of root block.message state) }
        requires parent { Some parent ≡ node_number self.old.blocks block.message.parent_root }
        requires step { IsStepOn self.old.config self.old.blocks block state }
        ensures kept { Becomes result self.old self.new (record self.old { blocks = self.old.blocks ++ kept_of root block.message state ∷ [] }) }
        ensures keeper { IsKeeperOf self.new keeper.new }
        ensures stays { IfErr result (λ _. KeeperStays keeper.old keeper.new) }
    {
        self.blocks.push(keeper, parent, root, block, state)
    }

    /// The state that is kept of a checkpoint, if one is. It is the checkpoint's own.
    pub fn checkpoint_state(&self, checkpoint: Checkpoint) -> Option<&CheckpointState>
        ensures own { IfSome result (λ kept. IsStateOf self.now kept.now) }
        ensures checkpoint { IfSome result (λ kept. kept.now.checkpoint ≡ checkpoint) }
    {
        self.states.find(checkpoint)
    }

    /// Keeps the state of a checkpoint, and lets those of epochs before the finalized one go. Contracts see none of them.
    pub fn keep_checkpoint_state(&mut self, made: CheckpointState) -> Result<(), NoMemory>
        requires { IsStateOf self.old made }
        ensures { self.new ≡ self.old }
    {
        self.states.keep(made, self.finalized.epoch)
    }
}
