//! The states of checkpoints that were needed, each with the committees of its checkpoint's epoch.
//!
//! They come from accepted attestations, and serve the attestations for the same target that come behind those.

ghost use Rattle.std.specs.Prelude.{◌≡◌, [], leb, filter};
ghost use Rattle.std.specs.Option.{option_map};
ghost use Rattle.bc_words.specs.Outcome.{Becomes};
ghost use Rattle.spec_state.specs.inside.EpochCommittees.{epoch_committees};
ghost use Rattle.fork_store.specs.inside.Kept.{checkpoint_state_of, with_checkpoint_state};

use bc_words::NoMemory;
use beacon_state::State;
use beacon_types::Checkpoint;
use committees::EpochCommittees;
use std::alloc::Global;
use std::marker::Model;
use std::rc::Rc;

/// The state of a checkpoint with the committees of the checkpoint's epoch. Clauses see checkpoint and state.
#[derive(Drop)]
pub struct CheckpointState {
    checkpoint: Checkpoint,
    state: State,
    committees: Rc<EpochCommittees>,
}

impl Model for CheckpointState {
    ghost use Rattle.std.specs.Prelude.{◌≡◌};
    ghost use Rattle.spec_state.specs.inside.EpochCommittees.{epoch_committees};
    ghost use Rattle.fork_store.specs.inside.Kept.{CheckpointState as PlainCheckpointState};

    ghost Value = { PlainCheckpointState };

    ghost view = { λ kept. record { checkpoint = kept.checkpoint; state = kept.state } };

    ghost invariant = { λ kept. kept.committees.value ≡ epoch_committees kept.state kept.checkpoint.epoch };
}

impl CheckpointState {
    /// The state of a checkpoint with these committees.
    pub fn new(
        checkpoint: Checkpoint,
        state: State,
        committees: Rc<EpochCommittees>,
    ) -> CheckpointState
        requires { committees.value ≡ epoch_committees state checkpoint.epoch }
        ensures { result ≡ record { checkpoint = checkpoint; state = state } }
    {
        CheckpointState {
            checkpoint,
            state,
            committees,
        }
    }

    /// The checkpoint.
    pub fn checkpoint(&self) -> Checkpoint
        ensures { result ≡ self.now.checkpoint }
    {
        self.checkpoint
    }

    /// The state.
    pub fn state(&self) -> &State
        ensures { result.now ≡ self.now.state }
    {
        &self.state
    }

    /// The committees of the checkpoint's epoch.
    pub fn committees(&self) -> &EpochCommittees
        ensures { result.now ≡ epoch_committees self.now.state self.now.checkpoint.epoch }
    {
        &self.committees
    }
}

/// Kept states of checkpoints. Clauses see the list of them.
pub struct CheckpointStates {
    items: Vec<CheckpointState>,
}

// Written by hand, so that a call that lets one go is one call, and not one for each of its lists.
impl Drop for CheckpointStates {
    fn drop(self) {
        let CheckpointStates { items } = self;
        drop(items);
    }
}

impl Model for CheckpointStates {
    ghost use Rattle.std.specs.Prelude.{List};
    ghost use Rattle.fork_store.specs.inside.Kept.{CheckpointState as PlainCheckpointState};

    ghost Value = { List PlainCheckpointState };

    ghost view = { λ states. states.items.items };

    ghost invariant = { λ states. Unit {0} };
}

impl CheckpointStates {
    /// No state.
    pub fn new(alloc: Global) -> CheckpointStates
        ensures { result ≡ [] }
    {
        CheckpointStates {
            items: Vec::new(alloc),
        }
    }

    /// What is kept of a checkpoint. None exactly where nothing is.
    pub fn find(&self, checkpoint: Checkpoint) -> Option<&CheckpointState>
        ensures { option_map (λ kept. kept.now) result ≡ checkpoint_state_of self.now checkpoint }
    {
        find_state(self.items.as_slice(), &checkpoint)
    }

    /// Keeps another state, and then lets those before an epoch go. Where memory is refused, they are as before.
    #[tactic(auto, unfolding(crate::specs::inside::Kept::with_checkpoint_state))]
    pub fn keep(&mut self, kept: CheckpointState, epoch: u64) -> Result<(), NoMemory>
        ensures { Becomes result self.old self.new (with_checkpoint_state self.old epoch kept) }
    {
        self.items.push(kept)?;
        drop_before(&mut self.items, epoch);
        Ok(())
    }
}

/// Lets the states before an epoch go.
fn drop_before(states: &mut Vec<CheckpointState>, epoch: u64)
    ensures { states.new.items ≡ filter (λ kept. leb epoch kept.checkpoint.epoch) states.old.items }
{
    states.retain(|kept| epoch <= kept.checkpoint().epoch);
}

/// The first state of a checkpoint.
#[tactic(auto, using(crate::proofs::Finding::find_state))]
fn find_state<'a>(
    states: &'a [CheckpointState],
    checkpoint: &Checkpoint,
) -> Option<&'a CheckpointState>
    ensures { option_map (λ kept. kept.now) result ≡ checkpoint_state_of states.now checkpoint.now }
{
    for i in 0..states.len() {
        if states[i].checkpoint() == *checkpoint {
            return Some(&states[i]);
        }
    }
    None
}
