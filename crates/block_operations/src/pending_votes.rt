//! The votes of a block on their way into the two lists of pending attestations.
//!
//! Votes come from `pending`, one attestation at a time, and go into the state together, so that the nodes at the end of a list
//! are hashed once for all votes of a block.

ghost use Rattle.std.specs.Prelude.{◌≡◌, ◌++◌, [], ◌∷◌, length, OnOk};
ghost use Rattle.beacon_types.specs.Containers.{pending_attestation_codec};
ghost use Rattle.block_operations.specs.WithVotes.{with_votes, HasRoom};

use bc_words::NoMemory;
use beacon_state::{NewLeaf, State};
use beacon_types::PendingAttestation;
use hash_tree::Root;
use std::alloc::Global;
use std::marker::Model;

/// Votes for the previous and for the current epoch, each with its root. Contracts see the two lists.
#[derive(Drop)]
pub struct PendingVotes {
    previous: Vec<NewLeaf<PendingAttestation>>,
    current: Vec<NewLeaf<PendingAttestation>>,
}

impl Model for PendingVotes {
    ghost use Rattle.std.specs.Prelude.{List};
    ghost use Rattle.beacon_types.specs.declared.pending_attestation.PendingAttestation.{PendingAttestation};

    ghost Value = { List PendingAttestation × List PendingAttestation };

    ghost view = { λ votes. (votes.previous.items, votes.current.items) };
}

/// Puts a vote, which has this root, behind others.
fn push_vote(
    votes: &mut Vec<NewLeaf<PendingAttestation>>,
    vote: PendingAttestation,
    root: Root,
) -> Result<(), NoMemory>
    requires { root ≡ pending_attestation_codec.hash_tree_root vote }
    ensures { OnOk result (votes.new.items ≡ votes.old.items ++ vote ∷ []) }
{
    let leaf = NewLeaf::known(vote, root, *votes.allocator())?;
    votes.push(leaf)?;
    Ok(())
}

impl PendingVotes {
    /// No votes for the lists of a state.
    #[tactic(auto, using(crate::proofs::WithVotes::no_votes))]
    pub fn none(alloc: Global, state: &State) -> PendingVotes
        ensures none { with_votes state.now result ≡ state.now }
        ensures room { HasRoom state.now result }
    {
        let _previous = state.previous_epoch_attestations_len();
        let _current = state.current_epoch_attestations_len();
        PendingVotes {
            previous: Vec::new(alloc),
            current: Vec::new(alloc),
        }
    }

    /// How many votes for the previous epoch there are.
    pub(crate) fn previous_len(&self) -> u64
        ensures { result ≡ length self.now.0 }
    {
        self.previous.len() as u64
    }

    /// How many votes for the current epoch there are.
    pub(crate) fn current_len(&self) -> u64
        ensures { result ≡ length self.now.1 }
    {
        self.current.len() as u64
    }

    /// One more vote for the previous epoch, which has this root.
    pub(crate) fn push_previous(
        &mut self,
        vote: PendingAttestation,
        root: Root,
    ) -> Result<(), NoMemory>
        requires { root ≡ pending_attestation_codec.hash_tree_root vote }
        ensures { OnOk result (self.new ≡ (self.old.0 ++ vote ∷ [], self.old.1)) }
    {
        push_vote(&mut self.previous, vote, root)
    }

    /// One more vote for the current epoch, which has this root.
    pub(crate) fn push_current(
        &mut self,
        vote: PendingAttestation,
        root: Root,
    ) -> Result<(), NoMemory>
        requires { root ≡ pending_attestation_codec.hash_tree_root vote }
        ensures { OnOk result (self.new ≡ (self.old.0, self.old.1 ++ vote ∷ [])) }
    {
        push_vote(&mut self.current, vote, root)
    }

    /// Puts the votes into the state. It leaves anything there where memory is refused.
    #[tactic(auto, unfolding(crate::specs::WithVotes::with_votes))]
    pub fn put(self, state: &mut State) -> Result<(), NoMemory>
        requires { HasRoom state.old self }
        ensures { OnOk result (state.new ≡ with_votes state.old self) }
    {
        let PendingVotes { previous, current } = self;
        state.append_previous_epoch_attestations(previous)?;
        state.append_current_epoch_attestations(current)
    }
}
