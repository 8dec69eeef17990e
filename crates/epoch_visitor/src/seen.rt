//! States that a call was shown, for clauses alone: none is kept.

ghost use Rattle.bc_words.specs.Outcome.{Becomes};
ghost use Rattle.std.specs.Prelude.{◌≡◌, List, [], ◌∷◌, ◌++◌};

use crate::visitor::Visitor;
use bc_words::NoMemory;
use beacon_state::State;
use std::alloc::Global;
use std::marker::Model;
use std::snapshot::Snapshot;

/// The states before, and the last one. Neither has bytes.
#[derive(Drop)]
pub enum Memory {
    /// No state.
    Empty,
    /// One state behind others.
    More(Snapshot<Memory>, Snapshot<State>),
}

/// States that were shown, in order. Clauses see the list of plain states; the program keeps none of them.
pub struct Seen {
    memory: Memory,
}

// Written by hand, so that a call that lets them go is one call, and not one for each form of a memory.
impl Drop for Seen {
    fn drop(self) {
        let Seen { memory: _memory } = self;
    }
}

impl Model for Seen {
    ghost use Rattle.std.specs.Prelude.{List};
    ghost use Rattle.spec_state.specs.declared.plain.PlainState.{PlainState};
    ghost use Rattle.epoch_visitor.specs.inside.Memories.{remembered};

    ghost Value = { List PlainState };

    ghost view = { λ seen. remembered seen.memory };

    ghost invariant = { λ seen. Unit {0} };
}

impl Seen {
    /// No state.
    #[tactic(auto, unfolding(crate::specs::inside::Memories::remembered))]
    pub fn new() -> Seen
        ensures { result ≡ [] }
    {
        Seen {
            memory: Memory::Empty,
        }
    }

    /// Adds a state behind the others.
    #[tactic(auto, unfolding(crate::specs::inside::Memories::remembered))]
    pub fn add(&mut self, state: &State)
        ensures { self.new ≡ self.old ++ state.now ∷ [] }
    {
        self.memory = Memory::More(Snapshot::of(&self.memory), Snapshot::of(state));
    }
}

impl Visitor for Seen {
    ghost shown = { λ states state. states ++ state ∷ [] };

    fn enter(&mut self, _alloc: Global, state: &State) -> Result<(), NoMemory> {
        self.add(state);
        Ok(())
    }
}
