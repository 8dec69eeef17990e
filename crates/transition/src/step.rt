//! What the state transition gives: a new state, and the states on the way to it on which epoch processing was entered.
//!
//! Steps come from `process_slots` and `state_transition`, and go to fork choice and to whoever follows justification.

ghost use Rattle.std.specs.Prelude.{◌≡◌, ◌∷◌, ◌++◌, [], length, slice_get, option_map};
ghost use Rattle.bc_words.specs.Outcome.{Becomes};

use bc_words::NoMemory;
use beacon_state::State;
use epoch_visitor::{Seen, Visitor};
use std::alloc::Global;
use std::marker::Model;

/// States, in order. Clauses see the list of plain states.
#[derive(Drop)]
pub struct States {
    items: Vec<State>,
}

impl Model for States {
    ghost use Rattle.std.specs.Prelude.{List};
    ghost use Rattle.spec_state.specs.declared.plain.PlainState.{PlainState};

    ghost Value = { List PlainState };

    ghost view = { λ states. states.items.items };

    ghost invariant = { λ states. Unit {0} };
}

impl States {
    /// No state.
    pub fn new(alloc: Global) -> States
        ensures { result ≡ [] }
    {
        States {
            items: Vec::new(alloc),
        }
    }

    /// How many there are.
    pub fn len(&self) -> usize
        ensures { result ≡ length self.now }
    {
        self.items.len()
    }

    /// The state at an index.
    pub fn get(&self, index: usize) -> Option<&State>
        ensures { option_map (λ x. x.now) result ≡ slice_get self.now index }
    {
        self.items.get(index)
    }

    /// Adds a state behind the others. Where memory is refused, they are as before.
    pub fn push(&mut self, state: State) -> Result<(), NoMemory>
        ensures { Becomes result self.old self.new (self.old ++ state ∷ []) }
    {
        Ok(self.items.push(state)?)
    }
}

impl Visitor for States {
    ghost shown = { λ states state. states ++ state ∷ [] };

    fn enter(&mut self, _alloc: Global, state: &State) -> Result<(), NoMemory> {
        self.push(state.share()?)
    }
}

/// A state, and the states on the way to it on which epoch processing was entered, in order, which only clauses see.
#[derive(Drop)]
pub struct Step {
    /// The state.
    pub state: State,
    /// The states on which epoch processing was entered. None is kept.
    pub entered: Seen,
}

impl Model for Step {
    ghost use Rattle.spec_transition.specs.ProcessSlots.{Stepped};

    ghost Value = { Stepped };

    ghost view = { λ step. record { state = step.state; entered = step.entered } };

    ghost invariant = { λ step. Unit {0} };
}
