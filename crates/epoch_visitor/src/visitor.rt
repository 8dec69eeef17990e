//! What is shown the states on which epoch processing is entered.

ghost use Rattle.bc_words.specs.Outcome.{Becomes};
ghost use Rattle.spec_state.specs.declared.plain.PlainState.{PlainState};
ghost use Rattle.std.specs.Prelude.{◌≡◌};

use bc_words::NoMemory;
use beacon_state::State;
use std::alloc::Global;

/// What is shown each state on which epoch processing is entered, as it is before that processing, in order.
pub trait Visitor {
    /// What becomes of it by one state.
    ghost shown: { Self → PlainState → Self };

    /// Shows it a state. Where memory is refused, it is as before.
    fn enter(&mut self, alloc: Global, state: &State) -> Result<(), NoMemory>
        ensures { Becomes result self.old self.new (shown self.old state.now) };
}
