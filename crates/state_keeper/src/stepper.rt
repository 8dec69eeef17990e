//! What takes a state behind a block.

ghost use Rattle.bc_words.specs.Outcome.{Gives, Outcome};
ghost use Rattle.spec_state.specs.declared.plain.PlainState.{PlainState};

use bc_words::Stop;
use beacon_state::State;
use std::alloc::Global;

/// A step from the state of a block's parent to that of the block.
pub trait Stepper: Drop {
    /// What a step is taken by.
    type Block: Drop;

    /// Which steps may be asked for.
    ghost can_step: { Self → PlainState → Self.Block → Type 0 };

    /// The plain step: the state behind the block, or why there is none.
    ghost plain_step: { Self → PlainState → Self.Block → Outcome PlainState };

    /// The state behind a block on the given state, or the stop of the plain step. Want of memory may come instead of either.
    /// So where a step was found done, taking it again can't refuse.
    fn step(&self, alloc: Global, state: &State, block: &Self::Block) -> Result<State, Stop>
        requires { can_step self.now state.now block.now }
        ensures { Gives result (plain_step self.now state.now block.now) };
}
