//! A visitor that clauses watch: the states that it was shown stand beside it.
//!
//! The visitor comes from the caller of a step; what clauses saw of it goes to the step.

ghost use Rattle.std.specs.Prelude.{◌≡◌, [], ◌∷◌, ◌++◌};

use crate::seen::Seen;
use crate::visitor::Visitor;
use bc_words::NoMemory;
use beacon_state::State;
use std::alloc::Global;

/// A visitor, and the states that the last call showed it, which only clauses see.
#[derive(Drop)]
pub struct Watched<V> {
    /// The visitor.
    pub visitor: V,
    /// The states that the last call showed it. None is kept.
    pub seen: Seen,
}

impl<V> Watched<V> {
    /// A visitor.
    pub fn new(visitor: V) -> Watched<V>
        ensures { result.visitor ≡ visitor }
    {
        Watched {
            visitor,
            seen: Seen::new(),
        }
    }
}

impl<V: Visitor> Visitor for Watched<V> {
    ghost shown = { λ watched state. record watched { visitor = V.shown watched.visitor state; seen = watched.seen ++ state ∷ [] } };

    fn enter(&mut self, alloc: Global, state: &State) -> Result<(), NoMemory> {
        self.visitor.enter(alloc, state)?;
        self.seen.add(state);
        Ok(())
    }
}
