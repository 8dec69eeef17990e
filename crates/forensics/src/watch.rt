//! A watch over the validators on the way to a block: whether they are those of genesis wherever epoch processing is entered.
//!
//! The state transition shows it each such state once, as it is made; none is kept.

ghost use Rattle.std.specs.Prelude.{◌≡◌, [], ◌∷◌, ◌++◌};
ghost use Rattle.spec_forensics.specs.Verdict.{first_moved};
ghost use Rattle.forensics.specs.Watches.{with_entered};

use crate::steady::is_steady;
use balance_totals::current_epoch;
use bc_words::NoMemory;
use beacon_state::State;
use epoch_visitor::{Seen, Visitor};
use std::alloc::Global;
use std::marker::Model;

/// The states that were shown, which clauses alone see, and the epoch of the first one at which the validators aren't those of
/// genesis.
pub struct Watch<'a> {
    genesis: &'a State,
    entered: Seen,
    moved: Option<u64>,
}

// Written by hand, so that a call that lets one go is one call, and not one for each way that its states are kept.
impl Drop for Watch<'_> {
    fn drop(self) {
        let Watch {
            genesis: _,
            entered: _entered,
            moved: _,
        } = self;
    }
}

impl<'a> Model for Watch<'a> {
    ghost use Rattle.std.specs.Prelude.{◌≡◌};
    ghost use Rattle.spec_forensics.specs.Verdict.{first_moved};
    ghost use Rattle.forensics.specs.Watches.{PlainWatch};

    ghost Value = { PlainWatch };

    ghost view = { λ w. record { genesis = w.genesis.now; entered = w.entered } };

    ghost invariant = { λ w. w.moved ≡ first_moved w.genesis.now w.entered };
}

/// The epoch of the first state that moved, with one state more. Nothing is looked at once there is one.
#[tactic(auto, using(crate::proofs::Watches::looking))]
fn look(moved: Option<u64>, genesis: &State, entered: &Seen, state: &State) -> Option<u64>
    requires { moved ≡ first_moved genesis.now entered.now }
    ensures { result ≡ first_moved genesis.now (entered.now ++ state.now ∷ []) }
{
    if moved.is_some() || is_steady(genesis, state) {
        moved
    } else {
        Some(current_epoch(state))
    }
}

impl<'a> Watch<'a> {
    /// A watch that was shown nothing.
    #[tactic(auto, unfolding(spec_forensics::specs::Verdict::first_moved))]
    pub fn new(genesis: &'a State) -> Watch<'a>
        ensures { result ≡ record { genesis = genesis.now; entered = [] } }
    {
        Watch {
            genesis,
            entered: Seen::new(),
            moved: None,
        }
    }

    /// The epoch of the first state that it was shown at which the validators aren't those of genesis.
    pub fn moved(&self) -> Option<u64>
        ensures { result ≡ first_moved self.now.genesis self.now.entered }
    {
        self.moved
    }

    /// The states that it was shown.
    pub(crate) fn entered(&self) -> &Seen
        ensures { result.now ≡ self.now.entered }
    {
        &self.entered
    }
}

impl<'a> Visitor for Watch<'a> {
    ghost shown = { with_entered };

    #[tactic(auto, unfolding(crate::specs::Watches::with_entered))]
    fn enter(&mut self, alloc: Global, state: &State) -> Result<(), NoMemory> {
        let moved = look(self.moved, self.genesis, &self.entered, state);
        self.entered.enter(alloc, state)?;
        self.moved = moved;
        Ok(())
    }
}
