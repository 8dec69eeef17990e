//! The step by a block as it goes into the store: it was made now, or when the block was kept.

ghost use Rattle.std.specs.Prelude.{◌≡◌};
ghost use Rattle.fork_store.specs.inside.Entered.{entered_behind};

use crate::store_fields::StoreFields;
use beacon_state::State;
use beacon_types::SignedBeaconBlock;
use epoch_visitor::Seen;
use std::marker::Model;
use std::snapshot::Snapshot;
use transition::Step;

/// How clauses know the states that a step entered.
#[derive(Drop)]
pub enum Way {
    /// They were shown when the step was made.
    Shown(Seen),
    /// They are those of the step by a block from the state that a store keeps behind its parent. It has no bytes.
    Again(Snapshot<StoreFields>, Snapshot<SignedBeaconBlock>),
}

/// The states that a step entered, in order, which only clauses see.
pub struct Entered {
    way: Way,
}

// Written by hand, so that a call that lets them go is one call, and not one for each way.
impl Drop for Entered {
    fn drop(self) {
        let Entered { way } = self;
        drop(way);
    }
}

impl Model for Entered {
    ghost use Rattle.std.specs.Prelude.{List};
    ghost use Rattle.spec_state.specs.declared.plain.PlainState.{PlainState};
    ghost use Rattle.fork_store.specs.inside.Entered.{told};

    ghost Value = { List PlainState };

    ghost view = { λ entered. told entered.way };

    ghost invariant = { λ entered. Unit {0} };
}

impl Entered {
    /// Those that were shown.
    #[tactic(auto, unfolding(crate::specs::inside::Entered::told))]
    fn shown(states: Seen) -> Entered
        ensures { result ≡ states }
    {
        Entered {
            way: Way::Shown(states),
        }
    }

    /// Those of the step by this block from the state that the store keeps behind its parent.
    #[tactic(auto, unfolding(crate::specs::inside::Entered::told))]
    fn again(store: &StoreFields, block: &SignedBeaconBlock) -> Entered
        ensures { result ≡ entered_behind store.now block.now }
    {
        Entered {
            way: Way::Again(Snapshot::of(store), Snapshot::of(block)),
        }
    }
}

/// A state, and the states that were entered on the way to it.
#[derive(Drop)]
pub struct MadeStep {
    /// The state.
    pub state: State,
    /// The states on which epoch processing was entered. None is kept.
    pub entered: Entered,
}

impl Model for MadeStep {
    ghost use Rattle.spec_transition.specs.ProcessSlots.{Stepped};

    ghost Value = { Stepped };

    ghost view = { λ step. record { state = step.state; entered = step.entered } };

    ghost invariant = { λ step. Unit {0} };
}

impl MadeStep {
    /// A step of the state transition.
    pub fn of(step: Step) -> MadeStep
        ensures { result ≡ step }
    {
        let Step { state, entered } = step;
        MadeStep {
            state,
            entered: Entered::shown(entered),
        }
    }

    /// The step to this state by this block from the state that the store keeps behind its parent.
    pub fn again(store: &StoreFields, block: &SignedBeaconBlock, state: State) -> MadeStep
        ensures { result ≡ record { state = state; entered = entered_behind store.now block.now } }
    {
        MadeStep {
            state,
            entered: Entered::again(store, block),
        }
    }
}
