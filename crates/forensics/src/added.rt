//! The blocks that were added to a history, for clauses alone: none is kept.

ghost use Rattle.std.specs.Prelude.{◌≡◌, [], ◌∷◌};

use beacon_state::State;
use beacon_types::BeaconBlock;
use epoch_visitor::Seen;
use hash_tree::Root;
use std::marker::Model;
use std::snapshot::Snapshot;

/// The blocks before, and the last one: its event, its root, itself, the state behind it and the states entered. None has bytes.
#[derive(Drop)]
pub(crate) enum Memory {
    /// No block.
    Empty,
    /// One block behind others.
    More(
        Snapshot<Memory>,
        Snapshot<u32>,
        Snapshot<Root>,
        Snapshot<BeaconBlock>,
        Snapshot<State>,
        Snapshot<Seen>,
    ),
}

/// Blocks that were added, the latest first. Clauses see the list of them; the program keeps none here.
#[derive(Drop)]
pub(crate) struct Added {
    memory: Memory,
}

impl Model for Added {
    ghost use Rattle.std.specs.Prelude.{List};
    ghost use Rattle.spec_forensics.specs.Histories.{AcceptedBlock};
    ghost use Rattle.forensics.specs.inside.Added.{remembered};

    ghost Value = { List AcceptedBlock };

    ghost view = { λ added. remembered added.memory };

    ghost invariant = { λ added. Unit {0} };
}

impl Added {
    /// No block.
    #[tactic(auto, unfolding(crate::specs::inside::Added::remembered))]
    pub(crate) fn new() -> Added
        ensures { result ≡ [] }
    {
        Added {
            memory: Memory::Empty,
        }
    }

    /// Adds a block.
    #[tactic(auto, unfolding(crate::specs::inside::Added::remembered))]
    pub(crate) fn add(
        &mut self,
        event: u32,
        root: Root,
        block: &BeaconBlock,
        state: &State,
        entered: &Seen,
    )
        ensures { self.new ≡ record { event = event; root = root; block = block.now; state = state.now; entered = entered.now } ∷ self.old }
    {
        self.memory = Memory::More(
            Snapshot::of(&self.memory),
            Snapshot::of(&event),
            Snapshot::of(&root),
            Snapshot::of(block),
            Snapshot::of(state),
            Snapshot::of(entered),
        );
    }
}
