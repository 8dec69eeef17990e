//! One history of a book: what is kept of the blocks that were added to it.

ghost use Rattle.std.specs.Prelude.{◌≡◌, [], ◌∷◌, map};
ghost use Rattle.bc_words.specs.Outcome.{Becomes};
ghost use Rattle.spec_state.specs.Genesis.{header_root_of};
ghost use Rattle.spec_forensics.specs.Verdict.{first_moved, is_on_chain, moved_on, finalizing_chain};
ghost use Rattle.std.specs.Option.{option_map};
ghost use Rattle.forensics.specs.Books.{genesis_checkpoint};
ghost use Rattle.forensics.specs.inside.Carriers.{attested_in, carriers_of, named_among};
ghost use Rattle.forensics.specs.inside.Whole.{with_latest};

use crate::added::Added;
use crate::carrier::{Carrier, named_among};
use crate::entries::{Entry, earliest_move, entry_of, finalizing_root, is_on_chain};
use crate::kept_attestation::KeptAttestation;
use bc_words::NoMemory;
use beacon_state::State;
use beacon_types::{BeaconBlock, Checkpoint};
use epoch_visitor::Seen;
use hash_tree::Root;
use spec_forensics::Vote;
use std::alloc::Global;
use std::marker::Model;
use std::snapshot::Snapshot;

/// The blocks that were added, once for each event, which only clauses see, an entry for each of them and its attestations, in their
/// order, and the checkpoint that the history was closed with.
pub(crate) struct History {
    genesis: Snapshot<State>,
    added: Added,
    entries: Vec<Entry>,
    carriers: Vec<Carrier>,
    finalized: Checkpoint,
}

// Written by hand, so that a call that lets one go is one call, and not one for each of its parts.
impl Drop for History {
    fn drop(self) {
        let History {
            genesis: _genesis,
            added: _added,
            entries: _entries,
            carriers: _carriers,
            finalized: _,
        } = self;
    }
}

impl Model for History {
    ghost use Rattle.forensics.specs.inside.Carriers.{IsHistoryKept};
    ghost use Rattle.forensics.specs.inside.Whole.{PlainHistory};

    ghost Value = { PlainHistory };

    ghost view = { λ h. record { genesis = h.genesis.value; blocks = h.added; finalized = h.finalized } };

    ghost invariant = { λ h. IsHistoryKept h.genesis.value h.added h.entries.items h.carriers.items };
}

impl History {
    /// No block but that of genesis, whose root this is.
    #[tactic(auto, unfolding(crate::specs::Books::genesis_checkpoint))]
    pub(crate) fn new(alloc: Global, genesis: &State) -> History
        ensures { result ≡ record { genesis = genesis.now; blocks = []; finalized = genesis_checkpoint genesis.now } }
    {
        History {
            genesis: Snapshot::of(genesis),
            added: Added::new(),
            entries: Vec::new(alloc),
            carriers: Vec::new(alloc),
            finalized: Checkpoint {
                epoch: 0,
                root: genesis.header_root(),
            },
        }
    }

    /// Adds a block with its attestations. Where memory is refused, the history is as before.
    pub(crate) fn add(
        &mut self,
        event: u32,
        block: &BeaconBlock,
        root: Root,
        state: &State,
        entered: &Seen,
        moved: Option<u64>,
        attestations: Vec<KeptAttestation>,
    ) -> Result<(), NoMemory>
        requires moved { moved ≡ first_moved self.old.genesis entered.now }
        requires attestations { attestations.items ≡ map (attested_in state.now) block.now.body.attestations }
        ensures { Becomes result self.old self.new (with_latest self.old record { event = event; root = root; block = block.now; state = state.now; entered = entered.now }) }
    {
        let carrier = Carrier::new(event, root, attestations);
        self.carriers.reserve(1)?;
        self.entries.push(entry_of(root, block, state, moved))?;
        let _kept = self.carriers.push(carrier);
        self.added.add(event, root, block, state, entered);
        Ok(())
    }

    /// Closes the history with a checkpoint.
    pub(crate) fn close(&mut self, finalized: Checkpoint)
        ensures { self.new ≡ record self.old { finalized = finalized } }
    {
        self.finalized = finalized;
    }

    /// The checkpoint that it was closed with.
    pub(crate) fn finalized(&self) -> Checkpoint
        ensures { result ≡ self.now.finalized }
    {
        self.finalized
    }

    /// Whether a root is that of a block or of one of its ancestors, genesis among them, whose root is given.
    pub(crate) fn is_on_chain(&self, genesis_root: &Root, block: Root, ancestor: &Root) -> bool
        requires { genesis_root.now ≡ header_root_of self.now.genesis }
        ensures { result ≡ is_on_chain self.now.genesis self.now.blocks block ancestor.now }
    {
        is_on_chain(&self.entries, genesis_root, block, ancestor)
    }

    /// The first block on the chain to the finalising block, and the first epoch within it, at whose processing the validators aren't
    /// those of genesis.
    pub(crate) fn first_move(&self) -> Option<(Root, u64)>
        ensures { result ≡ moved_on self.now.genesis (finalizing_chain self.now.blocks self.now.finalized) }
    {
        match finalizing_root(&self.entries, &self.finalized) {
            Some(last) => earliest_move(&self.entries, last),
            None => None,
        }
    }

    /// The attestation that a vote of one of the validators below a number names, if a block of the history carries it.
    pub(crate) fn named(&self, validators: u64, vote: &Vote) -> Option<&KeptAttestation>
        ensures { option_map (λ kept. kept.now) result ≡ named_among validators vote.now (carriers_of self.now.blocks) }
    {
        named_among(&self.carriers, validators, vote)
    }
}
