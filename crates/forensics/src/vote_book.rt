//! The votes of two histories on one genesis, and what they come to. Of blocks their attestations are kept, and of states a share of
//! genesis alone.

ghost use Rattle.std.specs.Prelude.{◌≡◌, ℕ, ◌<◌, ◌≤◌, ◌*◌, ◌∷◌, [], length, All, IfOk, None, map};
ghost use Rattle.bc_words.specs.Outcome.{Becomes};
ghost use Rattle.std.specs.Option.{option_map};
ghost use Rattle.spec_forensics.specs.Histories.{IsStepOn};
ghost use Rattle.spec_forensics.specs.Offences.{IsCarried, offences_below};
ghost use Rattle.spec_forensics.specs.Verdict.{first_moved};
ghost use Rattle.spec_forensics.specs.declared.verdict.Verdict.TheVariants.{Conflict};
ghost use Rattle.safety_law.specs.Finals.{IsFinalOf};
ghost use Rattle.forensics.specs.Books.{IsBeginning, begun, history_of, with_block, with_finalized, votes_of, verdict_on, clash_in};
ghost use Rattle.spec_slasher.specs.AttestationOf.{attestation_of};
ghost use Rattle.forensics.specs.inside.Carriers.{attested_in, named_in};
ghost use Rattle.forensics.specs.inside.Whole.{with_first, with_second, closed_first, closed_second};

use crate::attesters::{RecentCommittees, list_attesters};
use crate::beginning::begins;
use crate::block_votes::add_votes;
use crate::history::History;
use crate::judge::judge;
use crate::kept_attestation::KeptAttestation;
use crate::spans::CarriedVotes;
use crate::watch::Watch;
use bc_preset::Config;
use bc_words::NoMemory;
use beacon_state::State;
use beacon_types::{BeaconBlock, Checkpoint, IndexedAttestation};
use epoch_visitor::Seen;
use hash_tree::Root;
use spec_forensics::{Offence, Verdict, Vote};
use std::alloc::Global;
use std::marker::Model;

/// The votes that the blocks of two histories on one genesis carry, the attestations that they are of, and what a verdict reads of
/// each block.
pub struct VoteBook {
    config: Config,
    genesis: State,
    first: History,
    second: History,
    votes: CarriedVotes,
    committees: RecentCommittees,
}

// Written by hand, so that a call that lets one go is one call, and not one for each of its parts.
impl Drop for VoteBook {
    fn drop(self) {
        let VoteBook {
            config: _,
            genesis: _genesis,
            first: _first,
            second: _second,
            votes: _votes,
            committees: _committees,
        } = self;
    }
}

impl Model for VoteBook {
    ghost use Rattle.forensics.specs.Books.{PlainBook};
    ghost use Rattle.forensics.specs.inside.Whole.{IsBook, seen_of};

    ghost Value = { PlainBook };

    ghost view = { λ b. seen_of b.config b.genesis b.first b.second };

    ghost invariant = { λ b. IsBook b.config b.genesis b.first b.second b.votes };
}

/// Adds a block to the history with a number, 0 or 1. Where memory is refused, both are as before.
#[tactic(auto, unfolding(crate::specs::inside::Whole::with_first, crate::specs::inside::Whole::with_second))]
fn add_to(
    first: &mut History,
    second: &mut History,
    which: u8,
    event: u32,
    block: &BeaconBlock,
    root: Root,
    state: &State,
    entered: &Seen,
    moved: Option<u64>,
    attestations: Vec<KeptAttestation>,
) -> Result<(), NoMemory>
    requires one_genesis { second.old.genesis ≡ first.old.genesis }
    requires moved { moved ≡ first_moved first.old.genesis entered.now }
    requires attestations { attestations.items ≡ map (attested_in state.now) block.now.body.attestations }
    ensures first { Becomes result first.old first.new (with_first which first.old record { event = event; root = root; block = block.now; state = state.now; entered = entered.now }) }
    ensures second { Becomes result second.old second.new (with_second which second.old record { event = event; root = root; block = block.now; state = state.now; entered = entered.now }) }
{
    if which == 0 {
        first.add(event, block, root, state, entered, moved, attestations)
    } else {
        second.add(event, block, root, state, entered, moved, attestations)
    }
}

/// Closes the history with a number, 0 or 1.
#[tactic(auto, unfolding(crate::specs::inside::Whole::closed_first, crate::specs::inside::Whole::closed_second))]
fn close_one(first: &mut History, second: &mut History, which: u8, finalized: Checkpoint)
    ensures first { first.new ≡ closed_first which first.old finalized }
    ensures second { second.new ≡ closed_second which second.old finalized }
{
    if which == 0 {
        first.close(finalized);
    } else {
        second.close(finalized);
    }
}

/// The attestation that a vote of one of the validators below a number names, in the history that it is of.
#[tactic(auto, unfolding(crate::specs::inside::Carriers::named_in))]
fn named_in<'a>(
    first: &'a History,
    second: &'a History,
    validators: u64,
    vote: &Vote,
) -> Option<&'a KeptAttestation>
    ensures { option_map (λ kept. kept.now) result ≡ named_in validators vote.now first.now.blocks second.now.blocks }
{
    if vote.which == 0 {
        first.named(validators, vote)
    } else if vote.which == 1 {
        second.named(validators, vote)
    } else {
        None
    }
}

impl VoteBook {
    /// A book without blocks, on a genesis, of which a share is kept.
    pub fn new(alloc: Global, genesis: &State, config: &Config) -> Result<VoteBook, NoMemory>
        requires { IsBeginning genesis.now }
        ensures { IfOk result (λ book. book ≡ begun config.now genesis.now) }
    {
        begins(genesis);
        Ok(VoteBook {
            config: *config,
            genesis: genesis.share()?,
            first: History::new(alloc, genesis),
            second: History::new(alloc, genesis),
            votes: CarriedVotes::new(alloc, genesis.validators_len() as usize)?,
            committees: RecentCommittees::new(),
        })
    }

    /// Adds an accepted block to the history with a number, 0 or 1, with the number of its event, its root, the state behind it, and
    /// the watch that was shown the states entered on the way. A block that was added already adds its votes again. All that can fail
    /// is done before anything is changed that clauses see.
    ///
    /// Its conditions: the block is a step of those that were added to that history before, whose blocks are all added before any of
    /// history 1, its root is no name for another block of the two, and the watch looks at the book's genesis.
    pub fn add(
        &mut self,
        alloc: Global,
        which: u8,
        event: u32,
        block: &BeaconBlock,
        root: Root,
        state: &State,
        watch: &Watch<'_>,
    ) -> Result<(), NoMemory>
        requires which { which < 2 }
        requires order { which ≡ 0 → self.old.second ≡ [] }
        requires genesis { watch.now.genesis ≡ self.old.genesis }
        requires step { IsStepOn self.old.config self.old.genesis (history_of self.old which) (record { event = event; root = root; block = block.now; state = state.now; entered = watch.now.entered }) }
        requires clear { clash_in self.old root block.now ≡ None }
        ensures { Becomes result self.old self.new (with_block self.old which record { event = event; root = root; block = block.now; state = state.now; entered = watch.now.entered }) }
    {
        let _preset = state.preset();
        let _slot = state.slot();
        let attestations = block.body.attestations.as_slice();
        let kept = self.committees.keep(alloc, state, attestations)?;
        let lists = list_attesters(alloc, &kept)?;
        self.votes.reserve(&lists)?;
        add_to(
            &mut self.first,
            &mut self.second,
            which,
            event,
            block,
            root,
            state,
            watch.entered(),
            watch.moved(),
            kept,
        )?;
        add_votes(&mut self.votes, which, event, root, attestations, &lists);
        Ok(())
    }

    /// Closes the history with a number, 0 or 1, with the checkpoint that it finalised: that of the state of one of its blocks, or that
    /// of genesis, with which it is closed until then.
    pub fn close(&mut self, which: u8, finalized: Checkpoint)
        requires which { which < 2 }
        requires is_final { IsFinalOf self.old.genesis (history_of self.old which) finalized }
        ensures { self.new ≡ with_finalized self.old which finalized }
    {
        close_one(&mut self.first, &mut self.second, which, finalized);
    }

    /// The offence of each validator that has one, in order of validator.
    #[tactic(auto, using(crate::proofs::Votes::votes_held))]
    pub fn offences(&self, alloc: Global) -> Result<Vec<Offence>, NoMemory>
        ensures exact { IfOk result (λ list. list.items ≡ offences_below (votes_of self.now) (length self.now.genesis.validators)) }
        ensures carried { IfOk result (λ list. All (IsCarried (votes_of self.now)) list.items) }
    {
        self.votes.offences(alloc)
    }

    /// The attestation that a vote names, with all its attesters in ascending order. None exactly where no added block carries it.
    pub fn attestation(
        &self,
        alloc: Global,
        vote: &Vote,
    ) -> Result<Option<IndexedAttestation>, NoMemory>
        ensures { IfOk result (λ found. found ≡ attestation_of self.now.genesis self.now.first self.now.second vote.now) }
    {
        let validators = self.genesis.validators_len();
        match named_in(&self.first, &self.second, validators, vote) {
            Some(kept) => {
                let indexed = kept.indexed(alloc)?;
                Ok(Some(indexed))
            }
            None => Ok(None),
        }
    }

    /// The verdict on the histories as they are closed, which takes no memory. Where it is a conflict, the offenders have at least a
    /// third of the total.
    pub fn judge(&self) -> Verdict
        ensures exact { result ≡ verdict_on self.now }
        ensures convicts { (balance total : ℕ) → result ≡ Conflict balance total → total ≤ 3 * balance }
    {
        judge(&self.genesis, &self.first, &self.second, &self.votes)
    }
}
