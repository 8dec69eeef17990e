//! A book that keeps the blocks of its histories, and compares each new one with them: for who has no store that does.

ghost use Rattle.std.specs.Prelude.{◌≡◌, ℕ, ◌<◌, ◌≤◌, ◌+◌, ◌-◌, ◌*◌, ◌^◌, [], ◌∷◌, length, All, IfOk, None};
ghost use Rattle.bc_words.specs.Outcome.{Becomes};
ghost use Rattle.spec_forensics.specs.Clash.{clash_among, first_or_second};
ghost use Rattle.spec_forensics.specs.Histories.{IsStepOn};
ghost use Rattle.spec_forensics.specs.Offences.{IsCarried, offences_below};
ghost use Rattle.spec_forensics.specs.declared.verdict.Verdict.TheVariants.{Conflict};
ghost use Rattle.safety_law.specs.Finals.{IsFinalOf};
ghost use Rattle.forensics.specs.Books.{IsBeginning, begun, history_of, with_block, with_finalized, votes_of, verdict_on, clash_in, Adds};
ghost use Rattle.spec_slasher.specs.AttestationOf.{attestation_of};
ghost use Rattle.forensics.specs.inside.Kept.{kept_first, kept_second};

use crate::book_stop::BookStop;
use crate::kept_blocks::KeptBlocks;
use crate::vote_book::VoteBook;
use crate::watch::Watch;
use bc_preset::Config;
use bc_words::NoMemory;
use beacon_state::State;
use beacon_types::{BeaconBlock, Checkpoint, IndexedAttestation};
use hash_tree::Root;
use spec_forensics::{Offence, Verdict, Vote};
use std::alloc::Global;
use std::marker::Model;

/// The votes of two histories on one genesis, and the blocks of each.
pub struct Book {
    votes: VoteBook,
    first: KeptBlocks,
    second: KeptBlocks,
}

// Written by hand, so that a call that lets one go is one call, and not one for each of its parts.
impl Drop for Book {
    fn drop(self) {
        let Book {
            votes,
            first,
            second,
        } = self;
        drop(votes);
        drop(first);
        drop(second);
    }
}

impl Model for Book {
    ghost use Rattle.forensics.specs.Books.{PlainBook};
    ghost use Rattle.forensics.specs.inside.Kept.{AreKept};

    ghost Value = { PlainBook };

    ghost view = { λ b. b.votes };

    ghost invariant = { λ b. AreKept b.votes b.first b.second };
}

/// Where a block's root has another content: the history, 0 or 1, and the place there. The first history is looked at first.
#[tactic(auto, unfolding(spec_forensics::specs::Clash::first_or_second))]
fn clash_with(
    first: &KeptBlocks,
    second: &KeptBlocks,
    root: Root,
    block: &BeaconBlock,
) -> Option<(u8, u32)>
    requires first { length first.now < 2 ^ 32 }
    requires second { length second.now < 2 ^ 32 }
    ensures { result ≡ first_or_second (clash_among first.now root block.now) (clash_among second.now root block.now) }
{
    if let Some(place) = first.clash(root, block) {
        return Some((0, place as u32));
    }
    match second.clash(root, block) {
        Some(place) => Some((1, place as u32)),
        None => None,
    }
}

/// Keeps a block in the history with a number, 0 or 1. Where memory is refused, both are as before.
#[tactic(auto, unfolding(crate::specs::inside::Kept::kept_first, crate::specs::inside::Kept::kept_second))]
fn keep_in(
    first: &mut KeptBlocks,
    second: &mut KeptBlocks,
    which: u8,
    alloc: Global,
    root: Root,
    block: &BeaconBlock,
    state: &State,
) -> Result<(), NoMemory>
    ensures first { Becomes result first.old first.new (kept_first which first.old record { root = root; block = block.now; state = state.now }) }
    ensures second { Becomes result second.old second.new (kept_second which second.old record { root = root; block = block.now; state = state.now }) }
{
    if which == 0 {
        first.keep(alloc, root, block, state)
    } else {
        second.keep(alloc, root, block, state)
    }
}

impl Book {
    /// A book without blocks, on a genesis.
    pub fn new(alloc: Global, genesis: &State, config: &Config) -> Result<Book, NoMemory>
        requires { IsBeginning genesis.now }
        ensures { IfOk result (λ book. book ≡ begun config.now genesis.now) }
    {
        Ok(Book {
            votes: VoteBook::new(alloc, genesis, config)?,
            first: KeptBlocks::at_genesis(alloc, genesis)?,
            second: KeptBlocks::at_genesis(alloc, genesis)?,
        })
    }

    /// Where a block's root has another content, if there is such a block in the book.
    fn clash(&self, root: Root, block: &BeaconBlock) -> Option<(u8, u32)>
        requires { length self.now.first + length self.now.second < 2 ^ 32 - 1 }
        ensures { result ≡ clash_in self.now root block.now }
    {
        clash_with(&self.first, &self.second, root, block)
    }

    /// Adds a block that clashes with none. Where memory is refused for its votes, it isn't kept either.
    fn take(
        &mut self,
        alloc: Global,
        which: u8,
        event: u32,
        block: &BeaconBlock,
        root: Root,
        state: &State,
        watch: &Watch<'_>,
    ) -> Result<(), NoMemory>
        requires which { which < 2 }
        requires order { which ≡ 0 → self.old.second ≡ [] }
        requires genesis { watch.now.genesis ≡ self.old.genesis }
        requires step { IsStepOn self.old.config self.old.genesis (history_of self.old which) (record { event = event; root = root; block = block.now; state = state.now; entered = watch.now.entered }) }
        requires clear { clash_in self.old root block.now ≡ None }
        ensures { Becomes result self.old self.new (with_block self.old which record { event = event; root = root; block = block.now; state = state.now; entered = watch.now.entered }) }
    {
        let (firsts, seconds) = (self.first.len(), self.second.len());
        let (first, second) = (&mut self.first, &mut self.second);
        keep_in(first, second, which, alloc, root, block, state)?;
        match self
            .votes
            .add(alloc, which, event, block, root, state, watch)
        {
            Ok(()) => Ok(()),
            Err(refused) => {
                self.first.truncate(firsts);
                self.second.truncate(seconds);
                Err(refused)
            }
        }
    }

    /// Adds an accepted block to the history with a number, 0 or 1, as `VoteBook` does, unless its root has another content.
    ///
    /// Its conditions: the block is a step of those that were added to that history before, whose blocks are all added before any of
    /// history 1, there are fewer than 2^32 - 1 blocks, and the watch looks at the book's genesis.
    pub fn add(
        &mut self,
        alloc: Global,
        which: u8,
        event: u32,
        block: &BeaconBlock,
        root: Root,
        state: &State,
        watch: &Watch<'_>,
    ) -> Result<(), BookStop>
        requires which { which < 2 }
        requires order { which ≡ 0 → self.old.second ≡ [] }
        requires few { length self.old.first + length self.old.second < 2 ^ 32 - 1 }
        requires genesis { watch.now.genesis ≡ self.old.genesis }
        requires step { IsStepOn self.old.config self.old.genesis (history_of self.old which) (record { event = event; root = root; block = block.now; state = state.now; entered = watch.now.entered }) }
        ensures { Adds result self.old self.new which (record { event = event; root = root; block = block.now; state = state.now; entered = watch.now.entered }) }
    {
        match self.clash(root, block) {
            Some((history, place)) => Err(BookStop::Clash(history, place)),
            None => Ok(self.take(alloc, which, event, block, root, state, watch)?),
        }
    }

    /// Closes the history with a number, 0 or 1, with the checkpoint that it finalised.
    pub fn close(&mut self, which: u8, finalized: Checkpoint)
        requires which { which < 2 }
        requires is_final { IsFinalOf self.old.genesis (history_of self.old which) finalized }
        ensures { self.new ≡ with_finalized self.old which finalized }
    {
        self.votes.close(which, finalized);
    }

    /// The offence of each validator that has one, in order of validator.
    pub fn offences(&self, alloc: Global) -> Result<Vec<Offence>, NoMemory>
        ensures exact { IfOk result (λ list. list.items ≡ offences_below (votes_of self.now) (length self.now.genesis.validators)) }
        ensures carried { IfOk result (λ list. All (IsCarried (votes_of self.now)) list.items) }
    {
        self.votes.offences(alloc)
    }

    /// The attestation that a vote names, with all its attesters in ascending order. None exactly where no added block carries it.
    pub fn attestation(
        &self,
        alloc: Global,
        vote: &Vote,
    ) -> Result<Option<IndexedAttestation>, NoMemory>
        ensures { IfOk result (λ found. found ≡ attestation_of self.now.genesis self.now.first self.now.second vote.now) }
    {
        self.votes.attestation(alloc, vote)
    }

    /// The verdict on the histories as they are closed. It takes no memory.
    pub fn judge(&self) -> Verdict
        ensures exact { result ≡ verdict_on self.now }
        ensures convicts { (balance total : ℕ) → result ≡ Conflict balance total → total ≤ 3 * balance }
    {
        self.votes.judge()
    }
}
