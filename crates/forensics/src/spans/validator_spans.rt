//! The spans of one validator.

ghost use Rattle.std.specs.Prelude.{◌≡◌, ℕ, ◌+◌, ◌<◌, ◌≤◌, ◌^◌, ◌∷◌, ◌++◌, [], List, length, None, All, IsOk, OnOk, is_some, if◌then◌else◌};
ghost use Rattle.bc_words.specs.Outcome.{Becomes};
ghost use Rattle.forensics.specs.Pairs.{target_at, are_slashable_at};
ghost use Rattle.forensics.specs.Standing.{StandsFor};
ghost use Rattle.forensics.specs.Spans.{IsSorted, least_of, spans_after, place_of, stands_at, slashable_at, slashable_beside};
ghost use Rattle.std.specs.List.{list_any};
ghost use Rattle.beacon_types.specs.declared.attestation_data.AttestationData.{AttestationData};

use crate::spans::bisect::place_of;
use crate::spans::least::least_slashable;
use crate::spans::votes::{are_slashable_at, is_same, target_of};
use bc_words::{NoMemory, Steps};
use beacon_types::AttestationData;
use std::alloc::Global;
use std::marker::Model;
use std::sync::ledger::Ledger;

/// The votes of one validator, each by its place in the list of contents.
#[derive(Drop)]
pub struct Spans {
    votes: Vec<u32>,
    offence: Option<(u32, u32)>,
}

impl Model for Spans {
    ghost use Rattle.std.specs.Prelude.{vec_capacity};
    ghost use Rattle.forensics.specs.Spans.{HeldSpans};

    ghost Value = { HeldSpans };

    ghost view = { λ s. record { spans = record { votes = s.votes.items; offence = s.offence }; room = vec_capacity s.votes } };
}

/// Whether a vote is slashable with the one at a place.
#[tactic(auto, unfolding(crate::specs::Spans::slashable_at), using(crate::proofs::Items::inside_at))]
fn slashable_at(contents: &[AttestationData], votes: &[u32], place: usize, vote: u32) -> bool
    requires sorted { IsSorted contents.now votes.now }
    requires vote { vote < length contents.now }
    ensures { result ≡ slashable_at contents.now votes.now place vote }
{
    place < votes.len() && are_slashable_at(contents, votes[place], vote)
}

/// Whether a vote is slashable with one of those beside a place.
#[tactic(auto, unfolding(crate::specs::Spans::slashable_beside))]
fn slashable_beside(contents: &[AttestationData], votes: &[u32], place: usize, vote: u32) -> bool
    requires sorted { IsSorted contents.now votes.now }
    requires vote { vote < length contents.now }
    ensures { result ≡ slashable_beside contents.now votes.now place vote }
{
    slashable_at(contents, votes, place, vote)
        || (0 < place && slashable_at(contents, votes, place - 1, vote))
}

/// Whether a vote is slashable with any, which it is where it is slashable with one of those beside its place.
#[tactic(auto, using(crate::proofs::Beside::beside_is_any))]
fn is_slashable_with_any(
    contents: &[AttestationData],
    votes: &[u32],
    place: usize,
    vote: u32,
) -> bool
    requires sorted { IsSorted contents.now votes.now }
    requires vote { vote < length contents.now }
    requires place { place ≡ place_of contents.now votes.now (target_at contents.now vote) }
    ensures { result ≡ list_any (λ e. are_slashable_at contents.now e vote) votes.now }
{
    slashable_beside(contents, votes, place, vote)
}

/// Whether the content of a vote stands at a place.
#[tactic(auto, unfolding(crate::specs::Spans::stands_at), using(crate::proofs::Items::inside_at))]
fn stands_at(contents: &[AttestationData], votes: &[u32], place: usize, vote: u32) -> bool
    requires sorted { IsSorted contents.now votes.now }
    requires vote { vote < length contents.now }
    ensures { result ≡ stands_at contents.now votes.now place vote }
{
    place < votes.len() && is_same(contents, votes[place], vote)
}

impl Spans {
    /// No votes.
    #[tactic(auto, using(crate::proofs::Standing::beginning))]
    pub fn new(alloc: Global) -> Spans
        ensures none { result.spans ≡ record { votes = []; offence = None } }
        ensures stands { (contents : List AttestationData) → StandsFor contents result.spans [] }
    {
        Spans {
            votes: Vec::new(alloc),
            offence: None,
        }
    }

    /// The first slashable pair, by the earlier and the later vote.
    pub fn offence(&self) -> Option<(u32, u32)>
        ensures { result ≡ self.now.spans.offence }
    {
        self.offence
    }

    /// Makes room for so many votes more, which then can't fail to be taken. Where memory is refused, all is as before.
    pub fn reserve(&mut self, count: usize) -> Result<(), NoMemory>
        ensures same { self.new.spans ≡ self.old.spans }
        ensures more { self.old.room ≤ self.new.room }
        ensures room { OnOk result (length self.old.spans.votes + count ≤ self.new.room) }
    {
        Ok(self.votes.reserve(count)?)
    }

    /// Takes a vote. Where there was a slashable pair, it takes no step; else a step halves the votes that are left to look at,
    /// and where the vote is the first to be slashable with one, one step more looks at each vote.
    #[tactic(auto, using(crate::proofs::Adding::adding))]
    fn take<L: Ledger>(
        &mut self,
        contents: &[AttestationData],
        vote: u32,
        steps: &mut Steps<L>,
    ) -> Result<(), NoMemory>
        requires sorted { IsSorted contents.now self.old.spans.votes }
        requires vote { vote < length contents.now }
        ensures room { self.old.room ≤ self.new.room }
        ensures few { length self.new.spans.votes ≤ length self.old.spans.votes + 1 }
        ensures spare { length self.old.spans.votes < self.old.room → IsOk result }
        ensures after { Becomes result self.old.spans self.new.spans (spans_after contents.now self.old.spans vote) }
        ensures steps { (k : ℕ) → length self.old.spans.votes < 2 ^ k → steps.new ≤ steps.old + (if is_some self.old.spans.offence then 0 else k + (if list_any (λ e. are_slashable_at contents.now e vote) self.old.spans.votes then length self.old.spans.votes else 0)) }
    {
        if self.offence.is_some() {
            return Ok(());
        }
        let place = place_of(contents, &self.votes, target_of(contents, vote), steps);
        if is_slashable_with_any(contents, &self.votes, place, vote) {
            if let Some(earlier) = least_slashable(contents, &self.votes, vote, steps) {
                self.offence = Some((earlier, vote));
            }
            return Ok(());
        }
        if !stands_at(contents, &self.votes, place, vote) {
            self.votes.insert(place, vote)?;
        }
        Ok(())
    }

    /// Takes a later vote. Where there was a slashable pair, it takes no step; else a step halves the votes that are left to look at,
    /// and where the vote is the first to be slashable with one, one step more looks at each vote.
    #[tactic(auto, using(crate::proofs::Standing::standing))]
    pub fn add<L: Ledger>(
        &mut self,
        contents: &[AttestationData],
        vote: u32,
        steps: &mut Steps<L>,
    ) -> Result<(), NoMemory>
        requires sorted { IsSorted contents.now self.old.spans.votes }
        requires vote { vote < length contents.now }
        ensures room { self.old.room ≤ self.new.room }
        ensures few { length self.new.spans.votes ≤ length self.old.spans.votes + 1 }
        ensures spare { length self.old.spans.votes < self.old.room → IsOk result }
        ensures after { Becomes result self.old.spans self.new.spans (spans_after contents.now self.old.spans vote) }
        ensures stands { (earlier : List ℕ) → StandsFor contents.now self.old.spans earlier → All (λ e. e ≤ vote) earlier → OnOk result (StandsFor contents.now self.new.spans (earlier ++ vote ∷ [])) }
        ensures says { (earlier : List ℕ) → StandsFor contents.now self.old.spans earlier → All (λ e. e ≤ vote) earlier → self.old.spans.offence ≡ None → OnOk result (is_some self.new.spans.offence ≡ list_any (λ e. are_slashable_at contents.now e vote) earlier) }
        ensures steps { (k : ℕ) → length self.old.spans.votes < 2 ^ k → steps.new ≤ steps.old + (if is_some self.old.spans.offence then 0 else k + (if list_any (λ e. are_slashable_at contents.now e vote) self.old.spans.votes then length self.old.spans.votes else 0)) }
    {
        self.take(contents, vote, steps)
    }
}
