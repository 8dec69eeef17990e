//! The spans of all validators.
//!
//! A vote is the place of its attestation among those that were added, 4 bytes; what an attestation votes for is kept once for all
//! of its attesters.

ghost use Rattle.std.specs.Prelude.{◌≡◌, ◌+◌, ◌<◌, ◌≤◌, ◌^◌, ◌∷◌, ◌++◌, [], ℕ, List, length, slice_index_or, map, All, IfOk, IsOk, OnOk};
ghost use Rattle.forensics.specs.Pairs.{content_at, first_slashable};
ghost use Rattle.forensics.specs.AllSpans.{AreSpansOf, nothing_held, offence_in, votes_of};
ghost use Rattle.forensics.specs.Room.{all_of, AreReserved, HasRoom, Grows, IsSame};

use crate::spans::Spans;
use crate::spans::all::take_all;
use crate::spans::reserve::reserve_all;
use bc_words::{NoMemory, Steps};
use beacon_types::AttestationData;
use std::alloc::Global;
use std::marker::Model;
use std::sync::ledger::Ledger;

/// What attestations vote for, in their order, and the spans of each validator.
#[derive(Drop)]
pub struct AllSpans {
    contents: Vec<AttestationData>,
    spans: Vec<Spans>,
}

impl Model for AllSpans {
    ghost use Rattle.std.specs.Prelude.{vec_capacity};
    ghost use Rattle.forensics.specs.AllSpans.{PlainAllSpans, AreSorted};

    ghost Value = { PlainAllSpans };

    ghost view = { λ r. record { contents = r.contents.items; spans = r.spans.items; room = vec_capacity r.contents } };

    ghost invariant = { λ r. AreSorted r.contents.items r.spans.items };
}

impl AllSpans {
    /// No votes, of so many validators.
    #[tactic(auto, using(crate::proofs::Named::beginning))]
    pub fn new(alloc: Global, validators: usize) -> Result<AllSpans, NoMemory>
        ensures none { IfOk result (λ all_spans. AreSpansOf all_spans []) }
        ensures empty { IfOk result (λ all_spans. all_spans.contents ≡ []) }
        ensures count { IfOk result (λ all_spans. length all_spans.spans ≡ validators) }
    {
        let mut spans = Vec::new(alloc);
        for _ in 0..validators {
            spans.push(Spans::new(alloc))?;
        }
        Ok(AllSpans {
            contents: Vec::new(alloc),
            spans,
        })
    }

    /// How many attestations were added.
    pub fn len(&self) -> usize
        ensures { result ≡ length self.now.contents }
    {
        self.contents.len()
    }

    /// How many validators there are.
    pub fn validators(&self) -> usize
        ensures { result ≡ length self.now.spans }
    {
        self.spans.len()
    }

    /// What the attestation at a place votes for.
    #[tactic(auto, unfolding(crate::specs::Pairs::content_at), using(crate::proofs::Items::getting))]
    pub fn content(&self, place: u32) -> AttestationData
        requires { place < length self.now.contents }
        ensures { result ≡ content_at self.now.contents place }
    {
        self.contents[place as usize]
    }

    /// Makes room for an attestation of each of these lists of attesters, which can't fail to be added then. Where memory is refused,
    /// all is as before.
    pub fn reserve(&mut self, lists: &[Vec<u64>]) -> Result<(), NoMemory>
        ensures contents { self.new.contents ≡ self.old.contents }
        ensures spans { IsSame self.old.spans self.new.spans }
        ensures room { OnOk result (length self.old.contents + length lists.now ≤ self.new.room) }
        ensures reserved { OnOk result (AreReserved self.new.spans (length lists.now) (map (λ l. l.items) lists.now)) }
    {
        self.contents.reserve(lists.len())?;
        reserve_all(&mut self.spans, lists)
    }

    /// Takes the votes of a later attestation's attesters.
    #[tactic(auto, using(crate::proofs::Rooms::rooming))]
    pub fn add<L: Ledger>(
        &mut self,
        content: AttestationData,
        attesters: &[u64],
        steps: &mut Steps<L>,
    ) -> Result<(), NoMemory>
        requires few { length self.old.contents < 2 ^ 32 }
        ensures stands { (attested : List (List ℕ)) → AreSpansOf self.old attested → OnOk result (AreSpansOf self.new (attested ++ attesters.now ∷ [])) }
        ensures grows { Grows self.old.spans self.new.spans (all_of attesters.now) }
        ensures room { self.old.room ≤ self.new.room }
        ensures spare { length self.old.contents < self.old.room → HasRoom self.old.spans (all_of attesters.now) → IsOk result }
        ensures more { OnOk result (self.new.contents ≡ self.old.contents ++ content ∷ []) }
    {
        let vote = self.contents.len() as u32;
        self.contents.push(content)?;
        take_all(&mut self.spans, &self.contents, attesters, vote, steps)
    }

    /// The first two votes of a validator, by their places, that nobody may cast both.
    #[tactic(auto, using(crate::proofs::Named::naming))]
    pub fn slashable(&self, validator: usize) -> Option<(u32, u32)>
        requires { validator < length self.now.spans }
        ensures exact { (attested : List (List ℕ)) → AreSpansOf self.now attested → result ≡ first_slashable self.now.contents [] (votes_of validator attested) }
        ensures kept { result ≡ offence_in self.now validator }
    {
        self.spans[validator].offence()
    }
}
