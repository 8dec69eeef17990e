//! The attestations that blocks carry, and what the votes of their attesters make.
//!
//! An attestation has a number, by which spans know it. All room for those of a block is made before any is added.

ghost use Rattle.std.specs.Prelude.{◌≡◌, ℕ, ◌<◌, ◌≤◌, ◌^◌, ◌++◌, ◌∷◌, [], List, length, map, is_some, IfOk, IsOk, OnOk};
ghost use Rattle.spec_forensics.specs.Offences.{listed, offence_of, offences_below};
ghost use Rattle.forensics.specs.AllSpans.{AreSpansOf};
ghost use Rattle.forensics.specs.Room.{all_of, Grows, HasRoom, StandOnce};
ghost use Rattle.forensics.specs.Carried.{Carried, Held, Holds, HasRoomFor, has_offence, place_of, all_votes_by, vote_at};

use crate::spans::all_spans::AllSpans;
use crate::spans::offences::offence_by;
use crate::spans::place::Place;
use bc_words::{NoMemory, Steps};
use beacon_types::AttestationData;
use spec_forensics::{Offence, Vote};
use std::alloc::Global;
use std::marker::{Brand, Model};
use std::sync::ledger::{Blank, Ledger};

/// The attestations of blocks, each with its place, and the votes of all validators in spans.
#[derive(Drop)]
pub struct CarriedVotes {
    places: Vec<Place>,
    spans: AllSpans,
}

impl Model for CarriedVotes {
    ghost use Rattle.std.specs.Prelude.{vec_capacity};
    ghost use Rattle.forensics.specs.Carried.{Held, IsHeld};

    ghost Value = { Held };

    ghost view = { λ c. record { places = c.places.items; spans = c.spans; room = vec_capacity c.places } };

    ghost invariant = { λ c. IsHeld record { places = c.places.items; spans = c.spans; room = vec_capacity c.places } };
}

/// Takes the votes of an attestation, with a counter of its own.
fn take_votes<L: Ledger>(
    spans: &mut AllSpans,
    content: AttestationData,
    attesters: &[u64],
    blank: Blank,
) -> Result<(), NoMemory>
    requires name { blank.name ≡ L.name }
    requires parts { blank.parts ≡ L.parts }
    requires some { 0 < blank.parts }
    requires few { length spans.old.contents < 2 ^ 32 }
    ensures stands { (attested : List (List ℕ)) → AreSpansOf spans.old attested → OnOk result (AreSpansOf spans.new (attested ++ attesters.now ∷ [])) }
    ensures grows { Grows spans.old.spans spans.new.spans (all_of attesters.now) }
    ensures room { spans.old.room ≤ spans.new.room }
    ensures spare { length spans.old.contents < spans.old.room → HasRoom spans.old.spans (all_of attesters.now) → IsOk result }
    ensures more { OnOk result (spans.new.contents ≡ spans.old.contents ++ content ∷ []) }
{
    let mut steps = Steps::<L>::new(blank);
    spans.add(content, attesters, &mut steps)
}

impl CarriedVotes {
    /// No attestations, where there are so many validators.
    pub fn new(alloc: Global, validators: usize) -> Result<CarriedVotes, NoMemory>
        ensures none { IfOk result (λ votes. Holds votes []) }
        ensures count { IfOk result (λ votes. length votes.spans.spans ≡ validators) }
    {
        Ok(CarriedVotes {
            places: Vec::new(alloc),
            spans: AllSpans::new(alloc, validators)?,
        })
    }

    /// How many attestations there are.
    pub fn len(&self) -> usize
        ensures { result ≡ length self.now.spans.contents }
    {
        self.spans.len()
    }

    /// Makes room for an attestation of each of these lists of attesters. Where memory is refused, all is as before. More than 2^32
    /// attestations are refused as want of memory.
    pub fn reserve(&mut self, lists: &[Vec<u64>]) -> Result<(), NoMemory>
        requires once { StandOnce (map (λ l. l.items) lists.now) }
        ensures holds { (carried : List Carried) → Holds self.old carried → Holds self.new carried }
        ensures count { length self.new.spans.spans ≡ length self.old.spans.spans }
        ensures room { OnOk result (HasRoomFor self.new (map (λ l. l.items) lists.now)) }
    {
        if lists.len() > u32::MAX as usize || self.spans.len() > u32::MAX as usize - lists.len() {
            return Err(NoMemory);
        }
        self.places.reserve(lists.len())?;
        self.spans.reserve(lists)
    }

    /// Adds an attestation behind the others, where there is room for it.
    pub fn add(&mut self, place: Place, content: AttestationData, attesters: &[u64])
        requires room { HasRoomFor self.old (attesters.now ∷ []) }
        ensures holds { (carried : List Carried) (c : Carried) → Holds self.old carried → place_of c ≡ place → c.content ≡ content → c.attesters ≡ attesters.now → Holds self.new (carried ++ c ∷ []) }
        ensures room { (later : List (List ℕ)) → HasRoomFor self.old (attesters.now ∷ later) → HasRoomFor self.new later }
        ensures count { length self.new.spans.spans ≡ length self.old.spans.spans }
    {
        let _placed = self.places.push(place);
        let _taken = take_votes::<Brand>(&mut self.spans, content, attesters, Blank::new(1));
    }

    /// The vote of a validator in the attestation with a number.
    #[tactic(auto, unfolding(crate::specs::Carried::vote_at))]
    fn vote(&self, validator: u64, number: u32) -> Vote
        requires { number < length self.now.spans.contents }
        ensures { result ≡ vote_at self.now validator number }
    {
        let place = self.places[number as usize];
        let block_root = place.block_root;
        let content = self.spans.content(number);
        Vote {
            which: place.which,
            event: place.event,
            position: place.position,
            block_root,
            validator,
            content,
        }
    }

    /// Puts the offence of a validator behind the others, if it has one.
    fn put(&self, list: &mut Vec<Offence>, validator: usize) -> Result<(), NoMemory>
        requires { validator < length self.now.spans.spans }
        ensures { (carried : List Carried) → Holds self.now carried → OnOk result (list.new.items ≡ list.old.items ++ listed (offence_of (all_votes_by (length self.now.spans.spans) carried) validator)) }
    {
        let Some((earlier, later)) = self.spans.slashable(validator) else {
            return Ok(());
        };
        let index = validator as u64;
        list.push(offence_by(index, self.vote(index, earlier), self.vote(index, later)))?;
        Ok(())
    }

    /// Whether a validator has an offence. It takes no memory.
    #[tactic(auto, unfolding(crate::specs::Carried::has_offence))]
    pub fn offends(&self, validator: usize) -> bool
        requires { validator < length self.now.spans.spans }
        ensures kept { result ≡ has_offence self.now validator }
        ensures exact { (carried : List Carried) → Holds self.now carried → result ≡ is_some (offence_of (all_votes_by (length self.now.spans.spans) carried) validator) }
    {
        self.spans.slashable(validator).is_some()
    }

    /// The offences of all validators, in order of validator.
    pub fn offences(&self, alloc: Global) -> Result<Vec<Offence>, NoMemory>
        ensures { (carried : List Carried) → Holds self.now carried → IfOk result (λ list. list.items ≡ offences_below (all_votes_by (length self.now.spans.spans) carried) (length self.now.spans.spans)) }
    {
        let mut list = Vec::new(alloc);
        for validator in 0..self.spans.validators() {
            self.put(&mut list, validator)?;
        }
        Ok(list)
    }
}
