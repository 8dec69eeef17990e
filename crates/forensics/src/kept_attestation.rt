//! An attestation of an accepted block, as it is kept: beside the committees of its epoch, by which its attesters are known.
//!
//! All attestations of an epoch share its committees, so that one costs its bits and no list of its attesters.

ghost use Rattle.std.specs.Prelude.{◌≡◌, ◌==◌, false, slice_get, unwrap_or, IfOk};
ghost use Rattle.std.specs.List.{list_any};
ghost use Rattle.beacon_types.specs.Equality.{same_data};
ghost use Rattle.spec_state.specs.Accessors.{members_with_bits};
ghost use Rattle.forensics.specs.inside.Carriers.{attesters_among, attested_among, has_vote, indexed_of};

use crate::indices::in_order;
use bc_words::NoMemory;
use beacon_types::{Attestation, AttestationData, AttestingIndices, IndexedAttestation};
use block_operations::attesting_indices;
use committees::EpochCommittees;
use spec_forensics::Vote;
use ssz_codec::{BitList, VariableSsz};
use std::alloc::Global;
use std::marker::Model;
use std::rc::Rc;

/// An attestation, and the committees of its epoch. Contracts see it and its attesters.
pub(crate) struct KeptAttestation {
    attestation: Attestation,
    committees: Rc<EpochCommittees>,
}

// Written by hand, so that a call that lets one go is one call, and not one for each of its parts.
impl Drop for KeptAttestation {
    fn drop(self) {
        let KeptAttestation {
            attestation,
            committees,
        } = self;
        drop(attestation);
        drop(committees);
    }
}

impl Model for KeptAttestation {
    ghost use Rattle.forensics.specs.inside.Carriers.{Attested, attested_among};

    ghost Value = { Attested };

    ghost view = { λ k. attested_among k.committees.value k.attestation };
}

/// The attesters of an attestation, in the order of its committee. Nobody where there is no such committee.
#[tactic(auto, unfolding(crate::specs::inside::Carriers::attesters_among))]
fn attesters_among(
    alloc: Global,
    committees: &EpochCommittees,
    attestation: &Attestation,
) -> Result<Vec<u64>, NoMemory>
    ensures { IfOk result (λ members. members.items ≡ attesters_among committees.now attestation.now) }
{
    let content = &attestation.content;
    match committees.committee(content.slot, content.index) {
        Some(members) => attesting_indices(alloc, members, attestation.aggregation_bits.as_bits()),
        None => Ok(Vec::new(alloc)),
    }
}

/// Whether the bit at a place is set. One that isn't there is not.
fn is_set(bits: &BitList, i: usize) -> bool
    ensures { result ≡ unwrap_or (slice_get bits.now i) false }
{
    bits.get(i as u64).unwrap_or(false)
}

/// Whether a validator is one of the members of a committee whose bit is set.
fn is_set_for(members: &[u64], bits: &BitList, validator: u64) -> bool
    ensures { result ≡ list_any (λ member. member == validator) (members_with_bits members.now bits.now) }
{
    for i in 0..members.len() {
        if !is_set(bits, i) {
            continue;
        }
        if members[i] == validator {
            return true;
        }
    }
    false
}

/// Whether a validator is one of the attesters of an attestation.
#[tactic(auto, unfolding(crate::specs::inside::Carriers::attesters_among))]
fn attests(committees: &EpochCommittees, attestation: &Attestation, validator: u64) -> bool
    ensures { result ≡ list_any (λ member. member == validator) (attesters_among committees.now attestation.now) }
{
    let content = &attestation.content;
    match committees.committee(content.slot, content.index) {
        Some(members) => is_set_for(members, attestation.aggregation_bits.as_bits(), validator),
        None => false,
    }
}

/// Whether two votes have one content.
fn is_same(a: &AttestationData, b: &AttestationData) -> bool
    ensures { result ≡ same_data a.now b.now }
{
    *a == *b
}

/// Whether a vote is one of an attestation's, of the validators below a number.
#[tactic(auto, unfolding(crate::specs::inside::Carriers::has_vote, crate::specs::inside::Carriers::attested_among))]
fn has_vote(
    committees: &EpochCommittees,
    attestation: &Attestation,
    validators: u64,
    vote: &Vote,
) -> bool
    ensures { result ≡ has_vote validators vote.now (attested_among committees.now attestation.now) }
{
    vote.validator < validators
        && is_same(&attestation.content, &vote.content)
        && attests(committees, attestation, vote.validator)
}

impl KeptAttestation {
    /// An attestation, and a share of the committees of its epoch.
    pub(crate) fn new(
        attestation: &Attestation,
        committees: &Rc<EpochCommittees>,
    ) -> Result<KeptAttestation, NoMemory>
        ensures { IfOk result (λ kept. kept ≡ attested_among committees.now.value attestation.now) }
    {
        Ok(KeptAttestation {
            attestation: attestation.copy()?,
            committees: committees.clone()?,
        })
    }

    /// Its attesters, in the order of its committee.
    #[tactic(auto, unfolding(crate::specs::inside::Carriers::attested_among))]
    pub(crate) fn attesters(&self, alloc: Global) -> Result<Vec<u64>, NoMemory>
        ensures { IfOk result (λ members. members.items ≡ self.now.attesters) }
    {
        let committees = self.committees.as_ref();
        attesters_among(alloc, committees, &self.attestation)
    }

    /// Whether a vote is one of its, of the validators below a number.
    pub(crate) fn has_vote(&self, validators: u64, vote: &Vote) -> bool
        ensures { result ≡ has_vote validators vote.now self.now }
    {
        let committees = self.committees.as_ref();
        has_vote(committees, &self.attestation, validators, vote)
    }

    /// The attestation with all its attesters, in order of index (beacon-chain.md, `get_indexed_attestation`).
    #[tactic(auto, unfolding(crate::specs::inside::Carriers::indexed_of, crate::specs::inside::Carriers::attested_among))]
    pub(crate) fn indexed(&self, alloc: Global) -> Result<IndexedAttestation, NoMemory>
        ensures { IfOk result (λ indexed. indexed ≡ indexed_of self.now) }
    {
        let _bits = self.attestation.aggregation_bits.len();
        let committees = self.committees.as_ref();
        let attesters = attesters_among(alloc, committees, &self.attestation)?;
        let attesting_indices = AttestingIndices::from_vec(in_order(attesters));
        Ok(IndexedAttestation {
            attesting_indices,
            content: self.attestation.content,
            signature: self.attestation.signature,
        })
    }
}
