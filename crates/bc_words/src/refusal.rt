//! Why an event, or a step of the state transition, is refused.
//!
//! The state transition and the handlers of fork choice make refusals, and the lines of a run print their number
//! and name.

ghost use Rattle.std.specs.Prelude.{◌≡◌};
ghost use Rattle.bc_words.specs.Refusals.{number_of, name_of};

use std::fmt::{Debug, Formatter, Result, Write};

/// The first check that failed. Each has a number from 1 to 45, in the order that is listed here.
#[derive(Clone, Copy, PartialEq, Eq)]
pub enum Refusal {
    /// A tick's time is before the store's time.
    TickBack = 1,
    /// The payload is no writing of its kind.
    Malformed = 2,
    /// The store has no block of the parent's root.
    ParentUnknown = 3,
    /// The block's slot is after the current slot.
    FutureBlock = 4,
    /// The block's slot is not after the finalized epoch's first slot.
    BeforeFinalized = 5,
    /// The finalized root is no ancestor of the block.
    NotOnFinalized = 6,
    /// The slot is not after the state's slot.
    SlotNotLater = 7,
    /// No validator is active.
    NoActive = 8,
    /// The block's proposer is not the slot's proposer.
    WrongProposer = 9,
    /// The block's proposer is slashed.
    ProposerSlashed = 10,
    /// The block has another number of deposits than is due.
    DepositCount = 11,
    /// Proposer slashing: the two headers have different slots.
    PsSlots = 12,
    /// Proposer slashing: the two headers have different proposers.
    PsProposers = 13,
    /// Proposer slashing: the two headers are equal.
    PsSame = 14,
    /// An index is not in the registry.
    IndexRange = 15,
    /// The validator is not slashable.
    NotSlashable = 16,
    /// Attester slashing: the two votes are not slashable.
    AsData = 17,
    /// Attester slashing: the indices are empty or not strictly ascending.
    AsIndices = 18,
    /// Attester slashing: nobody is slashed by it.
    AsNone = 19,
    /// Attestation: the target is neither of the previous nor of the current epoch.
    AtTargetEpoch = 20,
    /// Attestation: the target's epoch is not the slot's.
    AtSlotEpoch = 21,
    /// Attestation: it comes before the inclusion delay has passed.
    AtEarly = 22,
    /// Attestation: it comes more than an epoch late.
    AtLate = 23,
    /// Attestation: the slot has no committee of this index.
    AtIndex = 24,
    /// Attestation: it has another number of bits than the committee has members.
    AtBits = 25,
    /// Attestation: the source is not the justified checkpoint.
    AtSource = 26,
    /// A list of the state is full.
    ListFull = 27,
    /// Attestation: no bit is set.
    AtEmpty = 28,
    /// Deposit: the branch does not end at the deposit root.
    DpBranch = 29,
    /// Exit: the validator is not active.
    ExInactive = 30,
    /// Exit: the validator is already leaving.
    ExLeaving = 31,
    /// Exit: its epoch is still to come.
    ExEarly = 32,
    /// Exit: the validator was not active for long enough.
    ExYoung = 33,
    /// The state's root is not the one that the block names.
    StateRoot = 34,
    /// A sum, difference or product does not fit in 64 bits.
    Overflow = 35,
    /// Attestation in fork choice: the target's epoch is neither the current nor the previous one.
    FcTargetTime = 36,
    /// Attestation in fork choice: the target's epoch is not the slot's.
    FcSlotEpoch = 37,
    /// Attestation in fork choice: the target's block is unknown.
    FcTargetUnknown = 38,
    /// Attestation in fork choice: the voted block is unknown.
    FcBlockUnknown = 39,
    /// Attestation in fork choice: the voted block is after the slot.
    FcBlockAfter = 40,
    /// Attestation in fork choice: the target is no ancestor of the voted block.
    FcTargetChain = 41,
    /// Attestation in fork choice: its slot is not over yet.
    FcTooEarly = 42,
    /// Attestation in fork choice: the epoch has no such committee.
    FcCommittee = 43,
    /// Attestation in fork choice: it has fewer bits than the committee has members.
    FcBitsShort = 44,
    /// Attestation in fork choice: no member's bit is set.
    FcEmpty = 45,
}

impl Refusal {
    /// The refusal's number, from 1 to 45.
    #[tactic(auto, unfolding(crate::specs::Refusals::number_of))]
    pub fn number(self) -> u32
        ensures { result ≡ number_of self }
    {
        self as u32
    }

    /// The refusal's name, as the lines of a run print it.
    #[tactic(auto, unfolding(crate::specs::Refusals::name_of))]
    pub fn name(self) -> &'static str
        ensures { result.now ≡ name_of self }
    {
        match self {
            Refusal::TickBack => "TickBack",
            Refusal::Malformed => "Malformed",
            Refusal::ParentUnknown => "ParentUnknown",
            Refusal::FutureBlock => "FutureBlock",
            Refusal::BeforeFinalized => "BeforeFinalized",
            Refusal::NotOnFinalized => "NotOnFinalized",
            Refusal::SlotNotLater => "SlotNotLater",
            Refusal::NoActive => "NoActive",
            Refusal::WrongProposer => "WrongProposer",
            Refusal::ProposerSlashed => "ProposerSlashed",
            Refusal::DepositCount => "DepositCount",
            Refusal::PsSlots => "PsSlots",
            Refusal::PsProposers => "PsProposers",
            Refusal::PsSame => "PsSame",
            Refusal::IndexRange => "IndexRange",
            Refusal::NotSlashable => "NotSlashable",
            Refusal::AsData => "AsData",
            Refusal::AsIndices => "AsIndices",
            Refusal::AsNone => "AsNone",
            Refusal::AtTargetEpoch => "AtTargetEpoch",
            Refusal::AtSlotEpoch => "AtSlotEpoch",
            Refusal::AtEarly => "AtEarly",
            Refusal::AtLate => "AtLate",
            Refusal::AtIndex => "AtIndex",
            Refusal::AtBits => "AtBits",
            Refusal::AtSource => "AtSource",
            Refusal::ListFull => "ListFull",
            Refusal::AtEmpty => "AtEmpty",
            Refusal::DpBranch => "DpBranch",
            Refusal::ExInactive => "ExInactive",
            Refusal::ExLeaving => "ExLeaving",
            Refusal::ExEarly => "ExEarly",
            Refusal::ExYoung => "ExYoung",
            Refusal::StateRoot => "StateRoot",
            Refusal::Overflow => "Overflow",
            Refusal::FcTargetTime => "FcTargetTime",
            Refusal::FcSlotEpoch => "FcSlotEpoch",
            Refusal::FcTargetUnknown => "FcTargetUnknown",
            Refusal::FcBlockUnknown => "FcBlockUnknown",
            Refusal::FcBlockAfter => "FcBlockAfter",
            Refusal::FcTargetChain => "FcTargetChain",
            Refusal::FcTooEarly => "FcTooEarly",
            Refusal::FcCommittee => "FcCommittee",
            Refusal::FcBitsShort => "FcBitsShort",
            Refusal::FcEmpty => "FcEmpty",
        }
    }
}

impl Debug for Refusal {
    fn fmt<W: Write>(&self, f: &mut Formatter<W>) -> Result {
        f.write_str(self.name())
    }
}
