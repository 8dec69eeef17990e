//! Laws of the definitions. They do nothing when they run.

ghost use Rattle.std.specs.Prelude.{◌≡◌, ℕ, ◌<◌, ◌^◌, List, All};
ghost use Rattle.bc_words.specs.Outcome.{done};
ghost use Rattle.bc_preset.specs.declared.configuration.ConfigValues.{ConfigValues};
ghost use Rattle.bc_preset.specs.laws.Bounds.{HasPresetBounds};
ghost use Rattle.beacon_types.specs.declared.signed_block.SignedBeaconBlock.{SignedBeaconBlock};
ghost use Rattle.spec_state.specs.declared.plain.PlainState.{PlainState};
ghost use Rattle.spec_transition.specs.ProcessSlots.{Stepped};
ghost use Rattle.spec_transition.specs.StateTransition.{state_transition};
ghost use Rattle.spec_forensics.specs.CarriedVotes.{WasProcessed};
ghost use Rattle.spec_forensics.specs.Offences.{IsCarried, offences_below};
ghost use Rattle.spec_forensics.specs.declared.vote.Vote.{Vote};

/// Each attestation of a block that the state transition takes was processed by a state with the same attesters as the state behind
/// the block, which therefore gives the attesters of all of them.
#[tactic(auto, using(crate::proofs::Within::transition_processed))]
pub fn attesters_stay()
    ensures { (s : PlainState) (signed : SignedBeaconBlock) (config : ConfigValues) (t : Stepped) → state_transition s signed config ≡ done t → HasPresetBounds t.state.preset → t.state.slot < 2 ^ 64 → All (WasProcessed t.state) signed.message.body.attestations }
{}

/// Both votes of each offence are votes of the list, of the offence's validator, and slashable in one of the two orders.
pub fn offences_are_carried()
    ensures { (votes : List Vote) (count : ℕ) → All (IsCarried votes) (offences_below votes count) }
{}
