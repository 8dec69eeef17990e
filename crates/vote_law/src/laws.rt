//! The laws, each a function whose promise is the law. They do nothing when they run.

ghost use Rattle.std.specs.Prelude.{◌≡◌, ◌<◌, ◌≤◌, ◌^◌, false, ℕ, Bool, List, [], ◌++◌, length};
ghost use Rattle.std.specs.List.{AllByRecursion};
ghost use Rattle.bc_words.specs.Outcome.{done};
ghost use Rattle.bc_preset.specs.declared.configuration.ConfigValues.{ConfigValues};
ghost use Rattle.bc_preset.specs.laws.Bounds.{HasPresetBounds};
ghost use Rattle.beacon_types.specs.Equality.{same_root};
ghost use Rattle.beacon_types.specs.declared.attestation_data.AttestationData.{AttestationData};
ghost use Rattle.beacon_types.specs.Blocks.{block_codec};
ghost use Rattle.beacon_types.specs.declared.signed_block.SignedBeaconBlock.{SignedBeaconBlock};
ghost use Rattle.spec_state.specs.declared.plain.PlainState.{PlainState};
ghost use Rattle.spec_state.specs.Genesis.{header_root_of, zero_root};
ghost use Rattle.spec_state.specs.States.{state_codec};
ghost use Rattle.spec_state.specs.Misc.{compute_epoch_at_slot};
ghost use Rattle.spec_state.specs.Accessors.{get_active_validator_indices, get_attesting_indices, get_committee_count_per_slot, get_current_epoch, get_previous_epoch};
ghost use Rattle.spec_epochs.specs.WeighJustificationAndFinalization.{justification_of};
ghost use Rattle.spec_epochs.specs.ProcessJustificationAndFinalization.{process_justification_and_finalization};
ghost use Rattle.spec_transition.specs.ProcessSlots.{Stepped};
ghost use Rattle.spec_transition.specs.StateTransition.{state_transition};
ghost use Rattle.ffg_law.specs.Links.{IsOneOf};
ghost use Rattle.ffg_law.specs.Histories.{nothing_justified, IsWeighed, previous_link, current_link};
ghost use Rattle.vote_law.specs.Backed.{CarriedVote, AreAmong, votes_of, IsBacked};
ghost use Rattle.spec_forensics.specs.Steady.{genesis_weights, IsSteadyAt};
ghost use Rattle.vote_law.specs.Ends.{end_of, target_attesters};
ghost use Rattle.vote_law.specs.Runs.{AreAt, HasVoted, Goes};

/// Where each attestation that waits in a state was carried by a block, from the checkpoint that was justified in its epoch, so it
/// is behind a block, with the block's own attestations, and so it is in each state on which epoch processing is entered on the
/// way.
pub fn waiting_votes_are_carried()
    ensures behind { (votes : List CarriedVote) (state : PlainState) (signed_block : SignedBeaconBlock) (config : ConfigValues) (step : Stepped)
        → state_transition state signed_block config ≡ done step → HasPresetBounds state.preset → signed_block.message.slot < 2 ^ 64
        → IsBacked (AreAmong votes) state → IsBacked (AreAmong (votes_of signed_block.message.body.attestations step.state ++ votes)) step.state }
    ensures entered { (votes : List CarriedVote) (state : PlainState) (signed_block : SignedBeaconBlock) (config : ConfigValues) (step : Stepped)
        → state_transition state signed_block config ≡ done step → HasPresetBounds state.preset → signed_block.message.slot < 2 ^ 64
        → IsBacked (AreAmong votes) state → AllByRecursion (IsBacked (AreAmong votes)) step.entered }
{}

/// Who attests is active in the epoch of the attestation, where its committee is one of its slot.
pub fn attesters_are_active()
    ensures { (state : PlainState) (content : AttestationData) (bits : List Bool) (attester : ℕ) → HasPresetBounds state.preset
        → content.index < get_committee_count_per_slot state (compute_epoch_at_slot state.preset content.slot)
        → IsOneOf attester (get_attesting_indices state content bits)
        → IsOneOf attester (get_active_validator_indices state (compute_epoch_at_slot state.preset content.slot)) }
{}

/// Where epoch processing is entered on a state whose validators are those of genesis, the validators that it takes for attesters of
/// the blocks of its two epochs voted for that epoch's link, in blocks.
pub fn attesters_voted()
    ensures previous { (votes : List CarriedVote) (genesis state after : PlainState) (attester : ℕ) → HasPresetBounds state.preset → 1 < get_current_epoch state
        → IsSteadyAt genesis state → IsBacked (AreAmong votes) state → IsOneOf attester (target_attesters state (get_previous_epoch state))
        → HasVoted genesis (AreAmong votes) (previous_link (end_of state (justification_of after))).link attester }
    ensures current { (votes : List CarriedVote) (genesis state after : PlainState) (attester : ℕ) → HasPresetBounds state.preset
        → IsSteadyAt genesis state → IsBacked (AreAmong votes) state → IsOneOf attester (target_attesters state (get_current_epoch state))
        → HasVoted genesis (AreAmong votes) (current_link (end_of state (justification_of after))).link attester }
{}

/// Where epoch processing is entered on a state whose validators are those of genesis, it weighs the links of its two epochs by the
/// weights of genesis.
pub fn genesis_weighs()
    ensures { (votes : List CarriedVote) (genesis state after : PlainState) → process_justification_and_finalization state ≡ done after
        → 1 < get_current_epoch state → HasPresetBounds state.preset → state.preset ≡ genesis.preset → IsSteadyAt genesis state → IsBacked (AreAmong votes) state
        → IsWeighed genesis.preset.effective_balance_increment (genesis_weights genesis) (end_of state (justification_of after)) }
{}

/// A state of slot 0 in which nothing is justified and no attestation waits begins what states say of the links of their chain.
pub fn genesis_begins_links()
    ensures { (genesis : PlainState) (votes : List CarriedVote) (roots : ℕ → List ℕ) → HasPresetBounds genesis.preset → genesis.slot ≡ 0
        → length genesis.block_roots ≡ genesis.preset.slots_per_historical_root → justification_of genesis ≡ nothing_justified
        → genesis.previous_epoch_attestations ≡ [] → genesis.current_epoch_attestations ≡ []
        → same_root ((state_codec genesis.preset).hash_tree_root genesis) zero_root ≡ false
        → Goes genesis (AreAmong votes) (AreAt roots) (header_root_of genesis) (record { state = genesis; entered = [] }) }
{}

/// A block carries on what states say of the links of their chain, where its parent stands at each slot up to the block's.
pub fn blocks_carry_links_on()
    ensures { (genesis state : PlainState) (votes : List CarriedVote) (roots : ℕ → List ℕ) (parent_root : List ℕ) (config : ConfigValues) (signed_block : SignedBeaconBlock) (step : Stepped)
        → state_transition state signed_block config ≡ done step → HasPresetBounds genesis.preset → signed_block.message.slot < 2 ^ 64
        → same_root ((state_codec step.state.preset).hash_tree_root step.state) zero_root ≡ false
        → ((slot : ℕ) → state.slot ≤ slot → slot < signed_block.message.slot → roots slot ≡ parent_root)
        → Goes genesis (AreAmong votes) (AreAt roots) parent_root (record { state = state; entered = [] })
        → Goes genesis (AreAmong (votes_of signed_block.message.body.attestations step.state ++ votes)) (AreAt roots) (block_codec.hash_tree_root signed_block.message) step }
{}
