//! Laws of the parts of blocks and epochs: what keeps a state sound, and what keeps a slot's proposer.

ghost use Rattle.std.specs.Prelude.{◌≡◌, ℕ, ◌<◌, IsTrue, length};
ghost use Rattle.bc_words.specs.Outcome.{done};
ghost use Rattle.bc_preset.specs.laws.Bounds.{HasPresetBounds};
ghost use Rattle.bc_preset.specs.declared.configuration.ConfigValues.{ConfigValues};
ghost use Rattle.beacon_types.specs.declared.deposit.Deposit.{Deposit};
ghost use Rattle.beacon_types.specs.declared.signed_exit.SignedVoluntaryExit.{SignedVoluntaryExit};
ghost use Rattle.beacon_types.specs.declared.proposer_slashing.ProposerSlashing.{ProposerSlashing};
ghost use Rattle.beacon_types.specs.declared.attester_slashing.AttesterSlashing.{AttesterSlashing};
ghost use Rattle.beacon_types.specs.declared.attestation.Attestation.{Attestation};
ghost use Rattle.beacon_types.specs.declared.block.BeaconBlock.{BeaconBlock};
ghost use Rattle.beacon_types.specs.declared.body.BeaconBlockBody.{BeaconBlockBody};
ghost use Rattle.spec_state.specs.declared.plain.PlainState.{PlainState};
ghost use Rattle.spec_state.specs.Constants.{far_future_epoch};
ghost use Rattle.spec_state.specs.Accessors.{get_current_epoch, get_beacon_proposer_index};
ghost use Rattle.spec_state.specs.Soundness.{IsSound, IsSoundWithinEpoch};
ghost use Rattle.spec_blocks.specs.InitiateValidatorExit.{initiate_validator_exit};
ghost use Rattle.spec_blocks.specs.SlashValidator.{slash_validator};
ghost use Rattle.spec_blocks.specs.ProcessBlockHeader.{process_block_header};
ghost use Rattle.spec_blocks.specs.ProcessRandao.{process_randao};
ghost use Rattle.spec_blocks.specs.ProcessEth1Data.{process_eth1_data};
ghost use Rattle.spec_blocks.specs.ProcessProposerSlashing.{process_proposer_slashing};
ghost use Rattle.spec_blocks.specs.ProcessAttesterSlashing.{process_attester_slashing};
ghost use Rattle.spec_blocks.specs.ProcessAttestation.{process_attestation};
ghost use Rattle.spec_blocks.specs.ProcessDeposit.{process_deposit};
ghost use Rattle.spec_blocks.specs.ProcessVoluntaryExit.{process_voluntary_exit};
ghost use Rattle.spec_epochs.specs.ProcessJustificationAndFinalization.{process_justification_and_finalization};
ghost use Rattle.spec_epochs.specs.ProcessRewardsAndPenalties.{process_rewards_and_penalties};
ghost use Rattle.spec_epochs.specs.ProcessRegistryUpdates.{process_registry_updates};
ghost use Rattle.spec_epochs.specs.ProcessSlashings.{process_slashings};
ghost use Rattle.spec_epochs.specs.ProcessEth1DataReset.{process_eth1_data_reset};
ghost use Rattle.spec_epochs.specs.ProcessEffectiveBalanceUpdates.{process_effective_balance_updates};
ghost use Rattle.spec_epochs.specs.ProcessSlashingsReset.{process_slashings_reset};
ghost use Rattle.spec_epochs.specs.ProcessRandaoMixesReset.{process_randao_mixes_reset};
ghost use Rattle.spec_epochs.specs.ProcessHistoricalRootsUpdate.{process_historical_roots_update};
ghost use Rattle.spec_epochs.specs.ProcessParticipationRecordUpdates.{process_participation_record_updates};
ghost use Rattle.spec_transition.specs.ProcessSlots.{is_last_of_epoch, with_next_slot};

/// The law that each of the five operations of a block, and the exit and the slashing of a validator, keep a state sound, where the
/// current epoch isn't the last of all numbers, and an attestation's proposer is in the registry. That of a whole block is a clause
/// of `process_block`. It does nothing when it runs.
pub fn operations_keep_sound()
    ensures exit { (s t : PlainState) (index : ℕ) (config : ConfigValues) → initiate_validator_exit s index config ≡ done t
        → get_current_epoch s < far_future_epoch → IsSound s → IsSound t }
    ensures slash { (s t : PlainState) (index proposer : ℕ) (config : ConfigValues) → slash_validator s index proposer config ≡ done t
        → get_current_epoch s < far_future_epoch → IsSound s → IsSound t }
    ensures proposer_slashing { (s t : PlainState) (slashing : ProposerSlashing) (proposer : ℕ) (config : ConfigValues)
        → process_proposer_slashing s slashing proposer config ≡ done t → get_current_epoch s < far_future_epoch → IsSound s → IsSound t }
    ensures attester_slashing { (s t : PlainState) (slashing : AttesterSlashing) (proposer : ℕ) (config : ConfigValues)
        → process_attester_slashing s slashing proposer config ≡ done t → get_current_epoch s < far_future_epoch → IsSound s → IsSound t }
    ensures attestation { (s t : PlainState) (attestation : Attestation) (proposer : ℕ) → process_attestation s attestation proposer ≡ done t
        → HasPresetBounds s.preset → proposer < length s.validators → IsSound s → IsSound t }
    ensures deposit { (s t : PlainState) (deposit : Deposit) → process_deposit s deposit ≡ done t
        → get_current_epoch s < far_future_epoch → IsSound s → IsSound t }
    ensures voluntary_exit { (s t : PlainState) (exit : SignedVoluntaryExit) (config : ConfigValues) → process_voluntary_exit s exit config ≡ done t
        → get_current_epoch s < far_future_epoch → IsSound s → IsSound t }
{}

/// The law that the parts of epoch processing keep a state sound. Justification leaves a sound state sound within its epoch: the
/// current epoch may be justified then, as it is no other way. Each part behind it leaves it so, and the rotation of the
/// participation records and the next slot make it sound again. That of the whole is a clause of `process_slots`. It does nothing
/// when it runs.
pub fn epoch_parts_keep_sound()
    ensures justification { (s t : PlainState) → process_justification_and_finalization s ≡ done t → IsSound s → IsSoundWithinEpoch t }
    ensures rewards { (s t : PlainState) → process_rewards_and_penalties s ≡ done t → IsSoundWithinEpoch s → IsSoundWithinEpoch t }
    ensures registry { (s t : PlainState) (config : ConfigValues) → process_registry_updates s config ≡ done t
        → get_current_epoch s < far_future_epoch → IsSoundWithinEpoch s → IsSoundWithinEpoch t }
    ensures slashings { (s t : PlainState) → process_slashings s ≡ done t → IsSoundWithinEpoch s → IsSoundWithinEpoch t }
    ensures eth1_data { (s : PlainState) → IsSoundWithinEpoch s → IsSoundWithinEpoch (process_eth1_data_reset s) }
    ensures effective_balances { (s t : PlainState) → process_effective_balance_updates s ≡ done t → IsSoundWithinEpoch s → IsSoundWithinEpoch t }
    ensures slashings_reset { (s : PlainState) → IsSoundWithinEpoch s → IsSoundWithinEpoch (process_slashings_reset s) }
    ensures randao_mixes { (s : PlainState) → HasPresetBounds s.preset → IsSoundWithinEpoch s → IsSoundWithinEpoch (process_randao_mixes_reset s) }
    ensures historical_roots { (s t : PlainState) → process_historical_roots_update s ≡ done t → IsSoundWithinEpoch s → IsSoundWithinEpoch t }
    ensures rotation { (s : PlainState) → HasPresetBounds s.preset → IsTrue (is_last_of_epoch s) → IsSoundWithinEpoch s
        → IsSound (with_next_slot (process_participation_record_updates s)) }
{}

/// The law that no step of a block changes the proposer of the state's slot, where the current epoch isn't the last of all numbers:
/// so the steps take the block's proposer as an argument, and it is the one that the published text asks the state for again at
/// each of them. It does nothing when it runs.
pub fn steps_keep_proposer()
    ensures header { (s t : PlainState) (block : BeaconBlock) (proposer : ℕ) → process_block_header s block proposer ≡ done t
        → get_beacon_proposer_index t ≡ get_beacon_proposer_index s }
    ensures randao { (s : PlainState) (body : BeaconBlockBody) → HasPresetBounds s.preset
        → get_beacon_proposer_index (process_randao s body) ≡ get_beacon_proposer_index s }
    ensures eth1_data { (s t : PlainState) (body : BeaconBlockBody) → process_eth1_data s body ≡ done t
        → get_beacon_proposer_index t ≡ get_beacon_proposer_index s }
    ensures proposer_slashing { (s t : PlainState) (slashing : ProposerSlashing) (proposer : ℕ) (config : ConfigValues)
        → process_proposer_slashing s slashing proposer config ≡ done t → get_current_epoch s < far_future_epoch
        → get_beacon_proposer_index t ≡ get_beacon_proposer_index s }
    ensures attester_slashing { (s t : PlainState) (slashing : AttesterSlashing) (proposer : ℕ) (config : ConfigValues)
        → process_attester_slashing s slashing proposer config ≡ done t → get_current_epoch s < far_future_epoch
        → get_beacon_proposer_index t ≡ get_beacon_proposer_index s }
    ensures attestation { (s t : PlainState) (attestation : Attestation) (proposer : ℕ) → process_attestation s attestation proposer ≡ done t
        → get_beacon_proposer_index t ≡ get_beacon_proposer_index s }
    ensures deposit { (s t : PlainState) (deposit : Deposit) → process_deposit s deposit ≡ done t → get_current_epoch s < far_future_epoch
        → get_beacon_proposer_index t ≡ get_beacon_proposer_index s }
    ensures voluntary_exit { (s t : PlainState) (exit : SignedVoluntaryExit) (config : ConfigValues) → process_voluntary_exit s exit config ≡ done t
        → get_current_epoch s < far_future_epoch → get_beacon_proposer_index t ≡ get_beacon_proposer_index s }
{}
