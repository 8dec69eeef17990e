//! Whether a state begins a chain. The state comes from the genesis file, the fault goes to the program's status.

ghost use Rattle.std.specs.Prelude.{◌≡◌, ◌<◌, ◌≤◌, ◌^◌, ◌==◌, ◌&&◌, not, Some, None, MatchResult, length, slice_get};
ghost use Rattle.std.specs.List.{list_all};
ghost use Rattle.std.specs.Option.{option_map};
ghost use Rattle.spec_state.specs.Genesis.{is_genesis_header as is_header, is_zero_checkpoint as is_zero, validator_fault as fault_of, validators_fault as first_fault, genesis_fault};

use crate::state::State;
use bc_preset::constants::FAR_FUTURE_EPOCH;
use beacon_types::{BeaconBlockHeader, Checkpoint, empty_body_root};
use spec_state::{GenesisFault, ValidatorFault};
use state_parts::{Numbers, Validators};
use validator_registry::Entry;

/// Whether the header is that of an empty block of slot 0.
fn is_genesis_header(header: &BeaconBlockHeader) -> bool
    ensures { result ≡ is_header header.now }
{
    header.slot == 0
        && header.proposer_index == 0
        && header.parent_root == [0; 32]
        && header.state_root == [0; 32]
        && header.body_root == empty_body_root()
}

/// Whether the checkpoint is zero.
fn is_zero_checkpoint(checkpoint: &Checkpoint) -> bool
    ensures { result ≡ is_zero checkpoint.now }
{
    checkpoint.epoch == 0 && checkpoint.root == [0; 32]
}

/// What is wrong with a validator of a genesis state.
#[tactic(auto, unfolding(spec_state::specs::Genesis::validator_fault))]
fn validator_fault(most: u64, validator: &Entry) -> Option<ValidatorFault>
    ensures { result ≡ fault_of most validator.now }
{
    if validator.slashed() {
        return Some(ValidatorFault::Slashed);
    }
    if validator.exit_epoch() != FAR_FUTURE_EPOCH {
        return Some(ValidatorFault::ExitEpoch);
    }
    if validator.withdrawable_epoch() != FAR_FUTURE_EPOCH {
        return Some(ValidatorFault::WithdrawableEpoch);
    }
    let activation = validator.activation_epoch();
    if activation != 0 && activation != FAR_FUTURE_EPOCH {
        return Some(ValidatorFault::ActivationEpoch);
    }
    if validator.effective_balance() > most {
        return Some(ValidatorFault::EffectiveBalance);
    }
    None
}

/// What is wrong with the validator at a place.
fn fault_at(most: u64, validators: &Validators, i: u64) -> Option<ValidatorFault>
    requires { i < length validators.now }
    ensures { Some result ≡ option_map (fault_of most) (slice_get validators.now i) }
{
    match validators.get(i) {
        Some(validator) => validator_fault(most, &validator),
        None => unreachable!(),
    }
}

/// The first validator that is wrong.
fn validators_fault(most: u64, validators: &Validators) -> Option<GenesisFault>
    ensures { result ≡ first_fault most 0 validators.now }
{
    for i in 0..validators.len() {
        if let Some(wrong) = fault_at(most, validators, i) {
            return Some(GenesisFault::Validator(i, wrong));
        }
    }
    None
}

/// Whether no attestation is pending, no vote was cast and no batch of roots is kept.
fn lists_are_empty(s: &State) -> bool
    ensures { result ≡ ((length s.now.previous_epoch_attestations == 0) && ((length s.now.current_epoch_attestations == 0) && ((length s.now.eth1_data_votes == 0) && (length s.now.historical_roots == 0)))) }
{
    s.previous_epoch_attestations_len() == 0
        && s.current_epoch_attestations_len() == 0
        && s.eth1_data_votes_len() == 0
        && s.historical_roots_len() == 0
}

/// Whether nothing was slashed at a place.
fn not_slashed_at(slashings: &Numbers, i: u64) -> bool
    requires { i < length slashings.now.items }
    ensures { Some result ≡ option_map (λ n. n == 0) (slice_get slashings.now.items i) }
{
    match slashings.get(i) {
        Some(amount) => amount == 0,
        None => unreachable!(),
    }
}

/// Whether nothing was slashed.
fn nothing_slashed(slashings: &Numbers) -> bool
    ensures { result ≡ list_all (λ n. n == 0) slashings.now.items }
{
    for i in 0..slashings.len() {
        if !not_slashed_at(slashings, i) {
            return false;
        }
    }
    true
}

/// Whether no justification bit is set.
fn no_bit_set(bits: &[bool; 4]) -> bool
    ensures { result ≡ list_all not bits.now }
{
    bits.iter().all(|bit| !*bit)
}

/// The first part of the state that no genesis has.
#[tactic(auto, unfolding(spec_state::specs::Genesis::genesis_fault))]
fn fault_of_state(s: &State) -> Option<GenesisFault>
    ensures { result ≡ genesis_fault s.now }
{
    if s.slot() != 0 {
        return Some(GenesisFault::Slot);
    }
    if !is_genesis_header(&s.latest_block_header()) {
        return Some(GenesisFault::Header);
    }
    if !(is_zero_checkpoint(&s.previous_justified_checkpoint())
        && is_zero_checkpoint(&s.current_justified_checkpoint())
        && is_zero_checkpoint(&s.finalized_checkpoint()))
    {
        return Some(GenesisFault::Checkpoints);
    }
    if !no_bit_set(&s.justification_bits()) {
        return Some(GenesisFault::Bits);
    }
    if !nothing_slashed(s.slashings()) {
        return Some(GenesisFault::Slashings);
    }
    if !lists_are_empty(s) {
        return Some(GenesisFault::Lists);
    }
    if s.balances_len() != s.validators_len() {
        return Some(GenesisFault::Balances);
    }
    validators_fault(s.preset().max_effective_balance, s.validators())
}

/// Whether the state begins a chain, or the first part of it that no genesis has. It takes no memory.
pub fn genesis_check(state: &State) -> Result<(), GenesisFault>
    ensures { MatchResult result (λ _. genesis_fault state.now ≡ None) (λ fault. genesis_fault state.now ≡ Some fault) }
{
    match fault_of_state(state) {
        None => Ok(()),
        Some(fault) => Err(fault),
    }
}
