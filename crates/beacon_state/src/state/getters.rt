//! Reading the fields of a state (beacon-chain.md, "BeaconState"). No call here takes memory.

ghost use Rattle.std.specs.Prelude.{◌≡◌, ◌≤◌, length, slice_get};
ghost use Rattle.std.specs.Option.{option_map};
ghost use Rattle.bc_preset.specs.Presets.{IsPreset};
ghost use Rattle.spec_state.specs.States.{votes_limit, attestations_limit};

use super::State;
use bc_preset::Preset;
use beacon_types::{BeaconBlockHeader, Checkpoint, Eth1Data, Fork, PendingAttestation};
use hash_tree::Root;
use validator_registry::Entry;

impl State {
    /// The preset that the state was read with.
    pub fn preset(&self) -> &Preset
        ensures same { result.now ≡ self.now.preset }
        ensures preset { IsPreset self.now.preset }
    {
        &self.fields.preset
    }

    /// When the chain began, in seconds since 1970.
    pub fn genesis_time(&self) -> u64
        ensures { result ≡ self.now.genesis_time }
    {
        self.fields.genesis_time
    }

    /// The root of the validators at the beginning.
    pub fn genesis_validators_root(&self) -> Root
        ensures { result ≡ self.now.genesis_validators_root }
    {
        self.fields.genesis_validators_root
    }

    /// The slot.
    pub fn slot(&self) -> u64
        ensures { result ≡ self.now.slot }
    {
        self.fields.slot
    }

    /// The fork.
    pub fn fork(&self) -> Fork
        ensures { result ≡ self.now.fork }
    {
        *self.fields.fork.value()
    }

    /// The header of the latest block.
    pub fn latest_block_header(&self) -> BeaconBlockHeader
        ensures { result ≡ self.now.latest_block_header }
    {
        self.fields.latest_block_header
    }

    /// What is known of the deposit contract.
    pub fn eth1_data(&self) -> Eth1Data
        ensures { result ≡ self.now.eth1_data }
    {
        *self.fields.eth1_data.value()
    }

    /// How many deposits were processed.
    pub fn eth1_deposit_index(&self) -> u64
        ensures { result ≡ self.now.eth1_deposit_index }
    {
        self.fields.eth1_deposit_index
    }

    /// Which of the latest four epochs are justified, the current one first.
    pub fn justification_bits(&self) -> [bool; 4]
        ensures { result ≡ self.now.justification_bits }
    {
        self.fields.justification_bits
    }

    /// The justified checkpoint of the previous epoch.
    pub fn previous_justified_checkpoint(&self) -> Checkpoint
        ensures { result ≡ self.now.previous_justified_checkpoint }
    {
        *self.fields.previous_justified_checkpoint.value()
    }

    /// The justified checkpoint of the current epoch.
    pub fn current_justified_checkpoint(&self) -> Checkpoint
        ensures { result ≡ self.now.current_justified_checkpoint }
    {
        *self.fields.current_justified_checkpoint.value()
    }

    /// The finalised checkpoint.
    pub fn finalized_checkpoint(&self) -> Checkpoint
        ensures { result ≡ self.now.finalized_checkpoint }
    {
        *self.fields.finalized_checkpoint.value()
    }

    /// How many roots of the latest blocks there are: as many as the preset says.
    pub fn block_roots_len(&self) -> u64
        ensures len { result ≡ length self.now.block_roots }
        ensures limit { result ≡ self.now.preset.slots_per_historical_root }
    {
        self.fields.block_roots.len()
    }

    /// The root of the latest block whose slot has this place. None exactly where the place is not below the length.
    pub fn block_roots_at(&self, i: u64) -> Option<&Root>
        ensures { option_map (λ x. x.now) result ≡ slice_get self.now.block_roots i }
    {
        self.fields.block_roots.get(i)
    }

    /// How many roots of the latest states there are: as many as the preset says.
    pub fn state_roots_len(&self) -> u64
        ensures len { result ≡ length self.now.state_roots }
        ensures limit { result ≡ self.now.preset.slots_per_historical_root }
    {
        self.fields.state_roots.len()
    }

    /// The root of the latest state whose slot has this place. None exactly where the place is not below the length.
    pub fn state_roots_at(&self, i: u64) -> Option<&Root>
        ensures { option_map (λ x. x.now) result ≡ slice_get self.now.state_roots i }
    {
        self.fields.state_roots.get(i)
    }

    /// How many older batches there are.
    pub fn historical_roots_len(&self) -> u64
        ensures len { result ≡ length self.now.historical_roots }
        ensures limit { result ≤ self.now.preset.historical_roots_limit }
    {
        self.fields.historical_roots.len()
    }

    /// The root of an older batch. None exactly where the place is not below the length.
    pub fn historical_roots_at(&self, i: u64) -> Option<&Root>
        ensures { option_map (λ x. x.now) result ≡ slice_get self.now.historical_roots i }
    {
        self.fields.historical_roots.get(i)
    }

    /// How many votes for the deposit contract there are.
    pub fn eth1_data_votes_len(&self) -> u64
        ensures len { result ≡ length self.now.eth1_data_votes }
        ensures limit { result ≤ votes_limit self.now.preset }
    {
        self.fields.eth1_data_votes.len()
    }

    /// A vote for the deposit contract. None exactly where the place is not below the length.
    pub fn eth1_data_votes_at(&self, i: u64) -> Option<&Eth1Data>
        ensures { option_map (λ x. x.now) result ≡ slice_get self.now.eth1_data_votes i }
    {
        self.fields.eth1_data_votes.get(i)
    }

    /// How many validators there are.
    pub fn validators_len(&self) -> u64
        ensures len { result ≡ length self.now.validators }
        ensures limit { result ≤ self.now.preset.validator_registry_limit }
    {
        self.fields.validators.len()
    }

    /// A validator by its index. None exactly where the place is not below the length.
    pub fn validators_at(&self, i: u64) -> Option<Entry<'_>>
        ensures { result ≡ slice_get self.now.validators i }
    {
        self.fields.validators.get(i)
    }

    /// How many balances there are.
    pub fn balances_len(&self) -> u64
        ensures len { result ≡ length self.now.balances }
        ensures limit { result ≤ self.now.preset.validator_registry_limit }
    {
        self.fields.balances.len()
    }

    /// The balance of a validator, in Gwei. None exactly where the
    /// place is not below the length.
    pub fn balances_at(&self, i: u64) -> Option<u64>
        ensures { result ≡ slice_get self.now.balances i }
    {
        self.fields.balances.get(i)
    }

    /// How many mixes there are: as many as the preset says.
    pub fn randao_mixes_len(&self) -> u64
        ensures len { result ≡ length self.now.randao_mixes }
        ensures limit { result ≡ self.now.preset.epochs_per_historical_vector }
    {
        self.fields.randao_mixes.len()
    }

    /// The mix of the latest epoch that has this place. None exactly where the place is not below the length.
    pub fn randao_mixes_at(&self, i: u64) -> Option<&Root>
        ensures { option_map (λ x. x.now) result ≡ slice_get self.now.randao_mixes i }
    {
        self.fields.randao_mixes.get(i)
    }

    /// How many slashed balances there are: as many as the preset says.
    pub fn slashings_len(&self) -> u64
        ensures len { result ≡ length self.now.slashings }
        ensures limit { result ≡ self.now.preset.epochs_per_slashings_vector }
    {
        self.fields.slashings.len()
    }

    /// The balance that was slashed in the latest epoch that has this place, in Gwei. None exactly where the
    /// place is not below the length.
    pub fn slashings_at(&self, i: u64) -> Option<u64>
        ensures { result ≡ slice_get self.now.slashings i }
    {
        self.fields.slashings.get(i)
    }

    /// How many attestations of the previous epoch there are.
    pub fn previous_epoch_attestations_len(&self) -> u64
        ensures len { result ≡ length self.now.previous_epoch_attestations }
        ensures limit { result ≤ attestations_limit self.now.preset }
    {
        self.fields.previous_epoch_attestations.len()
    }

    /// An attestation of the previous epoch. None exactly where the place is not below the length.
    pub fn previous_epoch_attestations_at(&self, i: u64) -> Option<&PendingAttestation>
        ensures { option_map (λ x. x.now) result ≡ slice_get self.now.previous_epoch_attestations i }
    {
        self.fields.previous_epoch_attestations.get(i)
    }

    /// How many attestations of the current epoch there are.
    pub fn current_epoch_attestations_len(&self) -> u64
        ensures len { result ≡ length self.now.current_epoch_attestations }
        ensures limit { result ≤ attestations_limit self.now.preset }
    {
        self.fields.current_epoch_attestations.len()
    }

    /// An attestation of the current epoch. None exactly where the place is not below the length.
    pub fn current_epoch_attestations_at(&self, i: u64) -> Option<&PendingAttestation>
        ensures { option_map (λ x. x.now) result ≡ slice_get self.now.current_epoch_attestations i }
    {
        self.fields.current_epoch_attestations.get(i)
    }
}
