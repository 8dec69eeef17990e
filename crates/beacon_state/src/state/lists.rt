//! The lists of a state and the roots that it keeps, for its writing, its root and the check of a genesis, and the lists that are
//! lent to all.

ghost use Rattle.std.specs.Prelude.{◌≡◌, ◌≤◌, length};
ghost use Rattle.spec_state.specs.States.{votes_limit, attestations_limit};
ghost use Rattle.ssz_codec.specs.Lists.{list_codec};
ghost use Rattle.beacon_types.specs.Containers.{validator_codec, fork_codec, eth1_data_codec, checkpoint_codec};
ghost use Rattle.spec_state.specs.Limits.{IsState, IsInRange};

use super::State;
use beacon_types::{Eth1Data, PendingAttestation};
use hash_tree::Root;
use shared_tree::{PackedList, SharedList};
use state_parts::{
    Numbers, Validators, Values, bits_in_range, checkpoint_in_range, eth1_data_in_range,
    fork_in_range, header_in_range, root_in_range,
};
use validator_registry::Registry;

impl State {
    /// The roots of the latest blocks.
    pub(crate) fn block_roots(&self) -> &Values<Root>
        ensures same { result.now.items ≡ self.now.block_roots }
        ensures most { result.now.limit ≡ self.now.preset.slots_per_historical_root }
        ensures limit { length self.now.block_roots ≡ self.now.preset.slots_per_historical_root }
    {
        &self.fields.block_roots
    }

    /// The roots of the latest states.
    pub(crate) fn state_roots(&self) -> &Values<Root>
        ensures same { result.now.items ≡ self.now.state_roots }
        ensures most { result.now.limit ≡ self.now.preset.slots_per_historical_root }
        ensures limit { length self.now.state_roots ≡ self.now.preset.slots_per_historical_root }
    {
        &self.fields.state_roots
    }

    /// The roots of older batches.
    pub(crate) fn historical_roots(&self) -> &Values<Root>
        ensures same { result.now.items ≡ self.now.historical_roots }
        ensures most { result.now.limit ≡ self.now.preset.historical_roots_limit }
        ensures limit { length self.now.historical_roots ≤ self.now.preset.historical_roots_limit }
    {
        &self.fields.historical_roots
    }

    /// The votes for the deposit contract.
    pub(crate) fn eth1_data_votes(&self) -> &Values<Eth1Data>
        ensures same { result.now.items ≡ self.now.eth1_data_votes }
        ensures most { result.now.limit ≡ votes_limit self.now.preset }
        ensures limit { length self.now.eth1_data_votes ≤ votes_limit self.now.preset }
    {
        &self.fields.eth1_data_votes
    }

    /// The registry.
    pub(crate) fn validators(&self) -> &Validators
        ensures same { result.now ≡ self.now.validators }
        ensures limit { length self.now.validators ≤ self.now.preset.validator_registry_limit }
    {
        &self.fields.validators
    }

    /// The balances.
    pub(crate) fn balances(&self) -> &Numbers
        ensures same { result.now.items ≡ self.now.balances }
        ensures most { result.now.limit ≡ self.now.preset.validator_registry_limit }
        ensures limit { length self.now.balances ≤ self.now.preset.validator_registry_limit }
    {
        &self.fields.balances
    }

    /// The mixes.
    pub(crate) fn randao_mixes(&self) -> &Values<Root>
        ensures same { result.now.items ≡ self.now.randao_mixes }
        ensures most { result.now.limit ≡ self.now.preset.epochs_per_historical_vector }
        ensures limit { length self.now.randao_mixes ≡ self.now.preset.epochs_per_historical_vector }
    {
        &self.fields.randao_mixes
    }

    /// The slashed balances.
    pub(crate) fn slashings(&self) -> &Numbers
        ensures same { result.now.items ≡ self.now.slashings }
        ensures most { result.now.limit ≡ self.now.preset.epochs_per_slashings_vector }
        ensures limit { length self.now.slashings ≡ self.now.preset.epochs_per_slashings_vector }
    {
        &self.fields.slashings
    }

    /// The attestations of the previous epoch.
    pub(crate) fn previous_epoch_attestations(&self) -> &Values<PendingAttestation>
        ensures same { result.now.items ≡ self.now.previous_epoch_attestations }
        ensures most { result.now.limit ≡ attestations_limit self.now.preset }
        ensures limit { length self.now.previous_epoch_attestations ≤ attestations_limit self.now.preset }
    {
        &self.fields.previous_epoch_attestations
    }

    /// The attestations of the current epoch.
    pub(crate) fn current_epoch_attestations(&self) -> &Values<PendingAttestation>
        ensures same { result.now.items ≡ self.now.current_epoch_attestations }
        ensures most { result.now.limit ≡ attestations_limit self.now.preset }
        ensures limit { length self.now.current_epoch_attestations ≤ attestations_limit self.now.preset }
    {
        &self.fields.current_epoch_attestations
    }
}

impl State {
    /// The registry, whose validators are lent in order.
    pub fn registry(&self) -> &Registry
        ensures { result.now ≡ self.now.validators }
    {
        self.fields.validators.registry()
    }

    /// The root of the registry, which is kept.
    pub fn validators_root(&self) -> Root
        ensures { result ≡ (list_codec validator_codec self.now.preset.validator_registry_limit).hash_tree_root self.now.validators }
    {
        let _preset = self.preset();
        self.validators().root()
    }

    /// The balances, in Gwei. Their root is kept.
    pub fn balance_list(&self) -> &PackedList
        ensures items { result.now.items ≡ self.now.balances }
        ensures limit { result.now.limit ≡ self.now.preset.validator_registry_limit }
    {
        self.fields.balances.list()
    }

    /// The votes of the period for the data of the deposit contract. Their root is kept.
    pub fn eth1_data_vote_list(&self) -> &SharedList<Eth1Data>
        ensures items { result.now.items ≡ self.now.eth1_data_votes }
        ensures limit { result.now.limit ≡ votes_limit self.now.preset }
    {
        self.fields.eth1_data_votes.list()
    }

    /// The law that a state is within the limits of its preset, and so is each value. It does nothing when it runs.
    pub fn in_range(&self)
        ensures state { IsState self.now }
        ensures range { IsInRange self.now }
    {
        let _preset = &self.fields.preset;
        let _time = self.fields.genesis_time;
        let _slot = self.fields.slot;
        let _index = self.fields.eth1_deposit_index;
        root_in_range(&self.genesis_validators_root());
        bits_in_range(&self.justification_bits());
        fork_in_range(&self.fork());
        header_in_range(&self.latest_block_header());
        eth1_data_in_range(&self.eth1_data());
        checkpoint_in_range(&self.previous_justified_checkpoint());
        checkpoint_in_range(&self.current_justified_checkpoint());
        checkpoint_in_range(&self.finalized_checkpoint());
        let _block_roots = self.block_roots().len();
        let _state_roots = self.state_roots().len();
        let _historical_roots = self.historical_roots().len();
        let _votes = self.eth1_data_votes().len();
        let _validators = self.validators().len();
        let _balances = self.balances().len();
        let _mixes = self.randao_mixes().len();
        let _slashings = self.slashings().len();
        let _previous = self.previous_epoch_attestations().len();
        let _current = self.current_epoch_attestations().len();
    }

    /// The root of the fork, which is kept.
    pub(crate) fn fork_root(&self) -> Root
        ensures { result ≡ fork_codec.hash_tree_root self.now.fork }
    {
        self.fields.fork.root()
    }

    /// The root of what is known of the deposit contract, which is kept.
    pub(crate) fn eth1_data_root(&self) -> Root
        ensures { result ≡ eth1_data_codec.hash_tree_root self.now.eth1_data }
    {
        self.fields.eth1_data.root()
    }

    /// The root of the justified checkpoint of the previous epoch, which is kept.
    pub(crate) fn previous_justified_checkpoint_root(&self) -> Root
        ensures { result ≡ checkpoint_codec.hash_tree_root self.now.previous_justified_checkpoint }
    {
        self.fields.previous_justified_checkpoint.root()
    }

    /// The root of the justified checkpoint of the current epoch, which is kept.
    pub(crate) fn current_justified_checkpoint_root(&self) -> Root
        ensures { result ≡ checkpoint_codec.hash_tree_root self.now.current_justified_checkpoint }
    {
        self.fields.current_justified_checkpoint.root()
    }

    /// The root of the finalised checkpoint, which is kept.
    pub(crate) fn finalized_checkpoint_root(&self) -> Root
        ensures { result ≡ checkpoint_codec.hash_tree_root self.now.finalized_checkpoint }
    {
        self.fields.finalized_checkpoint.root()
    }
}
