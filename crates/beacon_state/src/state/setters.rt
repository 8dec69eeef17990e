//! Changing the fields of a state: each call says in one clause which field or place changes, and that all else stays.
//!
//! What may take memory answers whether it was refused, and then leaves the state as it was. A root that was kept goes with the
//! first change, and a kept list of active validators with the first validator who isn't active at its epoch as before.

ghost use Rattle.std.specs.Prelude.{◌≡◌, ◌+◌, ◌<◌, ◌≤◌, [], length, slice_set};
ghost use Rattle.bc_words.specs.Outcome.{Pushes, Becomes};
ghost use Rattle.beacon_types.specs.Containers.{eth1_data_codec};
ghost use Rattle.spec_state.specs.States.{attestations_limit};
ghost use Rattle.beacon_state.specs.inside.Changes.{one_more_historical_root, one_more_vote, one_more_validator, one_more_balance};
ghost use Rattle.beacon_state.specs.inside.Changes.{with_more_previous_attestations, with_more_current_attestations};
ghost use Rattle.beacon_state.specs.inside.Changes.{with_previous_attestation_at, with_current_attestation_at, with_rotated_attestations};

use super::{State, registry};
use bc_words::{NoMemory, PushStop};
use beacon_types::{BeaconBlockHeader, Checkpoint, Eth1Data, Fork, PendingAttestation, Validator};
use hash_tree::Root;
use state_parts::Rooted;
use std::mem;
use tree_nodes::NewLeaf;

impl State {
    /// Writes when the chain began.
    pub fn set_genesis_time(&mut self, time: u64)
        ensures { self.new ≡ record self.old { genesis_time = time } }
    {
        self.fields.kept_root = None;
        self.fields.genesis_time = time;
    }

    /// Writes the root of the validators at the beginning.
    pub fn set_genesis_validators_root(&mut self, root: Root)
        ensures { self.new ≡ record self.old { genesis_validators_root = root } }
    {
        self.fields.kept_root = None;
        self.fields.genesis_validators_root = root;
    }

    /// Writes the slot.
    pub fn set_slot(&mut self, slot: u64)
        ensures { self.new ≡ record self.old { slot = slot } }
    {
        self.fields.kept_root = None;
        self.fields.slot = slot;
    }

    /// Writes the fork.
    pub fn set_fork(&mut self, fork: Fork)
        ensures { self.new ≡ record self.old { fork = fork } }
    {
        self.fields.kept_root = None;
        self.fields.fork = Rooted::new(fork);
    }

    /// Writes the header of the latest block.
    pub fn set_latest_block_header(&mut self, header: BeaconBlockHeader)
        ensures { self.new ≡ record self.old { latest_block_header = header } }
    {
        self.fields.kept_root = None;
        self.fields.latest_block_header = header;
    }

    /// Writes what is known of the deposit contract.
    pub fn set_eth1_data(&mut self, eth1_data: Eth1Data)
        ensures { self.new ≡ record self.old { eth1_data = eth1_data } }
    {
        self.fields.kept_root = None;
        self.fields.eth1_data = Rooted::new(eth1_data);
    }

    /// Writes what is known of the deposit contract, which has this root.
    pub fn set_known_eth1_data(&mut self, eth1_data: Eth1Data, root: Root)
        requires { root ≡ eth1_data_codec.hash_tree_root eth1_data }
        ensures { self.new ≡ record self.old { eth1_data = eth1_data } }
    {
        self.fields.kept_root = None;
        self.fields.eth1_data = Rooted::known(eth1_data, root);
    }

    /// Writes how many deposits were processed.
    pub fn set_eth1_deposit_index(&mut self, index: u64)
        ensures { self.new ≡ record self.old { eth1_deposit_index = index } }
    {
        self.fields.kept_root = None;
        self.fields.eth1_deposit_index = index;
    }

    /// Writes which of the latest four epochs are justified, the current one first.
    pub fn set_justification_bits(&mut self, bits: [bool; 4])
        ensures { self.new ≡ record self.old { justification_bits = bits } }
    {
        self.fields.kept_root = None;
        self.fields.justification_bits = bits;
    }

    /// Writes the justified checkpoint of the previous epoch.
    pub fn set_previous_justified_checkpoint(&mut self, checkpoint: Checkpoint)
        ensures { self.new ≡ record self.old { previous_justified_checkpoint = checkpoint } }
    {
        self.fields.kept_root = None;
        self.fields.previous_justified_checkpoint = Rooted::new(checkpoint);
    }

    /// Writes the justified checkpoint of the current epoch.
    pub fn set_current_justified_checkpoint(&mut self, checkpoint: Checkpoint)
        ensures { self.new ≡ record self.old { current_justified_checkpoint = checkpoint } }
    {
        self.fields.kept_root = None;
        self.fields.current_justified_checkpoint = Rooted::new(checkpoint);
    }

    /// Writes the finalised checkpoint.
    pub fn set_finalized_checkpoint(&mut self, checkpoint: Checkpoint)
        ensures { self.new ≡ record self.old { finalized_checkpoint = checkpoint } }
    {
        self.fields.kept_root = None;
        self.fields.finalized_checkpoint = Rooted::new(checkpoint);
    }
}

impl State {
    /// Writes another root of a block at a place. Where memory is refused, the state is as before.
    pub fn set_block_roots_at(&mut self, i: u64, root: Root) -> Result<(), NoMemory>
        requires { i < length self.old.block_roots }
        ensures { Becomes result self.old self.new (record self.old { block_roots = slice_set self.old.block_roots i root }) }
    {
        self.fields.kept_root = None;
        self.fields.block_roots.set(i, root)
    }

    /// Writes another root of a state at a place. Where memory is refused, the state is as before.
    pub fn set_state_roots_at(&mut self, i: u64, root: Root) -> Result<(), NoMemory>
        requires { i < length self.old.state_roots }
        ensures { Becomes result self.old self.new (record self.old { state_roots = slice_set self.old.state_roots i root }) }
    {
        self.fields.kept_root = None;
        self.fields.state_roots.set(i, root)
    }

    /// Writes another root of a batch at a place. Where memory is refused, the state is as before.
    pub fn set_historical_roots_at(&mut self, i: u64, root: Root) -> Result<(), NoMemory>
        requires { i < length self.old.historical_roots }
        ensures { Becomes result self.old self.new (record self.old { historical_roots = slice_set self.old.historical_roots i root }) }
    {
        self.fields.kept_root = None;
        self.fields.historical_roots.set(i, root)
    }

    /// Appends one more root of a batch. Full exactly where there are as many as the limit. On an error the
    /// state is as before.
    pub fn push_historical_roots(&mut self, root: Root) -> Result<(), PushStop>
        ensures { Pushes result self.old self.new (one_more_historical_root self.old root) }
    {
        self.fields.kept_root = None;
        self.fields.historical_roots.push(root)
    }

    /// Writes another vote at a place. Where memory is refused, the state is as before.
    pub fn set_eth1_data_votes_at(&mut self, i: u64, vote: Eth1Data) -> Result<(), NoMemory>
        requires { i < length self.old.eth1_data_votes }
        ensures { Becomes result self.old self.new (record self.old { eth1_data_votes = slice_set self.old.eth1_data_votes i vote }) }
    {
        self.fields.kept_root = None;
        self.fields.eth1_data_votes.set(i, vote)
    }

    /// Appends one more vote, which has this root. Full exactly where there are as many as the limit. On an error the
    /// state is as before.
    pub fn push_eth1_data_votes(&mut self, vote: Eth1Data, root: Root) -> Result<(), PushStop>
        requires { root ≡ eth1_data_codec.hash_tree_root vote }
        ensures { Pushes result self.old self.new (one_more_vote self.old vote) }
    {
        self.fields.kept_root = None;
        self.fields.eth1_data_votes.push_known(vote, root)
    }

    /// Writes another validator at a place. Where memory is refused, the state is as before.
    pub fn set_validators_at(&mut self, i: u64, validator: Validator) -> Result<(), NoMemory>
        requires { i < length self.old.validators }
        ensures { Becomes result self.old self.new (record self.old { validators = slice_set self.old.validators i validator }) }
    {
        let fields = &mut *self.fields;
        fields.kept_root = None;
        registry::set(
            &mut fields.validators,
            &mut fields.active_lists,
            i,
            &validator,
        )
    }

    /// Appends one more validator. Full exactly where there are as many as the limit. On an error the
    /// state is as before.
    pub fn push_validators(&mut self, validator: Validator) -> Result<(), PushStop>
        ensures { Pushes result self.old self.new (one_more_validator self.old validator) }
    {
        let limit = self.preset().validator_registry_limit;
        let fields = &mut *self.fields;
        fields.kept_root = None;
        registry::push(
            &mut fields.validators,
            &mut fields.active_lists,
            &validator,
            limit,
        )
    }

    /// Writes another balance at a place. Where memory is refused, the state is as before.
    pub fn set_balances_at(&mut self, i: u64, balance: u64) -> Result<(), NoMemory>
        requires { i < length self.old.balances }
        ensures { Becomes result self.old self.new (record self.old { balances = slice_set self.old.balances i balance }) }
    {
        self.fields.kept_root = None;
        self.fields.balances.set(i, balance)
    }

    /// Appends one more balance. Full exactly where there are as many as the limit. On an error the
    /// state is as before.
    pub fn push_balances(&mut self, balance: u64) -> Result<(), PushStop>
        ensures { Pushes result self.old self.new (one_more_balance self.old balance) }
    {
        self.fields.kept_root = None;
        self.fields.balances.push(balance)
    }

    /// Writes another mix at a place. Where memory is refused, the state is as before.
    pub fn set_randao_mixes_at(&mut self, i: u64, mix: Root) -> Result<(), NoMemory>
        requires { i < length self.old.randao_mixes }
        ensures { Becomes result self.old self.new (record self.old { randao_mixes = slice_set self.old.randao_mixes i mix }) }
    {
        self.fields.kept_root = None;
        self.fields.randao_mixes.set(i, mix)
    }

    /// Writes another slashed balance at a place. Where memory is refused, the state is as before.
    pub fn set_slashings_at(&mut self, i: u64, balance: u64) -> Result<(), NoMemory>
        requires { i < length self.old.slashings }
        ensures { Becomes result self.old self.new (record self.old { slashings = slice_set self.old.slashings i balance }) }
    {
        self.fields.kept_root = None;
        self.fields.slashings.set(i, balance)
    }

    /// Writes another attestation at a place. Where memory is refused, the state is as before.
    pub fn set_previous_epoch_attestations_at(
        &mut self,
        i: u64,
        attestation: PendingAttestation,
    ) -> Result<(), NoMemory>
        requires { i < length self.old.previous_epoch_attestations }
        ensures { Becomes result self.old self.new (with_previous_attestation_at self.old i attestation) }
    {
        self.fields.kept_root = None;
        self.fields.previous_epoch_attestations.set(i, attestation)
    }

    /// Appends more attestations, each with its root, for which there is room. Where memory is refused, the state is as before.
    pub fn append_previous_epoch_attestations(
        &mut self,
        leaves: Vec<NewLeaf<PendingAttestation>>,
    ) -> Result<(), NoMemory>
        requires { length self.old.previous_epoch_attestations + length leaves.items ≤ attestations_limit self.old.preset }
        ensures { Becomes result self.old self.new (with_more_previous_attestations self.old leaves.items) }
    {
        self.fields.kept_root = None;
        self.fields.previous_epoch_attestations.push_many(leaves)
    }

    /// Writes another attestation at a place. Where memory is refused, the state is as before.
    pub fn set_current_epoch_attestations_at(
        &mut self,
        i: u64,
        attestation: PendingAttestation,
    ) -> Result<(), NoMemory>
        requires { i < length self.old.current_epoch_attestations }
        ensures { Becomes result self.old self.new (with_current_attestation_at self.old i attestation) }
    {
        self.fields.kept_root = None;
        self.fields.current_epoch_attestations.set(i, attestation)
    }

    /// Appends more attestations, each with its root, for which there is room. Where memory is refused, the state is as before.
    pub fn append_current_epoch_attestations(
        &mut self,
        leaves: Vec<NewLeaf<PendingAttestation>>,
    ) -> Result<(), NoMemory>
        requires { length self.old.current_epoch_attestations + length leaves.items ≤ attestations_limit self.old.preset }
        ensures { Becomes result self.old self.new (with_more_current_attestations self.old leaves.items) }
    {
        self.fields.kept_root = None;
        self.fields.current_epoch_attestations.push_many(leaves)
    }

    /// Drops all votes for the deposit contract. Where memory is refused, the state is as before.
    pub fn clear_eth1_data_votes(&mut self) -> Result<(), NoMemory>
        ensures { Becomes result self.old self.new (record self.old { eth1_data_votes = [] }) }
    {
        self.fields.kept_root = None;
        let none = self.fields.eth1_data_votes.none()?;
        self.fields.eth1_data_votes = none;
        Ok(())
    }

    /// The attestations of the current epoch become those of the previous one, and the current epoch has none. Where
    /// memory is refused, the state is as before.
    pub fn rotate_attestations(&mut self) -> Result<(), NoMemory>
        ensures { Becomes result self.old self.new (with_rotated_attestations self.old) }
    {
        let fields = &mut *self.fields;
        fields.kept_root = None;
        let none = fields.current_epoch_attestations.none()?;
        fields.previous_epoch_attestations = mem::replace(
            &mut fields.current_epoch_attestations,
            none,
        );
        Ok(())
    }
}
