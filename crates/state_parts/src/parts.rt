//! The fields of the state in six groups of neighbours, as reading takes them.
//!
//! What has several lists lets them go by hand, so that a call that lets it go is one call, and not one for each list.

ghost use Rattle.std.specs.Prelude.{◌≡◌};

use beacon_types::{BeaconBlockHeader, Checkpoint, Eth1Data, Fork, PendingAttestation, Validator};
use hash_tree::Root;
use ssz_codec::Items;

/// The first five fields: where the chain stands.
#[derive(Drop)]
pub(crate) struct Clock {
    /// When the chain began, in seconds since 1970.
    pub genesis_time: u64,
    /// The root of the validators at the beginning.
    pub genesis_validators_root: Root,
    /// The slot.
    pub slot: u64,
    /// The fork.
    pub fork: Fork,
    /// The header of the latest block.
    pub latest_block_header: BeaconBlockHeader,
}

/// The next three: roots of blocks and states.
pub(crate) struct History {
    /// The roots of the latest blocks, by slot.
    pub block_roots: Items<Root>,
    /// The roots of the latest states, by slot.
    pub state_roots: Items<Root>,
    /// The roots of older batches.
    pub historical_roots: Items<Root>,
}

impl History {
    /// Its lists, in their order.
    pub(crate) fn into_lists(self) -> (Items<Root>, Items<Root>, Items<Root>)
        ensures { result ≡ (self.block_roots, self.state_roots, self.historical_roots) }
    {
        let History {
            block_roots,
            state_roots,
            historical_roots,
        } = self;
        (block_roots, state_roots, historical_roots)
    }
}

impl Drop for History {
    fn drop(self) {
        let History {
            block_roots,
            state_roots,
            historical_roots,
        } = self;
        drop(block_roots);
        drop(state_roots);
        drop(historical_roots);
    }
}

/// The next three: the deposit contract.
#[derive(Drop)]
pub(crate) struct Eth1 {
    /// What is known of the deposit contract.
    pub eth1_data: Eth1Data,
    /// The votes for it in this period.
    pub eth1_data_votes: Items<Eth1Data>,
    /// How many deposits were processed.
    pub eth1_deposit_index: u64,
}

/// The next four: validators and what is kept by epoch.
pub(crate) struct Registry {
    /// The registry.
    pub validators: Items<Validator>,
    /// The balance of each validator, in Gwei.
    pub balances: Items<u64>,
    /// The mixes of the latest epochs.
    pub randao_mixes: Items<Root>,
    /// The balances that were slashed in the latest epochs, in Gwei.
    pub slashings: Items<u64>,
}

impl Registry {
    /// Its lists, in their order.
    pub(crate) fn into_lists(self) -> (Items<Validator>, Items<u64>, Items<Root>, Items<u64>)
        ensures { result ≡ (self.validators, self.balances, self.randao_mixes, self.slashings) }
    {
        let Registry {
            validators,
            balances,
            randao_mixes,
            slashings,
        } = self;
        (validators, balances, randao_mixes, slashings)
    }
}

impl Drop for Registry {
    fn drop(self) {
        let Registry {
            validators,
            balances,
            randao_mixes,
            slashings,
        } = self;
        drop(validators);
        drop(balances);
        drop(randao_mixes);
        drop(slashings);
    }
}

/// The next two: attestations that wait for the epoch's end.
pub(crate) struct Pending {
    /// The attestations of the previous epoch.
    pub previous_epoch_attestations: Items<PendingAttestation>,
    /// The attestations of the current epoch.
    pub current_epoch_attestations: Items<PendingAttestation>,
}

impl Pending {
    /// Its lists, in their order.
    pub(crate) fn into_lists(self) -> (Items<PendingAttestation>, Items<PendingAttestation>)
        ensures { result ≡ (self.previous_epoch_attestations, self.current_epoch_attestations) }
    {
        let Pending {
            previous_epoch_attestations,
            current_epoch_attestations,
        } = self;
        (previous_epoch_attestations, current_epoch_attestations)
    }
}

impl Drop for Pending {
    fn drop(self) {
        let Pending {
            previous_epoch_attestations,
            current_epoch_attestations,
        } = self;
        drop(previous_epoch_attestations);
        drop(current_epoch_attestations);
    }
}

/// The last four: justification and finality.
#[derive(Drop)]
pub(crate) struct Finality {
    /// Which of the latest four epochs are justified, the current one first.
    pub justification_bits: [bool; 4],
    /// The justified checkpoint of the previous epoch.
    pub previous_justified_checkpoint: Checkpoint,
    /// The justified checkpoint of the current epoch.
    pub current_justified_checkpoint: Checkpoint,
    /// The finalised checkpoint.
    pub finalized_checkpoint: Checkpoint,
}
