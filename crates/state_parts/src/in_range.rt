//! What a list of the state holds: values that are within the limits of their codec by their type, and can be
//! copied and compared.

ghost use Rattle.std.specs.Prelude.{◌≡◌, IfOk, IsTrue};
ghost use Rattle.ssz_codec.specs.Basic.{bytes_codec, bytes32, bitvector};
ghost use Rattle.ssz_codec.specs.Lawful.{IsBytes};
ghost use Rattle.beacon_types.specs.Containers.{fork_codec, block_header_codec, eth1_data_codec, validator_codec, attestation_data_codec, checkpoint_codec, pending_attestation_codec};

use bc_words::NoMemory;
use beacon_types::{
    AttestationData, BeaconBlockHeader, Checkpoint, Eth1Data, Fork, PendingAttestation, Validator,
};
use hash_tree::Root;
use ssz_codec::Ssz;

/// A value of a list of the state.
pub trait InRange: Ssz {
    /// The value is within the limits of its codec. It does nothing when it runs.
    fn in_range(&self)
        ensures { Self.codec.Within self.now };

    /// The same value once more.
    fn copied(&self) -> Result<Self, NoMemory>
        ensures { IfOk result (λ copy. copy ≡ self.now) };

    /// Whether it is the same value.
    fn same(&self, other: &Self) -> bool
        ensures { IsTrue result → self.now ≡ other.now };
}

impl InRange for Root {
    fn in_range(&self) {
        bytes_in_range(self);
    }

    fn copied(&self) -> Result<Root, NoMemory> {
        Ok(*self)
    }

    fn same(&self, other: &Root) -> bool {
        self == other
    }
}

impl InRange for Eth1Data {
    fn in_range(&self) {
        eth1_data_in_range(self);
    }

    fn copied(&self) -> Result<Eth1Data, NoMemory> {
        Ok(*self)
    }

    fn same(&self, other: &Eth1Data) -> bool {
        self == other
    }
}

impl InRange for Validator {
    fn in_range(&self) {
        validator_in_range(self);
    }

    fn copied(&self) -> Result<Validator, NoMemory> {
        Ok(*self)
    }

    fn same(&self, other: &Validator) -> bool {
        self == other
    }
}

impl InRange for PendingAttestation {
    fn in_range(&self) {
        attestation_in_range(self);
    }

    fn copied(&self) -> Result<PendingAttestation, NoMemory> {
        self.copy()
    }

    fn same(&self, other: &PendingAttestation) -> bool {
        self.equals(other)
    }
}

/// Bytes are below 256.
fn are_bytes(bytes: &[u8])
    ensures { IsBytes bytes.now }
{}

/// A vector of bytes.
fn bytes_in_range<const N: usize>(bytes: &[u8; N])
    ensures { (bytes_codec N).Within bytes.now }
{
    let _bytes = *bytes;
    are_bytes(bytes);
}

#[tactic(auto, unfolding(ssz_codec::specs::Layout::OffsetsFit))]
pub fn eth1_data_in_range(eth1: &Eth1Data)
    ensures { eth1_data_codec.Within eth1.now }
{
    bytes_in_range(&eth1.deposit_root);
    let _count = eth1.deposit_count;
    bytes_in_range(&eth1.block_hash);
}

#[tactic(auto, unfolding(ssz_codec::specs::Layout::OffsetsFit))]
fn validator_in_range(validator: &Validator)
    ensures { validator_codec.Within validator.now }
{
    bytes_in_range(&validator.pubkey);
    bytes_in_range(&validator.withdrawal_credentials);
    let _balance = validator.effective_balance;
    let _eligible = validator.activation_eligibility_epoch;
    let _active = validator.activation_epoch;
    let _left = validator.exit_epoch;
    let _withdrawable = validator.withdrawable_epoch;
}

#[tactic(auto, unfolding(ssz_codec::specs::Layout::OffsetsFit))]
pub fn checkpoint_in_range(checkpoint: &Checkpoint)
    ensures { checkpoint_codec.Within checkpoint.now }
{
    let _epoch = checkpoint.epoch;
    bytes_in_range(&checkpoint.root);
}

#[tactic(auto, unfolding(ssz_codec::specs::Layout::OffsetsFit))]
fn attestation_data_in_range(content: &AttestationData)
    ensures { attestation_data_codec.Within content.now }
{
    let _slot = content.slot;
    let _index = content.index;
    bytes_in_range(&content.beacon_block_root);
    checkpoint_in_range(&content.source);
    checkpoint_in_range(&content.target);
}

#[tactic(auto, unfolding(ssz_codec::specs::Layout::OffsetsFit))]
fn attestation_in_range(attestation: &PendingAttestation)
    ensures { pending_attestation_codec.Within attestation.now }
{
    let _count = attestation.aggregation_bits.len();
    attestation_data_in_range(&attestation.content);
    let _delay = attestation.inclusion_delay;
    let _proposer = attestation.proposer_index;
}

#[tactic(auto, unfolding(ssz_codec::specs::Layout::OffsetsFit))]
pub fn fork_in_range(fork: &Fork)
    ensures { fork_codec.Within fork.now }
{
    bytes_in_range(&fork.previous_version);
    bytes_in_range(&fork.current_version);
    let _epoch = fork.epoch;
}

#[tactic(auto, unfolding(ssz_codec::specs::Layout::OffsetsFit))]
pub fn header_in_range(header: &BeaconBlockHeader)
    ensures { block_header_codec.Within header.now }
{
    let _slot = header.slot;
    let _proposer = header.proposer_index;
    bytes_in_range(&header.parent_root);
    bytes_in_range(&header.state_root);
    bytes_in_range(&header.body_root);
}

pub fn root_in_range(root: &Root)
    ensures { bytes32.Within root.now }
{
    bytes_in_range(root);
}

pub fn bits_in_range(bits: &[bool; 4])
    ensures { (bitvector 4).Within bits.now }
{
    let _bits = *bits;
}
