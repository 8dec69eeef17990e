//! The containers of states and blocks (beacon-chain.md, "Containers"), and slashable attestation data.
//!
//! The SSZ calls of each come from `ssz_codec`; states, records and the store of fork choice are made of them. A list of a
//! block's body has its limit in its type, and clauses see it as the list alone.
#![tactic(auto)]

mod attestation;
mod attestation_data;
mod attestation_roots;
mod attester_slashing;
mod block;
mod block_header;
mod body;
mod body_limits;
mod checkpoint;
mod deposit;
mod deposit_data;
mod eth1_data;
mod fork;
mod indexed_attestation;
mod kept_roots;
mod limits;
mod pending_attestation;
mod proposer_slashing;
mod rooted_attestation;
mod signed_block;
mod signed_exit;
mod signed_header;
mod slashable;
mod validator;
mod validator_roots;
mod voluntary_exit;

pub use attestation::Attestation;
pub use attestation_data::AttestationData;
pub use attester_slashing::AttesterSlashing;
pub use block::BeaconBlock;
pub use block_header::BeaconBlockHeader;
pub use body::{
    Attestations, AttesterSlashings, BeaconBlockBody, Deposits, ProposerSlashings, VoluntaryExits,
    default_block_body, empty_body_root,
};
pub use body_limits::{
    AttestationsLimit, AttesterSlashingsLimit, DepositsLimit, ProposerSlashingsLimit,
    VoluntaryExitsLimit,
};
pub use checkpoint::{Checkpoint, same_checkpoint};
pub use deposit::{Deposit, DepositProof, DepositProofLength};
pub use deposit_data::DepositData;
pub use eth1_data::Eth1Data;
pub use fork::Fork;
pub use indexed_attestation::{AttestingIndices, IndexedAttestation};
pub use limits::{CommitteeLimit, MAX_VALIDATORS_PER_COMMITTEE};
pub use pending_attestation::{AggregationBits, PendingAttestation};
pub use proposer_slashing::ProposerSlashing;
pub use rooted_attestation::{RootedAttestation, rooted_attestations};
pub use signed_block::SignedBeaconBlock;
pub use signed_exit::SignedVoluntaryExit;
pub use signed_header::SignedBeaconBlockHeader;
pub use slashable::{is_slashable_data, same_data_is_equality};
pub use validator::Validator;
pub use voluntary_exit::VoluntaryExit;
