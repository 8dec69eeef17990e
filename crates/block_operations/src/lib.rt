//! The operations of a block, and what stands before them in its body (beacon-chain.md, "Block processing").
//!
//! States, blocks and how many validators are active in their epochs come from the state transition, and the states go back to
//! it; epoch processing reads the pending attestations, and takes exits. A file has the name of the published function that it
//! holds. After any stop the state is as before.
#![tactic(auto)]

pub mod compute_activation_exit_epoch;
mod counted;
mod decrease_balance;
mod get_attesting_indices;
mod get_validator_churn_limit;
mod get_validator_from_deposit;
mod increase_balance;
mod initiate_validator_exit;
mod is_slashable_validator;
pub mod is_valid_indexed_attestation;
mod is_valid_merkle_branch;
mod pending;
mod pending_votes;
pub mod process_attestation;
pub mod process_attester_slashing;
mod process_block_header;
pub mod process_deposit;
pub mod process_eth1_data;
pub mod process_proposer_slashing;
pub mod process_randao;
pub mod process_voluntary_exit;
mod pubkey_index;
mod read;
mod slash_validator;

pub use counted::committee_size;
pub use get_attesting_indices::attesting_indices;
pub use get_validator_churn_limit::churn_limit;
pub use initiate_validator_exit::{exit_queue_churn, initiate_exit, queue_end, withdrawable_epoch};
pub use is_valid_merkle_branch::branch_holds;
pub use pending_votes::PendingVotes;
pub use process_block_header::{process_header, process_rooted_header};
pub use pubkey_index::PubkeyIndex;
pub use slash_validator::slash;
