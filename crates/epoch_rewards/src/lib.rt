//! Who attested in the pending attestations of an epoch, and the rewards and penalties for it (beacon-chain.md, "Epoch processing",
//! "Helper functions" and "Rewards and penalties").
//!
//! States come from epoch processing. One pass over the attestations (`notes`) makes of the previous epoch a table of a status a
//! validator, and of the current one of a flag. Justification weighs what is found, and rewards do behind it; they leave the balances
//! changed, and the state goes on to the registry. What is read of the registry was gathered before (`balance_totals`).
//!
//! What a validator gains, loses or has left is an amount (`amounts`), reckoned in the file of the published function that it
//! belongs to. It is reckoned by how the validator stands (`standing`), which is looked up once, and by what its effective balance
//! brings (`rates`), which is kept while that is the same. All five parts are then paid in one pass over what was gathered; each is
//! a call of its own too, by the same amounts. A published function of rewards stands in the file of its name.
#![tactic(auto)]

mod amounts;
mod balance;
mod epoch_tables;
mod flagged;
mod get_attestation_component_deltas;
mod get_base_reward;
mod get_eligible_validator_indices;
mod get_finality_delay;
mod get_head_deltas;
mod get_inactivity_penalty_deltas;
mod get_inclusion_delay_deltas;
mod get_matching_attestations;
mod get_proposer_reward;
mod get_source_deltas;
mod get_target_deltas;
mod inclusions;
mod is_in_inactivity_leak;
mod matching;
mod notes;
mod numbers;
mod paid;
mod pending;
mod place;
mod process_rewards_and_penalties;
mod rates;
mod standing;
mod table;
mod vote_deltas;

pub use balance::{counted, flag_balance, vote_balance};
pub use epoch_tables::{current_targets, previous_table};
pub use get_head_deltas::head_deltas;
pub use get_inactivity_penalty_deltas::inactivity_deltas;
pub use get_inclusion_delay_deltas::inclusion_deltas;
pub use get_matching_attestations::{matching_head, matching_target};
pub use get_source_deltas::source_deltas;
pub use get_target_deltas::target_deltas;
pub use inclusions::Inclusion;
pub use matching::Vote;
pub use notes::{current_flags, previous_statuses};
pub use process_rewards_and_penalties::process_rewards;
pub use spec_epochs::Deltas;
pub use table::{Status, flag_at, inclusion_at};
