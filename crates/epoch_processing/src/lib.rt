//! The parts of epoch processing but rewards (beacon-chain.md, "Epoch processing"): justification and finalisation, the registry's
//! updates, and the closing parts from slashings on.
//!
//! States come from the transition at an epoch's end, and go back to it. A file has the name of the published function that it
//! holds. Each call leaves the state as it was where it stops. Whether anyone begins to wait, is ejected or waits comes from
//! `balance_totals`, and where nobody does the registry's updates read no validator. Else the registry is walked once for those who
//! begin to wait or are ejected, while the end of the exit queue is kept, and at most twice for those who are let in.
#![tactic(auto)]

mod activations;
mod balances;
mod ejections;
pub mod process_effective_balance_updates;
pub mod process_eth1_data_reset;
pub mod process_historical_roots_update;
mod process_justification_and_finalization;
pub mod process_participation_record_updates;
pub mod process_randao_mixes_reset;
pub mod process_registry_updates;
pub mod process_slashings;
pub mod process_slashings_reset;
mod weigh_justification_and_finalization;

pub use process_justification_and_finalization::process_justification;
pub use spec_epochs::Justification;
pub use weigh_justification_and_finalization::weigh;
