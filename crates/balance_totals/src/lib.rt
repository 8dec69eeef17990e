//! Active validators, total balances, the committees of an epoch and the roots of blocks (beacon-chain.md, "Beacon state
//! accessors"), and what an epoch's end reads of each validator, gathered in one walk over the registry.
//!
//! They read a state; the steps of blocks and epochs take what they give. Justification, rewards, the registry's updates and
//! effective balances are lent what was gathered: validators lie apart in memory, and none of these parts reads them again where
//! nothing stirs.
#![tactic(auto)]

mod block_roots;
mod epoch;
mod epochs;
mod gathering;
mod stake;
mod stirring;
mod totals;
mod validators;

pub use active_sets::{is_active_entry, is_active_validator};
pub use block_roots::{block_root, block_root_at_slot};
pub use epoch::{committees_of_epoch, keep_committees, kept_committees, shared_committees};
pub use epochs::{current_epoch, previous_epoch};
pub use gathering::{Stakes, gather};
pub use stake::{Stake, find_stake, stake_at};
pub use stirring::{is_ejected, may_wait};
pub use totals::{
    active, active_are_indices, count_active, keep_active, note_total, total_active, total_of,
};
pub use validators::{balance_at, validator_at};
