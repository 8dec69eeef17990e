//! The active validators of epochs, and the committees that they make, which states keep: listed once, and lent to all who share
//! them.
//!
//! Registries, seeds and lists come from a state, which has this beside its fields; it goes to whoever asks who is active.
#![tactic(auto)]

mod active_list;
mod active_lists;
mod kept_committees;
mod predicates;

pub use active_list::ActiveList;
pub use active_lists::ActiveLists;
pub use kept_committees::KeptCommittees;
pub use predicates::{is_active_entry, is_active_validator};
