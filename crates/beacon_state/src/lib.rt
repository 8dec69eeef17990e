//! The state of the beacon chain: reading it, its root, and whether it begins a chain.
//!
//! Bytes come from the genesis file; contracts see a `State` as the plain record of its 21 fields and its preset.
#![tactic(auto)]

mod genesis;
mod lookups;
mod reading;
mod roots;
mod state;
mod writing;

pub use genesis::genesis_check;
pub use state::State;
pub use tree_nodes::NewLeaf;
pub use validator_registry::{Entry, Registry};
pub use writing::{one_writing_of_states, shortest_state, state_reads_back};
