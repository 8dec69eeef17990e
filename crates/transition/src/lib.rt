//! The state transition (beacon-chain.md, "Beacon chain state transition function"): slots with the ends of epochs, blocks with
//! their operations, and whether a state may be given to it.
//!
//! States come from genesis, from files, and from the transition itself; blocks from records of events.
#![tactic(auto)]

pub mod get_beacon_proposer_index;
pub mod laws;
mod pending;
pub mod process_block;
pub mod process_epoch;
pub mod process_operations;
pub mod process_slot;
pub mod process_slots;
mod soundness;
pub mod state_transition;
mod step;

pub use soundness::{genesis_is_sound, is_sound, is_sound_within_epoch, sound_within_epoch};
pub use step::{States, Step};
