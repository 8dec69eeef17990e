//! The store of fork choice: kept blocks with their states, checkpoints, the time, and each validator's latest vote.
//!
//! Ticks, blocks and votes come from a record's events; the head, the checkpoints and the kept blocks go to its lines. Beside the
//! kept blocks there is an array of nodes, by which weights and the head are made. States of checkpoints are kept once a vote
//! needed them. A file has the name of the published function that it holds, where there is one.
#![tactic(auto)]

mod anchor;
mod array_laws;
mod block_in;
mod chain_stepper;
mod checkpoint_states;
mod clashes;
mod feed;
mod follow;
mod get_ancestor;
mod get_forkchoice_store;
mod get_head;
mod kept_blocks;
mod kept_state;
mod made_step;
mod on_attestation;
mod on_attester_slashing;
mod on_block;
mod on_event;
mod on_tick;
mod ready_balances;
mod settle;
mod should_update_justified_checkpoint;
mod slots;
mod state_at;
mod step_again;
mod stepped;
mod store;
mod store_fields;
mod store_target_checkpoint_state;
mod update_latest_messages;
mod validate_on_attestation;

pub use anchor::{AnchorStop, anchor_check};
pub use array_laws::array_agrees;
pub use block_in::BlockIn;
pub use chain_stepper::ChainStepper;
pub use clashes::{clash, same_block_is_equality};
pub use on_event::{Accepted, EventKind};
pub use store::Store;
pub use transition::is_sound;
