//! The nodes of fork choice in order of arrival, with the votes for them.
//!
//! Nodes, votes, balances, checkpoints, the boost and who is silenced come from the store above; weights and the head go back to it.
//! Balances are counted at the nodes that they are voted for, and only what changed is counted anew; then one pass from the last node
//! to the justified one makes weights and the head.
#![tactic(auto)]

mod apply_score_changes;
mod best_descendant;
mod block_array;
mod compute_deltas;
mod facts;
mod get_ancestor;
mod inputs;
mod list;
mod node;
mod note;
mod room;
mod stored_message;
mod tally;
mod validator_set;
mod weight;

pub use block_array::BlockArray;
pub use facts::Facts;
pub use node::{Message, Node};
