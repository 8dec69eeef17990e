//! What the state transition says of votes: the step from states and blocks to the argument for accountable safety.
//!
//! Here stands what ties the states of a chain to its links: attestations that wait in a state were carried by blocks, an
//! epoch whose validators stay as they were at genesis ends as their weights have it, and the justification of a state is
//! what such ends made.
#![tactic(auto)]

mod laws;

pub use laws::{
    attesters_are_active, attesters_voted, blocks_carry_links_on, genesis_begins_links,
    genesis_weighs, waiting_votes_are_carried,
};
