//! The argument for accountable safety (the Casper FFG paper, "Accountable Safety"), over plain data: where two chains
//! of links finalise checkpoints that don't lie on one chain, validators of at least a third of the weight broke a
//! slashing condition.
//!
//! Links come from what the ends of epochs made of justification; what is proved of them goes to the verdict.
#![tactic(auto)]

mod example;
mod laws;
mod link;
mod shared;

pub use example::two_histories;
pub use laws::{
    a_third_is_convicted, chain_links, finals_are_linked, finals_conflict, finals_convict,
    links_are_made_at_ends, thirds_overlap, totals_are_weights, votes_are_slashable,
};
pub use link::{Link, VotedLink};
pub use shared::third_shared;
