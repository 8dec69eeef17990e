//! Chains that are made from a number: the genesis state, and event after event of a record that a store accepts.
//!
//! A configuration and a number come from the program; the events go to the store as those of a record's file do.
#![tactic(auto)]

mod attestations;
mod block;
mod genesis;
mod given;
mod maker;
mod plan;
mod source;
mod votes;

pub use given::{Given, SteppedBlock};
pub use maker::Maker;
pub use source::MadeEvents;
