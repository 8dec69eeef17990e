//! Definitions of made chains, over the plain state and the plain store: the genesis of a number, the attestations and the
//! block of each slot, and all events in turn.
//!
//! `chain_maker` proves that it gives these events. The laws of this crate say that a store accepts them.
#![tactic(auto)]

mod laws;

pub use laws::{made_ends_well, made_is_accepted};
