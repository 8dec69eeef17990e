//! Definitions of the state transition (beacon-chain.md, "Beacon chain state transition function"), over the plain state.
//!
//! They hold no code; the crates that step a state prove that they give what these say.
#![tactic(auto)]
