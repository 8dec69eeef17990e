//! Definitions of block processing (beacon-chain.md, "Block processing" and "Beacon state mutators"), over the plain state.
//!
//! They hold no code; the crates that process blocks prove that they give what these say.
#![tactic(auto)]
