//! Definitions of epoch processing (beacon-chain.md, "Epoch processing"), over the plain state.
//!
//! Here stand the record that justification and finalisation change, and that of rewards and penalties. The crates above
//! read them in their contracts, and prove that they give what the definitions say.
#![tactic(auto)]

mod deltas;
mod justification;

pub use deltas::Deltas;
pub use justification::Justification;
