//! Definitions of fork choice (fork-choice.md), over the plain store, and why fork choice can't begin at an anchor.
//!
//! Beside that fault they hold no code; `fork_store` proves that its calls give what these say.
#![tactic(auto)]

mod fault;

pub use fault::AnchorFault;
