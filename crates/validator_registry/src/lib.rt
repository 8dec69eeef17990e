//! The registry of validators in groups of sixteen, whose tree is shared and keeps its root (beacon-chain.md, "Registry").
//!
//! Validators come from the state above, and the root goes back to it. A group keeps the effective balances beside the rest, which is
//! shared where they change.
#![tactic(auto)]

mod building;
mod entries;
mod entry;
mod group;
mod group_changes;
mod member;
mod owners;
mod registry;
mod rest_roots;
mod roots;
mod validators;

pub use entry::Entry;
pub use registry::Registry;
pub use validators::Validators;
