//! Numbers that stand in conditions of several crates and are the same in every preset and configuration
//! (beacon-chain.md, "Constants"), and this program's own bounds.

/// The epoch that stands for "never": 2^64 - 1.
pub const FAR_FUTURE_EPOCH: u64 = 18_446_744_073_709_551_615;
/// How many candidates for proposer are tried.
pub const MAX_PROPOSER_CANDIDATES: u64 = 65_536;
/// How many slots a state may be carried through for one event.
pub const MAX_SLOTS: u64 = 65_536;
