//! Committees and proposers: who of the active validators attests and proposes when (beacon-chain.md, "Misc" and
//! "Beacon state accessors"), by the swap-or-not shuffle (`compute_shuffled_index`).
//!
//! Active lists, randao mixes and effective balances come from the state, which is seen through `Lookup`; committees
//! and proposers go to block and epoch processing.
#![tactic(auto)]

mod eights;
mod epoch;
mod index;
mod items;
mod lanes;
mod list;
mod lookup;
mod narrow;
mod pages;
mod planes;
mod proposer;
mod round;
mod seed;
mod wide;

pub use epoch::{EpochCommittees, committee_count_per_slot, members_stand_once};
pub use index::shuffled_index;
pub use list::shuffle_all;
pub use lookup::Lookup;
pub use proposer::pick_proposer;
pub use seed::{DOMAIN_BEACON_ATTESTER, DOMAIN_BEACON_PROPOSER, seed_of};
