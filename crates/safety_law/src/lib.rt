//! The law of two histories on one genesis: where they finalised blocks apart, validators with a third of the genesis total
//! broke a slashing condition, and a verdict of conflict names them.
//!
//! Here stands what ties histories to stores, and verdicts to the argument for accountable safety.
#![tactic(auto)]

mod laws;

pub use laws::{
    conflict_convicts, genesis_begins_histories, histories_grow, store_follows_its_history,
    verdict_convicts, verdict_tells_of_conflict,
};
