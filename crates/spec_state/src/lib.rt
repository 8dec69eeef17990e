//! The plain state of the beacon chain: its fields as values and lists, for the definitions of every layer above.
//!
//! Reading and roots of the state are in beacon_state; here stand the record that contracts compare, and the
//! definitions over it.
#![tactic(auto)]

mod fault;
mod plain;

pub use fault::{GenesisFault, ValidatorFault};
pub use plain::PlainState;
