//! Definitions of forensics: what two histories of accepted blocks say of their validators.
//!
//! Here stand the votes that blocks carry, and the offences among them, as structs and in plain lists. The crates above prove
//! that they give what the definitions say.
#![tactic(auto)]

mod laws;
mod offence;
mod verdict;
mod vote;

pub use laws::{attesters_stay, offences_are_carried};
pub use offence::{Offence, OffenceKind};
pub use verdict::Verdict;
pub use vote::Vote;
