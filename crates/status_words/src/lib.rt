//! What a status says to a person, on one line.
//!
//! The status comes from a run, its command from the words and its cause from the outside; the line goes to standard error.
#![tactic(auto)]

mod explanation;
mod origin;

pub use explanation::{Cause, Explanation};
