//! Definitions of a run of each command: from the bytes of the files that it names to lines and an end.
//!
//! Nothing of the program stands here but what its commands tell of two records. `specs/` says what the program has to write.
#![tactic(auto)]

mod report;

pub use report::Report;
