//! What is shown the states on which epoch processing is entered, as they are before that processing.
//!
//! A visitor comes from whoever follows justification, and the state transition shows it those states. What was shown stands
//! beside a step for clauses alone: none of the states is kept.
#![tactic(auto)]

mod seen;
mod visitor;
mod watched;

pub use seen::Seen;
pub use visitor::Visitor;
pub use watched::Watched;
