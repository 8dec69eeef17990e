//! Duties: which validators attest and who proposes when in an epoch, as a validator client asks its node
//! (validator.md, "Validator assignments").
//!
//! The state comes from a file; the duties go to the lines of the command `duties`.
#![tactic(auto)]

mod duties;
mod fault;
mod law;
mod proposers;

pub use duties::{Duties, DutyStop, duties_of};
pub use fault::DutiesFault;
pub use law::validators_stand_once;
pub use proposers::ProposerDuty;
