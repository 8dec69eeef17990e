//! The states behind kept blocks: few are kept, some are cached, and the others are made again.
//!
//! Blocks and the states behind them come from fork choice, and states go back to it, whichever were dropped meanwhile.
#![tactic(auto)]

mod cache;
mod entry;
mod keeper;
mod remade;
mod stepper;

pub use keeper::Keeper;
pub use stepper::Stepper;
