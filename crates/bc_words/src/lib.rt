//! The words that the other crates share: refusals, limits, clashes, stops and counted steps.
//!
//! A step of the state transition answers its value, or a `Stop`: the first check that failed, a limit, or want of
//! memory. A handler of the store answers a `StoreStop`, which may be a clash too. Definitions in `specs/` say the
//! same of plain functions, and how an answer of code meets them.
#![tactic(auto)]

mod arithmetic;
mod refusal;
mod square_root;
mod steps;
mod stop;
mod store_stop;

pub use arithmetic::{checked_add, checked_mul, checked_sub, checked_sum};
pub use refusal::Refusal;
pub use square_root::isqrt;
pub use steps::Steps;
pub use stop::{Limit, NoMemory, PushStop, Stop};
pub use store_stop::{ClashKind, StoreStop};
