//! What the nodes of a drill are delivered: the events of a list, some late and some twice, as a number says.
//!
//! The events come from the makers of chains; the places that `deliver` gives go to the run of the nodes.
#![tactic(auto)]

mod delivery;
mod order;

pub use delivery::Delivery;
pub use order::deliver;
