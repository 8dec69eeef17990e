//! What a state is made of: its lists, values that keep their roots, and the reading of its fields.
//!
//! Bytes come from who reads a state, and the lists go into it.
#![tactic(auto)]

mod building;
mod differences;
mod groups;
mod in_range;
mod numbers;
mod parts;
mod reading;
mod results;
mod rooted;
mod uniform;
mod validators;
mod values;

pub use building::{lists_built, pending_built, registry_built, vectors_built};
pub use in_range::{
    InRange, bits_in_range, checkpoint_in_range, eth1_data_in_range, fork_in_range,
    header_in_range, root_in_range,
};
pub use numbers::Numbers;
pub use reading::read_plain;
pub use results::both;
pub use rooted::Rooted;
pub use validators::Validators;
pub use values::Values;
