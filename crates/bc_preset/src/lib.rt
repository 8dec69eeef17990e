//! The configuration of a network and its preset.
//!
//! The bytes of a configuration file come from the program's reader, and the values that it gives go to every layer
//! above: the preset to the state, the committees and the epoch's steps, the other keys to the registry and fork choice.
#![tactic(auto)]

mod configuration;
pub mod constants;
mod faults;
mod keys;
mod lines;
mod numbers;
mod presets;
mod settings;

pub use configuration::{Config, ConfigValues, MAX_CONFIG_LEN};
pub use faults::ConfigFault;
pub use keys::Key;
pub use presets::Preset;
