//! The program: command words, files and a sink in, lines and a status out; and its commands on two chains and on many nodes.
#![tactic(auto)]

mod drill;
mod drill_lines;
mod findings_law;
mod follow;
mod forensic;
mod histories;
mod made_events;
mod made_feed;
mod node;
mod node_lines;
mod node_pairs;
mod nodes;
mod offence_lines;
mod run_laws;
mod slashings;
mod top;

pub use findings_law::findings_are_of_the_records;
pub use offence_lines::{offence_line, verdict_line};
pub use one_chain::{Status, made_genesis_is_replayed, soundness_is_tested};
pub use run_laws::{runs_in_memory, versions_run_alike};
pub use top::beacon_main;
