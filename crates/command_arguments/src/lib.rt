//! The commands of the program, each with its arguments: names of files, and numbers.
//!
//! `command_words` reads them off the command line, and a program of one's own can write them down. They go to `one_chain` and
//! `beacon_node`.
#![tactic(auto)]

mod command;

pub use command::{
    AnchorFiles, Command, DrillWords, DutiesWords, ForensicFiles, GenesisFiles, NodesWords,
    ReplayFiles,
};
