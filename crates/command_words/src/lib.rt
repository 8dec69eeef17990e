//! The words of the command line: which command they are, with its arguments, as clap reads them.
//!
//! The words come from the program's caller; the command goes to `beacon_main`. A new command is a line of `COMMANDS`, an arm
//! of `Command` (`command_arguments`), and the same in the definitions of both.
#![tactic(auto)]

mod command;
mod forms;
mod line;
mod refusal;

pub use command::{WordsStop, read_command};
pub use forms::{Argument, COMMANDS, Form, LEAST_NODES, MOST_NODES};
pub use refusal::what_is_wrong;
