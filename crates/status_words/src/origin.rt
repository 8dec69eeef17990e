//! Where a command has its configuration, its genesis and its events from.

use command_arguments::Command;
use std::fmt;

/// Where a genesis or events are from. It prints a file's name in quotes.
#[derive(Clone, Copy)]
pub enum Origin<'a> {
    /// The file of this name.
    File(&'a str),
    /// What the program makes itself.
    Made(&'a str),
}

impl fmt::Display for Origin<'_> {
    fn fmt<W: fmt::Write>(&self, f: &mut fmt::Formatter<W>) -> fmt::Result {
        match self {
            Origin::File(name) => write!(f, "{name:?}"),
            Origin::Made(what) => f.write_str(what),
        }
    }
}

/// The name of the configuration, or a placeholder where the words are no command.
pub fn config_of<'a>(command: &Option<Command<'a>>) -> &'a str {
    match command {
        Some(Command::Replay(files)) => files.config,
        Some(Command::Drill(words)) => words.config,
        Some(Command::Nodes(words)) => words.config,
        Some(Command::Genesis(files)) => files.config,
        Some(Command::Duties(words)) => words.config,
        Some(Command::Forensic(files) | Command::Slasher(files)) => files.config,
        Some(Command::Anchor(files)) => files.config,
        None => "CONFIG",
    }
}

/// The genesis or what stands in its place, or a placeholder where the words are no command.
pub fn genesis_of<'a>(command: &Option<Command<'a>>) -> Origin<'a> {
    let name = match command {
        Some(Command::Replay(files)) => files.genesis,
        Some(Command::Drill(_) | Command::Nodes(_)) => return Origin::Made("the made genesis"),
        Some(Command::Genesis(files)) => files.deposits,
        Some(Command::Duties(words)) => words.state,
        Some(Command::Forensic(files) | Command::Slasher(files)) => files.genesis,
        Some(Command::Anchor(files)) => files.state,
        None => "GENESIS",
    };
    Origin::File(name)
}

/// The events of the only or the first record, or a placeholder where the command has none.
fn first_record<'a>(command: &Option<Command<'a>>) -> Origin<'a> {
    match command {
        Some(Command::Replay(files)) => Origin::File(files.events),
        Some(Command::Drill(_)) => Origin::Made("the made chain"),
        Some(Command::Nodes(_)) => Origin::Made("the events of the first chain or node"),
        Some(Command::Forensic(files) | Command::Slasher(files)) => Origin::File(files.first),
        Some(Command::Anchor(files)) => Origin::File(files.events),
        _ => Origin::File("RECORD"),
    }
}

/// The events of the second record, or a placeholder where the command has none.
fn second_record<'a>(command: &Option<Command<'a>>) -> Origin<'a> {
    match command {
        Some(Command::Drill(_)) => Origin::Made("the second chain of the split"),
        Some(Command::Nodes(_)) => Origin::Made("the events of a later chain or node"),
        Some(Command::Forensic(files) | Command::Slasher(files)) => Origin::File(files.second),
        _ => Origin::File("RECORD"),
    }
}

/// The events of the record with a number: 0 is the only or the first one.
pub fn record_of<'a>(command: &Option<Command<'a>>, which: u8) -> Origin<'a> {
    if which == 0 {
        first_record(command)
    } else {
        second_record(command)
    }
}

/// The file of the block that is a state's, or a placeholder where the command has none.
pub fn block_of<'a>(command: &Option<Command<'a>>) -> Origin<'a> {
    match command {
        Some(Command::Anchor(files)) => Origin::File(files.block),
        _ => Origin::File("BLOCK"),
    }
}

/// What the first kept block is.
pub fn first_block(command: &Option<Command<'_>>) -> &'static str {
    match command {
        Some(Command::Anchor(_)) => "the anchor's block",
        _ => "the genesis block",
    }
}
