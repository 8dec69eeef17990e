//! The command that the words are.

ghost use Rattle.std.specs.Prelude.{◌≡◌, ◌↔◌, Some, None, Result, Ok, Err, map, option_map, string_bytes, true, IfSome};
ghost use Rattle.clap.specs.Words.{first_of, found_of, kind_of, rows_of, takes};
ghost use Rattle.command_arguments.specs.Arguments.{IsNodeCount};
ghost use Rattle.command_words.specs.Commands.{anchor_in, command_line, drill_in, duties_in, forensic_in, genesis_in, named_command, node_count_of, nodes_in, number_in, number_of, records_in, replay_in, slasher_in};
ghost use Rattle.command_words.specs.inside.Reading.{command_value, files_value, ReadsCommand};

use crate::forms::{LEAST_NODES, MOST_NODES};
use crate::line::line;
use clap::error::ErrorKind;
use clap::{ArgMatches, Error};
use command_arguments::{
    AnchorFiles, Command, DrillWords, DutiesWords, ForensicFiles, GenesisFiles, NodesWords,
    ReplayFiles,
};
use std::alloc::Global;

/// Why the words give no command.
#[derive(Drop)]
pub enum WordsStop {
    /// They are none.
    NoCommand,
    /// Memory ran out.
    NoMemory,
}

/// The first value of the argument with this label.
fn text_of<'a>(found: &ArgMatches<'a>, label: &str) -> Option<&'a str>
    ensures { option_map (λ text. text.now) result ≡ first_of label.now (rows_of (found_of found.now)) }
{
    found.get_str(label)
}

/// The command `replay`, where each of its arguments has a value.
fn replay_in<'a>(found: &ArgMatches<'a>) -> Option<Command<'a>>
    ensures { option_map command_value result ≡ replay_in (rows_of (found_of found.now)) }
{
    Some(Command::Replay(ReplayFiles {
        config: text_of(found, "CONFIG")?,
        genesis: text_of(found, "GENESIS")?,
        events: text_of(found, "RECORD")?,
    }))
}

/// The number that a text is.
fn number_in(text: &str) -> Option<u64>
    ensures { result ≡ number_in text.now }
{
    text.parse().ok()
}

/// The first value of the argument with this label, where it is a number.
fn number_of(found: &ArgMatches<'_>, label: &str) -> Option<u64>
    ensures { result ≡ number_of label.now (rows_of (found_of found.now)) }
{
    number_in(text_of(found, label)?)
}

/// The command `drill`, where each of its arguments has a value.
fn drill_in<'a>(found: &ArgMatches<'a>) -> Option<Command<'a>>
    ensures { option_map command_value result ≡ drill_in (rows_of (found_of found.now)) }
{
    Some(Command::Drill(DrillWords {
        number: number_of(found, "NUMBER")?,
        config: text_of(found, "CONFIG")?,
    }))
}

/// The command `genesis`, where each of its arguments has a value.
fn genesis_in<'a>(found: &ArgMatches<'a>) -> Option<Command<'a>>
    ensures { option_map command_value result ≡ genesis_in (rows_of (found_of found.now)) }
{
    Some(Command::Genesis(GenesisFiles {
        config: text_of(found, "CONFIG")?,
        deposits: text_of(found, "DEPOSITS")?,
    }))
}

/// The command `duties`, where each of its arguments has a value.
fn duties_in<'a>(found: &ArgMatches<'a>) -> Option<Command<'a>>
    ensures { option_map command_value result ≡ duties_in (rows_of (found_of found.now)) }
{
    Some(Command::Duties(DutiesWords {
        config: text_of(found, "CONFIG")?,
        state: text_of(found, "STATE")?,
        epoch: number_of(found, "EPOCH")?,
    }))
}

/// The command `anchor`, where each of its arguments has a value.
fn anchor_in<'a>(found: &ArgMatches<'a>) -> Option<Command<'a>>
    ensures { option_map command_value result ≡ anchor_in (rows_of (found_of found.now)) }
{
    Some(Command::Anchor(AnchorFiles {
        config: text_of(found, "CONFIG")?,
        state: text_of(found, "STATE")?,
        block: text_of(found, "BLOCK")?,
        events: text_of(found, "RECORD")?,
    }))
}

/// The files of two records on a genesis state, where each of these arguments has a value.
fn records_in<'a>(found: &ArgMatches<'a>) -> Option<ForensicFiles<'a>>
    ensures { option_map files_value result ≡ records_in (rows_of (found_of found.now)) }
{
    Some(ForensicFiles {
        config: text_of(found, "CONFIG")?,
        genesis: text_of(found, "GENESIS")?,
        first: text_of(found, "A")?,
        second: text_of(found, "B")?,
    })
}

/// The command `forensic`, where each of its arguments has a value.
fn forensic_in<'a>(found: &ArgMatches<'a>) -> Option<Command<'a>>
    ensures { option_map command_value result ≡ forensic_in (rows_of (found_of found.now)) }
{
    Some(Command::Forensic(records_in(found)?))
}

/// The command `slasher`, where each of its arguments has a value.
fn slasher_in<'a>(found: &ArgMatches<'a>) -> Option<Command<'a>>
    ensures { option_map command_value result ≡ slasher_in (rows_of (found_of found.now)) }
{
    Some(Command::Slasher(records_in(found)?))
}

/// The first value of the argument with this label, where it is a number of nodes.
fn node_count_of(found: &ArgMatches<'_>, label: &str) -> Option<u64>
    ensures exact { result ≡ node_count_of label.now (rows_of (found_of found.now)) }
    ensures few { IfSome result (λ count. IsNodeCount count) }
{
    let count = number_of(found, label)?;
    if count < LEAST_NODES || count > MOST_NODES {
        return None;
    }
    Some(count)
}

/// The command `nodes`, where each of its arguments has a value.
fn nodes_in<'a>(found: &ArgMatches<'a>) -> Option<Command<'a>>
    ensures { option_map command_value result ≡ nodes_in (rows_of (found_of found.now)) }
{
    Some(Command::Nodes(NodesWords {
        number: number_of(found, "NUMBER")?,
        count: node_count_of(found, "COUNT")?,
        config: text_of(found, "CONFIG")?,
    }))
}

/// The command of this name, with the arguments that were found.
fn named<'a>(name: &str, found: &ArgMatches<'a>) -> Option<Command<'a>>
    ensures { option_map command_value result ≡ named_command (name.now, rows_of (found_of found.now)) }
{
    if name == "replay" {
        replay_in(found)
    } else if name == "drill" {
        drill_in(found)
    } else if name == "genesis" {
        genesis_in(found)
    } else if name == "duties" {
        duties_in(found)
    } else if name == "anchor" {
        anchor_in(found)
    } else if name == "forensic" {
        forensic_in(found)
    } else if name == "nodes" {
        nodes_in(found)
    } else if name == "slasher" {
        slasher_in(found)
    } else {
        None
    }
}

/// Why clap gave no command.
fn stop_of(error: Error) -> WordsStop
    ensures { (kind_of error ≡ ErrorKind.OutOfMemory) ↔ (result ≡ WordsStop.NoMemory) }
{
    match error.kind() {
        ErrorKind::OutOfMemory => WordsStop::NoMemory,
        _ => WordsStop::NoCommand,
    }
}

/// The command that the words behind the program's name are, or that they are none.
pub fn read_command<'a>(alloc: Global, words: &'a [String]) -> Result<Command<'a>, WordsStop>
    ensures { ReadsCommand (map (λ word. string_bytes word) words.now) result }
{
    let line = match line(alloc) {
        Ok(line) => line,
        Err(_) => return Err(WordsStop::NoMemory),
    };
    let matches = match line.try_get_matches_from(words) {
        Ok(matches) => matches,
        Err(error) => return Err(stop_of(error)),
    };
    match matches.subcommand() {
        Some((name, found)) => named(name, found).ok_or(WordsStop::NoCommand),
        None => Err(WordsStop::NoCommand),
    }
}
