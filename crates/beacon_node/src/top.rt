//! All that the program does.

ghost use Rattle.std.specs.Prelude.{◌≡◌, ◌<◌, ◌+◌, ◌^◌, ◌↔◌, length, map, string_bytes, Some, None};
ghost use Rattle.beacon_node.specs.Commands.{run_of};
ghost use Rattle.command_arguments.specs.Arguments.{ForensicFiles, forensic, names_of, slasher};
ghost use Rattle.command_words.specs.Commands.{IsDeclined, command_of};
ghost use Rattle.one_chain.specs.Answers.{OutsideKeeps, Replayed};
ghost use Rattle.beacon_node.specs.Pace.{taken_run_of};
ghost use Rattle.beacon_node.specs.Findings.{WritesFindings};
ghost use Rattle.beacon_node.specs.Slashings.{WritesSlashings};

use crate::drill::drill;
use crate::forensic::forensic;
use crate::nodes::nodes;
use bc_outside::{Shelf, Sink};
use command_arguments::Command;
use command_words::{WordsStop, read_command};
use one_chain::Status;
use one_chain::anchor::anchor;
use one_chain::make_genesis::make_genesis;
use one_chain::replay::replay;
use one_chain::tell_duties::tell_duties;
use spec_replay::Report;
use std::alloc::Global;

/// Runs the command that the words are, over these files, and writes its lines. Each command is a call that isn't inlined: the stack of
/// one would hold the places of all.
///
/// The words are those behind the program's name: a command and its arguments, as `command_words::COMMANDS` has them. Fewer
/// than 2^32 - 4 files were opened before.
pub fn beacon_main<F: Shelf, O: Sink>(
    alloc: Global,
    words: &[String],
    shelf: &mut F,
    out: &mut O,
) -> Status
    requires { length (F.told shelf.old).files + 4 < 2 ^ 32 }

    // Whatever the names hold that agrees with all that the shelf handed out: the status is how the run of it ends, the
    // bytes written are its lines, and the files asked for are those that it needs, unless a fault of the outside or want
    // of memory broke the run off. The lines keep pace with the record, also where a file could not be read.
    ensures answers { Replayed (λ contents. run_of contents (map (λ word. string_bytes word) words.now))
        (taken_run_of result (map (λ word. string_bytes word) words.now))
        (names_of (command_of (map (λ word. string_bytes word) words.now)))
        result (F.told shelf.old) (F.told shelf.new) (O.told out.old).taken (O.told out.new).taken }

    // That the words are no command is answered only where clap doesn't take them, or they give none.
    ensures command { result ≡ Status.Words → IsDeclined (map (λ word. string_bytes word) words.now) }

    // A fault of the outside is answered only where its count rose. The shelf is asked for these names at most, and the
    // sink keeps what it must: over a shelf and a sink that have no cause to fail, where all the names are there, no count
    // rises.
    ensures outside { OutsideKeeps (names_of (command_of (map (λ word. string_bytes word) words.now))) (Some result)
        (F.told shelf.old) (F.told shelf.new) (O.told out.old) (O.told out.new) }

    // What `forensic` wrote, where it ended well: offences, each of two votes that blocks of the two histories carry and that nobody may
    // cast both, and a verdict, which is a conflict only where the offenders have at least a third of the total at genesis.
    ensures convicts { (files : ForensicFiles) → command_of (map (λ word. string_bytes word) words.now) ≡ Some (forensic files) → result ≡ Status.Done
        → WritesFindings (O.told out.old).taken (O.told out.new).taken }

    // What `slasher` wrote, where it ended well: the record of the attester slashings that two histories give. Those that stand in both
    // attestations of one of them are the offenders; each is slashable as it is written, and is taken by every state and every store that
    // knows the validators that it names.
    ensures slashes { (files : ForensicFiles) → command_of (map (λ word. string_bytes word) words.now) ≡ Some (slasher files) → result ≡ Status.Done
        → WritesSlashings (O.told out.old).taken (O.told out.new).taken }
{
    match read_command(alloc, words) {
        Ok(Command::Replay(files)) => replay(alloc, &files, shelf, out),
        Ok(Command::Drill(words)) => drill(alloc, &words, shelf, out),
        Ok(Command::Genesis(files)) => make_genesis(alloc, &files, shelf, out),
        Ok(Command::Duties(words)) => tell_duties(alloc, &words, shelf, out),
        Ok(Command::Anchor(files)) => anchor(alloc, &files, shelf, out),
        Ok(Command::Forensic(files)) => forensic(alloc, Report::Findings, &files, shelf, out),
        Ok(Command::Nodes(words)) => nodes(alloc, &words, shelf, out),
        Ok(Command::Slasher(files)) => forensic(alloc, Report::Slashings, &files, shelf, out),
        Err(WordsStop::NoCommand) => Status::Words,
        Err(WordsStop::NoMemory) => Status::NoMemory,
    }
}
