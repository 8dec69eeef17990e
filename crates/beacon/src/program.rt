//! The program over a runtime: its words, the disk and standard output go to `beacon_main`, and its status to the caller.

use crate::progress::{Progress, Watch, WatchedOut, WatchedShelf, WatchedSink};
use crate::waiting::Waiting;
use bc_outside::{DiskShelf, StdSink};
use beacon_node::{Status, beacon_main};
use command_arguments::Command;
use command_words::{read_command, what_is_wrong};
use status_words::{Cause, Explanation};
use std::alloc::Global;
use std::io::{Eprint, Print};
use std::rt::{Env, Files};
use std::time::Clock;
use std::{env, io};

/// The words behind the program's name. A word that isn't text is none of a command.
pub fn words_of<R: Env + AllocGlobal>(rt: &R) -> Result<Vec<String>, Status> {
    let mut words = Vec::new(rt.alloc());
    match env::args(rt) {
        Ok(args) => {
            for word in args.skip(1) {
                if words.push(word).is_err() {
                    return Err(Status::NoMemory);
                }
            }
            Ok(words)
        }
        Err(error) if error.kind() == io::ErrorKind::OutOfMemory => Err(Status::NoMemory),
        Err(_) => Err(Status::Words),
    }
}

/// Says on one line of standard error why there are no words.
pub fn explain_words<R: Eprint>(rt: &R, status: &Status) {
    let _ = match status {
        Status::Words => eprintln!(rt; "Words: a word isn't text in UTF-8"),
        _ => eprintln!(rt; "NoMemory: memory ran out"),
    };
}

/// Why the outside failed, where the status says that it did: lines may have failed to be written at the end.
fn cause_of<'a, R: Files, W: io::Write>(
    status: &Status,
    shelf: &'a DiskShelf<'_, R>,
    out: &'a StdSink<W>,
    at_end: Option<&'a io::Error>,
) -> Option<Cause<'a>> {
    match status {
        Status::ReadFault => {
            let (name, error) = shelf.last_fault()?;
            Some(Cause {
                name: str::from_utf8(name).ok(),
                error,
            })
        }
        Status::WriteFault => Some(Cause {
            name: None,
            error: at_end.or(out.last_cause())?,
        }),
        _ => None,
    }
}

/// The file of the record, by the order of the words: that of `anchor` stands behind a state and its block.
fn record_of(alloc: Global, words: &[String]) -> u32 {
    match read_command(alloc, words) {
        Ok(Command::Anchor(_)) => 3,
        _ => 2,
    }
}

/// The number of the event that was read or whose line was written, where the record of `replay` or `anchor` was opened: each event
/// before it has its line, of which there are so many.
fn event_at<R: Files>(
    command: &Option<Command<'_>>,
    shelf: &DiskShelf<'_, R>,
    lines: u64,
) -> Option<u64> {
    let record = match command {
        Some(Command::Replay(_)) => 2,
        Some(Command::Anchor(_)) => 3,
        _ => return None,
    };
    match shelf.handed_out(record) {
        Some(_) => Some(lines.saturating_add(1)),
        None => None,
    }
}

/// How the lines of a run ended: how many were written, and why the rest wasn't.
#[derive(Drop)]
struct Ended {
    lines: u64,
    error: Option<io::Error>,
}

/// Writes the lines that still wait, and tells how that ended.
fn finish_lines<R: Print + Eprint + Clock>(
    waiting: &Waiting<'_, R>,
    watch: &Watch<'_, R>,
) -> Ended {
    let error = waiting.finish().err();
    Ended {
        lines: watch.events().saturating_sub(waiting.lines()),
        error,
    }
}

/// Says on one line of standard error what a status means, unless the record was read to its end.
fn explain<'a, R: Eprint + Files, W: io::Write>(
    alloc: Global,
    rt: &R,
    status: &'a Status,
    words: &'a [String],
    shelf: &DiskShelf<'_, R>,
    out: &StdSink<W>,
    ended: &Ended,
) {
    if status.number() != 0 {
        let wrong = what_is_wrong(alloc, words);
        let command = read_command(alloc, words).ok();
        let event = event_at(&command, shelf, ended.lines);
        let explanation = Explanation {
            status,
            command,
            wrong: wrong.as_deref(),
            cause: cause_of(status, shelf, out, ended.error.as_ref()),
            event,
            genesis_len: shelf.handed_out(1),
        };
        let _ = eprintln!(rt; "{explanation}");
    }
}

/// Runs the command that these words are, over the disk and standard output, and answers the number that the program ends
/// with. Where it isn't 0, one line on standard error says why. The progress of a long record is shown there
/// where it is asked for, and cleared at the end.
pub fn run<R: Files + Print + Eprint + Clock + AllocGlobal>(
    rt: &R,
    words: &[String],
    progress: Progress,
) -> u8 {
    let watch = Watch::new(rt, progress, record_of(rt.alloc(), words));
    let waiting = Waiting::new(rt.alloc(), rt);
    let mut shelf = WatchedShelf::new(DiskShelf::new(rt.alloc(), rt), &watch, &waiting);
    let written = StdSink::new(rt.alloc(), WatchedOut::new(&waiting, &watch));
    let mut out = WatchedSink::new(written, &watch);
    let told = beacon_main(rt.alloc(), words, &mut shelf, &mut out);
    let ended = finish_lines(&waiting, &watch);
    let status = match ended.error {
        Some(_) => Status::WriteFault,
        None => told,
    };
    watch.clear();
    explain(
        rt.alloc(),
        rt,
        &status,
        words,
        shelf.shelf(),
        out.sink(),
        &ended,
    );
    status.number()
}
