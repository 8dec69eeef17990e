//! The program `beacon`: it runs its words over the disk and standard output, shows how far it is, says what became of it,
//! and ends with the status's number.
#![tactic(auto)]

mod program;
mod progress;
mod stack;
mod waiting;

use crate::program::{explain_words, run, words_of};
use crate::progress::Progress;
use crate::stack::{pages_for, pages_taken};
use beacon_node::Status;
use std::process;
use std::process::ExitCode;

fn main(rt: HostRuntime) -> ExitCode {
    let words = match words_of(&rt) {
        Ok(words) => words,
        Err(status) => {
            explain_words(&rt, &status);
            return ExitCode::from(status.number());
        }
    };
    let pages = pages_for(&words);
    if pages_taken(pages, process::id(rt.process()) as usize) > pages {
        return ExitCode::from(Status::NoMemory.number());
    }
    let progress = Progress::beside(&rt.stdout(), &rt.stderr());
    ExitCode::from(run(&rt, &words, progress))
}
