//! The least program over the library: it replays a record, and writes a line an event to standard output.
//!
//!     replay_example CONFIG GENESIS RECORD
//!
//! It ends with the number of the run's status, which `docs/FORMATS.md` explains.
#![tactic(auto)]

use bc_outside::{DiskShelf, StdSink};
use command_arguments::ReplayFiles;
use one_chain::Status;
use one_chain::replay::replay;
use std::env;
use std::process::ExitCode;

/// Runs the record that the three words behind the program's name tell of.
fn run(rt: &HostRuntime) -> Status {
    let Ok(args) = env::args(rt) else {
        return Status::Words;
    };
    let mut words = Vec::new(rt.alloc());
    for word in args.skip(1) {
        if words.push(word).is_err() {
            return Status::NoMemory;
        }
    }
    let [config, genesis, events] = words.as_slice() else {
        return Status::Words;
    };
    let files = ReplayFiles {
        config,
        genesis,
        events,
    };
    let mut shelf = DiskShelf::new(rt.alloc(), rt);
    let mut out = StdSink::new(rt.alloc(), rt.stdout());
    replay(rt.alloc(), &files, &mut shelf, &mut out)
}

fn main(rt: HostRuntime) -> ExitCode {
    ExitCode::from(run(&rt).number())
}
