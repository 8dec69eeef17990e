//! The outside of the program: files that bytes are read from, and a place that bytes are written to.
//!
//! A [`Shelf`] hands out files by name and a [`Sink`] takes bytes. Each tells what it handed out or took, over memory as
//! over the operating system, and counts its faults, so that a caller's answer 'reading failed' or 'writing failed' can
//! be tied to a fault that really happened. The readers of configuration, genesis and record stand above.
#![tactic(auto)]

mod disk;
mod faults;
mod hash_sink;
mod memory_shelf;
mod memory_sink;
mod names;
mod patience;
mod seen;
mod shelf;
mod sink;
mod trouble;
mod whole;

pub use disk::{DiskShelf, StdSink};
pub use hash_sink::HashSink;
pub use memory_shelf::{MemoryFile, MemoryShelf};
pub use memory_sink::MemorySink;
pub use names::AskedName;
pub use shelf::Shelf;
pub use sink::Sink;
pub use trouble::Trouble;
pub use whole::{read_at_most, write_all};
