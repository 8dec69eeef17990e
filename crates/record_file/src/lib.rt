//! The record of a run: frames of events, read one after the other from a file of a shelf.
//!
//! The bytes come from a [`Shelf`](bc_outside::Shelf), in whatever pieces it hands out, and the events go to the store.
#![tactic(auto)]

mod buffer;
mod event;
mod fault;
mod fill;
mod found;
mod frames;
mod law;
mod place;
mod source;
mod version;

pub use event::{Event, Payload};
pub use fault::{FrameStop, RecordFault};
pub use frames::Frames;
pub use law::{versions_read_alike, written_is_read_again};
pub use place::Place;
pub use source::{EventSource, SourceStop};
pub use version::Version;
