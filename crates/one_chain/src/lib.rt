//! The commands on one chain: what `replay`, `anchor`, `genesis` and `duties` do, and how a run of any command reads, writes and ends.
#![tactic(auto)]

pub mod anchor;
mod duty_lines;
mod events;
mod feed;
mod genesis;
mod head;
mod law;
mod lines;
pub mod make_genesis;
mod reading;
pub mod replay;
mod status;
pub mod tell_duties;
mod writing;

pub use events::{Counts, replay_events};
pub use feed::StoreSource;
pub use genesis::{GenesisStop, MAX_GENESIS_LEN, no_genesis, no_store, read_genesis};
pub use head::head_of;
pub use law::{made_genesis_is_replayed, soundness_is_tested};
pub use lines::{accepted_line, push_checkpoint, push_head, push_number, push_root, refused_line};
pub use reading::{read_named, unread};
pub use status::Status;
pub use writing::{unwritten, written};
