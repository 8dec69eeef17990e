//! Forensics: two histories on one genesis, the votes that their blocks carry, the offences among them with the attester slashings
//! that these give, and the verdict.
//!
//! `spans` takes the votes and names the first two of a validator that nobody may cast both.
//!
//! Blocks come from the stores of two records, with the states behind them; offences and the verdict go to lines, attester slashings
//! to a record.
#![tactic(auto)]

mod active_lists;
mod added;
mod attesters;
mod beginning;
mod block_votes;
mod book;
mod book_stop;
mod carrier;
mod entries;
mod history;
mod indices;
mod judge;
mod kept_attestation;
mod kept_blocks;
mod made;
mod recent;
mod slashings;
mod spans;
mod steady;
mod vote_book;
mod watch;

pub use book::Book;
pub use book_stop::BookStop;
pub use slashings::operations;
pub use spans::{AllSpans, CarriedVotes, Place, Spans, first_slashable};
pub use spec_forensics::{Offence, OffenceKind, Verdict, Vote};
pub use vote_book::VoteBook;
pub use watch::Watch;
