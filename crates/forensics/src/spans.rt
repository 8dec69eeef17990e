//! Whether votes of validators are slashable: structures that take votes in their order, and name for each validator the first two
//! that nobody may cast both.
//!
//! Contents and attesters come from the blocks of histories; the pairs go to the offences of these.

mod all;
mod all_spans;
mod bisect;
mod carried;
mod least;
mod offences;
mod one;
mod pairs;
mod place;
mod reserve;
mod validator_spans;
mod votes;

pub use all_spans::AllSpans;
pub use carried::CarriedVotes;
pub use pairs::first_slashable;
pub use place::Place;
pub use validator_spans::Spans;
