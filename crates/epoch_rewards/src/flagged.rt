//! What says of each validator whether it is flagged: a table of statuses and a vote, or a table of flags.

ghost use Rattle.std.specs.Prelude.{◌≡◌, Bool, false, List, slice_index_or};
ghost use Rattle.epoch_rewards.specs.inside.Statuses.{flags_of};

use crate::matching::Vote;
use crate::table::{Status, flag_at};

/// A flag a validator.
pub(crate) trait Flagged {
    /// The flags, in order of index.
    ghost flags: { Self → List Bool };

    /// Whether the validator with an index is flagged; one that isn't there isn't.
    fn is_flagged(&self, index: u64) -> bool
        ensures { result ≡ slice_index_or (flags self.now) index false };
}

/// Those who have a vote right.
#[derive(Drop)]
pub(crate) struct RightVoters<'a> {
    /// How each validator attested.
    pub(crate) statuses: &'a [Status],
    /// The vote.
    pub(crate) vote: Vote,
}

impl<'a> Flagged for RightVoters<'a> {
    ghost flags = { λ voters. flags_of voters.vote voters.statuses.now };

    fn is_flagged(&self, index: u64) -> bool {
        flag_at(self.statuses, self.vote, index)
    }
}

impl<'a> Flagged for &'a [bool] {
    ghost flags = { λ flags. flags.now };

    fn is_flagged(&self, index: u64) -> bool {
        match self.get(index as usize) {
            Some(flag) => *flag,
            None => false,
        }
    }
}
