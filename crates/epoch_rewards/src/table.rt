//! How a validator attested in an epoch: a table of its votes and its inclusion, and what is read of the table.
//!
//! Justification and rewards read it; neither goes through the attestations.

ghost use Rattle.std.specs.Prelude.{◌≡◌, None, false, slice_index_or};
ghost use Rattle.epoch_rewards.specs.inside.Statuses.{absent, has_vote, flags_of, entries_of};

use crate::inclusions::Inclusion;
use crate::matching::Vote;

/// How a validator attested in an epoch.
#[derive(Clone, Copy)]
pub struct Status {
    /// Whether in an attestation at all, of which a block checked the source.
    pub source: bool,
    /// Whether in one with the target right.
    pub target: bool,
    /// Whether in one with the target and the head right.
    pub head: bool,
    /// The first inclusion of the least delay among all these attestations.
    pub inclusion: Option<Inclusion>,
}

/// What an attestation shows of each validator who attests in it.
#[derive(Clone, Copy)]
pub struct Shown {
    /// Whether it has the target right.
    pub target: bool,
    /// Whether it has the target and the head right.
    pub head: bool,
    /// How it was included.
    pub inclusion: Inclusion,
}

/// The status of a validator that attests in no attestation.
#[tactic(auto, unfolding(crate::specs::inside::Statuses::absent))]
pub(crate) fn absent() -> Status
    ensures { result ≡ absent }
{
    Status {
        source: false,
        target: false,
        head: false,
        inclusion: None,
    }
}

/// The status of a validator, as of one that attests in no attestation where it isn't there.
#[tactic(auto, using(crate::proofs::Columns::status_read))]
fn status_at(statuses: &[Status], index: u64) -> Status
    ensures { result ≡ slice_index_or statuses.now index absent }
{
    match statuses.get(index as usize) {
        Some(status) => *status,
        None => absent(),
    }
}

/// Whether a status has a vote right.
#[tactic(auto, unfolding(crate::specs::inside::Statuses::has_vote))]
fn has_vote(status: Status, vote: Vote) -> bool
    ensures { result ≡ has_vote vote status }
{
    match vote {
        Vote::Source => status.source,
        Vote::Target => status.target,
        Vote::Head => status.head,
    }
}

/// Whether a validator has a vote right; one that isn't there has none.
#[tactic(auto, using(crate::proofs::Columns::flag_of_status))]
pub fn flag_at(statuses: &[Status], vote: Vote, index: u64) -> bool
    ensures { result ≡ slice_index_or (flags_of vote statuses.now) index false }
{
    has_vote(status_at(statuses, index), vote)
}

/// The inclusion of a validator, or None where there is none or no such validator.
#[tactic(auto, using(crate::proofs::Columns::entry_of_status))]
pub fn inclusion_at(statuses: &[Status], index: u64) -> Option<Inclusion>
    ensures { result ≡ slice_index_or (entries_of statuses.now) index None }
{
    status_at(statuses, index).inclusion
}
