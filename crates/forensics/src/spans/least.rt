//! The least vote that is slashable with another one.

ghost use Rattle.std.specs.Prelude.{◌≡◌, ◌+◌, ◌<◌, length, true, None, All};
ghost use Rattle.forensics.specs.Pairs.{are_slashable_at};
ghost use Rattle.forensics.specs.Spans.{lesser, least_of};

use crate::spans::votes::are_slashable_at;
use bc_words::Steps;
use beacon_types::AttestationData;
use std::sync::ledger::Ledger;

/// The lesser of a vote and the least so far, if there is one.
#[tactic(auto, unfolding(crate::specs::Spans::lesser))]
fn lesser(least: Option<u32>, vote: u32) -> Option<u32>
    ensures { result ≡ lesser true least vote }
{
    match least {
        Some(best) => Some(best.min(vote)),
        None => Some(vote),
    }
}

/// The least of votes that is slashable with another one. A step looks at one.
#[tactic(auto, using(crate::proofs::Leasts::least_step))]
pub(crate) fn least_slashable<L: Ledger>(
    contents: &[AttestationData],
    votes: &[u32],
    vote: u32,
    steps: &mut Steps<L>,
) -> Option<u32>
    requires inside { All (λ v. v < length contents.now) votes.now }
    requires vote { vote < length contents.now }
    ensures least { result ≡ least_of (λ e. are_slashable_at contents.now e vote) None votes.now }
    ensures steps { steps.new ≡ steps.old + length votes.now }
{
    let mut least = None;
    for earlier in votes {
        steps.tick();
        if are_slashable_at(contents, *earlier, vote) {
            least = lesser(least, *earlier);
        }
    }
    least
}
