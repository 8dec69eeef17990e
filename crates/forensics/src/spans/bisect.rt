//! The place of a target among votes in order.

ghost use Rattle.std.specs.Prelude.{◌≡◌, ℕ, ◌+◌, ◌<◌, ◌≤◌, ◌^◌, length};
ghost use Rattle.forensics.specs.Spans.{IsSorted, place_of};

use crate::spans::votes::target_of;
use bc_words::Steps;
use beacon_types::AttestationData;
use std::sync::ledger::Ledger;

/// The place of the first vote whose target isn't earlier, or the number of votes. Each step halves what is left.
#[tactic(auto, using(crate::proofs::Bisecting::bisecting))]
pub(crate) fn place_of<L: Ledger>(
    contents: &[AttestationData],
    votes: &[u32],
    target: u64,
    steps: &mut Steps<L>,
) -> usize
    requires { IsSorted contents.now votes.now }
    ensures place { result ≡ place_of contents.now votes.now target }
    ensures within { result ≤ length votes.now }
    ensures steps { (k : ℕ) → length votes.now < 2 ^ k → steps.new ≤ steps.old + k }
{
    let mut low = 0;
    let mut high = votes.len();
    while low < high {
        steps.tick();
        let middle = low + (high - low) / 2;
        if target_of(contents, votes[middle]) < target {
            low = middle + 1;
        } else {
            high = middle;
        }
    }
    low
}
