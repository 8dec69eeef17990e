//! The plain program: all pairs of a validator's votes are looked at. Tests compare the spans with it.

ghost use Rattle.std.specs.Prelude.{◌≡◌, ◌<◌, [], length, All, take, Option};
ghost use Rattle.std.specs.List.{find};
ghost use Rattle.forensics.specs.Pairs.{are_slashable_at, first_slashable};

use crate::spans::votes::are_slashable_at;
use beacon_types::AttestationData;

/// The first of some votes that is slashable with a vote.
#[tactic(auto, using(crate::proofs::Walks::finding))]
fn first_with(contents: &[AttestationData], earlier: &[u32], vote: u32) -> Option<u32>
    requires inside { All (λ v. v < length contents.now) earlier.now }
    requires vote { vote < length contents.now }
    ensures { result ≡ find (λ e. are_slashable_at contents.now e vote) earlier.now }
{
    for e in earlier {
        if are_slashable_at(contents, *e, vote) {
            return Some(*e);
        }
    }
    None
}

/// The least later vote that is slashable with an earlier one, with the least such earlier one. Votes are places in a list of
/// contents.
#[tactic(auto, using(crate::proofs::Walks::pairing))]
pub fn first_slashable(contents: &[AttestationData], votes: &[u32]) -> Option<(u32, u32)>
    requires { All (λ v. v < length contents.now) votes.now }
    ensures { result ≡ first_slashable contents.now [] votes.now }
{
    for i in 0..votes.len() {
        if let Some(earlier) = first_with(contents, &votes[..i], votes[i]) {
            return Some((earlier, votes[i]));
        }
    }
    None
}
