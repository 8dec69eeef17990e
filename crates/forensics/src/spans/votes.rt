//! Votes by their places in a list of contents.

ghost use Rattle.std.specs.Prelude.{◌≡◌, ◌<◌, length};
ghost use Rattle.forensics.specs.Pairs.{content_at, target_at, are_slashable_at};
ghost use Rattle.beacon_types.specs.Equality.{same_data};

use beacon_types::{AttestationData, is_slashable_data};

/// The target epoch of a vote.
#[tactic(auto, unfolding(crate::specs::Pairs::content_at, crate::specs::Pairs::target_at), using(crate::proofs::Items::getting))]
pub(crate) fn target_of(contents: &[AttestationData], vote: u32) -> u64
    requires { vote < length contents.now }
    ensures { result ≡ target_at contents.now vote }
{
    contents[vote as usize].target.epoch
}

/// Whether nobody may cast both votes.
#[tactic(auto, unfolding(crate::specs::Pairs::content_at, crate::specs::Pairs::are_slashable_at, spec_forensics::specs::Offences::are_slashable), using(crate::proofs::Items::getting))]
pub(crate) fn are_slashable_at(contents: &[AttestationData], a: u32, b: u32) -> bool
    requires a { a < length contents.now }
    requires b { b < length contents.now }
    ensures { result ≡ are_slashable_at contents.now a b }
{
    let a = contents[a as usize];
    let b = contents[b as usize];
    is_slashable_data(&a, &b) || is_slashable_data(&b, &a)
}

/// Whether two votes have one content.
#[tactic(auto, unfolding(crate::specs::Pairs::content_at), using(crate::proofs::Items::getting))]
pub(crate) fn is_same(contents: &[AttestationData], a: u32, b: u32) -> bool
    requires a { a < length contents.now }
    requires b { b < length contents.now }
    ensures { result ≡ same_data (content_at contents.now a) (content_at contents.now b) }
{
    contents[a as usize] == contents[b as usize]
}
