//! What two slashable votes of a validator are called, and in which order they are printed.

ghost use Rattle.std.specs.Prelude.{◌≡◌};
ghost use Rattle.spec_forensics.specs.Offences.{kind_of, surrounds, offence_by};

use spec_forensics::{Offence, OffenceKind, Vote};

/// A double where the target epochs are equal, and else a surround.
#[tactic(auto, unfolding(spec_forensics::specs::Offences::kind_of))]
fn kind_of(a: &Vote, b: &Vote) -> OffenceKind
    ensures { result ≡ kind_of a.now b.now }
{
    if a.content.target.epoch == b.content.target.epoch {
        OffenceKind::Double
    } else {
        OffenceKind::Surround
    }
}

/// Whether the first vote begins before the second and ends behind it.
#[tactic(auto, unfolding(spec_forensics::specs::Offences::surrounds))]
fn surrounds(a: &Vote, b: &Vote) -> bool
    ensures { result ≡ surrounds a.now b.now }
{
    a.content.source.epoch < b.content.source.epoch
        && b.content.target.epoch < a.content.target.epoch
}

/// The offence that an earlier and a later vote make: a surround has the surrounding vote first, a double the earlier one.
#[tactic(auto, unfolding(spec_forensics::specs::Offences::offence_by))]
pub(crate) fn offence_by(validator: u64, earlier: Vote, later: Vote) -> Offence
    ensures { result ≡ offence_by validator earlier later }
{
    let kind = kind_of(&earlier, &later);
    if surrounds(&later, &earlier) {
        Offence {
            validator,
            kind,
            first: later,
            second: earlier,
        }
    } else {
        Offence {
            validator,
            kind,
            first: earlier,
            second: later,
        }
    }
}
