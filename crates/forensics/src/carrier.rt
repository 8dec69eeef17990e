//! The attestations of the accepted blocks of a history, and the look-up of the one that a vote names.

ghost use Rattle.std.specs.Prelude.{◌≡◌};
ghost use Rattle.std.specs.Option.{option_map};
ghost use Rattle.beacon_types.specs.Equality.{same_root};
ghost use Rattle.forensics.specs.inside.Carriers.{named_by, named_among, where_named};

use crate::kept_attestation::KeptAttestation;
use hash_tree::Root;
use spec_forensics::Vote;
use std::marker::Model;

/// The attestations of an accepted block, with its event and its root.
pub(crate) struct Carrier {
    event: u32,
    root: Root,
    attestations: Vec<KeptAttestation>,
}

// Written by hand, so that a call that lets one go is one call, and not one for each of its parts.
impl Drop for Carrier {
    fn drop(self) {
        let Carrier {
            event: _,
            root: _,
            attestations,
        } = self;
        drop(attestations);
    }
}

impl Model for Carrier {
    ghost use Rattle.forensics.specs.inside.Carriers.{PlainCarrier};

    ghost Value = { PlainCarrier };

    ghost view = { λ c. record { event = c.event; root = c.root; attestations = c.attestations.items } };
}

/// The attestation, where a vote of one of the validators below a number is one of its.
#[tactic(auto, unfolding(crate::specs::inside::Carriers::where_named))]
fn where_named<'a>(
    kept: Option<&'a KeptAttestation>,
    validators: u64,
    vote: &Vote,
) -> Option<&'a KeptAttestation>
    ensures { option_map (λ kept. kept.now) result ≡ where_named validators vote.now (option_map (λ kept. kept.now) kept.entry) }
{
    match kept {
        Some(own) if own.has_vote(validators, vote) => Some(own),
        _ => None,
    }
}

/// Whether two roots are the same.
fn is_same(a: &Root, b: &Root) -> bool
    ensures { result ≡ same_root a.now b.now }
{
    *a == *b
}

impl Carrier {
    /// The attestations of a block.
    pub(crate) fn new(event: u32, root: Root, attestations: Vec<KeptAttestation>) -> Carrier
        ensures { result ≡ record { event = event; root = root; attestations = attestations.items } }
    {
        Carrier {
            event,
            root,
            attestations,
        }
    }

    /// The attestation that a vote of one of the validators below a number names, if it is one of the block's.
    #[tactic(auto, unfolding(crate::specs::inside::Carriers::named_by))]
    fn named(&self, validators: u64, vote: &Vote) -> Option<&KeptAttestation>
        ensures { option_map (λ kept. kept.now) result ≡ named_by validators vote.now self.now }
    {
        if self.event == vote.event && is_same(&self.root, &vote.block_root) {
            where_named(
                self.attestations.get(vote.position as usize),
                validators,
                vote,
            )
        } else {
            None
        }
    }
}

/// The attestation that a vote of one of the validators below a number names, in the first of these blocks that has it.
pub(crate) fn named_among<'a>(
    carriers: &'a [Carrier],
    validators: u64,
    vote: &Vote,
) -> Option<&'a KeptAttestation>
    ensures { option_map (λ kept. kept.now) result ≡ named_among validators vote.now carriers.now }
{
    for carrier in carriers {
        if let Some(kept) = carrier.named(validators, vote) {
            return Some(kept);
        }
    }
    None
}
