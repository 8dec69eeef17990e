//! The votes of an attestation.

ghost use Rattle.std.specs.Prelude.{◌≡◌, ◌<◌, ℕ, ◌++◌, List, length, IsOk, OnOk};
ghost use Rattle.forensics.specs.AllSpans.{AreSorted, AllStand, AreLow, votes_in};
ghost use Rattle.forensics.specs.Room.{all_of, HasRoom, Grows};

use crate::spans::Spans;
use crate::spans::one::take_one;
use bc_words::{NoMemory, Steps};
use beacon_types::AttestationData;
use std::sync::ledger::Ledger;

/// Takes the votes of an attestation's attesters.
pub(crate) fn take_all<L: Ledger>(
    spans: &mut Vec<Spans>,
    contents: &[AttestationData],
    attesters: &[u64],
    vote: u32,
    steps: &mut Steps<L>,
) -> Result<(), NoMemory>
    requires sorted_all { AreSorted contents.now spans.old.items }
    requires vote { vote < length contents.now }
    ensures sorted_all { AreSorted contents.now spans.new.items }
    ensures grows { Grows spans.old.items spans.new.items (all_of attesters.now) }
    ensures spare { HasRoom spans.old.items (all_of attesters.now) → IsOk result }
    ensures stand { (votes : ℕ → List ℕ) → AreLow vote votes → AllStand contents.now spans.old.items votes → OnOk result (AllStand contents.now spans.new.items (λ w. votes w ++ votes_in w vote attesters.now)) }
{
    for validator in attesters {
        take_one(spans, contents, *validator, vote, steps)?;
    }
    Ok(())
}
