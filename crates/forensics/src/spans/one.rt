//! One vote.

ghost use Rattle.std.specs.Prelude.{◌≡◌, ◌<◌, length, IsOk, OnOk};
ghost use Rattle.forensics.specs.AllSpans.{IsTaken, AreSorted};
ghost use Rattle.forensics.specs.Room.{one_of, HasRoom, Grows};

use crate::spans::Spans;
use bc_words::{NoMemory, Steps};
use beacon_types::AttestationData;
use std::sync::ledger::Ledger;

#[tactic(auto, using(crate::proofs::Rooms::rooming))]
/// Takes the vote of a validator, if there is one of that number.
pub(crate) fn take_one<L: Ledger>(
    spans: &mut Vec<Spans>,
    contents: &[AttestationData],
    validator: u64,
    vote: u32,
    steps: &mut Steps<L>,
) -> Result<(), NoMemory>
    requires sorted_all { AreSorted contents.now spans.old.items }
    requires vote { vote < length contents.now }
    ensures sorted_all { AreSorted contents.now spans.new.items }
    ensures grows { Grows spans.old.items spans.new.items (one_of validator) }
    ensures spare { HasRoom spans.old.items (one_of validator) → IsOk result }
    ensures taken { OnOk result (IsTaken contents.now spans.old.items spans.new.items validator vote) }
{
    match spans.get_mut(validator as usize) {
        Some(own) => own.add(contents, vote, steps),
        None => Ok(()),
    }
}
