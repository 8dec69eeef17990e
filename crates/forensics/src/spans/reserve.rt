//! Room for the votes of a block, before any of them is taken.

ghost use Rattle.std.specs.Prelude.{◌∷◌, [], length, map, OnOk};
ghost use Rattle.forensics.specs.Room.{IsReserved, AreReserved, IsSame};

use crate::spans::Spans;
use bc_words::NoMemory;

/// Makes room for so many votes more of a validator, if there is one of that number.
#[tactic(auto, using(crate::proofs::Reserved::one_by_one))]
fn reserve_one(spans: &mut Vec<Spans>, validator: u64, count: usize) -> Result<(), NoMemory>
    ensures same { IsSame spans.old.items spans.new.items }
    ensures room { OnOk result (IsReserved spans.new.items count (validator ∷ [])) }
{
    match spans.get_mut(validator as usize) {
        Some(own) => own.reserve(count),
        None => Ok(()),
    }
}

/// Makes room for so many votes more of each attester.
#[tactic(auto, using(crate::proofs::Reserved::one_by_one))]
fn reserve_list(spans: &mut Vec<Spans>, attesters: &[u64], count: usize) -> Result<(), NoMemory>
    ensures same { IsSame spans.old.items spans.new.items }
    ensures room { OnOk result (IsReserved spans.new.items count attesters.now) }
{
    for validator in attesters {
        reserve_one(spans, *validator, count)?;
    }
    Ok(())
}

/// Makes room for a vote in each list, for each attester of the lists.
#[tactic(auto, using(crate::proofs::Reserved::one_by_one))]
pub(crate) fn reserve_all(spans: &mut Vec<Spans>, lists: &[Vec<u64>]) -> Result<(), NoMemory>
    ensures same { IsSame spans.old.items spans.new.items }
    ensures room { OnOk result (AreReserved spans.new.items (length lists.now) (map (λ l. l.items) lists.now)) }
{
    for attesters in lists {
        reserve_list(spans, attesters, lists.len())?;
    }
    Ok(())
}
