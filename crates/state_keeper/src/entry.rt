//! What is kept of one block.
//!
//! The calls here are generic over the state: they move it, and read nothing of it.

ghost use Rattle.std.specs.Prelude.{◌≡◌, ◌<◌, [], ◌∷◌, ◌++◌, Some, slice_get, IfOk, IfSome, IsOk, OnOk, OnErr};
ghost use Rattle.state_keeper.specs.inside.Entries.{Stay, place_of};

use bc_words::NoMemory;
use std::snapshot::Snapshot;

/// Every how many steps from the first block a state is kept.
pub(crate) const KEPT_EVERY: u32 = 8;

/// A block with its parent's number, how far it is from the first block, and which of the kept states is its own, if one is.
#[derive(Drop)]
pub(crate) struct Entry<B: Drop, S: Drop> {
    pub(crate) block: B,
    pub(crate) parent: u32,
    pub(crate) distance: u32,
    pub(crate) kept: Option<usize>,
    /// The state that the block stands for. It takes no room.
    pub(crate) state: Snapshot<S>,
}

/// Puts the state of a block so far from the first block behind the kept ones, if it is to be kept, and answers its place there,
/// or else the state, for the cache.
fn keep_state<S: Drop>(
    states: &mut Vec<S>,
    distance: u32,
    state: S,
) -> Result<(Option<usize>, Option<S>), NoMemory>
    ensures place { IfOk result (λ kept. kept.0 ≡ place_of distance states.old.len) }
    ensures kept { OnOk result (IfSome (place_of distance states.old.len) (λ place. slice_get states.new.items place ≡ Some state)) }
    ensures stay { Stay states.old.items states.new.items }
    ensures other { IfOk result (λ kept. IfSome kept.1 (λ s. s ≡ state)) }
    ensures succeeds { states.old.len < states.old.cap → IsOk result }
{
    if distance % KEPT_EVERY == 0 {
        let place = states.len();
        states.push(state)?;
        Ok((Some(place), None))
    } else {
        Ok((None, Some(state)))
    }
}

/// Puts the entry of a block behind the others, and answers its state where that isn't kept. Where memory is refused, the kept
/// states may be one more.
pub(crate) fn push_entry<B: Drop, S: Drop>(
    entries: &mut Vec<Entry<B, S>>,
    states: &mut Vec<S>,
    block: B,
    parent: u32,
    distance: u32,
    state: S,
    seen: Snapshot<S>,
) -> Result<Option<S>, NoMemory>
    ensures items { OnOk result (entries.new.items ≡ entries.old.items ++ record { block = block; parent = parent; distance = distance; kept = place_of distance states.old.len; state = seen } ∷ []) }
    ensures same { OnErr result (entries.new.items ≡ entries.old.items) }
    ensures kept { OnOk result (IfSome (place_of distance states.old.len) (λ place. slice_get states.new.items place ≡ Some state)) }
    ensures stay { Stay states.old.items states.new.items }
    ensures other { IfOk result (λ other. IfSome other (λ s. s ≡ state)) }
    ensures succeeds { entries.old.len < entries.old.cap → states.old.len < states.old.cap → IsOk result }
{
    let (kept, other) = keep_state(states, distance, state)?;
    entries.push(Entry {
        block,
        parent,
        distance,
        kept,
        state: seen,
    })?;
    Ok(other)
}
