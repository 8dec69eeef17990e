//! Votes of one attester each.

ghost use Rattle.std.specs.Prelude.{◌≡◌, ◌∷◌, [], map, IfOk};
ghost use Rattle.forensics.specs.Room.{StandOnce};

use anyhow::Result;
use bc_words::NoMemory;
use forensics::{CarriedVotes, Place};
use spec_forensics::Vote;
use std::alloc::Global;

/// A list of one list of one attester.
fn alone(alloc: Global, validator: u64) -> Result<Vec<Vec<u64>>, NoMemory>
    ensures once { IfOk result (λ lists. StandOnce (map (λ l. l.items) lists.items)) }
    ensures one { IfOk result (λ lists. map (λ l. l.items) lists.items ≡ (validator ∷ []) ∷ []) }
{
    let mut attesters = Vec::new(alloc);
    attesters.push(validator)?;
    let mut lists = Vec::new(alloc);
    lists.push(attesters)?;
    Ok(lists)
}

/// Adds a vote behind the others.
pub fn add_vote(alloc: Global, votes: &mut CarriedVotes, vote: &Vote) -> Result<(), NoMemory> {
    let place = Place {
        which: vote.which,
        event: vote.event,
        position: vote.position,
        block_root: vote.block_root,
    };
    let lists = alone(alloc, vote.validator)?;
    votes.reserve(&lists)?;
    votes.add(place, vote.content, &[vote.validator]);
    Ok(())
}
