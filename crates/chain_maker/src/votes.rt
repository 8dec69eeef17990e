//! The attestations of a slot, which are given as events one after another: first as they come from the wire, and once more
//! behind the block that carries them.

ghost use Rattle.std.specs.Prelude.{◌≡◌, []};
ghost use Rattle.chain_maker.specs.inside.Votes.{NextVote, pending_of, source_kind};

use bc_words::NoMemory;
use beacon_types::Attestations;
use record_file::{Event, Payload};
use ssz_codec::{Items, Ssz, VariableList};
use std::alloc::Global;

/// Where attestations come from.
#[derive(Drop)]
pub enum Source {
    /// From the wire.
    Wire,
    /// From a block.
    Carried,
}

impl Source {
    /// The kind of event.
    fn kind(&self) -> u8
        ensures { result ≡ source_kind self.now }
    {
        match self {
            Source::Wire => 3,
            Source::Carried => 4,
        }
    }
}

/// The attestations of a slot, how many of them were given, and where they come from.
#[derive(Drop)]
pub struct Votes {
    /// The attestations.
    pub all: Attestations,
    /// How many of them were given.
    pub given: usize,
    /// Where they come from.
    pub source: Source,
}

impl Votes {
    /// No attestation.
    pub fn new(alloc: Global) -> Votes
        ensures { pending_of result ≡ [] }
    {
        Votes {
            all: VariableList::from_items(Items::new(alloc)),
            given: 0,
            source: Source::Wire,
        }
    }

    /// The event of the next attestation, or None where all were given. Where memory is refused, they are as before.
    pub fn next(&mut self, alloc: Global) -> Result<Option<Event>, NoMemory>
        ensures next { NextVote result self.old self.new }
        ensures all { self.new.all ≡ self.old.all }
    {
        match self.all.as_slice().get(self.given) {
            None => Ok(None),
            Some(vote) => {
                let payload = Payload::new(vote.write(alloc)?);
                let kind = self.source.kind();
                self.given += 1;
                Ok(Some(Event { kind, payload }))
            }
        }
    }
}
