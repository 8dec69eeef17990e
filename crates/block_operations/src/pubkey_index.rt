//! The first index of each key of a registry, so that a deposit's validator is found without reading the registry. It is made
//! from a state, and `process_deposit` keeps it.

ghost use Rattle.std.specs.Prelude.{◌≡◌, ◌+◌, ◌<◌, length, take, OnOk, OnErr, IfOk};
ghost use Rattle.block_operations.specs.Indexes.{Indexes, index_in};
ghost use Rattle.block_operations.specs.inside.Notes.{Adds, Notes};

use bc_words::NoMemory;
use beacon_state::State;
use indexmap::IndexMap;
use std::alloc::Global;
use std::marker::Model;

/// The first index of each key, seen as the pairs of a key and its index.
#[derive(Drop)]
pub struct PubkeyIndex {
    indices: IndexMap<[u8; 48], u64>,
}

impl Model for PubkeyIndex {
    ghost use Rattle.std.specs.Prelude.{ℕ, List};

    ghost Value = { List (List ℕ × ℕ) };

    ghost view = { λ keys. keys.indices.entries };
}

impl PubkeyIndex {
    /// The index of the state's keys.
    pub fn of(alloc: Global, state: &State) -> Result<PubkeyIndex, NoMemory>
        ensures { IfOk result (λ keys. Indexes keys state.now.validators) }
    {
        let mut keys = PubkeyIndex {
            indices: IndexMap::new(alloc),
        };
        for index in 0..state.validators_len() {
            keys.note_at(state, index)?;
        }
        Ok(keys)
    }

    /// The next validator's key, behind those of the registry's front. Where memory is refused, the map is as before.
    #[tactic(auto, using(crate::proofs::Registry::front_grows))]
    fn note_at(&mut self, state: &State, index: u64) -> Result<(), NoMemory>
        requires place { index < length state.now.validators }
        requires front { Indexes self.old (take index state.now.validators) }
        ensures { OnOk result (Indexes self.new (take (index + 1) state.now.validators)) }
    {
        match state.validators_at(index) {
            Some(validator) => {
                self.note(validator.pubkey(), index)?;
                Ok(())
            }
            None => unreachable!(),
        }
    }

    /// A key gets an index, unless it has one. Where memory is refused, the map is as before.
    fn note(&mut self, key: &[u8; 48], index: u64) -> Result<(), NoMemory>
        ensures { OnOk result (Notes self.old self.new key.now index) }
    {
        if self.first(key).is_some() {
            return Ok(());
        }
        self.add(*key, index)
    }

    /// The first index of a key, None exactly where no validator has it.
    pub fn first(&self, key: &[u8; 48]) -> Option<u64>
        ensures { result ≡ index_in self.now key.now }
    {
        self.indices.get(key).copied()
    }

    /// A key that isn't there gets an index. Where memory is refused, the map is as before.
    pub(crate) fn add(&mut self, key: [u8; 48], index: u64) -> Result<(), NoMemory>
        ensures ok { OnOk result (Adds self.old self.new key index) }
        ensures err { OnErr result (self.new ≡ self.old) }
    {
        self.indices.insert(key, index)?;
        Ok(())
    }
}
