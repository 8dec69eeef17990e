//! A set of validators, a bit each.
//!
//! The array of nodes keeps in it who is silenced.

ghost use Rattle.std.specs.Prelude.{slice_index_or, ◌≡◌, ◌*◌, ◌%◌, ◌^◌, ◌<◌, ◌≤◌, [], length, vec_capacity, bit_or, OnOk};
ghost use Rattle.block_array.specs.PlainArray.{is_listed};
ghost use Rattle.bc_words.specs.Indices.{with_index};
ghost use Rattle.block_array.specs.inside.Silenced.{indices_in};

use crate::list::{make_room, push_item};
use bc_words::NoMemory;
use std::alloc::Global;
use std::marker::Model;

/// How many validators have their bits in one word.
const BITS: u64 = 64;

/// A set of validators, in words of 64 bits: a validator's bit is that of its number.
#[derive(Drop)]
pub(crate) struct ValidatorSet {
    words: Vec<u64>,
}

impl Model for ValidatorSet {
    ghost use Rattle.std.specs.Prelude.{◌*◌, vec_capacity};
    ghost use Rattle.block_array.specs.inside.Silenced.{Indices, indices_in};

    ghost Value = { Indices };

    ghost view = { λ s. record { indices = indices_in s.words.items; room = 64 * vec_capacity s.words } };
}

impl ValidatorSet {
    /// Nobody.
    #[tactic(auto, using(crate::proofs::ValidatorSets::beginning))]
    pub(crate) fn new(alloc: Global) -> ValidatorSet
        ensures { result.indices ≡ [] }
    {
        ValidatorSet {
            words: Vec::new(alloc),
        }
    }

    /// Whether a validator is in the set.
    pub(crate) fn has(&self, validator: u64) -> bool
        ensures { result ≡ is_listed self.now.indices validator }
    {
        let word = word_at(self.words.as_slice(), (validator / BITS) as usize);
        word >> (validator % BITS) & 1 == 1
    }

    /// Makes room for the validators below a number.
    pub(crate) fn reserve(&mut self, validators: usize) -> Result<(), NoMemory>
        ensures same { self.new.indices ≡ self.old.indices }
        ensures more { self.old.room ≤ self.new.room }
        ensures room { OnOk result (validators ≤ self.new.room) }
    {
        make_room(&mut self.words, validators / BITS as usize + 1)
    }

    /// Puts a validator into the set. There is room for it.
    pub(crate) fn insert(&mut self, validator: u64)
        requires { validator < self.old.room }
        ensures with { self.new.indices ≡ with_index self.old.indices validator }
        ensures room { self.old.room ≤ self.new.room }
    {
        let place = (validator / BITS) as usize;
        pad_words(&mut self.words, place);
        let word = self.words[place];
        self.words[place] = with_bit(word, validator % BITS);
    }
}

/// Makes words without a bit up to a place. There is room for them.
fn pad_words(words: &mut Vec<u64>, place: usize)
    requires { place < vec_capacity words.old }
    ensures same { indices_in words.new.items ≡ indices_in words.old.items }
    ensures inside { place < length words.new.items }
    ensures room { vec_capacity words.old ≤ vec_capacity words.new }
{
    for next in words.len()..place + 1 {
        push_item(words, 0);
    }
}

/// The word at a place, without a bit where there is none.
#[tactic(auto, using(crate::proofs::Items::reading))]
fn word_at(words: &[u64], place: usize) -> u64
    ensures { result ≡ slice_index_or words.now place 0 }
{
    match words.get(place) {
        Some(word) => *word,
        None => 0,
    }
}

/// A word with one more bit.
fn with_bit(word: u64, bit: u64) -> u64
    requires { bit < 64 }
    ensures { result ≡ bit_or word (1 * 2 ^ bit % 2 ^ 64) }
{
    word | 1 << bit
}
