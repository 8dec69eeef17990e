//! The keeper of states.
//!
//! Blocks come with the states behind them. Where a block is some multiple of eight steps from the first block its state is kept; the
//! cache has the states that were used last, and what neither has is made again.

ghost use Rattle.std.specs.Prelude.{◌≡◌, ℕ, ◌+◌, ◌-◌, ◌%◌, ◌<◌, ◌≤◌, ◌^◌, [], ◌∷◌, ◌++◌, Some, length, option_map, slice_get, IfOk, IfSome, OnOk, IsOk};
ghost use Rattle.bc_words.specs.Outcome.{Becomes, done};
ghost use Rattle.spec_state.specs.declared.plain.PlainState.{PlainState};
ghost use Rattle.state_keeper.specs.Chain.{HasState, WasStep, state_at, distance_of, kept_every};
ghost use Rattle.state_keeper.specs.inside.Entries.{place_of};

use crate::cache::{recall, remember, share_found};
use crate::entry::{Entry, push_entry};
use crate::remade::{distance_at, remade};
use crate::stepper::Stepper;
use bc_words::{NoMemory, Steps};
use beacon_state::State;
use lru::LruCache;
use std::alloc::Global;
use std::marker::Model;
use std::num::NonZeroUsize;
use std::snapshot::Snapshot;
use std::sync::ledger::Ledger;

/// How many states the cache has at most.
const CACHED: usize = 16;

/// The states behind kept blocks, each of which is behind its parent by a step. Contracts see the list of blocks, each with its
/// parent's number and the state that it stands for, whichever states are held.
pub struct Keeper<P: Stepper> {
    stepper: P,
    entries: Vec<Entry<P::Block, State>>,
    states: Vec<State>,
    cache: LruCache<u32, State>,
    alloc: Global,
}

// Written by hand, so that a call that lets one go is one call, and not one for each of its lists.
impl<P: Stepper> Drop for Keeper<P> {
    fn drop(self) {
        let Keeper {
            stepper,
            entries,
            states,
            cache,
            alloc: _,
        } = self;
        drop(stepper);
        drop(entries);
        drop(states);
        drop(cache);
    }
}

impl<P: Stepper> Model for Keeper<P> {
    ghost use Rattle.std.specs.Prelude.{map, min, ◌-◌};
    ghost use Rattle.state_keeper.specs.Chain.{Kept};

    ghost Value = { Kept P P.Block };

    ghost use Rattle.state_keeper.specs.inside.Entries.{plain_of, IsKeeper};

    ghost view = { λ keeper. record { stepper = keeper.stepper; blocks = map plain_of keeper.entries.items; spare = min (keeper.entries.cap - keeper.entries.len) (keeper.states.cap - keeper.states.len) } };

    ghost invariant = { λ keeper. IsKeeper (P.can_step keeper.stepper) (P.plain_step keeper.stepper) keeper.entries.items keeper.states.items keeper.cache.entries };
}

/// The entries of one block, number 0, its state, which is kept, and a cache that has no state.
fn beginning<B: Drop, S: Drop>(
    alloc: Global,
    block: B,
    state: S,
    seen: Snapshot<S>,
) -> Result<(Vec<Entry<B, S>>, Vec<S>, LruCache<u32, S>), NoMemory>
    ensures entries { IfOk result (λ made. made.0.items ≡ record { block = block; parent = 0; distance = 0; kept = place_of 0 0; state = seen } ∷ []) }
    ensures states { IfOk result (λ made. IfSome (place_of 0 0) (λ place. slice_get made.1.items place ≡ Some state)) }
    ensures cache { IfOk result (λ made. made.2.entries ≡ []) }
{
    let cache = LruCache::new(alloc, NonZeroUsize::new(CACHED).unwrap())?;
    let (mut entries, mut states) = (Vec::new(alloc), Vec::new(alloc));
    let _other = push_entry(&mut entries, &mut states, block, 0, 0, state, seen)?;
    Ok((entries, states, cache))
}

impl<P: Stepper> Keeper<P> {
    /// The keeper of one block, number 0, and the state behind it.
    pub fn new(
        alloc: Global,
        stepper: P,
        block: P::Block,
        state: State,
    ) -> Result<Keeper<P>, NoMemory>
        ensures stepper { IfOk result (λ keeper. keeper.stepper ≡ stepper) }
        ensures blocks { IfOk result (λ keeper. keeper.blocks ≡ record { block = block; parent = 0; state = state } ∷ []) }
    {
        let seen = Snapshot::of(&state);
        let (entries, states, cache) = beginning(alloc, block, state, seen)?;
        Ok(Keeper {
            stepper,
            entries,
            states,
            cache,
            alloc,
        })
    }

    /// Makes room, so that the next `add` can't fail.
    pub fn reserve(&mut self) -> Result<(), NoMemory>
        ensures stepper { self.new.stepper ≡ self.old.stepper }
        ensures blocks { self.new.blocks ≡ self.old.blocks }
        ensures room { OnOk result (0 < self.new.spare) }
    {
        self.entries.reserve(1)?;
        Ok(self.states.reserve(1)?)
    }

    /// Adds the block behind the parent of that number, with the state that the plain step from the parent's gives, and answers
    /// its number. Where memory is refused, which needs that no room was made, the blocks are as before.
    pub fn add(&mut self, parent: u32, block: P::Block, state: State) -> Result<u32, NoMemory>
        requires few { length self.old.blocks < 2 ^ 32 - 1 }
        requires parent { parent < length self.old.blocks }
        requires can { IfSome (slice_get self.old.blocks parent) (λ before. P.can_step self.old.stepper before.state block) }
        requires step { IfSome (slice_get self.old.blocks parent) (λ before. P.plain_step self.old.stepper before.state block ≡ done state) }
        ensures number { IfOk result (λ number. number ≡ length self.old.blocks) }
        ensures stepper { self.new.stepper ≡ self.old.stepper }
        ensures blocks { Becomes result self.old.blocks self.new.blocks (self.old.blocks ++ record { block = block; parent = parent; state = state } ∷ []) }
        ensures succeeds { 0 < self.old.spare → IsOk result }
    {
        let number = self.entries.len() as u32;
        let distance = distance_at(self.entries.as_slice(), parent) + 1;
        let seen = Snapshot::of(&state);
        match push_entry(
            &mut self.entries,
            &mut self.states,
            block,
            parent,
            distance,
            state,
            seen,
        )? {
            Some(state) => self.cache_state(number, state),
            None => {}
        }
        Ok(number)
    }

    /// The block of a number.
    pub fn block(&self, n: u32) -> &P::Block
        requires { n < length self.now.blocks }
        ensures { option_map (λ b. b.block) (slice_get self.now.blocks n) ≡ Some result.now }
    {
        &self.entries[n as usize].block
    }

    /// The state behind the block of a number, whichever states were dropped: it is that of the chain of plain steps from the first block. It
    /// takes one counted step for each block behind the nearest ancestor at a multiple of eight steps from the first block, never more, so at
    /// most seven. Whether memory is refused or not, the keeper is as before.
    pub fn state_of<L: Ledger>(&mut self, n: u32, steps: &mut Steps<L>) -> Result<State, NoMemory>
        requires { n < length self.old.blocks }
        ensures state { IfOk result (λ state. HasState self.old.blocks n state) }
        ensures chain { IfOk result (λ state. state_at (P.plain_step self.old.stepper) self.old.blocks n ≡ Some (done state)) }
        ensures steps { steps.new ≤ steps.old + distance_of self.old.blocks n % kept_every }
        ensures at_most { steps.new ≤ steps.old + 7 }
        ensures same { self.new ≡ self.old }
    {
        self.states_are_of_the_chain();
        match self.held(n)? {
            Some(state) => Ok(state),
            None => self.made_and_cached(n, steps),
        }
    }

    /// The law that each block stands for the state of the chain of plain steps from the first block. It does nothing when it runs.
    pub fn states_are_of_the_chain(&self)
        ensures { (n : ℕ) (state : PlainState) → HasState self.now.blocks n state → state_at (P.plain_step self.now.stepper) self.now.blocks n ≡ Some (done state) }
    {
        let _entries = &self.entries;
    }

    /// The law that each block but the first one was added by a done step from the state of its parent. It does nothing when it
    /// runs.
    pub fn steps_were_taken(&self)
        ensures { (n : ℕ) → 0 < n → n < length self.now.blocks → WasStep (P.can_step self.now.stepper) (P.plain_step self.now.stepper) self.now.blocks n }
    {
        let _entries = &self.entries;
    }

    /// The state behind a block, where it is kept or cached.
    fn held(&mut self, n: u32) -> Result<Option<State>, NoMemory>
        requires { n < length self.old.blocks }
        ensures state { IfOk result (λ found. IfSome found (λ state. HasState self.old.blocks n state)) }
        ensures same { self.new ≡ self.old }
    {
        match self.entries[n as usize].kept {
            Some(place) => share_found(&self.states[place]),
            None => recall(&mut self.cache, n),
        }
    }

    /// The state behind a block, made again.
    fn made_again<L: Ledger>(&self, n: u32, steps: &mut Steps<L>) -> Result<State, NoMemory>
        requires { n < length self.now.blocks }
        ensures state { IfOk result (λ state. HasState self.now.blocks n state) }
        ensures steps { steps.new ≤ steps.old + distance_of self.now.blocks n % kept_every }
    {
        let (entries, states) = (self.entries.as_slice(), self.states.as_slice());
        remade(self.alloc, &self.stepper, entries, states, n, steps)
    }

    /// The state behind a block, made again and put into the cache, where memory allows that.
    fn made_and_cached<L: Ledger>(
        &mut self,
        n: u32,
        steps: &mut Steps<L>,
    ) -> Result<State, NoMemory>
        requires { n < length self.old.blocks }
        ensures state { IfOk result (λ state. HasState self.old.blocks n state) }
        ensures steps { steps.new ≤ steps.old + distance_of self.old.blocks n % kept_every }
        ensures same { self.new ≡ self.old }
    {
        let state = self.made_again(n, steps)?;
        self.cache_copy(n, &state);
        Ok(state)
    }

    /// Puts the state behind a block into the cache once more, where memory allows that.
    fn cache_copy(&mut self, n: u32, state: &State)
        requires { HasState self.old.blocks n state.now }
        ensures { self.new ≡ self.old }
    {
        match state.share() {
            Ok(copy) => self.cache_state(n, copy),
            Err(_) => {}
        }
    }

    /// Puts the state behind a block into the cache.
    fn cache_state(&mut self, n: u32, state: State)
        requires { HasState self.old.blocks n state }
        ensures { self.new ≡ self.old }
    {
        remember(&mut self.cache, n, state);
    }
}
