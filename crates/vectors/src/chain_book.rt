//! A book with the ends of its chains.

ghost use Rattle.std.specs.Prelude.{◌≡◌, ◌<◌, ◌+◌, ◌-◌, ◌^◌, [], ◌∷◌, length, IfOk, OnOk, OnErr};
ghost use Rattle.bc_words.specs.Outcome.{done};
ghost use Rattle.spec_state.specs.Soundness.{IsSound};
ghost use Rattle.spec_state.specs.Genesis.{header_root_of};
ghost use Rattle.spec_transition.specs.StateTransition.{state_transition};
ghost use Rattle.vectors.specs.Chains.{Reaches};
ghost use Rattle.forensics.specs.Books.{begun, with_block};

use crate::beginning::{is_beginning, is_same, is_set};
use crate::chain_stop::ChainStop;
use bc_preset::Config;
use bc_words::{NoMemory, Stop};
use beacon_state::State;
use beacon_types::SignedBeaconBlock;
use forensics::{Book, Offence, Watch};
use hash_tree::{Leaf, Root};
use std::alloc::Global;
use std::marker::Model;
use transition::genesis_is_sound;
use transition::state_transition::visit_transition;

/// A book, and the end of the chain of the history that is being added.
#[derive(Drop)]
pub struct ChainBook {
    book: Book,
    config: Config,
    genesis: State,
    which: u8,
    root: Root,
    state: State,
    count: u32,
}

impl Model for ChainBook {
    ghost use Rattle.std.specs.Prelude.{◌≡◌, ◌+◌, length};
    ghost use Rattle.vectors.specs.Chains.{PlainChain, IsChain};

    ghost Value = { PlainChain };

    ghost view = { λ c. record { book = c.book; which = c.which; root = c.root; state = c.state } };

    ghost invariant = { λ c. IsChain (record { book = c.book; which = c.which; root = c.root; state = c.state }) × (c.genesis ≡ c.book.genesis) × (c.config ≡ c.book.config) × (length c.book.first + length c.book.second ≡ c.count) };
}

impl ChainBook {
    /// A book without blocks, whose first history ends with genesis. The genesis must begin the histories of a book.
    pub fn new(alloc: Global, genesis: &State, config: &Config) -> Result<ChainBook, ChainStop>
        ensures { IfOk result (λ chain. chain.book ≡ begun config.now genesis.now) }
    {
        if !is_beginning(genesis) {
            return Err(ChainStop::NoBeginning);
        }
        genesis_is_sound();
        let book = Book::new(alloc, genesis, config)?;
        Ok(ChainBook {
            book,
            config: *config,
            genesis: genesis.share()?,
            which: 0,
            root: genesis.header_root(),
            state: genesis.share()?,
            count: 0,
        })
    }

    /// A share of genesis, for a watch to compare with.
    pub fn genesis(&self) -> Result<State, NoMemory>
        ensures { IfOk result (λ genesis. genesis ≡ self.now.book.genesis) }
    {
        self.genesis.share()
    }

    /// Turns to the second history, which begins with genesis. Where it was turned to already, nothing changes.
    pub fn turn(&mut self) -> Result<(), NoMemory>
        ensures { self.new.book ≡ self.old.book }
    {
        if self.which != 0 {
            return Ok(());
        }
        let state = self.genesis.share()?;
        self.root = self.genesis.header_root();
        self.state = state;
        self.which = 1;
        Ok(())
    }

    /// The state behind a block on the end of the chain. A watch of the book's genesis is shown the states entered on the way.
    pub fn step(
        &self,
        alloc: Global,
        block: &SignedBeaconBlock,
        watch: &mut Watch<'_>,
    ) -> Result<State, Stop>
        requires fresh { watch.old ≡ record { genesis = self.now.book.genesis; entered = [] } }
        ensures sound { IfOk result (λ state. IsSound state) }
        ensures genesis { IfOk result (λ state. watch.new.genesis ≡ self.now.book.genesis) }
        ensures step { Reaches result watch.new.entered (state_transition self.now.state block.now self.now.book.config) }
    {
        let state = self.state.share()?;
        visit_transition(alloc, state, block, &self.config, watch)
    }

    /// Adds a block to the history, with the number of its event, the state behind it and the watch that was shown the states entered
    /// on the way. It must be on the end of the chain.
    pub fn add(
        &mut self,
        alloc: Global,
        event: u32,
        block: &SignedBeaconBlock,
        state: State,
        watch: &Watch<'_>,
    ) -> Result<(), ChainStop>
        requires sound { IsSound state }
        requires genesis { watch.now.genesis ≡ self.old.book.genesis }
        requires step { state_transition self.old.state block.now self.old.book.config ≡ done (record { state = state; entered = watch.now.entered }) }
    {
        let root = block.message.root();
        let _slot = block.message.slot;
        if !is_same(&block.message.parent_root, &self.root) {
            return Err(ChainStop::NotOnTop);
        }
        if !is_set(&root) || !is_set(&state.root()) {
            return Err(ChainStop::ZeroRoot);
        }
        if self.count >= u32::MAX - 1 {
            return Err(ChainStop::Full);
        }
        let which = self.which;
        self.book
            .add(alloc, which, event, &block.message, root, &state, watch)?;
        self.count += 1;
        self.root = root;
        self.state = state;
        Ok(())
    }

    /// The offences of the book.
    pub fn offences(&self, alloc: Global) -> Result<Vec<Offence>, NoMemory> {
        self.book.offences(alloc)
    }
}
