//! The events of a made chain on their way to a store.
//!
//! The maker of a chain needs the state behind a block for the block's state root, so the step by it is at hand, and the store takes it
//! in place of making it once more.

ghost use Rattle.std.specs.Prelude.{◌≡◌, ℕ, ◌<◌, ◌-◌, ◌^◌, true, length, IfOk, IfSome};
ghost use Rattle.bc_outside.specs.Told.{ShelfTold};
ghost use Rattle.chain_maker.specs.Source.{made_source};
ghost use Rattle.fork_store.specs.Events.{AcceptsBy, accepted_of};
ghost use Rattle.record_file.specs.Record.{is_kind};
ghost use Rattle.record_file.specs.Sources.{NextOf, Counts};
ghost use Rattle.record_file.specs.Stops.{SourceStopsBy};
ghost use Rattle.spec_fork_choice.specs.OnEvent.{on_event};
ghost use Rattle.spec_fork_choice.specs.Store.{Store as PlainStore};
ghost use Rattle.beacon_node.specs.inside.Feeds.{IsLent, Keeps, Lends};

use bc_outside::Shelf;
use bc_words::StoreStop;
use chain_maker::{MadeEvents, SteppedBlock};
use fork_store::{Accepted, Store};
use one_chain::StoreSource;
use record_file::{Event, EventSource, SourceStop};
use std::alloc::Global;
use std::mem;

/// The events of a made chain, with the step of a block that was given last, which the store may take.
#[derive(Drop)]
pub struct MadeFeed {
    events: MadeEvents,
    // Whether the store keeps the state behind the chain's last block that was handed to it.
    stands: bool,
    stepped: Option<SteppedBlock>,
}

impl MadeFeed {
    /// The events of a maker, for the store at its genesis.
    pub fn new(events: MadeEvents) -> MadeFeed
        ensures { result.events ≡ events }
    {
        MadeFeed {
            events,
            stands: true,
            stepped: None,
        }
    }

    /// The next event.
    #[tactic(auto, using(crate::proofs::Feeding::lent))]
    fn give(&mut self) -> Result<Option<Event>, SourceStop>
        ensures next { (told : ShelfTold) → NextOf result (made_source self.old.events) (made_source self.new.events) told told }
        ensures counts { Counts result (made_source self.old.events) (made_source self.new.events) }
        ensures kind { IfOk result (λ next. IfSome next (λ event. is_kind event.kind ≡ true)) }
        ensures causes { (faults : ℕ) → SourceStopsBy result faults faults }
        ensures stands { self.new.stands ≡ self.old.stands }
        ensures lends { IfOk result (λ next. IfSome next (λ _. (store : PlainStore) → Keeps store self.old.events.maker → Lends store self.new.events.maker self.new.stepped)) }
    {
        match self.events.next_given() {
            Ok(Some(given)) => {
                self.stepped = given.stepped;
                Ok(Some(given.event))
            }
            Ok(None) => Ok(None),
            Err(stop) => Err(stop),
        }
    }

    /// Hands the event of a block with its step to the store.
    #[tactic(auto, using(record_file::proofs::Supplying::kind_first, record_file::proofs::Supplying::kind_last))]
    fn hand_block(
        &mut self,
        alloc: Global,
        event: &Event,
        stepped: SteppedBlock,
        store: &mut Store,
    ) -> Result<Accepted, StoreStop>
        requires few { length store.old.plain.blocks < 2 ^ 32 - 1 }
        requires kind { is_kind event.now.kind ≡ true }
        requires lent { IsLent store.old.plain self.old.events.maker stepped }
        ensures exact { AcceptsBy accepted_of result store.old.plain store.new.plain (on_event store.old.plain event.now.kind event.now.payload) }
        ensures keeps { self.new.stands ≡ true → Keeps store.new.plain self.new.events.maker }
        ensures events { self.new.events ≡ self.old.events }
    {
        let SteppedBlock { block, step } = stepped;
        let payload = event.payload.as_slice();
        let (answer, kept) = store.on_stepped_event(
            alloc,
            event.kind,
            payload,
            &block.message,
            step,
        );
        self.stands = kept;
        answer
    }
}

impl EventSource for MadeFeed {
    ghost seen = { λ feed. made_source feed.events };

    fn given(&self) -> u32 {
        self.events.given()
    }

    fn next_event<F: Shelf>(&mut self, _shelf: &mut F) -> Result<Option<Event>, SourceStop> {
        self.give()
    }
}

impl StoreSource for MadeFeed {
    ghost fits = { λ feed store. feed.stands ≡ true → Keeps store feed.events.maker };

    ghost awaits = { λ feed store. feed.stands ≡ true → Lends store feed.events.maker feed.stepped };

    fn next_for<F: Shelf>(&mut self, _shelf: &mut F) -> Result<Option<Event>, SourceStop> {
        self.give()
    }

    fn hand(
        &mut self,
        alloc: Global,
        event: &Event,
        store: &mut Store,
    ) -> Result<Accepted, StoreStop> {
        if !self.stands {
            return store.on_event(alloc, event.kind, event.payload.as_slice());
        }
        match mem::replace(&mut self.stepped, None) {
            Some(stepped) => self.hand_block(alloc, event, stepped, store),
            None => store.on_event(alloc, event.kind, event.payload.as_slice()),
        }
    }
}
