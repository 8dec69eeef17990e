//! How the events of a source get to a store. A record's events go to it as they are.

ghost use Rattle.std.specs.Prelude.{◌≡◌, ◌<◌, ◌-◌, ◌^◌, [], true, length, IfOk, IfSome};
ghost use Rattle.bc_outside.specs.Calls.{ShelfKeeps};
ghost use Rattle.fork_store.specs.Events.{AcceptsBy, accepted_of};
ghost use Rattle.record_file.specs.Record.{is_kind};
ghost use Rattle.record_file.specs.Sources.{IsOpenedFile, NextOf, Counts};
ghost use Rattle.record_file.specs.Stops.{SourceStopsBy};
ghost use Rattle.spec_fork_choice.specs.OnEvent.{on_event};
ghost use Rattle.spec_fork_choice.specs.Store.{Store as PlainStore};

use bc_outside::Shelf;
use bc_words::StoreStop;
use fork_store::{Accepted, Store};
use record_file::{Event, EventSource, Frames, SourceStop};
use std::alloc::Global;

/// Events that come one by one, and go to a store by the source's own way.
pub trait StoreSource: EventSource {
    /// What the source relies on of the store that took its events.
    ghost fits: { Self → PlainStore → Type 0 };

    /// The same of the store that its last event is for.
    ghost awaits: { Self → PlainStore → Type 0 };

    /// The next event, as `next_event` gives it.
    fn next_for<F: Shelf>(&mut self, shelf: &mut F) -> Result<Option<Event>, SourceStop>
        requires { IsOpenedFile (Self.seen self.old).file (F.told shelf.old) }
        ensures next { NextOf result (Self.seen self.old) (Self.seen self.new) (F.told shelf.old) (F.told shelf.new) }
        ensures counts { Counts result (Self.seen self.old) (Self.seen self.new) }
        ensures kind { IfOk result (λ next. IfSome next (λ event. is_kind event.kind ≡ true)) }
        ensures file { (Self.seen self.new).file ≡ (Self.seen self.old).file }
        ensures causes { SourceStopsBy result (F.told shelf.old).faults (F.told shelf.new).faults }
        ensures keeps { ShelfKeeps [] (F.told shelf.old) (F.told shelf.new) }
        ensures awaits { IfOk result (λ next. IfSome next (λ _. (store : PlainStore) → fits self.old store → awaits self.new store)) };

    /// Hands its last event to the store, which takes it as `on_event` does.
    fn hand(
        &mut self,
        alloc: Global,
        event: &Event,
        store: &mut Store,
    ) -> Result<Accepted, StoreStop>
        requires few { length store.old.plain.blocks < 2 ^ 32 - 1 }
        requires kind { is_kind event.now.kind ≡ true }
        requires awaits { awaits self.old store.old.plain }
        ensures exact { AcceptsBy accepted_of result store.old.plain store.new.plain (on_event store.old.plain event.now.kind event.now.payload) }
        ensures fits { fits self.new store.new.plain }
        ensures seen { Self.seen self.new ≡ Self.seen self.old };
}

impl StoreSource for Frames {
    ghost fits = { λ frames store. Unit {0} };

    ghost awaits = { λ frames store. Unit {0} };

    fn next_for<F: Shelf>(&mut self, shelf: &mut F) -> Result<Option<Event>, SourceStop> {
        self.next_event(shelf)
    }

    #[tactic(auto, using(record_file::proofs::Supplying::kind_first, record_file::proofs::Supplying::kind_last))]
    fn hand(
        &mut self,
        alloc: Global,
        event: &Event,
        store: &mut Store,
    ) -> Result<Accepted, StoreStop> {
        store.on_event(alloc, event.kind, event.payload.as_slice())
    }
}
