//! A maker as a source of the events of a run: they go to the store as those of a record's file do.

ghost use Rattle.std.specs.Prelude.{◌≡◌, ℕ, ◌+◌, ◌≤◌, ◌<◌, length, true, IfOk, IfSome};
ghost use Rattle.bc_outside.specs.Told.{ShelfTold};
ghost use Rattle.record_file.specs.Record.{is_kind, most_events};
ghost use Rattle.record_file.specs.Sources.{NextOf, Counts};
ghost use Rattle.record_file.specs.Stops.{SourceStopsBy};
ghost use Rattle.spec_drill.specs.Plan.{Plan};
ghost use Rattle.spec_drill.specs.Maker.{new_maker};
ghost use Rattle.chain_maker.specs.Next.{StepIs, all_given};
ghost use Rattle.chain_maker.specs.Source.{begun, made_source, IsShort};
ghost use Rattle.chain_maker.specs.inside.Stops.{CanStop, stop_of};

use crate::given::Given;
use crate::maker::Maker;
use bc_outside::Shelf;
use bc_words::Stop;
use record_file::{Event, EventSource, SourceStop};
use std::alloc::Global;
use std::marker::Model;

/// The events of a maker, one by one, and how many were given.
#[derive(Drop)]
pub struct MadeEvents {
    alloc: Global,
    maker: Maker,
    // How many events were given.
    given: u32,
}

impl Model for MadeEvents {
    ghost use Rattle.chain_maker.specs.Next.{StepIs, all_given};
    ghost use Rattle.chain_maker.specs.Source.{MadeSource, IsShort};

    ghost Value = { MadeSource };

    ghost view = { λ events. record { maker = events.maker; given = events.given } };

    ghost invariant = { λ events. IsShort (record { maker = events.maker; given = events.given }) };
}

impl MadeEvents {
    /// The events of a new maker.
    pub fn new(alloc: Global, maker: Maker) -> MadeEvents
        requires { maker ≡ new_maker maker.plan }
        ensures { result ≡ begun maker }
    {
        maker.is_planned();
        MadeEvents {
            alloc,
            maker,
            given: 0,
        }
    }

    /// Why there is no event.
    fn stop_of(&self, stop: Stop) -> SourceStop
        requires { CanStop stop }
        ensures { result ≡ stop_of self.now.given stop }
    {
        match stop {
            Stop::Refused(_why) => unreachable!(),
            Stop::Limit(limit) => SourceStop::Limit {
                event: self.given + 1,
                limit,
            },
            Stop::NoMemory => SourceStop::NoMemory,
        }
    }

    /// The next event, and for a block its step, or None exactly at the end.
    pub fn next_given(&mut self) -> Result<Option<Given>, SourceStop>
        ensures next { (told : ShelfTold) → NextOf (all_given result) (made_source self.old) (made_source self.new) told told }
        ensures counts { Counts (all_given result) (made_source self.old) (made_source self.new) }
        ensures kind { IfOk result (λ next. IfSome next (λ given. is_kind given.event.kind ≡ true)) }
        ensures causes { (faults : ℕ) → SourceStopsBy result faults faults }
        ensures stepped { IfOk result (λ next. IfSome next (λ given. StepIs given.stepped self.old.maker self.new.maker)) }
        ensures plan { self.new.maker.plan ≡ self.old.maker.plan }
    {
        self.is_short();
        match self.maker.next_given(self.alloc) {
            Ok(Some(given)) => {
                self.given += 1;
                Ok(Some(given))
            }
            Ok(None) => Ok(None),
            Err(stop) => Err(self.stop_of(stop)),
        }
    }

    /// The law that a source has no more events than a record may have. It does nothing when it runs.
    fn is_short(&self)
        ensures { IsShort self.now }
    {
        let _ = &self.maker;
    }
}

impl EventSource for MadeEvents {
    ghost seen = { made_source };

    fn given(&self) -> u32 {
        self.given
    }

    fn next_event<F: Shelf>(&mut self, _shelf: &mut F) -> Result<Option<Event>, SourceStop> {
        match self.next_given() {
            Ok(Some(given)) => Ok(Some(given.event)),
            Ok(None) => Ok(None),
            Err(stop) => Err(stop),
        }
    }
}
