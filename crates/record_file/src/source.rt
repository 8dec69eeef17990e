//! Where the events of a run come from, one by one: a record of a shelf, or events that are made. The events go to the store.

ghost use Rattle.std.specs.Prelude.{◌≡◌, [], true, IfOk, IfSome};
ghost use Rattle.bc_outside.specs.Calls.{ShelfKeeps};
ghost use Rattle.record_file.specs.Record.{is_kind};
ghost use Rattle.record_file.specs.Stops.{SourceStopsBy};
ghost use Rattle.record_file.specs.Frames.{IsPlace};
ghost use Rattle.record_file.specs.Sources.{Source, record_source, IsOpenedFile, NextOf, Counts};
ghost use Rattle.record_file.specs.inside.Sourced.{source_stop, source_answer};

use crate::{Event, FrameStop, Frames, RecordFault};
use bc_outside::Shelf;
use bc_words::Limit;
use thiserror::Error;

/// Why an [`EventSource`] gave no event. Events count from 1.
#[derive(Clone, Copy, Debug, PartialEq, Eq, Error)]
pub enum SourceStop {
    /// The record is faulty.
    #[error("event {event}: {fault}")]
    Fault {
        /// The event that can't be read, and 0 where the record's first bytes are wrong.
        event: u32,
        /// What is wrong with it.
        fault: RecordFault,
    },
    /// The next event can't be made, because of a bound of this program.
    #[error("event {event}: {limit:?}")]
    Limit {
        /// The event that can't be made.
        event: u32,
        /// The bound.
        limit: Limit,
    },
    /// The shelf failed, and counted a fault.
    #[error("the record could not be read")]
    ReadFault,
    /// Memory ran out.
    #[error("out of memory")]
    NoMemory,
}

/// Events that come one by one.
pub trait EventSource {
    /// What is still to come, how many events were given, and the file that is read, if one is.
    ghost seen: { Self → Source };

    /// How many events were given so far.
    fn given(&self) -> u32
        ensures { result ≡ (seen self.now).events };

    /// The next event, or None exactly at the end.
    fn next_event<F: Shelf>(&mut self, shelf: &mut F) -> Result<Option<Event>, SourceStop>
        requires { IsOpenedFile (seen self.old).file (F.told shelf.old) }
        ensures next { NextOf result (seen self.old) (seen self.new) (F.told shelf.old) (F.told shelf.new) }
        ensures counts { Counts result (seen self.old) (seen self.new) }
        ensures kind { IfOk result (λ next. IfSome next (λ event. is_kind event.kind ≡ true)) }
        ensures file { (seen self.new).file ≡ (seen self.old).file }
        ensures causes { SourceStopsBy result (F.told shelf.old).faults (F.told shelf.new).faults }
        ensures keeps { ShelfKeeps [] (F.told shelf.old) (F.told shelf.new) };
}

impl Frames {
    // Why the record gave no event, with the event's number.
    fn source_stop(&self, stop: FrameStop) -> SourceStop
        ensures { result ≡ source_stop self.now.events stop }
    {
        match stop {
            FrameStop::Fault(fault) => SourceStop::Fault {
                event: self.event_of(fault),
                fault,
            },
            FrameStop::ReadFault => SourceStop::ReadFault,
            FrameStop::NoMemory => SourceStop::NoMemory,
        }
    }

    // The answer of a source.
    fn source_answer(
        &self,
        answer: Result<Option<Event>, FrameStop>,
    ) -> Result<Option<Event>, SourceStop>
        ensures exact { result ≡ source_answer self.now.events answer }
        ensures place { IsPlace self.now.place self.now.events }
    {
        let _events = self.events();
        match answer {
            Ok(next) => Ok(next),
            Err(stop) => Err(self.source_stop(stop)),
        }
    }
}

impl EventSource for Frames {
    ghost seen = { record_source };

    fn given(&self) -> u32 {
        self.events()
    }

    #[tactic(auto, using(crate::proofs::Supplying::supplied, crate::proofs::Supplying::counted, crate::proofs::Supplying::of_kind, crate::proofs::Supplying::stopped))]
    fn next_event<F: Shelf>(&mut self, shelf: &mut F) -> Result<Option<Event>, SourceStop> {
        let answer = self.next(shelf);
        self.source_answer(answer)
    }
}
