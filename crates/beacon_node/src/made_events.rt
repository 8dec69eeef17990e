//! All events of a made chain, in a list that several nodes are delivered.

ghost use Rattle.std.specs.Prelude.{◌≡◌, ◌≤◌, All, length, true, IfOk, IfErr};
ghost use Rattle.record_file.specs.Record.{is_kind, most_events};
ghost use Rattle.spec_drill.specs.AsEvents.{events_to_come};
ghost use Rattle.spec_drill.specs.Maker.{new_maker, to_come};
ghost use Rattle.spec_replay.specs.Nodes.{all_of};
ghost use Rattle.beacon_node.specs.inside.Nodes.{EndsMaking};
ghost use Rattle.one_chain.specs.inside.Statuses.{no_event_of};

use chain_maker::{Given, MadeEvents, Maker};
use one_chain::Status;
use record_file::{Event, SourceStop};
use std::alloc::Global;

/// The status of an event of a chain, 0 or 1, that can't be made.
fn not_made(which: u8, stop: SourceStop) -> Status
    ensures { result ≡ no_event_of which stop }
{
    match stop {
        SourceStop::Limit { event, limit } => Status::Limit {
            which,
            event,
            limit,
        },
        SourceStop::Fault { event, fault } => Status::Record {
            which,
            event,
            fault,
        },
        SourceStop::ReadFault => Status::ReadFault,
        SourceStop::NoMemory => Status::NoMemory,
    }
}

/// The event of what a maker gives. A block's step is let go.
fn event_of(given: Given) -> Event
    ensures { result ≡ given.event }
{
    given.event
}

/// All events of a new maker, of the chain 0 or 1, or the status where one of them can't be made.
pub fn made_events(alloc: Global, which: u8, maker: Maker) -> Result<Vec<Event>, Status>
    requires new { maker ≡ new_maker maker.plan }
    ensures made { IfOk result (λ events. events_to_come 0 (to_come maker) ≡ all_of events.items) }
    ensures kinds { IfOk result (λ events. All (λ event. is_kind event.kind ≡ true) events.items) }
    ensures few { IfOk result (λ events. length events.items ≤ most_events) }
    ensures over { IfErr result (λ status. EndsMaking status which (events_to_come 0 (to_come maker))) }
{
    let mut source = MadeEvents::new(alloc, maker);
    let mut events = Vec::new(alloc);
    'events: loop {
        let event = match source.next_given() {
            Ok(Some(given)) => event_of(given),
            Ok(None) => return Ok(events),
            Err(stop) => return Err(not_made(which, stop)),
        };
        match events.push(event) {
            Ok(()) => {}
            Err(_) => return Err(Status::NoMemory),
        }
    }
}
