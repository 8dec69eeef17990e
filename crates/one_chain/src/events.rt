//! The events of a run, from a record or from a maker: each is handed to the store, and answered by a line.

ghost use Rattle.std.specs.Prelude.{◌≡◌, ◌≢◌, ◌<◌, ◌≤◌, ◌+◌, ◌-◌, ◌^◌, [], ◌∷◌, length, true, Some, IfSome, IfNone, IfOk, IfErr, Ok};
ghost use Rattle.spec_replay.specs.Run.{with_record};
ghost use Rattle.record_file.specs.Record.{is_kind};
ghost use Rattle.record_file.specs.Sources.{IsOpenedFile};
ghost use Rattle.one_chain.specs.Answers.{OutsideKeeps, Replayed, taken_of};
ghost use Rattle.one_chain.specs.inside.Statuses.{no_event};
ghost use Rattle.one_chain.specs.inside.Progress.{Progress, OneMore, EventsOver, HasLine, IsCounted, EndsAt, outcome_of, tally_at};

use crate::feed::StoreSource;
use crate::head::head_of;
use crate::lines::{accepted_line, refused_line};
use crate::reading::unread;
use crate::status::Status;
use crate::writing::unwritten;
use bc_outside::{Shelf, Sink, write_all};
use bc_words::{NoMemory, StoreStop};
use fork_store::Store;
use record_file::{Event, Frames, SourceStop};
use std::alloc::Global;

/// How many events were handed to the store, and how many of them it accepted.
#[derive(Drop)]
pub struct Counts {
    /// All events.
    pub events: u32,
    /// Those that were accepted.
    pub accepted: u32,
}

/// The line, unless memory ran out.
fn line_or_status(line: Result<Vec<u8>, NoMemory>) -> Result<Vec<u8>, Status>
    ensures line { IfOk result (λ line'. line ≡ Ok line') }
    ensures status { IfErr result (λ status. status ≡ Status.NoMemory) }
{
    match line {
        Ok(line) => Ok(line),
        Err(_) => Err(Status::NoMemory),
    }
}

/// Hands the event to the store, counts it, and makes its line. The status where the event ends the run.
#[tactic(auto, using(spec_fork_choice::proofs::Grows::event_keeps_one_more), unfolding(spec_replay::specs::Run::event_then))]
fn handle_event<S: StoreSource>(
    alloc: Global,
    source: &mut S,
    number: u32,
    event: &Event,
    store: &mut Store,
    counts: &mut Counts,
) -> Result<Vec<u8>, Status>
    requires few { length store.old.plain.blocks < 2 ^ 32 - 1 }
    requires events { counts.old.events < 2 ^ 32 - 1 }
    requires accepted { counts.old.accepted < 2 ^ 32 - 1 }
    requires kind { is_kind event.now.kind ≡ true }
    requires awaits { S.awaits source.old store.old.plain }
    ensures few { IfOk result (λ _. length store.new.plain.blocks ≤ length store.old.plain.blocks + 1) }
    ensures line { IfOk result (λ line. HasLine number event.now store.old.plain store.new.plain line.items) }
    ensures counted { IfOk result (λ _. IsCounted event.now (tally_at store.old.plain counts.old) (tally_at store.new.plain counts.new)) }
    ensures one { counts.new.events ≤ counts.old.events + 1 }
    ensures at_most { counts.new.accepted ≤ counts.old.accepted + 1 }
    ensures over { IfErr result (λ status. EndsAt status number (outcome_of store.old.plain event.now)) }
    ensures fits { IfOk result (λ _. S.fits source.new store.new.plain) }
    ensures seen { S.seen source.new ≡ S.seen source.old }
{
    match source.hand(alloc, event, store) {
        Ok(given) => {
            counts.events += 1;
            counts.accepted += 1;
            line_or_status(accepted_line(alloc, u64::from(number), event.kind, &given, store))
        }
        Err(StoreStop::Refused(refusal)) => {
            counts.events += 1;
            line_or_status(refused_line(alloc, u64::from(number), event.kind, refusal, store))
        }
        Err(StoreStop::Limit(limit)) => Err(Status::Limit {
            which: 0,
            event: number,
            limit,
        }),
        Err(StoreStop::Clash(kind)) => Err(Status::Clash {
            which: 0,
            event: number,
            kind,
            kept_which: 0,
        }),
        Err(StoreStop::NoMemory) => Err(Status::NoMemory),
    }
}

/// The status of an event that could not be read or made.
fn no_event(stop: SourceStop) -> Status
    ensures { result ≡ no_event stop }
{
    match stop {
        SourceStop::Fault { event, fault } => Status::Record {
            which: 0,
            event,
            fault,
        },
        SourceStop::Limit { event, limit } => Status::Limit {
            which: 0,
            event,
            limit,
        },
        SourceStop::ReadFault => Status::ReadFault,
        SourceStop::NoMemory => Status::NoMemory,
    }
}

/// Tells the slot of the store's head, where it is asked for.
fn tell_head<O: Sink>(store: &mut Store, out: &O)
    ensures { store.new.plain ≡ store.old.plain }
{
    if out.asks() {
        let head = head_of(store);
        if let Some(block) = store.block(head) {
            out.hear(block.slot);
        }
    }
}

/// Takes the next event: hands it to the store, and writes its line. The status where the run is over.
fn replay_event<S: StoreSource, F: Shelf, O: Sink>(
    alloc: Global,
    source: &mut S,
    store: &mut Store,
    counts: &mut Counts,
    shelf: &mut F,
    out: &mut O,
) -> Option<Status>
    requires opened { IsOpenedFile (S.seen source.old).file (F.told shelf.old) }
    requires few { length store.old.plain.blocks ≤ (S.seen source.old).events + 1 }
    requires events { counts.old.events ≤ (S.seen source.old).events }
    requires accepted { counts.old.accepted ≤ (S.seen source.old).events }
    requires fits { S.fits source.old store.old.plain }
    ensures goes_on { IfNone result (Progress (tally_at store.old.plain counts.old) (S.seen source.old) (F.told shelf.old) (O.told out.old).taken
        (tally_at store.new.plain counts.new) (S.seen source.new) (F.told shelf.new) (O.told out.new).taken
        × OneMore (S.seen source.old) (S.seen source.new) × (length store.new.plain.blocks ≤ (S.seen source.new).events + 1)
        × (counts.new.events ≤ (S.seen source.new).events) × (counts.new.accepted ≤ (S.seen source.new).events) × S.fits source.new store.new.plain) }
    ensures over { IfSome result (λ status. EventsOver status (tally_at store.old.plain counts.old) (S.seen source.old) (F.told shelf.old) (F.told shelf.new)
        (O.told out.old).taken (O.told out.new).taken (tally_at store.new.plain counts.new)) }
    ensures outside { OutsideKeeps [] result (F.told shelf.old) (F.told shelf.new) (O.told out.old) (O.told out.new) }
{
    let event = match source.next_for(shelf) {
        Ok(Some(event)) => event,
        Ok(None) => return Some(Status::Done),
        Err(stop) => return Some(no_event(stop)),
    };
    let number = source.given();
    let line = match handle_event(alloc, source, number, &event, store, counts) {
        Ok(line) => line,
        Err(status) => return Some(status),
    };
    match write_all(out, &line) {
        Ok(()) => {
            tell_head(store, out);
            None
        }
        Err(trouble) => Some(unwritten(trouble)),
    }
}

/// Takes the events that are to come, one by one, wherever they come from, and counts them.
pub fn replay_events<S: StoreSource, F: Shelf, O: Sink>(
    alloc: Global,
    source: &mut S,
    store: &mut Store,
    counts: &mut Counts,
    shelf: &mut F,
    out: &mut O,
) -> Status
    requires opened { IsOpenedFile (S.seen source.old).file (F.told shelf.old) }
    requires few { length store.old.plain.blocks ≤ (S.seen source.old).events + 1 }
    requires events { counts.old.events ≤ (S.seen source.old).events }
    requires accepted { counts.old.accepted ≤ (S.seen source.old).events }
    requires fits { S.fits source.old store.old.plain }
    ensures over { EventsOver result (tally_at store.old.plain counts.old) (S.seen source.old) (F.told shelf.old) (F.told shelf.new)
        (O.told out.old).taken (O.told out.new).taken (tally_at store.new.plain counts.new) }
    ensures command { result ≢ Status.Words }
    ensures outside { OutsideKeeps [] (Some result)
        (F.told shelf.old) (F.told shelf.new) (O.told out.old) (O.told out.new) }
{
    'events: loop {
        if let Some(status) = replay_event(alloc, source, store, counts, shelf, out) {
            return status;
        }
    }
}

/// Opens the record, hands its events to the store one by one, and writes the line of each.
pub fn replay_record<F: Shelf, O: Sink>(
    alloc: Global,
    store: &mut Store,
    name: &str,
    shelf: &mut F,
    out: &mut O,
) -> Status
    requires opened { length (F.told shelf.old).files < 2 ^ 32 }
    requires few { length store.old.plain.blocks ≤ 1 }
    ensures answers { Replayed (λ contents. with_record store.old.plain (contents name.now)) (λ contents opened. with_record store.old.plain (taken_of 0 opened))
        (name.now ∷ []) result (F.told shelf.old) (F.told shelf.new) (O.told out.old).taken (O.told out.new).taken }
    ensures command { result ≢ Status.Words }
    ensures outside { OutsideKeeps (name.now ∷ []) (Some result)
        (F.told shelf.old) (F.told shelf.new) (O.told out.old) (O.told out.new) }
{
    let file = match shelf.open(name) {
        Ok(file) => file,
        Err(trouble) => return unread(trouble),
    };
    let mut frames = Frames::new(alloc, file);
    let mut counts = Counts {
        events: 0,
        accepted: 0,
    };
    replay_events(alloc, &mut frames, store, &mut counts, shelf, out)
}
