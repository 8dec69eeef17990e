//! A record that is followed without a line: its events go to a store, and each block that the store accepts goes to the book of votes.

ghost use Rattle.std.specs.Prelude.{◌≡◌, ◌≢◌, ◌<◌, ◌≤◌, ◌+◌, ◌-◌, ◌^◌, [], ◌∷◌, length, true, IfOk, IfErr, IfSome, IfNone};
ghost use Rattle.bc_outside.specs.Calls.{ShelfKeeps};
ghost use Rattle.record_file.specs.Record.{is_kind, most_events};
ghost use Rattle.record_file.specs.Sources.{IsOpenedFile};
ghost use Rattle.ssz_codec.specs.Lawful.{IsBytes};
ghost use Rattle.spec_fork_choice.specs.Clash.{clash_among};
ghost use Rattle.spec_fork_choice.specs.OnEvent.{block};
ghost use Rattle.spec_replay.specs.Forensic.{clash_of_accepted};
ghost use Rattle.forensics.specs.Books.{history_of};
ghost use Rattle.safety_law.specs.Follows.{IsAdded};
ghost use Rattle.one_chain.specs.inside.Progress.{OneMore, outcome_of};
ghost use Rattle.one_chain.specs.inside.Statuses.{no_event_of};
ghost use Rattle.beacon_node.specs.inside.Following.{BlockFollowed, ClashesBy, EventEnds, EventFollowed, FollowedSoFar, FollowedToEnd, FollowsOutside, IsBeside, IsFollowing, IsInside, RecordFollowed, SameBeside, followed_by, others_of, which_of};

use bc_outside::Shelf;
use bc_words::{ClashKind, Limit, StoreStop};
use beacon_state::State;
use beacon_types::BeaconBlock;
use epoch_visitor::Watched;
use forensics::{VoteBook, Watch};
use fork_store::{Accepted, BlockIn, Store};
use hash_tree::Root;
use one_chain::{Status, unread};
use record_file::{Event, EventSource, Frames, SourceStop};
use std::alloc::Global;

/// Which record is followed.
#[derive(Clone, Copy)]
pub enum Side<'a> {
    /// The first one.
    First,
    /// The second one, whose accepted blocks are compared with those that this store of the first one keeps.
    Second(&'a Store),
}

impl<'a> Side<'a> {
    /// The number of the record.
    fn which(&self) -> u8
        ensures which { result ≡ which_of self.now }
        ensures few { result < 2 }
    {
        match self {
            Side::First => 0,
            Side::Second(_) => 1,
        }
    }

    /// The place of the other record's block that has this root and another content. None exactly where there is none.
    fn clash(&self, root: Root, block: &BeaconBlock) -> Option<u32>
        requires { length (others_of self.now) < 2 ^ 32 }
        ensures { result ≡ clash_among (others_of self.now) root block.now }
    {
        match self {
            Side::First => None,
            Side::Second(other) => other.other_block(root, block),
        }
    }
}

/// Bytes are below 256.
pub fn are_bytes(bytes: &[u8])
    ensures { IsBytes bytes.now }
{}

/// Adds a block that the store accepted to the book, unless a block of the other record has its root and another content.
fn follow_block(
    alloc: Global,
    side: Side<'_>,
    number: u32,
    given: &BlockIn,
    watch: &Watch<'_>,
    store: &mut Store,
    book: &mut VoteBook,
) -> Result<(), Status>
    requires beside { IsBeside side book.old }
    requires watched { watch.now ≡ record { genesis = book.old.genesis; entered = given.now.entered } }
    requires added { IsAdded book.old.config book.old.genesis (history_of book.old (which_of side)) store.old.plain number given.now }
    ensures store { store.new.plain ≡ store.old.plain }
    ensures followed { IfOk result (λ _. BlockFollowed side.entry number store.old.plain given.now book.old book.new) }
    ensures same { SameBeside side.entry book.old book.new }
    ensures over { IfErr result (λ status. ClashesBy status (which_of side.entry) number (clash_of_accepted (others_of side.entry) store.old.plain (block given.now))) }
{
    let state = match store.state(given.root()) {
        Ok(Some(state)) => state,
        Ok(None) => unreachable!(),
        Err(_) => return Err(Status::NoMemory),
    };
    let Some(block) = store.block(given.root()) else {
        unreachable!();
    };
    if let Some(place) = side.clash(given.root(), block) {
        return Err(Status::Clash {
            which: side.which(),
            event: number,
            kind: ClashKind::Kept(place),
            kept_which: 0,
        });
    }
    match book.add(
        alloc,
        side.which(),
        number,
        block,
        given.root(),
        &state,
        watch,
    ) {
        Ok(()) => Ok(()),
        Err(_) => Err(Status::NoMemory),
    }
}

/// The status of an event that reaches a bound of this program.
fn limited(side: Side<'_>, event: u32, limit: Limit) -> Status
    ensures status { result ≡ Status.Limit (which_of side.entry) event limit }
    ensures inside { IsInside result }
{
    Status::Limit {
        which: side.which(),
        event,
        limit,
    }
}

/// The status of a block whose root is no name for it alone in its own record.
fn clashed(side: Side<'_>, event: u32, kind: ClashKind) -> Status
    ensures status { result ≡ Status.Clash (which_of side.entry) event kind (which_of side.entry) }
    ensures inside { IsInside result }
{
    let which = side.which();
    Status::Clash {
        which,
        event,
        kind,
        kept_which: which,
    }
}

/// Hands the event to the store, which shows a new watch the states that are entered, and a block that it accepts to the book. The status where
/// the event ends the run.
#[tactic(auto, using(spec_fork_choice::proofs::Grows::event_keeps_one_more, record_file::proofs::Supplying::kind_first, record_file::proofs::Supplying::kind_last))]
fn follow_watched(
    alloc: Global,
    side: Side<'_>,
    genesis: &State,
    number: u32,
    event: &Event,
    watched: &mut Watched<Watch<'_>>,
    store: &mut Store,
    book: &mut VoteBook,
) -> Result<(), Status>
    requires new { watched.old.visitor ≡ record { genesis = genesis.now; entered = [] } }
    requires few { length store.old.plain.blocks < 2 ^ 32 - 1 }
    requires kind { is_kind event.now.kind ≡ true }
    requires following { IsFollowing side genesis.now store.old.plain book.old }
    ensures few { IfOk result (λ _. length store.new.plain.blocks ≤ length store.old.plain.blocks + 1) }
    ensures following { IfOk result (λ _. IsFollowing side.entry genesis.now store.new.plain book.new) }
    ensures followed { IfOk result (λ _. EventFollowed (which_of side.entry) (others_of side.entry) number (followed_by side.entry store.old.plain book.old) (outcome_of store.old.plain event.now)
        (followed_by side.entry store.new.plain book.new)) }
    ensures same { SameBeside side.entry book.old book.new }
    ensures over { IfErr result (λ status. EventEnds status (which_of side.entry) (others_of side.entry) number (followed_by side.entry store.old.plain book.old) (outcome_of store.old.plain event.now)) }
    ensures inside { IfErr result (λ status. IsInside status) }
{
    are_bytes(event.payload.as_slice());
    match store.visit_event(alloc, event.kind, event.payload.as_slice(), watched) {
        Ok(Accepted::Block(given)) => {
            follow_block(alloc, side, number, &given, &watched.visitor, store, book)
        }
        Ok(Accepted::Other) => Ok(()),
        Err(StoreStop::Refused(_)) => Ok(()),
        Err(StoreStop::Limit(limit)) => Err(limited(side, number, limit)),
        Err(StoreStop::Clash(kind)) => Err(clashed(side, number, kind)),
        Err(StoreStop::NoMemory) => Err(Status::NoMemory),
    }
}

/// Hands the event to the store, and a block that it accepts to the book. The status where the event ends the run.
fn follow_event(
    alloc: Global,
    side: Side<'_>,
    genesis: &State,
    number: u32,
    event: &Event,
    store: &mut Store,
    book: &mut VoteBook,
) -> Result<(), Status>
    requires few { length store.old.plain.blocks < 2 ^ 32 - 1 }
    requires kind { is_kind event.now.kind ≡ true }
    requires following { IsFollowing side genesis.now store.old.plain book.old }
    ensures few { IfOk result (λ _. length store.new.plain.blocks ≤ length store.old.plain.blocks + 1) }
    ensures following { IfOk result (λ _. IsFollowing side.entry genesis.now store.new.plain book.new) }
    ensures followed { IfOk result (λ _. EventFollowed (which_of side.entry) (others_of side.entry) number (followed_by side.entry store.old.plain book.old) (outcome_of store.old.plain event.now)
        (followed_by side.entry store.new.plain book.new)) }
    ensures same { SameBeside side.entry book.old book.new }
    ensures over { IfErr result (λ status. EventEnds status (which_of side.entry) (others_of side.entry) number (followed_by side.entry store.old.plain book.old) (outcome_of store.old.plain event.now)) }
    ensures inside { IfErr result (λ status. IsInside status) }
{
    let mut watched = Watched::new(Watch::new(genesis));
    follow_watched(
        alloc,
        side,
        genesis,
        number,
        event,
        &mut watched,
        store,
        book,
    )
}

/// The status of an event of a record that could not be read or made.
fn no_event_of(side: Side<'_>, stop: SourceStop) -> Status
    ensures { result ≡ no_event_of (which_of side.entry) stop }
{
    match stop {
        SourceStop::Fault { event, fault } => Status::Record {
            which: side.which(),
            event,
            fault,
        },
        SourceStop::Limit { event, limit } => Status::Limit {
            which: side.which(),
            event,
            limit,
        },
        SourceStop::ReadFault => Status::ReadFault,
        SourceStop::NoMemory => Status::NoMemory,
    }
}

/// Takes the next event. None where more may come behind it.
fn follow_next<S: EventSource, F: Shelf>(
    alloc: Global,
    side: Side<'_>,
    genesis: &State,
    source: &mut S,
    store: &mut Store,
    book: &mut VoteBook,
    shelf: &mut F,
) -> Option<Result<(), Status>>
    requires opened { IsOpenedFile (S.seen source.old).file (F.told shelf.old) }
    requires few { length store.old.plain.blocks ≤ (S.seen source.old).events + 1 }
    requires following { IsFollowing side genesis.now store.old.plain book.old }
    ensures goes_on { IfNone result (FollowedSoFar side.entry (followed_by side.entry store.old.plain book.old) (S.seen source.old) (F.told shelf.old)
        (followed_by side.entry store.new.plain book.new) (S.seen source.new) (F.told shelf.new)
        × OneMore (S.seen source.old) (S.seen source.new) × (length store.new.plain.blocks ≤ (S.seen source.new).events + 1)) }
    ensures over { IfSome result (λ ended. FollowedToEnd side.entry ended (followed_by side.entry store.old.plain book.old) (S.seen source.old) (F.told shelf.old) (F.told shelf.new)
        (followed_by side.entry store.new.plain book.new)) }
    ensures events { (S.seen source.new).events ≤ (S.seen source.old).events + 1 }
    ensures following { IfNone result (IsFollowing side.entry genesis.now store.new.plain book.new) }
    ensures followed { IfSome result (λ ended. IfOk ended (λ _. IsFollowing side.entry genesis.now store.new.plain book.new × (store.new.plain ≡ store.old.plain))) }
    ensures same { SameBeside side.entry book.old book.new }
    ensures shelf { ShelfKeeps [] (F.told shelf.old) (F.told shelf.new) }
    ensures outside { IfSome result (λ ended. FollowsOutside [] ended (F.told shelf.old) (F.told shelf.new)) }
{
    let event = match source.next_event(shelf) {
        Ok(Some(event)) => event,
        Ok(None) => return Some(Ok(())),
        Err(stop) => return Some(Err(no_event_of(side, stop))),
    };
    match follow_event(alloc, side, genesis, source.given(), &event, store, book) {
        Ok(()) => None,
        Err(status) => Some(Err(status)),
    }
}

/// Follows the events that are to come, one by one, wherever they come from.
pub fn follow_events<S: EventSource, F: Shelf>(
    alloc: Global,
    side: Side<'_>,
    genesis: &State,
    source: &mut S,
    store: &mut Store,
    book: &mut VoteBook,
    shelf: &mut F,
) -> Result<(), Status>
    requires opened { IsOpenedFile (S.seen source.old).file (F.told shelf.old) }
    requires few { length store.old.plain.blocks ≤ (S.seen source.old).events + 1 }
    requires most { (S.seen source.old).events ≤ most_events }
    requires following { IsFollowing side genesis.now store.old.plain book.old }
    ensures over { FollowedToEnd side.entry result (followed_by side.entry store.old.plain book.old) (S.seen source.old) (F.told shelf.old) (F.told shelf.new)
        (followed_by side.entry store.new.plain book.new) }
    ensures following { IfOk result (λ _. IsFollowing side.entry genesis.now store.new.plain book.new) }
    ensures few { IfOk result (λ _. length store.new.plain.blocks ≤ most_events + 1) }
    ensures same { SameBeside side.entry book.old book.new }
    ensures outside { FollowsOutside [] result (F.told shelf.old) (F.told shelf.new) }
{
    'events: loop {
        if let Some(ended) = follow_next(alloc, side, genesis, source, store, book, shelf) {
            return ended;
        }
    }
}

/// Opens the record, and follows its events.
pub fn follow_record<F: Shelf>(
    alloc: Global,
    side: Side<'_>,
    genesis: &State,
    name: &str,
    store: &mut Store,
    book: &mut VoteBook,
    shelf: &mut F,
) -> Result<(), Status>
    requires opened { length (F.told shelf.old).files < 2 ^ 32 }
    requires few { length store.old.plain.blocks ≤ 1 }
    requires new { history_of book.old (which_of side) ≡ [] }
    requires following { IsFollowing side genesis.now store.old.plain book.old }
    ensures followed { RecordFollowed side.entry name.now result store.old.plain (F.told shelf.old) (F.told shelf.new) (followed_by side.entry store.new.plain book.new) }
    ensures following { IfOk result (λ _. IsFollowing side.entry genesis.now store.new.plain book.new) }
    ensures few { IfOk result (λ _. length store.new.plain.blocks ≤ most_events + 1) }
    ensures same { SameBeside side.entry book.old book.new }
    ensures outside { FollowsOutside (name.now ∷ []) result (F.told shelf.old) (F.told shelf.new) }
{
    let file = match shelf.open(name) {
        Ok(file) => file,
        Err(trouble) => return Err(unread(trouble)),
    };
    let mut frames = Frames::new(alloc, file);
    follow_events(alloc, side, genesis, &mut frames, store, book, shelf)
}
