//! The command `drill`: a chain is made from a number, the store takes its events as it takes those of a record, and six lines say
//! what became of it. Then the two chains of the maker's split are followed, and two lines say what is found of them. All lines are
//! written at the end; those of the events go into a digest as they come.

ghost use Rattle.std.specs.Prelude.{◌≡◌, ◌≢◌, ◌<◌, ◌≤◌, ◌+◌, ◌^◌, ◌∷◌, [], length, None, Some, Ok, IfOk, IfErr};
ghost use Rattle.bc_outside.specs.Told.{SinkTold};
ghost use Rattle.record_file.specs.Record.{most_events};
ghost use Rattle.spec_fork_choice.specs.GetForkchoiceStore.{genesis_store};
ghost use Rattle.spec_fork_choice.specs.OnEvent.{genesis_clash};
ghost use Rattle.spec_drill.specs.AsEvents.{events_to_come};
ghost use Rattle.spec_drill.specs.Maker.{new_maker, to_come};
ghost use Rattle.spec_replay.specs.Drill.{behind_first, drill_config, drill_run, drill_store, split_lines, two_lines};
ghost use Rattle.spec_replay.specs.Forensic.{follow};
ghost use Rattle.spec_replay.specs.Run.{with_events};
ghost use Rattle.forensics.specs.Books.{history_of};
ghost use Rattle.safety_law.specs.Follows.{Follows};
ghost use Rattle.one_chain.specs.Answers.{OutsideKeeps, Replayed, whole_of};
ghost use Rattle.chain_maker.specs.Source.{begun, made_source};
ghost use Rattle.beacon_node.specs.inside.Drilled.{AreMakers, BehindTold, Digested, DrillTold, Finished, OpenedTold, OwnTold, SplitTold, WritesOut, chains_to_come, is_done, own_lines};
ghost use Rattle.beacon_node.specs.inside.Feeds.{Keeps};
ghost use Rattle.beacon_node.specs.inside.Following.{FollowsOutside, IsFollowing, Leaves, SameBeside, followed_by, others_of, which_of};
ghost use Rattle.beacon_node.specs.inside.Histories.{AreOpened, IsGenesis};
ghost use Rattle.one_chain.specs.inside.Progress.{tally_at};

use crate::drill_lines::{six_lines, two_lines};
use crate::follow::{Side, follow_events};
use crate::histories::{Histories, find, open_histories, store_at};
use crate::made_feed::MadeFeed;
use bc_outside::{HashSink, Shelf, Sink, write_all};
use bc_preset::{Config, ConfigFault, Key, MAX_CONFIG_LEN};
use bc_words::NoMemory;
use beacon_state::State;
use chain_maker::{MadeEvents, Maker};
use command_arguments::DrillWords;
use forensics::VoteBook;
use fork_store::Store;
use hash_tree::Root;
use one_chain::{Counts, Status, read_named, replay_events, unread, unwritten};
use std::alloc::Global;

/// The balance of the made validators, in Gwei, below which the configuration's ejection balance must be.
pub(crate) const FULL_BALANCE: u64 = 32_000_000_000;

/// The makers of a number: of its own chain, and of the two chains of its split.
#[derive(Drop)]
pub struct Makers {
    /// Of its own chain.
    pub own: Maker,
    /// Of the first chain of the split.
    pub first: Maker,
    /// Of the second one.
    pub second: Maker,
}

/// Whether all was done so far.
fn is_done(status: &Status) -> bool
    ensures { result ≡ is_done status.now }
{
    matches!(status, Status::Done)
}

/// The makers of a number under a configuration.
fn makers_of(alloc: Global, number: u64, config: &Config) -> Result<Makers, NoMemory>
    requires { config.now.ejection_balance < 32_000_000_000 }
    ensures { IfOk result (λ makers. AreMakers (record { config = config.now; number = number; which = None }) makers) }
{
    let own = Maker::new(alloc, number, config)?;
    let first = own.split(alloc, 0)?;
    let second = own.split(alloc, 1)?;
    Ok(Makers { own, first, second })
}

/// Hands the events of a new maker to the store, with their lines in a digest.
fn digest_events<F: Shelf, O: Sink>(
    alloc: Global,
    maker: Maker,
    store: &mut Store,
    counts: &mut Counts,
    shelf: &mut F,
    out: &O,
) -> (Status, Root)
    requires few { length store.old.plain.blocks ≤ 1 }
    requires new { maker ≡ new_maker maker.plan }
    requires keeps { Keeps store.old.plain maker }
    requires none { (counts.old.events ≡ 0) × (counts.old.accepted ≡ 0) }
    ensures over { Digested result.0 result.1 (tally_at store.old.plain counts.old) (made_source (begun maker)) (F.told shelf.old) (F.told shelf.new)
        (tally_at store.new.plain counts.new) }
    ensures command { result.0 ≢ Status.Words }
    ensures outside { (took : SinkTold) → OutsideKeeps [] (Some result.0) (F.told shelf.old) (F.told shelf.new) took took }
{
    let events = MadeEvents::new(alloc, maker);
    let mut feed = MadeFeed::new(events);
    let mut lines = HashSink::new(alloc, out);
    let status = replay_events(alloc, &mut feed, store, counts, shelf, &mut lines);
    (status, lines.digest())
}

/// Hands the events of a new maker to the store, and makes the six lines of what became of it.
fn chain_lines<F: Shelf, O: Sink>(
    alloc: Global,
    maker: Maker,
    mut store: Store,
    shelf: &mut F,
    out: &O,
) -> Result<Vec<u8>, Status>
    requires few { length store.plain.blocks ≤ 1 }
    requires new { maker ≡ new_maker maker.plan }
    requires keeps { Keeps store.plain maker }
    ensures told { OwnTold (λ lines. lines.items) result (with_events 1 store.plain (events_to_come 0 (to_come maker))).end (own_lines store.plain (events_to_come 0 (to_come maker))) }
    ensures still { F.told shelf.new ≡ F.told shelf.old }
    ensures outside { FollowsOutside [] result (F.told shelf.old) (F.told shelf.new) }
{
    let mut counts = Counts {
        events: 0,
        accepted: 0,
    };
    let (status, digest) = digest_events(alloc, maker, &mut store, &mut counts, shelf, out);
    if !is_done(&status) {
        return Err(status);
    }
    match six_lines(alloc, &counts, &mut store, &digest) {
        Ok(lines) => Ok(lines),
        Err(_) => Err(Status::NoMemory),
    }
}

/// Follows the chain of a new maker.
fn follow_made<F: Shelf>(
    alloc: Global,
    side: Side<'_>,
    genesis: &State,
    maker: Maker,
    store: &mut Store,
    book: &mut VoteBook,
    shelf: &mut F,
) -> Result<(), Status>
    requires new { maker ≡ new_maker maker.plan }
    requires few { length store.old.plain.blocks ≤ 1 }
    requires begun { history_of book.old (which_of side) ≡ [] }
    requires following { IsFollowing side genesis.now store.old.plain book.old }
    ensures followed { Leaves result (follow (which_of side.entry) (others_of side.entry) store.old.plain (events_to_come 0 (to_come maker))) (followed_by side.entry store.new.plain book.new) }
    ensures following { IfOk result (λ _. IsFollowing side.entry genesis.now store.new.plain book.new) }
    ensures few { IfOk result (λ _. length store.new.plain.blocks ≤ most_events + 1) }
    ensures same { SameBeside side.entry book.old book.new }
    ensures still { F.told shelf.new ≡ F.told shelf.old }
    ensures outside { FollowsOutside [] result (F.told shelf.old) (F.told shelf.new) }
{
    let mut events = MadeEvents::new(alloc, maker);
    follow_events(alloc, side, genesis, &mut events, store, book, shelf)
}

/// The two lines of what the book finds of two chains that their stores followed.
fn found_lines(
    alloc: Global,
    first: &Store,
    second: &Store,
    book: &mut VoteBook,
) -> Result<Vec<u8>, NoMemory>
    requires first { Follows book.old.config book.old.genesis (history_of book.old 0) first.now.plain }
    requires second { Follows book.old.config book.old.genesis (history_of book.old 1) second.now.plain }
    ensures { IfOk result (λ lines. lines.items ≡ two_lines book.old.genesis (record { store = first.now.plain; history = history_of book.old 0 }) (record { store = second.now.plain; history = history_of book.old 1 })) }
{
    let findings = find(alloc, first, second, book)?;
    two_lines(alloc, &findings)
}

/// Follows the second chain of the split behind the first one, whose store is kept for its blocks, and makes the two lines.
fn second_lines<F: Shelf>(
    alloc: Global,
    genesis: &State,
    first: &Store,
    maker: Maker,
    second: &mut Store,
    book: &mut VoteBook,
    shelf: &mut F,
) -> Result<Vec<u8>, Status>
    requires new { maker ≡ new_maker maker.plan }
    requires few { (length first.now.plain.blocks < 2 ^ 32) × (length second.old.plain.blocks ≤ 1) }
    requires genesis { book.old.genesis ≡ genesis.now }
    requires begun { history_of book.old 1 ≡ [] }
    requires first { Follows book.old.config book.old.genesis (history_of book.old 0) first.now.plain }
    requires second { Follows book.old.config book.old.genesis [] second.old.plain }
    ensures told { SplitTold (λ lines. lines.items) result (behind_first genesis.now second.old.plain (Ok (record { store = first.now.plain; history = history_of book.old 0 })) (events_to_come 0 (to_come maker))) }
    ensures still { F.told shelf.new ≡ F.told shelf.old }
    ensures outside { FollowsOutside [] result (F.told shelf.old) (F.told shelf.new) }
{
    let side = Side::Second(first);
    match follow_made(alloc, side, genesis, maker, second, book, shelf) {
        Ok(()) => match found_lines(alloc, first, second, book) {
            Ok(lines) => Ok(lines),
            Err(_) => Err(Status::NoMemory),
        },
        Err(status) => Err(status),
    }
}

/// Follows the two chains of the split on stores that opened at genesis, and makes the two lines of what is found of them.
fn histories_lines<F: Shelf>(
    alloc: Global,
    histories: &mut Histories,
    first_maker: Maker,
    second_maker: Maker,
    shelf: &mut F,
) -> Result<Vec<u8>, Status>
    requires opened { AreOpened histories.old.book.config histories.old.genesis histories.old }
    requires new { (first_maker ≡ new_maker first_maker.plan) × (second_maker ≡ new_maker second_maker.plan) }
    ensures told { SplitTold (λ lines. lines.items) result (split_lines histories.old.genesis histories.old.first.plain (events_to_come 0 (to_come first_maker)) (events_to_come 0 (to_come second_maker))) }
    ensures still { F.told shelf.new ≡ F.told shelf.old }
    ensures outside { FollowsOutside [] result (F.told shelf.old) (F.told shelf.new) }
{
    let Histories {
        genesis,
        first,
        second,
        book,
    } = histories;
    let side = Side::First;
    match follow_made(alloc, side, genesis, first_maker, first, book, shelf) {
        Ok(()) => second_lines(alloc, genesis, first, second_maker, second, book, shelf),
        Err(status) => Err(status),
    }
}

/// Follows the two chains of the split, each on a store of its own at genesis, and makes the two lines of what is found of them.
fn split_lines<F: Shelf>(
    alloc: Global,
    config: &Config,
    genesis: State,
    first_maker: Maker,
    second_maker: Maker,
    shelf: &mut F,
) -> Result<Vec<u8>, Status>
    requires genesis { IsGenesis config.now genesis }
    requires none { genesis_clash genesis ≡ None }
    requires new { (first_maker ≡ new_maker first_maker.plan) × (second_maker ≡ new_maker second_maker.plan) }
    ensures told { SplitTold (λ lines. lines.items) result (split_lines genesis (genesis_store config.now genesis) (events_to_come 0 (to_come first_maker)) (events_to_come 0 (to_come second_maker))) }
    ensures still { F.told shelf.new ≡ F.told shelf.old }
    ensures outside { FollowsOutside [] result (F.told shelf.old) (F.told shelf.new) }
{
    match open_histories(alloc, config, genesis) {
        Ok(mut histories) => {
            histories_lines(alloc, &mut histories, first_maker, second_maker, shelf)
        }
        Err(status) => Err(status),
    }
}

/// Opens the store of the own chain at genesis, and makes the six lines.
fn own_lines<F: Shelf, O: Sink>(
    alloc: Global,
    maker: Maker,
    config: &Config,
    genesis: &State,
    shelf: &mut F,
    out: &O,
) -> Result<Vec<u8>, Status>
    requires genesis { IsGenesis config.now genesis.now }
    requires new { maker ≡ new_maker maker.plan }
    requires keeps { Keeps (genesis_store config.now genesis.now) maker }
    ensures told { OpenedTold (λ lines. lines.items) result (genesis_clash genesis.now) (with_events 1 (genesis_store config.now genesis.now) (events_to_come 0 (to_come maker))).end (own_lines (genesis_store config.now genesis.now) (events_to_come 0 (to_come maker))) }
    ensures still { F.told shelf.new ≡ F.told shelf.old }
    ensures outside { FollowsOutside [] result (F.told shelf.old) (F.told shelf.new) }
{
    match store_at(alloc, config, genesis) {
        Ok(store) => chain_lines(alloc, maker, store, shelf, out),
        Err(status) => Err(status),
    }
}

/// Makes the lines of the split, and appends them to those of the own chain.
fn with_split_lines<F: Shelf>(
    alloc: Global,
    mut lines: Vec<u8>,
    config: &Config,
    genesis: State,
    first_maker: Maker,
    second_maker: Maker,
    shelf: &mut F,
) -> Result<Vec<u8>, Status>
    requires genesis { IsGenesis config.now genesis }
    requires none { genesis_clash genesis ≡ None }
    requires new { (first_maker ≡ new_maker first_maker.plan) × (second_maker ≡ new_maker second_maker.plan) }
    ensures told { BehindTold (λ lines. lines.items) result lines.items (split_lines genesis (genesis_store config.now genesis) (events_to_come 0 (to_come first_maker)) (events_to_come 0 (to_come second_maker))) }
    ensures still { F.told shelf.new ≡ F.told shelf.old }
    ensures outside { FollowsOutside [] result (F.told shelf.old) (F.told shelf.new) }
{
    match split_lines(alloc, config, genesis, first_maker, second_maker, shelf) {
        Ok(more) => match lines.extend_from_slice(&more) {
            Ok(()) => Ok(lines),
            Err(_) => Err(Status::NoMemory),
        },
        Err(status) => Err(status),
    }
}

/// Makes all lines: those of the own chain, and once it came to its end those of the split.
fn all_lines<F: Shelf, O: Sink>(
    alloc: Global,
    makers: Makers,
    config: &Config,
    genesis: State,
    shelf: &mut F,
    out: &O,
) -> Result<Vec<u8>, Status>
    requires genesis { IsGenesis config.now genesis }
    requires makers { AreMakers makers.own.plan makers }
    requires keeps { Keeps (genesis_store config.now genesis) makers.own }
    ensures told { DrillTold (λ lines. lines.items) result (drill_store (genesis_clash genesis) genesis (genesis_store config.now genesis) (chains_to_come makers)) }
    ensures still { F.told shelf.new ≡ F.told shelf.old }
    ensures outside { FollowsOutside [] result (F.told shelf.old) (F.told shelf.new) }
{
    let Makers { own, first, second } = makers;
    match own_lines(alloc, own, config, &genesis, shelf, out) {
        Ok(lines) => with_split_lines(alloc, lines, config, genesis, first, second, shelf),
        Err(status) => Err(status),
    }
}

/// Makes the chains of new makers, hands them to stores, and writes what became of them.
fn drill_from<F: Shelf, O: Sink>(
    alloc: Global,
    makers: Makers,
    config: &Config,
    genesis: State,
    shelf: &mut F,
    out: &mut O,
) -> Status
    requires genesis { IsGenesis config.now genesis }
    requires makers { AreMakers makers.own.plan makers }
    requires keeps { Keeps (genesis_store config.now genesis) makers.own }
    ensures over { Finished result (drill_store (genesis_clash genesis) genesis (genesis_store config.now genesis) (chains_to_come makers))
        (O.told out.old).taken (O.told out.new).taken }
    ensures still { F.told shelf.new ≡ F.told shelf.old }
    ensures command { result ≢ Status.Words }
    ensures outside { OutsideKeeps [] (Some result) (F.told shelf.old) (F.told shelf.new) (O.told out.old) (O.told out.new) }
{
    let lines = match all_lines(alloc, makers, config, genesis, shelf, &*out) {
        Ok(lines) => lines,
        Err(status) => return status,
    };
    match write_all(out, &lines) {
        Ok(()) => Status::Done,
        Err(trouble) => unwritten(trouble),
    }
}

/// Makes the chains of a number under this configuration, unless it would eject the made validators.
fn drill_config<F: Shelf, O: Sink>(
    alloc: Global,
    number: u64,
    config: &Config,
    shelf: &mut F,
    out: &mut O,
) -> Status
    ensures over { Finished result (drill_config number (Ok config.now)) (O.told out.old).taken (O.told out.new).taken }
    ensures still { F.told shelf.new ≡ F.told shelf.old }
    ensures command { result ≢ Status.Words }
    ensures outside { OutsideKeeps [] (Some result) (F.told shelf.old) (F.told shelf.new) (O.told out.old) (O.told out.new) }
{
    if config.ejection_balance() >= FULL_BALANCE {
        return Status::Config(ConfigFault::OutOfRange(Key::EjectionBalance));
    }
    let _preset = config.preset();
    let makers = match makers_of(alloc, number, config) {
        Ok(makers) => makers,
        Err(_) => return Status::NoMemory,
    };
    let genesis = match makers.own.genesis(alloc) {
        Ok(genesis) => genesis,
        Err(_) => return Status::NoMemory,
    };
    drill_from(alloc, makers, config, genesis, shelf, out)
}

/// Reads the configuration, makes the chains, and writes what became of them.
#[inline(never)]
pub fn drill<F: Shelf, O: Sink>(
    alloc: Global,
    words: &DrillWords<'_>,
    shelf: &mut F,
    out: &mut O,
) -> Status
    requires { length (F.told shelf.old).files < 2 ^ 32 }
    ensures answers { Replayed (λ contents. drill_run words.now.number (contents words.now.config.now)) (λ contents opened. whole_of result (drill_run words.now.number (contents words.now.config.now)))
        (words.now.config.now ∷ []) result (F.told shelf.old) (F.told shelf.new) (O.told out.old).taken (O.told out.new).taken }
    ensures command { result ≢ Status.Words }
    ensures outside { OutsideKeeps (words.now.config.now ∷ []) (Some result)
        (F.told shelf.old) (F.told shelf.new) (O.told out.old) (O.told out.new) }
{
    let bytes = match read_named(alloc, shelf, words.config, MAX_CONFIG_LEN + 1) {
        Ok(bytes) => bytes,
        Err(trouble) => return unread(trouble),
    };
    match Config::read(&bytes) {
        Ok(config) => drill_config(alloc, words.number, &config, shelf, out),
        Err(fault) => Status::Config(fault),
    }
}
