//! The command `nodes`: the two chains of a maker's split are made from a number, nodes with a store each are delivered their events,
//! some late and some twice, and a line for each node and for each pair of nodes says what became of it. All lines are written at the
//! end.

ghost use Rattle.std.specs.Prelude.{◌≡◌, ◌≢◌, ◌<◌, ◌≤◌, ◌^◌, ◌∷◌, [], All, flat_map, length, map, true, None, Some, Ok, IfOk, IfErr};
ghost use Rattle.std.specs.List.{range_with_len};
ghost use Rattle.record_file.specs.Record.{is_kind, most_events};
ghost use Rattle.spec_fork_choice.specs.GetForkchoiceStore.{genesis_store};
ghost use Rattle.spec_fork_choice.specs.OnEvent.{genesis_clash};
ghost use Rattle.spec_drill.specs.AsEvents.{events_to_come};
ghost use Rattle.spec_drill.specs.Maker.{new_maker, to_come};
ghost use Rattle.spec_replay.specs.Nodes.{all_of, all_or_end, chain_of_node, node_line, node_of, nodes_config, nodes_run, nodes_store, pair_of, pairs_of};
ghost use Rattle.one_chain.specs.Answers.{OutsideKeeps, Replayed, whole_of};
ghost use Rattle.beacon_node.specs.inside.Drilled.{DrillTold, Finished};
ghost use Rattle.beacon_node.specs.inside.Following.{IsInside};
ghost use Rattle.beacon_node.specs.inside.Histories.{IsGenesis, OpeningEnds};
ghost use Rattle.beacon_node.specs.inside.Nodes.{HasRun, IsSplit, LinesTold, NodeEnds, behind_ones, node_given, plain_node};

use crate::drill::FULL_BALANCE;
use crate::histories::store_at;
use crate::made_events::made_events;
use crate::node::{Delivered, delivered_node};
use crate::node_pairs::pair_lines;
use bc_outside::{Shelf, Sink, write_all};
use bc_preset::{Config, ConfigFault, Key, MAX_CONFIG_LEN};
use bc_words::NoMemory;
use beacon_state::State;
use chain_maker::Maker;
use command_arguments::NodesWords;
use one_chain::{Status, read_named, unread, unwritten};
use record_file::Event;
use std::alloc::Global;

/// The makers of the two chains of a number's split, and the genesis of both.
#[derive(Drop)]
pub struct Split {
    /// Of the first chain.
    pub first: Maker,
    /// Of the second one.
    pub second: Maker,
    /// The genesis state.
    pub genesis: State,
}

/// The split of a maker's plan.
fn split_by(alloc: Global, maker: &Maker) -> Result<Split, NoMemory>
    ensures { IfOk result (λ split. IsSplit maker.now.plan split) }
{
    let first = maker.split(alloc, 0)?;
    let second = maker.split(alloc, 1)?;
    let genesis = maker.genesis(alloc)?;
    Ok(Split {
        first,
        second,
        genesis,
    })
}

/// The split of a number under a configuration.
fn split_of(alloc: Global, number: u64, config: &Config) -> Result<Split, NoMemory>
    requires { config.now.ejection_balance < 32_000_000_000 }
    ensures { IfOk result (λ split. IsSplit (record { config = config.now; number = number; which = None }) split) }
{
    let maker = Maker::new(alloc, number, config)?;
    split_by(alloc, &maker)
}

/// The chain that a node is delivered: the first where its number is even, and else the second.
#[tactic(auto, unfolding(spec_replay::specs::Nodes::chain_of_node))]
fn chain_of<'e>(node: u8, first: &'e [Event], second: &'e [Event]) -> &'e [Event]
    ensures { result.now ≡ chain_of_node node first.now second.now }
{
    if node % 2 == 0 { first } else { second }
}

/// All nodes, one after the other.
fn all_nodes<'a>(
    alloc: Global,
    config: &Config,
    genesis: &'a State,
    words: &NodesWords<'_>,
    first: &[Event],
    second: &[Event],
) -> Result<Vec<Delivered<'a>>, Status>
    requires genesis { IsGenesis config.now genesis.now }
    requires none { genesis_clash genesis.now ≡ None }
    requires few { (length first.now ≤ most_events) × (length second.now ≤ most_events) }
    requires kinds { All (λ event. is_kind event.kind ≡ true) first.now × All (λ event. is_kind event.kind ≡ true) second.now }
    ensures nodes { IfOk result (λ nodes. all_or_end (map (node_of words.now.number (genesis_store config.now genesis.now) first.now second.now) (range_with_len 0 words.now.count))
        ≡ Ok (map (node_given words.now.number first.now second.now) nodes.items)) }
    ensures lines { IfOk result (λ nodes. flat_map (λ given. given.line.items) nodes.items ≡ flat_map (node_line (genesis_store config.now genesis.now)) (map (node_given words.now.number first.now second.now) nodes.items)) }
    ensures each { IfOk result (λ nodes. All (λ given. HasRun config.now genesis.now given.node) nodes.items) }
    ensures over { IfErr result (λ status. NodeEnds status (all_or_end (map (node_of words.now.number (genesis_store config.now genesis.now) first.now second.now) (range_with_len 0 words.now.count)))) }
    ensures inside { IfErr result (λ status. IsInside status) }
{
    let mut nodes = Vec::new(alloc);
    for node in 0..words.count as u8 {
        let events = chain_of(node, first, second);
        let given = match delivered_node(alloc, config, genesis, words.number, node, events) {
            Ok(given) => given,
            Err(status) => return Err(status),
        };
        match nodes.push(given) {
            Ok(()) => {}
            Err(_) => return Err(Status::NoMemory),
        }
    }
    Ok(nodes)
}

/// The lines of all nodes, and then those of their pairs.
fn lines_of(
    alloc: Global,
    config: &Config,
    genesis: &State,
    nodes: &[Delivered<'_>],
) -> Result<Vec<u8>, Status>
    requires genesis { IsGenesis config.now genesis.now }
    requires none { genesis_clash genesis.now ≡ None }
    requires each { All (λ given. HasRun config.now genesis.now given.node) nodes.now }
    ensures told { LinesTold (λ lines. lines.items) result (behind_ones (map (λ given. given.line.items) nodes.now) (all_or_end (map (pair_of genesis.now) (pairs_of (map (λ given. plain_node [] given.node) nodes.now))))) }
    ensures inside { IfErr result (λ status. IsInside status) }
{
    let mut lines = Vec::new(alloc);
    for given in nodes {
        match lines.extend_from_slice(&given.line) {
            Ok(()) => {}
            Err(_) => return Err(Status::NoMemory),
        }
    }
    match pair_lines(alloc, config, genesis, nodes) {
        Ok(pairs) => match lines.extend_from_slice(&pairs) {
            Ok(()) => Ok(lines),
            Err(_) => Err(Status::NoMemory),
        },
        Err(status) => Err(status),
    }
}

/// Opens a store at genesis, to see that its nodes can.
fn opens(alloc: Global, config: &Config, genesis: &State) -> Result<(), Status>
    requires { IsGenesis config.now genesis.now }
    ensures opened { IfOk result (λ _. genesis_clash genesis.now ≡ None) }
    ensures over { IfErr result (λ status. OpeningEnds status (genesis_clash genesis.now)) }
{
    match store_at(alloc, config, genesis) {
        Ok(_store) => Ok(()),
        Err(status) => Err(status),
    }
}

/// Makes all lines of nodes that are delivered these events.
fn nodes_lines(
    alloc: Global,
    config: &Config,
    genesis: &State,
    words: &NodesWords<'_>,
    first: &[Event],
    second: &[Event],
) -> Result<Vec<u8>, Status>
    requires genesis { IsGenesis config.now genesis.now }
    requires none { genesis_clash genesis.now ≡ None }
    requires few { (length first.now ≤ most_events) × (length second.now ≤ most_events) }
    requires kinds { All (λ event. is_kind event.kind ≡ true) first.now × All (λ event. is_kind event.kind ≡ true) second.now }
    ensures told { DrillTold (λ lines. lines.items) result (nodes_store (genesis_clash genesis.now) words.now.number words.now.count genesis.now (genesis_store config.now genesis.now) (all_of first.now) (all_of second.now)) }
    ensures inside { IfErr result (λ status. IsInside status) }
{
    match all_nodes(alloc, config, genesis, words, first, second) {
        Ok(nodes) => lines_of(alloc, config, genesis, &nodes),
        Err(status) => Err(status),
    }
}

/// Makes the events of both chains, which the nodes share, and then all lines.
fn chains_lines(
    alloc: Global,
    config: &Config,
    genesis: &State,
    words: &NodesWords<'_>,
    first: Maker,
    second: Maker,
) -> Result<Vec<u8>, Status>
    requires genesis { IsGenesis config.now genesis.now }
    requires none { genesis_clash genesis.now ≡ None }
    requires new { (first ≡ new_maker first.plan) × (second ≡ new_maker second.plan) }
    ensures told { DrillTold (λ lines. lines.items) result (nodes_store (genesis_clash genesis.now) words.now.number words.now.count genesis.now (genesis_store config.now genesis.now)
        (events_to_come 0 (to_come first)) (events_to_come 0 (to_come second))) }
    ensures inside { IfErr result (λ status. IsInside status) }
{
    let first = match made_events(alloc, 0, first) {
        Ok(events) => events,
        Err(status) => return Err(status),
    };
    match made_events(alloc, 1, second) {
        Ok(second) => nodes_lines(alloc, config, genesis, words, &first, &second),
        Err(status) => Err(status),
    }
}

/// Makes all lines, where a store opens at genesis.
fn all_lines(
    alloc: Global,
    config: &Config,
    words: &NodesWords<'_>,
    split: Split,
) -> Result<Vec<u8>, Status>
    requires genesis { IsGenesis config.now split.genesis }
    requires new { (split.first ≡ new_maker split.first.plan) × (split.second ≡ new_maker split.second.plan) }
    ensures told { DrillTold (λ lines. lines.items) result (nodes_store (genesis_clash split.genesis) words.now.number words.now.count split.genesis (genesis_store config.now split.genesis)
        (events_to_come 0 (to_come split.first)) (events_to_come 0 (to_come split.second))) }
    ensures inside { IfErr result (λ status. IsInside status) }
{
    let Split {
        first,
        second,
        genesis,
    } = split;
    match opens(alloc, config, &genesis) {
        Ok(()) => chains_lines(alloc, config, &genesis, words, first, second),
        Err(status) => Err(status),
    }
}

/// Makes the chains of a number under this configuration, unless it would eject the made validators, and writes what became of the nodes.
fn nodes_config<F: Shelf, O: Sink>(
    alloc: Global,
    words: &NodesWords<'_>,
    config: &Config,
    shelf: &F,
    out: &mut O,
) -> Status
    ensures over { Finished result (nodes_config words.now.number words.now.count (Ok config.now)) (O.told out.old).taken (O.told out.new).taken }
    ensures command { result ≢ Status.Words }
    ensures outside { OutsideKeeps [] (Some result) (F.told shelf.now) (F.told shelf.now) (O.told out.old) (O.told out.new) }
{
    if config.ejection_balance() >= FULL_BALANCE {
        return Status::Config(ConfigFault::OutOfRange(Key::EjectionBalance));
    }
    let _preset = config.preset();
    let split = match split_of(alloc, words.number, config) {
        Ok(split) => split,
        Err(_) => return Status::NoMemory,
    };
    let lines = match all_lines(alloc, config, words, split) {
        Ok(lines) => lines,
        Err(status) => return status,
    };
    match write_all(out, &lines) {
        Ok(()) => Status::Done,
        Err(trouble) => unwritten(trouble),
    }
}

/// Reads the configuration, makes the chains, delivers their events to the nodes, and writes what became of them.
#[inline(never)]
pub fn nodes<F: Shelf, O: Sink>(
    alloc: Global,
    words: &NodesWords<'_>,
    shelf: &mut F,
    out: &mut O,
) -> Status
    requires { length (F.told shelf.old).files < 2 ^ 32 }
    ensures answers { Replayed (λ contents. nodes_run words.now.number words.now.count (contents words.now.config.now))
        (λ contents opened. whole_of result (nodes_run words.now.number words.now.count (contents words.now.config.now)))
        (words.now.config.now ∷ []) result (F.told shelf.old) (F.told shelf.new) (O.told out.old).taken (O.told out.new).taken }
    ensures command { result ≢ Status.Words }
    ensures outside { OutsideKeeps (words.now.config.now ∷ []) (Some result)
        (F.told shelf.old) (F.told shelf.new) (O.told out.old) (O.told out.new) }
{
    let bytes = match read_named(alloc, shelf, words.config, MAX_CONFIG_LEN + 1) {
        Ok(bytes) => bytes,
        Err(trouble) => return unread(trouble),
    };
    match Config::read(&bytes) {
        Ok(config) => nodes_config(alloc, words, &config, &*shelf, out),
        Err(fault) => Status::Config(fault),
    }
}
