//! A node: a store of its own, which is delivered events, and what a book wants of the blocks that it accepts.

ghost use Rattle.std.specs.Prelude.{◌≡◌, ◌<◌, ◌≤◌, ◌+◌, ◌-◌, ◌^◌, [], ◌++◌, All, length, true, Ok, IfOk, IfErr, None};
ghost use Rattle.record_file.specs.Record.{is_kind, most_events};
ghost use Rattle.spec_fork_choice.specs.GetForkchoiceStore.{genesis_store};
ghost use Rattle.spec_fork_choice.specs.OnEvent.{block, genesis_clash};
ghost use Rattle.spec_forensics.specs.Histories.{with_event};
ghost use Rattle.node_drill.specs.Deliveries.{delivered};
ghost use Rattle.spec_replay.specs.Forensic.{follow};
ghost use Rattle.spec_replay.specs.Lines.{accepted_text, event_line, refusal_text};
ghost use Rattle.spec_replay.specs.Nodes.{all_of, node_line};
ghost use Rattle.fork_store.specs.Events.{accepted_of};
ghost use Rattle.safety_law.specs.Follows.{IsAdded};
ghost use Rattle.beacon_node.specs.inside.Histories.{IsGenesis, IsOpened, OpeningEnds};
ghost use Rattle.beacon_node.specs.inside.Following.{IsInside};
ghost use Rattle.one_chain.specs.inside.Progress.{outcome_of};
ghost use Rattle.beacon_node.specs.inside.Nodes.{AreKept, CanKeep, HasRun, IsNode, NodeEnds, OneTaken, StopsAt, history_in, plain_node};

use crate::follow::are_bytes;
use crate::histories::store_at;
use crate::node_lines::{digest_of, node_line};
use bc_preset::Config;
use bc_words::{NoMemory, Refusal, StoreStop};
use beacon_state::State;
use beacon_types::BeaconBlock;
use epoch_visitor::Watched;
use forensics::Watch;
use fork_store::{Accepted, BlockIn, Store};
use hash_tree::Root;
use node_drill::deliver;
use one_chain::{Status, accepted_line, refused_line};
use record_file::Event;
use std::alloc::Global;
use std::snapshot::Snapshot;

/// A block that a node's store accepted, and what a book wants of it beside the block itself, which the store keeps.
#[derive(Drop)]
pub struct NodeBlock<'a> {
    /// The number of the event that brought it.
    pub event: u32,
    /// Its root.
    pub root: Root,
    /// The block, for clauses alone.
    pub block: Snapshot<BeaconBlock>,
    /// The state behind it, shared with the store.
    pub state: State,
    /// The watch that was shown the states entered on the way.
    pub watch: Watch<'a>,
}

/// A node.
#[derive(Drop)]
pub struct Node<'a> {
    /// Its number.
    pub number: u8,
    /// Its store.
    pub store: Store,
    /// The blocks that the store accepted, in order. One that was accepted again stands in it again.
    pub blocks: Vec<NodeBlock<'a>>,
    /// How many events the store accepted.
    pub accepted: u32,
    /// The lines that a run of a record of its events writes.
    pub lines: Vec<u8>,
}

impl<'a> Node<'a> {
    /// A node that was delivered nothing.
    fn new(
        alloc: Global,
        config: &Config,
        genesis: &'a State,
        number: u8,
    ) -> Result<Node<'a>, Status>
        requires { IsGenesis config.now genesis.now }
        ensures opened { IfOk result (λ node. IsOpened config.now genesis.now node.store.plain) }
        ensures number { IfOk result (λ node. node.number ≡ number) }
        ensures blocks { IfOk result (λ node. node.blocks.items ≡ []) }
        ensures accepted { IfOk result (λ node. node.accepted ≡ 0) }
        ensures lines { IfOk result (λ node. node.lines.items ≡ []) }
        ensures is { IfOk result (λ node. IsNode config.now genesis.now node) }
        ensures over { IfErr result (λ status. OpeningEnds status (genesis_clash genesis.now)) }
    {
        let store = store_at(alloc, config, genesis)?;
        Ok(Node {
            number,
            store,
            blocks: Vec::new(alloc),
            accepted: 0,
            lines: Vec::new(alloc),
        })
    }

    /// Keeps what a book wants of a block that the store accepted.
    fn keep(
        &mut self,
        genesis: &'a State,
        number: u32,
        given: &BlockIn,
        watch: Watch<'a>,
    ) -> Result<(), NoMemory>
        requires added { IsAdded self.old.store.plain.config genesis.now (history_in self.old.blocks.items) self.old.store.plain number given.now }
        requires watched { watch ≡ record { genesis = genesis.now; entered = given.now.entered } }
        requires kept { AreKept genesis.now self.old.blocks.items }
        ensures number { self.new.number ≡ self.old.number }
        ensures store { self.new.store.plain ≡ self.old.store.plain }
        ensures accepted { self.new.accepted ≡ self.old.accepted }
        ensures lines { self.new.lines.items ≡ self.old.lines.items }
        ensures history { IfOk result (λ _. history_in self.new.blocks.items ≡ with_event number (history_in self.old.blocks.items) self.old.store.plain (block given.now)) }
        ensures kept { IfOk result (λ _. AreKept genesis.now self.new.blocks.items) }
    {
        let state = match self.store.state(given.root())? {
            Some(state) => state,
            None => unreachable!(),
        };
        let Some(block) = self.store.block(given.root()) else {
            unreachable!();
        };
        let block = Snapshot::of(block);
        self.blocks.push(NodeBlock {
            event: number,
            root: given.root(),
            block,
            state,
            watch,
        })?;
        Ok(())
    }

    /// Writes the line of an event that the store accepted, counts it, and keeps what a book wants of its block.
    fn accept(
        &mut self,
        alloc: Global,
        genesis: &'a State,
        number: u32,
        kind: u8,
        given: Accepted,
        watch: Watch<'a>,
    ) -> Result<(), NoMemory>
        requires few { self.old.accepted < 2 ^ 32 - 1 }
        requires can { CanKeep genesis.now self.old.blocks.items self.old.store.plain number watch (accepted_of given) }
        requires kept { AreKept genesis.now self.old.blocks.items }
        ensures number { self.new.number ≡ self.old.number }
        ensures store { self.new.store.plain ≡ self.old.store.plain }
        ensures accepted { self.new.accepted ≡ self.old.accepted + 1 }
        ensures lines { IfOk result (λ _. self.new.lines.items ≡ self.old.lines.items ++ event_line number kind (accepted_text (accepted_of given)) self.old.store.plain) }
        ensures history { IfOk result (λ _. history_in self.new.blocks.items ≡ with_event number (history_in self.old.blocks.items) self.old.store.plain (accepted_of given)) }
        ensures kept { IfOk result (λ _. AreKept genesis.now self.new.blocks.items) }
    {
        self.accepted += 1;
        let line = accepted_line(alloc, u64::from(number), kind, &given, &mut self.store)?;
        self.lines.extend_from_slice(&line)?;
        match given {
            Accepted::Block(block) => self.keep(genesis, number, &block, watch),
            Accepted::Other => Ok(()),
        }
    }

    /// Writes the line of an event that the store refused.
    fn refuse(
        &mut self,
        alloc: Global,
        number: u32,
        kind: u8,
        refusal: Refusal,
    ) -> Result<(), NoMemory>
        ensures number { self.new.number ≡ self.old.number }
        ensures store { self.new.store.plain ≡ self.old.store.plain }
        ensures blocks { self.new.blocks.items ≡ self.old.blocks.items }
        ensures accepted { self.new.accepted ≡ self.old.accepted }
        ensures lines { IfOk result (λ _. self.new.lines.items ≡ self.old.lines.items ++ event_line number kind (refusal_text refusal) self.old.store.plain) }
    {
        let line = refused_line(alloc, u64::from(number), kind, refusal, &mut self.store)?;
        self.lines.extend_from_slice(&line)?;
        Ok(())
    }

    /// Hands an event to the store, behind so many. The status where it ends the run.
    #[tactic(auto, using(spec_fork_choice::proofs::Grows::event_keeps_one_more, record_file::proofs::Supplying::kind_first, record_file::proofs::Supplying::kind_last))]
    fn take(
        &mut self,
        alloc: Global,
        genesis: &'a State,
        before: u32,
        event: &Event,
    ) -> Result<(), Status>
        requires few { length self.old.store.plain.blocks < 2 ^ 32 - 1 }
        requires low { before < 2 ^ 32 - 1 }
        requires accepted { self.old.accepted ≤ before }
        requires kind { is_kind event.now.kind ≡ true }
        requires is { IsNode self.old.store.plain.config genesis.now self.old }
        ensures few { IfOk result (λ _. length self.new.store.plain.blocks ≤ length self.old.store.plain.blocks + 1) }
        ensures accepted { IfOk result (λ _. self.new.accepted ≤ before + 1) }
        ensures is { IfOk result (λ _. IsNode self.old.store.plain.config genesis.now self.new) }
        ensures taken { IfOk result (λ _. OneTaken before event.now self.old self.new) }
        ensures over { IfErr result (λ status. StopsAt status self.old.number (before + 1) (outcome_of self.old.store.plain event.now)) }
    {
        are_bytes(event.payload.as_slice());
        let number = before + 1;
        let mut watched = Watched::new(Watch::new(genesis));
        match self
            .store
            .visit_event(alloc, event.kind, event.payload.as_slice(), &mut watched)
        {
            Ok(given) => {
                match self.accept(alloc, genesis, number, event.kind, given, watched.visitor) {
                    Ok(()) => Ok(()),
                    Err(NoMemory) => Err(Status::NoMemory),
                }
            }
            Err(StoreStop::Refused(refusal)) => {
                match self.refuse(alloc, number, event.kind, refusal) {
                    Ok(()) => Ok(()),
                    Err(NoMemory) => Err(Status::NoMemory),
                }
            }
            Err(StoreStop::Limit(limit)) => Err(Status::Limit {
                which: self.number,
                event: number,
                limit,
            }),
            Err(StoreStop::Clash(kind)) => Err(Status::Clash {
                which: self.number,
                event: number,
                kind,
                kept_which: self.number,
            }),
            Err(StoreStop::NoMemory) => Err(Status::NoMemory),
        }
    }
}

/// A node with its line.
#[derive(Drop)]
pub struct Delivered<'a> {
    /// The node.
    pub node: Node<'a>,
    /// Its line.
    pub line: Vec<u8>,
}

/// The node of a number, once it was delivered what the schedule of a number gives it of these events.
pub fn delivered_node<'a>(
    alloc: Global,
    config: &Config,
    genesis: &'a State,
    number: u64,
    node: u8,
    events: &[Event],
) -> Result<Delivered<'a>, Status>
    requires genesis { IsGenesis config.now genesis.now }
    requires none { genesis_clash genesis.now ≡ None }
    requires node { node < 16 }
    requires few { length events.now ≤ most_events }
    requires kinds { All (λ event. is_kind event.kind ≡ true) events.now }
    ensures followed { IfOk result (λ given. follow node [] (genesis_store config.now genesis.now) (all_of (delivered number node events.now)) ≡ Ok (plain_node (delivered number node events.now) given.node).followed) }
    ensures line { IfOk result (λ given. given.line.items ≡ node_line (genesis_store config.now genesis.now) (plain_node (delivered number node events.now) given.node)) }
    ensures has_run { IfOk result (λ given. HasRun config.now genesis.now given.node) }
    ensures number { IfOk result (λ given. given.node.number ≡ node) }
    ensures over { IfErr result (λ status. NodeEnds status (follow node [] (genesis_store config.now genesis.now) (all_of (delivered number node events.now)))) }
    ensures inside { IfErr result (λ status. IsInside status) }
{
    let places = match deliver(alloc, number, u64::from(node), events) {
        Ok(places) => places,
        Err(NoMemory) => return Err(Status::NoMemory),
    };
    let mut given = match Node::new(alloc, config, genesis, node) {
        Ok(given) => given,
        Err(status) => return Err(status),
    };
    for (index, place) in places.iter().enumerate() {
        match given.take(alloc, genesis, index as u32, &events[*place as usize]) {
            Ok(()) => {}
            Err(status) => return Err(status),
        }
    }
    let digest = digest_of(&given.lines);
    let accepted = u64::from(given.accepted);
    let events = places.len() as u64;
    match node_line(
        alloc,
        u64::from(node),
        events,
        accepted,
        &mut given.store,
        &digest,
    ) {
        Ok(line) => Ok(Delivered { node: given, line }),
        Err(NoMemory) => Err(Status::NoMemory),
    }
}
