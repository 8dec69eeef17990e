//! Pairs of nodes: a book takes the blocks that both stores accepted, with their states and what was seen on the way to them, and a line
//! says what it finds. No transition is run again.

ghost use Rattle.std.specs.Prelude.{◌≡◌, ◌<◌, ◌-◌, ◌^◌, [], All, length, map, None, Ok, IfOk, IfErr};
ghost use Rattle.spec_fork_choice.specs.OnEvent.{genesis_clash};
ghost use Rattle.spec_forensics.specs.Clash.{first_accepted};
ghost use Rattle.spec_replay.specs.Nodes.{all_or_end, first_clash, pair_of, pairs_of};
ghost use Rattle.forensics.specs.Books.{begun, history_of};
ghost use Rattle.beacon_node.specs.inside.Following.{IsInside};
ghost use Rattle.beacon_node.specs.inside.Histories.{HasFound, IsGenesis};
ghost use Rattle.beacon_node.specs.inside.Nodes.{HasRun, IsNode, LinesTold, NodeEnds, history_in, plain_node};

use crate::histories::{Findings, book_at, find};
use crate::node::{Delivered, Node};
use crate::node_lines::pair_text;
use bc_preset::Config;
use bc_words::{ClashKind, NoMemory};
use beacon_state::State;
use forensics::VoteBook;
use one_chain::Status;
use std::alloc::Global;

/// The first event of the second node whose block has the root of another block of the first one, with that block's place.
fn first_clash(
    config: &Config,
    genesis: &State,
    first: &Node<'_>,
    second: &Node<'_>,
) -> Option<(u32, u32)>
    requires first { HasRun config.now genesis.now first.now }
    requires second { HasRun config.now genesis.now second.now }
    ensures { result ≡ first_clash (first_accepted genesis.now (history_in first.now.blocks.items)) (history_in second.now.blocks.items) }
{
    for added in &second.blocks {
        let Some(block) = second.store.block(added.root) else {
            unreachable!();
        };
        if let Some(place) = first.store.other_block(added.root, block) {
            return Some((added.event, place));
        }
    }
    None
}

/// Adds the blocks of a node to the book, as its history 0 or 1.
fn add_blocks(
    alloc: Global,
    which: u8,
    node: &Node<'_>,
    book: &mut VoteBook,
) -> Result<(), NoMemory>
    requires which { which < 2 }
    requires is { IsNode book.old.config book.old.genesis node.now }
    requires begun { history_of book.old which ≡ [] }
    requires order { which ≡ 0 → book.old.second ≡ [] }
    requires apart { which ≡ 1 → first_clash (first_accepted book.old.genesis book.old.first) (history_in node.now.blocks.items) ≡ None }
    ensures added { IfOk result (λ _. history_of book.new which ≡ history_in node.now.blocks.items) }
    ensures other { history_of book.new (1 - which) ≡ history_of book.old (1 - which) }
    ensures config { book.new.config ≡ book.old.config }
    ensures genesis { book.new.genesis ≡ book.old.genesis }
{
    for added in &node.blocks {
        let Some(block) = node.store.block(added.root) else {
            unreachable!();
        };
        book.add(
            alloc,
            which,
            added.event,
            block,
            added.root,
            &added.state,
            &added.watch,
        )?;
    }
    Ok(())
}

/// What a book without blocks finds once it took those of both nodes.
fn found_in(
    alloc: Global,
    first: &Node<'_>,
    second: &Node<'_>,
    book: &mut VoteBook,
) -> Result<Findings, NoMemory>
    requires begun { book.old ≡ begun book.old.config book.old.genesis }
    requires first { IsNode book.old.config book.old.genesis first.now }
    requires second { IsNode book.old.config book.old.genesis second.now }
    requires apart { first_clash (first_accepted book.old.genesis (history_in first.now.blocks.items)) (history_in second.now.blocks.items) ≡ None }
    ensures { IfOk result (λ findings. HasFound book.old.genesis (history_in first.now.blocks.items) (history_in second.now.blocks.items) first.now.store.plain second.now.store.plain findings) }
{
    add_blocks(alloc, 0, first, book)?;
    add_blocks(alloc, 1, second, book)?;
    find(alloc, &first.store, &second.store, book)
}

/// What a book of both histories finds.
fn found(
    alloc: Global,
    config: &Config,
    genesis: &State,
    first: &Node<'_>,
    second: &Node<'_>,
) -> Result<Findings, Status>
    requires genesis { IsGenesis config.now genesis.now }
    requires none { genesis_clash genesis.now ≡ None }
    requires first { IsNode config.now genesis.now first.now }
    requires second { IsNode config.now genesis.now second.now }
    requires apart { first_clash (first_accepted genesis.now (history_in first.now.blocks.items)) (history_in second.now.blocks.items) ≡ None }
    ensures found { IfOk result (λ findings. HasFound genesis.now (history_in first.now.blocks.items) (history_in second.now.blocks.items) first.now.store.plain second.now.store.plain findings) }
    ensures over { IfErr result (λ status. status ≡ Status.NoMemory) }
{
    match book_at(alloc, config, genesis) {
        Ok(mut book) => match found_in(alloc, first, second, &mut book) {
            Ok(findings) => Ok(findings),
            Err(NoMemory) => Err(Status::NoMemory),
        },
        Err(status) => Err(status),
    }
}

/// The line of a pair of nodes of which no block of the second clashes with one of the first.
fn found_line(
    alloc: Global,
    config: &Config,
    genesis: &State,
    first: &Node<'_>,
    second: &Node<'_>,
) -> Result<Vec<u8>, Status>
    requires genesis { IsGenesis config.now genesis.now }
    requires none { genesis_clash genesis.now ≡ None }
    requires first { IsNode config.now genesis.now first.now }
    requires second { IsNode config.now genesis.now second.now }
    requires apart { first_clash (first_accepted genesis.now (history_in first.now.blocks.items)) (history_in second.now.blocks.items) ≡ None }
    ensures line { IfOk result (λ line. pair_of genesis.now (plain_node [] first.now, plain_node [] second.now) ≡ Ok line.items) }
    ensures over { IfErr result (λ status. status ≡ Status.NoMemory) }
{
    match found(alloc, config, genesis, first, second) {
        Ok(findings) => match pair_text(alloc, first.number, second.number, &findings) {
            Ok(line) => Ok(line),
            Err(_) => Err(Status::NoMemory),
        },
        Err(status) => Err(status),
    }
}

/// The line of a pair of nodes, unless a block of the second clashes with one of the first.
fn pair_line(
    alloc: Global,
    config: &Config,
    genesis: &State,
    first: &Node<'_>,
    second: &Node<'_>,
) -> Result<Vec<u8>, Status>
    requires genesis { IsGenesis config.now genesis.now }
    requires none { genesis_clash genesis.now ≡ None }
    requires first { HasRun config.now genesis.now first.now }
    requires second { HasRun config.now genesis.now second.now }
    ensures line { IfOk result (λ line. pair_of genesis.now (plain_node [] first.now, plain_node [] second.now) ≡ Ok line.items) }
    ensures over { IfErr result (λ status. NodeEnds status (pair_of genesis.now (plain_node [] first.now, plain_node [] second.now))) }
    ensures inside { IfErr result (λ status. IsInside status) }
{
    match first_clash(config, genesis, first, second) {
        Some((event, place)) => Err(Status::Clash {
            which: second.number,
            event,
            kind: ClashKind::Kept(place),
            kept_which: first.number,
        }),
        None => found_line(alloc, config, genesis, first, second),
    }
}

/// The lines of a node's pairs with these others.
fn lines_with(
    alloc: Global,
    config: &Config,
    genesis: &State,
    first: &Node<'_>,
    others: &[Delivered<'_>],
) -> Result<Vec<u8>, Status>
    requires genesis { IsGenesis config.now genesis.now }
    requires none { genesis_clash genesis.now ≡ None }
    requires first { HasRun config.now genesis.now first.now }
    requires each { All (λ given. HasRun config.now genesis.now given.node) others.now }
    ensures told { LinesTold (λ lines. lines.items) result (all_or_end (map (λ given. pair_of genesis.now (plain_node [] first.now, plain_node [] given.node)) others.now)) }
    ensures inside { IfErr result (λ status. IsInside status) }
{
    let mut lines = Vec::new(alloc);
    for second in others {
        let line = match pair_line(alloc, config, genesis, first, &second.node) {
            Ok(line) => line,
            Err(status) => return Err(status),
        };
        match lines.extend_from_slice(&line) {
            Ok(()) => {}
            Err(_) => return Err(Status::NoMemory),
        }
    }
    Ok(lines)
}

/// The lines of all pairs of nodes, the earlier node of a pair first.
pub fn pair_lines(
    alloc: Global,
    config: &Config,
    genesis: &State,
    nodes: &[Delivered<'_>],
) -> Result<Vec<u8>, Status>
    requires genesis { IsGenesis config.now genesis.now }
    requires none { genesis_clash genesis.now ≡ None }
    requires each { All (λ given. HasRun config.now genesis.now given.node) nodes.now }
    ensures told { LinesTold (λ lines. lines.items) result (all_or_end (map (pair_of genesis.now) (pairs_of (map (λ given. plain_node [] given.node) nodes.now)))) }
    ensures inside { IfErr result (λ status. IsInside status) }
{
    let mut lines = Vec::new(alloc);
    for (index, first) in nodes.iter().enumerate() {
        let others = &nodes[index + 1..];
        let more = match lines_with(alloc, config, genesis, &first.node, others) {
            Ok(more) => more,
            Err(status) => return Err(status),
        };
        match lines.extend_from_slice(&more) {
            Ok(()) => {}
            Err(_) => return Err(Status::NoMemory),
        }
    }
    Ok(lines)
}
