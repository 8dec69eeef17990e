//! The text of the lines of nodes and of their pairs.

ghost use Rattle.std.specs.Prelude.{◌≡◌, ◌++◌, codes, length, IfOk, OnOk};
ghost use Rattle.std.specs.Fmt.{decimal};
ghost use Rattle.hash_tree.specs.Merkle.{hash};
ghost use Rattle.spec_fork_choice.specs.GetHead.{get_head};
ghost use Rattle.spec_replay.specs.Forensic.{verdict_line};
ghost use Rattle.spec_replay.specs.Lines.{checkpoint_text, root_text};
ghost use Rattle.spec_replay.specs.Nodes.{counts_text, ends_text, node_text, pair_text};

use crate::histories::Findings;
use crate::offence_lines::{push_two, verdict_line};
use bc_words::NoMemory;
use beacon_types::Checkpoint;
use fork_store::Store;
use hash_tree::Root;
use one_chain::{push_checkpoint, push_head, push_number};
use sha2::{Digest, Sha256};
use std::alloc::{AllocError, Global};

/// SHA-256 of some lines.
#[tactic(auto, unfolding(hash_tree::specs::Merkle::hash))]
pub fn digest_of(lines: &[u8]) -> Root
    ensures { result ≡ hash lines.now }
{
    let mut hasher = Sha256::new();
    hasher.update(lines);
    hasher.finalize()
}

/// Appends a word and a number.
fn push_number_word(line: &mut Vec<u8>, word: &str, number: u64) -> Result<(), AllocError>
    ensures { OnOk result (line.new.items ≡ line.old.items ++ (word.now ++ decimal number)) }
{
    line.extend_from_slice(word.as_bytes())?;
    push_number(line, number)
}

/// Appends a word and a checkpoint.
fn push_checkpoint_word(
    line: &mut Vec<u8>,
    word: &str,
    checkpoint: &Checkpoint,
) -> Result<(), AllocError>
    ensures { OnOk result (line.new.items ≡ line.old.items ++ (word.now ++ checkpoint_text checkpoint.now)) }
{
    line.extend_from_slice(word.as_bytes())?;
    push_checkpoint(line, checkpoint)
}

/// Appends the words of a node's number and of its counts.
#[tactic(auto, unfolding(spec_replay::specs::Nodes::counts_text))]
fn push_counts(
    line: &mut Vec<u8>,
    number: u64,
    events: u64,
    accepted: u64,
) -> Result<(), AllocError>
    ensures { OnOk result (line.new.items ≡ line.old.items ++ counts_text number events accepted) }
{
    push_number_word(line, "node ", number)?;
    push_number_word(line, " events ", events)?;
    push_number_word(line, " accepted ", accepted)
}

/// Appends the word of a store's head and its root.
fn push_head_word(line: &mut Vec<u8>, store: &mut Store) -> Result<(), NoMemory>
    ensures line { OnOk result (line.new.items ≡ line.old.items ++ (codes " head " ++ root_text (get_head store.old.plain))) }
    ensures same { store.new.plain ≡ store.old.plain }
{
    line.extend_from_slice(b" head ")?;
    push_head(line, store)
}

/// Appends the words of a store's head and checkpoints.
fn push_ends(line: &mut Vec<u8>, store: &mut Store) -> Result<(), NoMemory>
    ensures line { OnOk result (line.new.items ≡ line.old.items ++ ends_text store.old.plain) }
    ensures same { store.new.plain ≡ store.old.plain }
{
    push_head_word(line, store)?;
    push_checkpoint_word(line, " justified ", &store.justified())?;
    push_checkpoint_word(line, " finalized ", &store.finalized())?;
    Ok(())
}

/// The line of a node: its number, how many events it was delivered and how many of them its store accepted, the store behind them, and
/// the digest of the lines that a run of a record of them writes.
#[tactic(auto, unfolding(spec_replay::specs::Nodes::node_text))]
pub fn node_line(
    alloc: Global,
    number: u64,
    events: u64,
    accepted: u64,
    store: &mut Store,
    digest: &Root,
) -> Result<Vec<u8>, NoMemory>
    ensures line { IfOk result (λ line. line.items ≡ node_text number events accepted store.old.plain digest.now) }
    ensures same { store.new.plain ≡ store.old.plain }
{
    let digits = hex::encode(alloc, digest)?;
    let mut line = Vec::new(alloc);
    push_counts(&mut line, number, events, accepted)?;
    push_ends(&mut line, store)?;
    line.extend_from_slice(b" lines ")?;
    line.extend_from_slice(digits.as_bytes())?;
    line.push(b'\n')?;
    Ok(line)
}

/// Appends the word of a pair and the numbers of its nodes.
fn push_pair(line: &mut Vec<u8>, first: u64, second: u64) -> Result<(), AllocError>
    ensures { OnOk result (line.new.items ≡ line.old.items ++ (codes "pair " ++ (decimal first ++ (codes " " ++ decimal second)))) }
{
    line.extend_from_slice(b"pair ")?;
    push_two(line, first, second)
}

/// Appends how many offences there are, and the line of the verdict.
fn push_found(line: &mut Vec<u8>, alloc: Global, findings: &Findings) -> Result<(), AllocError>
    ensures { OnOk result (line.new.items ≡ line.old.items ++ (codes " offenders " ++ (decimal (length findings.now.offences.items) ++ (codes " " ++ verdict_line findings.now.verdict)))) }
{
    let verdict = verdict_line(alloc, &findings.verdict)?;
    push_number_word(line, " offenders ", findings.offences.len() as u64)?;
    line.extend_from_slice(b" ")?;
    line.extend_from_slice(&verdict)
}

/// The line of a pair of nodes: how many offences there are, and the verdict.
#[tactic(auto, unfolding(spec_replay::specs::Nodes::pair_text))]
pub fn pair_text(
    alloc: Global,
    first: u8,
    second: u8,
    findings: &Findings,
) -> Result<Vec<u8>, AllocError>
    ensures { IfOk result (λ line. line.items ≡ pair_text first second (length findings.now.offences.items) findings.now.verdict) }
{
    let mut line = Vec::new(alloc);
    push_pair(&mut line, u64::from(first), u64::from(second))?;
    push_found(&mut line, alloc, findings)?;
    Ok(line)
}
