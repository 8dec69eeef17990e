//! The text of the eight lines of a made chain.

ghost use Rattle.std.specs.Prelude.{◌≡◌, ◌++◌, codes, length, OnOk, IfOk};
ghost use Rattle.std.specs.Fmt.{decimal};
ghost use Rattle.hex.specs.Hex.{encode_lower};
ghost use Rattle.spec_replay.specs.Drill.{line_of, six_lines};
ghost use Rattle.spec_replay.specs.Forensic.{verdict_line};
ghost use Rattle.spec_replay.specs.Lines.{checkpoint_text, root_text};
ghost use Rattle.one_chain.specs.inside.Progress.{tally_at};

use crate::histories::Findings;
use crate::offence_lines::verdict_line;
use bc_words::NoMemory;
use beacon_types::Checkpoint;
use fork_store::Store;
use hash_tree::Root;
use one_chain::{Counts, head_of, push_checkpoint, push_number, push_root};
use std::alloc::{AllocError, Global};

/// Appends a line of two words, a name and a number.
#[tactic(auto, unfolding(spec_replay::specs::Drill::line_of))]
fn push_number_line(lines: &mut Vec<u8>, name: &str, number: u64) -> Result<(), AllocError>
    ensures { OnOk result (lines.new.items ≡ lines.old.items ++ line_of name.now (decimal number)) }
{
    lines.extend_from_slice(name.as_bytes())?;
    lines.extend_from_slice(b" ")?;
    push_number(lines, number)?;
    lines.extend_from_slice(b"\n")
}

/// Appends a line of a name and a root.
#[tactic(auto, unfolding(spec_replay::specs::Drill::line_of))]
fn push_root_line(lines: &mut Vec<u8>, name: &str, root: &Root) -> Result<(), AllocError>
    ensures { OnOk result (lines.new.items ≡ lines.old.items ++ line_of name.now (root_text root.now)) }
{
    lines.extend_from_slice(name.as_bytes())?;
    lines.extend_from_slice(b" ")?;
    push_root(lines, root)?;
    lines.extend_from_slice(b"\n")
}

/// Appends a line of a name and a checkpoint.
#[tactic(auto, unfolding(spec_replay::specs::Drill::line_of))]
fn push_checkpoint_line(
    lines: &mut Vec<u8>,
    name: &str,
    checkpoint: &Checkpoint,
) -> Result<(), AllocError>
    ensures { OnOk result (lines.new.items ≡ lines.old.items ++ line_of name.now (checkpoint_text checkpoint.now)) }
{
    lines.extend_from_slice(name.as_bytes())?;
    lines.extend_from_slice(b" ")?;
    push_checkpoint(lines, checkpoint)?;
    lines.extend_from_slice(b"\n")
}

/// Appends a line of a name and a digest.
#[tactic(auto, unfolding(spec_replay::specs::Drill::line_of))]
fn push_digest_line(
    lines: &mut Vec<u8>,
    alloc: Global,
    name: &str,
    digest: &Root,
) -> Result<(), AllocError>
    ensures { OnOk result (lines.new.items ≡ lines.old.items ++ line_of name.now (encode_lower digest.now)) }
{
    let digits = hex::encode(alloc, digest)?;
    lines.extend_from_slice(name.as_bytes())?;
    lines.extend_from_slice(b" ")?;
    lines.extend_from_slice(digits.as_bytes())?;
    lines.extend_from_slice(b"\n")
}

/// The six lines of a made chain: its events, those that were accepted, the store behind them, and the digest of the lines that
/// a run of its record writes.
#[tactic(auto, unfolding(spec_replay::specs::Drill::six_lines))]
pub fn six_lines(
    alloc: Global,
    counts: &Counts,
    store: &mut Store,
    digest: &Root,
) -> Result<Vec<u8>, NoMemory>
    ensures lines { IfOk result (λ lines. lines.items ≡ six_lines (tally_at store.old.plain counts.now) digest.now) }
    ensures same { store.new.plain ≡ store.old.plain }
{
    let head = head_of(store);
    let mut lines = Vec::new(alloc);
    push_number_line(&mut lines, "events", u64::from(counts.events))?;
    push_number_line(&mut lines, "accepted", u64::from(counts.accepted))?;
    push_root_line(&mut lines, "head", &head)?;
    push_checkpoint_line(&mut lines, "justified", &store.justified())?;
    push_checkpoint_line(&mut lines, "finalized", &store.finalized())?;
    push_digest_line(&mut lines, alloc, "lines", digest)?;
    Ok(lines)
}

/// The two lines of the split of a made chain: how many offenders there are, and the verdict.
pub fn two_lines(alloc: Global, findings: &Findings) -> Result<Vec<u8>, NoMemory>
    ensures { IfOk result (λ lines. lines.items ≡ line_of (codes "offenders") (decimal (length findings.now.offences.items)) ++ verdict_line findings.now.verdict) }
{
    let mut lines = Vec::new(alloc);
    push_number_line(&mut lines, "offenders", findings.offences.len() as u64)?;
    let verdict = verdict_line(alloc, &findings.verdict)?;
    lines.extend_from_slice(&verdict)?;
    Ok(lines)
}
