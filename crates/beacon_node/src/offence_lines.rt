//! The text of the lines of offences and of the verdict.

ghost use Rattle.std.specs.Prelude.{◌≡◌, ◌++◌, codes, OnOk, IfOk};
ghost use Rattle.std.specs.Fmt.{decimal};
ghost use Rattle.spec_replay.specs.Forensic.{verdict_line};
ghost use Rattle.spec_replay.specs.Lines.{root_text, checkpoint_text};
ghost use Rattle.spec_replay.specs.OffenceLines.{history_text, offence_kind_text, offence_line, vote_text};
ghost use Rattle.beacon_node.specs.inside.OffenceTexts.{content_text, place_text};

use beacon_types::{AttestationData, Checkpoint};
use hash_tree::Root;
use one_chain::{push_checkpoint, push_number, push_root};
use spec_forensics::{Offence, OffenceKind, Verdict, Vote};
use std::alloc::{AllocError, Global};

/// Appends a number behind a slash.
fn push_number_part(line: &mut Vec<u8>, number: u64) -> Result<(), AllocError>
    ensures { OnOk result (line.new.items ≡ line.old.items ++ (codes "/" ++ decimal number)) }
{
    line.extend_from_slice(b"/")?;
    push_number(line, number)
}

/// Appends a root behind a slash.
fn push_root_part(line: &mut Vec<u8>, root: &Root) -> Result<(), AllocError>
    ensures { OnOk result (line.new.items ≡ line.old.items ++ (codes "/" ++ root_text root.now)) }
{
    line.extend_from_slice(b"/")?;
    push_root(line, root)
}

/// Appends a checkpoint behind a slash.
fn push_checkpoint_part(line: &mut Vec<u8>, checkpoint: &Checkpoint) -> Result<(), AllocError>
    ensures { OnOk result (line.new.items ≡ line.old.items ++ (codes "/" ++ checkpoint_text checkpoint.now)) }
{
    line.extend_from_slice(b"/")?;
    push_checkpoint(line, checkpoint)
}

/// Appends the letter of a history.
#[tactic(auto, unfolding(spec_replay::specs::OffenceLines::history_text))]
fn push_history(line: &mut Vec<u8>, which: u8) -> Result<(), AllocError>
    ensures { OnOk result (line.new.items ≡ line.old.items ++ history_text which) }
{
    if which == 0 {
        line.extend_from_slice(b"a")
    } else {
        line.extend_from_slice(b"b")
    }
}

/// Appends where a vote stands: its history, its event, the attestation's position, and the block's root.
fn push_place(line: &mut Vec<u8>, vote: &Vote) -> Result<(), AllocError>
    ensures { OnOk result (line.new.items ≡ line.old.items ++ place_text vote.now) }
{
    push_history(line, vote.which)?;
    push_number_part(line, u64::from(vote.event))?;
    push_number_part(line, u64::from(vote.position))?;
    push_root_part(line, &vote.block_root)
}

/// Appends what a vote is for, each part behind a slash.
fn push_content(line: &mut Vec<u8>, content: &AttestationData) -> Result<(), AllocError>
    ensures { OnOk result (line.new.items ≡ line.old.items ++ content_text content.now) }
{
    push_number_part(line, content.slot)?;
    push_number_part(line, content.index)?;
    push_root_part(line, &content.beacon_block_root)?;
    push_checkpoint_part(line, &content.source)?;
    push_checkpoint_part(line, &content.target)
}

/// Appends a vote: where it stands, and what it is for.
#[tactic(auto, unfolding(spec_replay::specs::OffenceLines::vote_text))]
fn push_vote(line: &mut Vec<u8>, vote: &Vote) -> Result<(), AllocError>
    ensures { OnOk result (line.new.items ≡ line.old.items ++ vote_text vote.now) }
{
    push_place(line, vote)?;
    push_content(line, &vote.content)
}

/// Appends the word of an offence's kind.
#[tactic(auto, unfolding(spec_replay::specs::OffenceLines::offence_kind_text))]
fn push_kind(line: &mut Vec<u8>, kind: OffenceKind) -> Result<(), AllocError>
    ensures { OnOk result (line.new.items ≡ line.old.items ++ offence_kind_text kind) }
{
    match kind {
        OffenceKind::Double => line.extend_from_slice(b" double "),
        OffenceKind::Surround => line.extend_from_slice(b" surround "),
    }
}

/// The line of an offence: the validator, the offence's kind, and its two votes.
#[tactic(auto, unfolding(spec_replay::specs::OffenceLines::offence_line))]
pub fn offence_line(alloc: Global, offence: &Offence) -> Result<Vec<u8>, AllocError>
    ensures { IfOk result (λ line. line.items ≡ offence_line offence.now) }
{
    let mut line = Vec::new(alloc);
    line.extend_from_slice(b"offence ")?;
    push_number(&mut line, offence.validator)?;
    push_kind(&mut line, offence.kind)?;
    push_vote(&mut line, &offence.first)?;
    line.extend_from_slice(b" ")?;
    push_vote(&mut line, &offence.second)?;
    line.push(b'\n')?;
    Ok(line)
}

/// Appends the words of a verdict, without those before them.
fn push_moved(line: &mut Vec<u8>, which: u8, root: &Root, epoch: u64) -> Result<(), AllocError>
    ensures { OnOk result (line.new.items ≡ line.old.items ++ (history_text which ++ (codes " " ++ (root_text root.now ++ (codes " " ++ decimal epoch))))) }
{
    push_history(line, which)?;
    line.extend_from_slice(b" ")?;
    push_root(line, root)?;
    line.extend_from_slice(b" ")?;
    push_number(line, epoch)
}

/// Appends two numbers in decimal, the second behind a space.
pub fn push_two(line: &mut Vec<u8>, first: u64, second: u64) -> Result<(), AllocError>
    ensures { OnOk result (line.new.items ≡ line.old.items ++ (decimal first ++ (codes " " ++ decimal second))) }
{
    push_number(line, first)?;
    line.extend_from_slice(b" ")?;
    push_number(line, second)
}

/// The line of a verdict.
#[tactic(auto, unfolding(spec_replay::specs::Forensic::verdict_line))]
pub fn verdict_line(alloc: Global, verdict: &Verdict) -> Result<Vec<u8>, AllocError>
    ensures { IfOk result (λ line. line.items ≡ verdict_line verdict.now) }
{
    let mut line = Vec::new(alloc);
    match verdict {
        Verdict::Agree => line.extend_from_slice(b"verdict agree")?,
        Verdict::Small(total) => {
            line.extend_from_slice(b"verdict small ")?;
            push_number(&mut line, *total)?;
        }
        Verdict::Moved { which, root, epoch } => {
            line.extend_from_slice(b"verdict moved ")?;
            push_moved(&mut line, *which, root, *epoch)?;
        }
        Verdict::Conflict { balance, total } => {
            line.extend_from_slice(b"verdict conflict ")?;
            push_two(&mut line, *balance, *total)?;
        }
    }
    line.push(b'\n')?;
    Ok(line)
}
