//! The text of the lines of events.

ghost use Rattle.std.specs.Prelude.{◌≡◌, ◌++◌, OnOk, IfOk};
ghost use Rattle.std.specs.Fmt.{decimal};
ghost use Rattle.spec_fork_choice.specs.GetHead.{get_head};
ghost use Rattle.spec_fork_choice.specs.OnEvent.{block};
ghost use Rattle.spec_replay.specs.Lines.{root_text, checkpoint_text, refusal_text, accepted_text, kind_text, head_label, justified_label, finalized_label, block_label, state_label, store_text, event_line};
ghost use Rattle.fork_store.specs.Events.{accepted_of};

use crate::head::head_of;
use bc_words::{NoMemory, Refusal};
use beacon_types::Checkpoint;
use fork_store::{Accepted, BlockIn, Store};
use hash_tree::Root;
use std::alloc::{AllocError, Global};

/// Room for the line of an event, in bytes: each needs at most 460.
const LINE: usize = 512;

/// Appends a number in decimal.
pub fn push_number(line: &mut Vec<u8>, number: u64) -> Result<(), AllocError>
    ensures { OnOk result (line.new.items ≡ line.old.items ++ decimal number) }
{
    let mut digits = itoa::Buffer::new();
    line.extend_from_slice(digits.format(number).as_bytes())
}

/// Appends a root: `0x` and 64 hexadecimal digits.
#[tactic(auto, unfolding(spec_replay::specs::Lines::root_text))]
pub fn push_root(line: &mut Vec<u8>, root: &Root) -> Result<(), AllocError>
    ensures { OnOk result (line.new.items ≡ line.old.items ++ root_text root.now) }
{
    let mut digits = [0; 64];
    hex::encode_to_slice(root, &mut digits).unwrap();
    line.extend_from_slice(b"0x")?;
    line.extend_from_slice(&digits)
}

/// Appends a checkpoint: its epoch, `:`, its root.
#[tactic(auto, unfolding(spec_replay::specs::Lines::checkpoint_text))]
pub fn push_checkpoint(line: &mut Vec<u8>, checkpoint: &Checkpoint) -> Result<(), AllocError>
    ensures { OnOk result (line.new.items ≡ line.old.items ++ checkpoint_text checkpoint.now) }
{
    push_number(line, checkpoint.epoch)?;
    line.extend_from_slice(b":")?;
    push_root(line, &checkpoint.root)
}

/// Appends a refusal: `refused`, its number and its name.
#[tactic(auto, unfolding(spec_replay::specs::Lines::refusal_text))]
fn push_refusal(line: &mut Vec<u8>, refusal: Refusal) -> Result<(), AllocError>
    ensures { OnOk result (line.new.items ≡ line.old.items ++ refusal_text refusal) }
{
    line.extend_from_slice(b"refused ")?;
    push_number(line, u64::from(refusal.number()))?;
    line.extend_from_slice(b" ")?;
    line.extend_from_slice(refusal.name().as_bytes())
}

/// Appends the word before the head.
#[tactic(auto, unfolding(spec_replay::specs::Lines::head_label))]
fn push_head_label(line: &mut Vec<u8>) -> Result<(), AllocError>
    ensures { OnOk result (line.new.items ≡ line.old.items ++ head_label) }
{
    line.extend_from_slice(b" head=")
}

/// Appends the word before the justified checkpoint.
#[tactic(auto, unfolding(spec_replay::specs::Lines::justified_label))]
fn push_justified_label(line: &mut Vec<u8>) -> Result<(), AllocError>
    ensures { OnOk result (line.new.items ≡ line.old.items ++ justified_label) }
{
    line.extend_from_slice(b" justified=")
}

/// Appends the word before the finalised checkpoint.
#[tactic(auto, unfolding(spec_replay::specs::Lines::finalized_label))]
fn push_finalized_label(line: &mut Vec<u8>) -> Result<(), AllocError>
    ensures { OnOk result (line.new.items ≡ line.old.items ++ finalized_label) }
{
    line.extend_from_slice(b" finalized=")
}

/// Appends the head of the store.
pub fn push_head(line: &mut Vec<u8>, store: &mut Store) -> Result<(), NoMemory>
    ensures line { OnOk result (line.new.items ≡ line.old.items ++ root_text (get_head store.old.plain)) }
    ensures same { store.new.plain ≡ store.old.plain }
{
    let head = head_of(store);
    push_root(line, &head)?;
    Ok(())
}

/// Appends the store's head and its two checkpoints.
#[tactic(auto, unfolding(spec_replay::specs::Lines::store_text))]
fn push_store(line: &mut Vec<u8>, store: &mut Store) -> Result<(), NoMemory>
    ensures line { OnOk result (line.new.items ≡ line.old.items ++ store_text store.old.plain) }
    ensures same { store.new.plain ≡ store.old.plain }
{
    push_head_label(line)?;
    push_head(line, store)?;
    push_justified_label(line)?;
    push_checkpoint(line, &store.justified())?;
    push_finalized_label(line)?;
    push_checkpoint(line, &store.finalized())?;
    Ok(())
}

/// Appends the word before an accepted block's root.
#[tactic(auto, unfolding(spec_replay::specs::Lines::block_label))]
fn push_block_label(line: &mut Vec<u8>) -> Result<(), AllocError>
    ensures { OnOk result (line.new.items ≡ line.old.items ++ block_label) }
{
    line.extend_from_slice(b"accepted root=")
}

/// Appends the word before the root of the state behind a block.
#[tactic(auto, unfolding(spec_replay::specs::Lines::state_label))]
fn push_state_label(line: &mut Vec<u8>) -> Result<(), AllocError>
    ensures { OnOk result (line.new.items ≡ line.old.items ++ state_label) }
{
    line.extend_from_slice(b" state=")
}

/// Appends that a block was accepted, with its root and that of the state behind it.
#[tactic(auto, unfolding(spec_replay::specs::Lines::accepted_text))]
fn push_block(line: &mut Vec<u8>, given: &BlockIn) -> Result<(), AllocError>
    ensures { OnOk result (line.new.items ≡ line.old.items ++ accepted_text (block given.now)) }
{
    push_block_label(line)?;
    push_root(line, &given.root())?;
    push_state_label(line)?;
    push_root(line, &given.state_root())?;
    Ok(())
}

/// Appends that the event was accepted, with the roots of a block.
#[tactic(auto, unfolding(spec_replay::specs::Lines::accepted_text))]
fn push_accepted(line: &mut Vec<u8>, given: &Accepted) -> Result<(), AllocError>
    ensures { OnOk result (line.new.items ≡ line.old.items ++ accepted_text (accepted_of given.now)) }
{
    match given {
        Accepted::Other => line.extend_from_slice(b"accepted"),
        Accepted::Block(block) => push_block(line, block),
    }
}

/// Appends the word of an event's kind.
#[tactic(auto, unfolding(spec_replay::specs::Lines::kind_text))]
fn push_kind(line: &mut Vec<u8>, kind: u8) -> Result<(), AllocError>
    ensures { OnOk result (line.new.items ≡ line.old.items ++ kind_text kind) }
{
    if kind == 1 {
        line.extend_from_slice(b" tick ")
    } else if kind == 2 {
        line.extend_from_slice(b" block ")
    } else if kind == 3 {
        line.extend_from_slice(b" wire ")
    } else if kind == 5 {
        line.extend_from_slice(b" slashing ")
    } else {
        line.extend_from_slice(b" carried ")
    }
}

/// Appends the number of an event and the word of its kind.
fn push_event(line: &mut Vec<u8>, event: u64, kind: u8) -> Result<(), AllocError>
    ensures { OnOk result (line.new.items ≡ line.old.items ++ (decimal event ++ kind_text kind)) }
{
    push_number(line, event)?;
    push_kind(line, kind)
}

/// The line of an accepted event: its number, its kind, what it gave, and the store after it.
#[tactic(auto, unfolding(spec_replay::specs::Lines::event_line))]
pub fn accepted_line(
    alloc: Global,
    event: u64,
    kind: u8,
    given: &Accepted,
    store: &mut Store,
) -> Result<Vec<u8>, NoMemory>
    ensures line { IfOk result (λ line. line.items ≡ event_line event kind (accepted_text (accepted_of given.now)) store.old.plain) }
    ensures same { store.new.plain ≡ store.old.plain }
{
    let mut line = Vec::with_capacity(alloc, LINE)?;
    push_event(&mut line, event, kind)?;
    push_accepted(&mut line, given)?;
    push_store(&mut line, store)?;
    line.push(b'\n')?;
    Ok(line)
}

/// The line of a refused event: its number, its kind, the refusal, and the store, which is as before.
#[tactic(auto, unfolding(spec_replay::specs::Lines::event_line))]
pub fn refused_line(
    alloc: Global,
    event: u64,
    kind: u8,
    refusal: Refusal,
    store: &mut Store,
) -> Result<Vec<u8>, NoMemory>
    ensures line { IfOk result (λ line. line.items ≡ event_line event kind (refusal_text refusal) store.old.plain) }
    ensures same { store.new.plain ≡ store.old.plain }
{
    let mut line = Vec::with_capacity(alloc, LINE)?;
    push_event(&mut line, event, kind)?;
    push_refusal(&mut line, refusal)?;
    push_store(&mut line, store)?;
    line.push(b'\n')?;
    Ok(line)
}
