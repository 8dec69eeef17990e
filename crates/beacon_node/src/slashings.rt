//! The record that `slasher` writes: its first bytes, and then a frame for each attester slashing that two histories give, as it is made.

ghost use Rattle.std.specs.Prelude.{◌≡◌, ◌≤◌, ◌++◌, length, flat_map, IfOk};
ghost use Rattle.record_file.specs.Record.{magic};
ghost use Rattle.record_file.specs.declared.version.Version.TheVariants.{Two};
ghost use Rattle.beacon_types.specs.Containers.{attestation_data_codec, indexed_attestation_codec};
ghost use Rattle.beacon_types.specs.Blocks.{attester_slashing_codec};
ghost use Rattle.spec_slasher.specs.Operations.{operations};
ghost use Rattle.spec_replay.specs.Run.{after_lines, done, over};
ghost use Rattle.spec_replay.specs.Slasher.{slashing_frame, slashing_record};
ghost use Rattle.one_chain.specs.inside.AtEnd.{Concludes};
ghost use Rattle.one_chain.specs.inside.Texts.{WritesText};

use bc_outside::{Sink, Trouble, write_all};
use bc_words::NoMemory;
use beacon_types::{AttestationData, AttesterSlashing, IndexedAttestation};
use forensics::{VoteBook, operations};
use one_chain::{Status, written};
use ssz_codec::Ssz;
use std::alloc::Global;

/// What a record of version 2 begins with.
const MAGIC: &[u8] = b"BCR2";

/// The kind of the events that are attester slashings.
const SLASHING_KIND: u8 = 5;

/// So many bytes there are. This and the three functions behind it do nothing when they run.
fn bytes_len<const N: usize>(bytes: &[u8; N])
    ensures { length bytes.now ≡ N }
{
    let _bytes = *bytes;
}

/// The writing of a vote's content has 128 bytes.
fn content_len(content: &AttestationData)
    ensures { length (attestation_data_codec.serialize content.now) ≡ 128 }
{
    bytes_len(&content.beacon_block_root);
    bytes_len(&content.source.root);
    bytes_len(&content.target.root);
}

/// That of a vote has 16,612 bytes at most.
fn vote_len(vote: &IndexedAttestation)
    ensures { length (indexed_attestation_codec.serialize vote.now) ≤ 16_612 }
{
    let _few = vote.attesting_indices.len();
    content_len(&vote.content);
    bytes_len(&vote.signature);
}

/// And that of an attester slashing 33,232.
#[tactic(auto, using(crate::proofs::SlashingRecords::slashing_size))]
fn slashing_len(slashing: &AttesterSlashing)
    ensures { length (attester_slashing_codec.serialize slashing.now) ≤ 33_232 }
{
    vote_len(&slashing.attestation_1);
    vote_len(&slashing.attestation_2);
}

/// The frame of an attester slashing.
#[tactic(auto, unfolding(spec_replay::specs::Slasher::slashing_frame))]
fn frame_of(alloc: Global, slashing: &AttesterSlashing) -> Result<Vec<u8>, NoMemory>
    ensures { IfOk result (λ frame. frame.items ≡ slashing_frame slashing.now) }
{
    slashing_len(slashing);
    let payload = slashing.write(alloc)?;
    let mut frame = Vec::new(alloc);
    frame.push(SLASHING_KIND)?;
    frame.extend_from_slice(&(payload.len() as u32).to_le_bytes())?;
    frame.extend_from_slice(&payload)?;
    Ok(frame)
}

/// Writes the frame of an attester slashing.
fn write_slashing<O: Sink>(
    alloc: Global,
    slashing: &AttesterSlashing,
    out: &mut O,
) -> Result<(), Trouble>
    ensures { WritesText (slashing_frame slashing.now) result (O.told out.old) (O.told out.new) }
{
    match frame_of(alloc, slashing) {
        Ok(frame) => write_all(out, &frame),
        Err(_refused) => Err(Trouble::NoMemory),
    }
}

/// Writes the frame of each attester slashing.
fn write_slashings<O: Sink>(
    alloc: Global,
    slashings: &[AttesterSlashing],
    out: &mut O,
) -> Result<(), Trouble>
    ensures { WritesText (flat_map slashing_frame slashings.now) result (O.told out.old) (O.told out.new) }
{
    for slashing in slashings {
        write_slashing(alloc, slashing, out)?;
    }
    Ok(())
}

/// Writes the first bytes of a record.
fn write_magic<O: Sink>(out: &mut O) -> Result<(), Trouble>
    ensures { WritesText (magic Two) result (O.told out.old) (O.told out.new) }
{
    write_all(out, MAGIC)
}

/// Writes the record of the attester slashings.
fn write_record<O: Sink>(
    alloc: Global,
    slashings: &[AttesterSlashing],
    out: &mut O,
) -> Result<(), Trouble>
    ensures { WritesText (slashing_record slashings.now) result (O.told out.old) (O.told out.new) }
{
    write_magic(out)?;
    write_slashings(alloc, slashings, out)
}

/// Writes the record of the attester slashings that two histories give, whose votes the book has.
pub fn tell_slashings<O: Sink>(alloc: Global, book: &VoteBook, out: &mut O) -> Status
    ensures told { Concludes result (after_lines (slashing_record (operations book.now.genesis book.now.first book.now.second)) (over done)) (O.told out.old) (O.told out.new) }
    ensures slashings { result ≡ Status.Done → (O.told out.new).taken ≡ (O.told out.old).taken ++ slashing_record (operations book.now.genesis book.now.first book.now.second) }
{
    match operations(alloc, book) {
        Ok(slashings) => written(write_record(alloc, &slashings, out)),
        Err(_) => Status::NoMemory,
    }
}
