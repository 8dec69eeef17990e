//! The lines of an epoch's duties, slot by slot: its committees by index, and then its proposer, where that is told.

ghost use Rattle.std.specs.Prelude.{◌≡◌, ◌++◌, ◌<◌, ◌+◌, ◌^◌, ◌∷◌, ◌==◌, [], codes, filter, flat_map, unwrap_or, OnOk, IfOk};
ghost use Rattle.std.specs.List.{range_with_len};
ghost use Rattle.std.specs.Fmt.{decimal};
ghost use Rattle.committees.specs.Committees.{committee_at};
ghost use Rattle.duties.specs.Duties.{table_committees};
ghost use Rattle.spec_replay.specs.Duties.{committee_line, members_text, proposer_line};
ghost use Rattle.one_chain.specs.inside.Duties.{table_lines};
ghost use Rattle.one_chain.specs.inside.Texts.{WritesText};

use crate::lines::push_number;
use bc_outside::{Sink, Trouble, write_all};
use committees::EpochCommittees;
use duties::{Duties, ProposerDuty};
use std::alloc::{AllocError, Global};

/// Appends two numbers in decimal, the second behind a space.
fn push_pair(line: &mut Vec<u8>, first: u64, second: u64) -> Result<(), AllocError>
    ensures { OnOk result (line.new.items ≡ line.old.items ++ (decimal first ++ (codes " " ++ decimal second))) }
{
    push_number(line, first)?;
    line.extend_from_slice(b" ")?;
    push_number(line, second)
}

/// Appends a member behind a comma.
fn push_behind(line: &mut Vec<u8>, member: u64) -> Result<(), AllocError>
    ensures { OnOk result (line.new.items ≡ line.old.items ++ (codes "," ++ decimal member)) }
{
    line.extend_from_slice(b",")?;
    push_number(line, member)
}

/// Appends each member behind a comma.
fn push_others(line: &mut Vec<u8>, members: &[u64]) -> Result<(), AllocError>
    ensures { OnOk result (line.new.items ≡ line.old.items ++ flat_map (λ member. codes "," ++ decimal member) members.now) }
{
    for member in members {
        push_behind(line, *member)?;
    }
    Ok(())
}

/// Appends the members of a committee, joined by commas; `-` where there is none.
#[tactic(auto, unfolding(spec_replay::specs::Duties::members_text))]
fn push_members(line: &mut Vec<u8>, members: &[u64]) -> Result<(), AllocError>
    ensures { OnOk result (line.new.items ≡ line.old.items ++ members_text members.now) }
{
    match members {
        [] => line.extend_from_slice(b"-"),
        [first, others @ ..] => {
            push_number(line, *first)?;
            push_others(line, others)
        }
    }
}

/// The line of a committee.
#[tactic(auto, unfolding(spec_replay::specs::Duties::committee_line))]
fn committee_line(
    alloc: Global,
    slot: u64,
    index: u64,
    members: &[u64],
) -> Result<Vec<u8>, AllocError>
    ensures { IfOk result (λ line. line.items ≡ committee_line (record { slot = slot; index = index; members = members.now })) }
{
    let mut line = Vec::new(alloc);
    line.extend_from_slice(b"committee ")?;
    push_pair(&mut line, slot, index)?;
    line.extend_from_slice(b" ")?;
    push_members(&mut line, members)?;
    line.push(b'\n')?;
    Ok(line)
}

/// The line of a proposer.
#[tactic(auto, unfolding(spec_replay::specs::Duties::proposer_line))]
fn proposer_line(alloc: Global, duty: &ProposerDuty) -> Result<Vec<u8>, AllocError>
    ensures { IfOk result (λ line. line.items ≡ proposer_line duty.now) }
{
    let mut line = Vec::new(alloc);
    line.extend_from_slice(b"proposer ")?;
    push_pair(&mut line, duty.slot, duty.validator)?;
    line.push(b'\n')?;
    Ok(line)
}

/// Writes the line of a committee.
fn write_committee<O: Sink>(
    alloc: Global,
    slot: u64,
    index: u64,
    members: &[u64],
    out: &mut O,
) -> Result<(), Trouble>
    ensures { WritesText (committee_line (record { slot = slot; index = index; members = members.now })) result (O.told out.old) (O.told out.new) }
{
    match committee_line(alloc, slot, index, members) {
        Ok(line) => write_all(out, &line),
        Err(_refused) => Err(Trouble::NoMemory),
    }
}

/// Writes the line of a proposer, where it is the slot's.
fn write_proposer<O: Sink>(
    alloc: Global,
    duty: &ProposerDuty,
    slot: u64,
    out: &mut O,
) -> Result<(), Trouble>
    ensures { WritesText (flat_map proposer_line (filter (λ other. other.slot == slot) (duty.now ∷ []))) result (O.told out.old) (O.told out.new) }
{
    if duty.slot != slot {
        return Ok(());
    }
    match proposer_line(alloc, duty) {
        Ok(line) => write_all(out, &line),
        Err(_refused) => Err(Trouble::NoMemory),
    }
}

/// The members of the committee of a slot with an index.
fn members_of(committees: &EpochCommittees, slot: u64, index: u64) -> &[u64]
    ensures { result.now ≡ unwrap_or (committee_at committees.now slot index) [] }
{
    match committees.committee(slot, index) {
        Some(members) => members,
        None => &[],
    }
}

/// Writes the lines of a slot's committees, by index.
fn write_committees<O: Sink>(
    alloc: Global,
    committees: &EpochCommittees,
    slot: u64,
    out: &mut O,
) -> Result<(), Trouble>
    ensures { WritesText (flat_map committee_line (table_committees committees.now slot)) result (O.told out.old) (O.told out.new) }
{
    for index in 0..committees.per_slot() {
        write_committee(alloc, slot, index, members_of(committees, slot, index), out)?;
    }
    Ok(())
}

/// Writes the line of the slot's proposer, where it is told.
fn write_proposers<O: Sink>(
    alloc: Global,
    proposers: &[ProposerDuty],
    slot: u64,
    out: &mut O,
) -> Result<(), Trouble>
    ensures { WritesText (flat_map proposer_line (filter (λ duty. duty.slot == slot) proposers.now)) result (O.told out.old) (O.told out.new) }
{
    for duty in proposers {
        write_proposer(alloc, duty, slot, out)?;
    }
    Ok(())
}

/// Writes the lines of a slot.
fn write_slot<O: Sink>(
    alloc: Global,
    duties: &Duties,
    slot: u64,
    out: &mut O,
) -> Result<(), Trouble>
    ensures { WritesText (table_lines duties.now slot) result (O.told out.old) (O.told out.new) }
{
    write_committees(alloc, &duties.committees, slot, out)?;
    write_proposers(alloc, &duties.proposers, slot, out)
}

/// Writes the lines of the duties of an epoch of so many slots, each as it comes.
pub fn write_duties<O: Sink>(
    alloc: Global,
    duties: &Duties,
    slots: u64,
    out: &mut O,
) -> Result<(), Trouble>
    requires { duties.now.first_slot + slots < 2 ^ 64 }
    ensures { WritesText (flat_map (table_lines duties.now) (range_with_len duties.now.first_slot slots)) result (O.told out.old) (O.told out.new) }
{
    for slot in duties.first_slot..duties.first_slot + slots {
        write_slot(alloc, duties, slot, out)?;
    }
    Ok(())
}
