//! The committees of one epoch, as slices of its one shuffled list.

ghost use Rattle.std.specs.Prelude.{◌≡◌, ◌↔◌, IsNone, ◌*◌, ◌%◌, ◌+◌, ◌<◌, ◌≤◌, ◌^◌, length, slice_range, IfOk, IsOk, MatchOption, Some, None};
ghost use Rattle.bc_preset.specs.Presets.{IsPreset};
ghost use Rattle.committees.specs.Committees.{committees_of, committee_count_per_slot, committee_at, committee_start, member_count, StandOnce, IsWithoutRepeats};

use crate::list::shuffle_all;
use bc_preset::Preset;
use bc_words::NoMemory;
use hash_tree::Root;
use std::alloc::Global;
use std::marker::Model;

/// The committees of an epoch (beacon-chain.md, `get_beacon_committee`). Contracts see how many a slot has, how many
/// slots there are, and the list of all committees in order.
#[derive(Drop)]
pub struct EpochCommittees {
    members: Vec<u64>,
    per_slot: u64,
    slots: u64,
}

impl Model for EpochCommittees {
    ghost use Rattle.std.specs.Prelude.{◌≤◌, ◌^◌, length};
    ghost use Rattle.committees.specs.Committees.{Committees};
    ghost use Rattle.committees.specs.inside.Split.{split_committees};

    ghost Value = { Committees };

    ghost view = { λ c. split_committees c.per_slot c.slots c.members.items };

    ghost invariant = { λ c. (length c.members.items ≤ 2 ^ 40) × (1 ≤ c.per_slot) × (c.per_slot ≤ 64) × (1 ≤ c.slots) × (c.slots ≤ 32) };
}

/// How many committees each slot of an epoch has in which so many validators are active (beacon-chain.md,
/// `get_committee_count_per_slot`).
#[tactic(auto, unfolding(crate::specs::Committees::committee_count_per_slot))]
pub fn committee_count_per_slot(preset: &Preset, active: u64) -> u64
    requires { IsPreset preset.now }
    ensures exact { result ≡ committee_count_per_slot preset.now active }
    ensures least { 1 ≤ result }
    ensures most { result ≤ 64 }
{
    preset.bounds();
    let wanted = active / preset.slots_per_epoch / preset.target_committee_size;
    wanted.min(preset.max_committees_per_slot).max(1)
}

/// Where committee `k` of `count` begins in the list of all members.
#[tactic(auto, unfolding(crate::specs::Committees::committee_start), using(crate::proofs::Parts::first_fits))]
fn committee_start(members: &[u64], count: u64, k: u64) -> usize
    requires fits { length members.now ≤ 2 ^ 40 }
    requires count_fits { count ≤ 2048 }
    requires k_fits { k ≤ count }
    requires some { 0 < count }
    ensures exact { result ≡ committee_start (length members.now) count k }
    ensures within { result ≤ length members.now }
{
    (members.len() as u64 * k / count) as usize
}

/// Committee `k` of `count`, as a part of the list of all members.
fn part(members: &[u64], count: u64, k: u64) -> &[u64]
    requires fits { length members.now ≤ 2 ^ 40 }
    requires count_fits { count ≤ 2048 }
    requires in_range { k < count }
    ensures { result.now ≡ slice_range members.now (committee_start (length members.now) count k) (committee_start (length members.now) count (k + 1)) }
{
    let begin = committee_start(members, count, k);
    let end = committee_start(members, count, k + 1);
    &members[begin..end]
}

impl EpochCommittees {
    /// The committees of an epoch with this active list, of at most 2^40 validators, and this seed for attesters.
    pub fn new(
        alloc: Global,
        active: Vec<u64>,
        seed: &Root,
        preset: &Preset,
    ) -> Result<EpochCommittees, NoMemory>
        requires preset { IsPreset preset.now }
        requires fits { length active.items ≤ 2 ^ 40 }
        ensures exact { IfOk result (λ committees. committees ≡ committees_of preset.now seed.now active.items) }
        ensures always { IsOk result }
    {
        preset.bounds();
        let per_slot = committee_count_per_slot(preset, active.len() as u64);
        let members = shuffle_all(alloc, active, seed, preset.shuffle_round_count as u32)?;
        Ok(EpochCommittees {
            members,
            per_slot,
            slots: preset.slots_per_epoch,
        })
    }

    /// How many committees a slot has.
    pub fn per_slot(&self) -> u64
        ensures exact { result ≡ self.now.per_slot }
        ensures least { 1 ≤ result }
        ensures most { result ≤ 64 }
    {
        self.per_slot
    }

    /// How many members all committees of the epoch have together: as many as there are active validators.
    pub fn member_count(&self) -> u64
        ensures exact { result ≡ member_count self.now }
        ensures most { result ≤ 2 ^ 40 }
    {
        self.members.len() as u64
    }

    /// The committee of a slot with an index, or None exactly where the epoch has no such committee.
    pub fn committee(&self, slot: u64, index: u64) -> Option<&[u64]>
        ensures exact { MatchOption result (committee_at self.now slot index ≡ None) (λ members. committee_at self.now slot index ≡ Some members.now) }
        ensures none { IsNone result ↔ (self.now.per_slot * self.now.slots ≤ slot % self.now.slots * self.now.per_slot + index) }
    {
        let count = self.per_slot * self.slots;
        let first = slot % self.slots * self.per_slot;
        if index >= count - first {
            return None;
        }
        Some(part(&self.members, count, first + index))
    }
}

/// The law that every validator of the active list stands in exactly one committee of the epoch, at one place of it,
/// and nobody else stands in any. It does nothing when it runs.
pub fn members_stand_once(active: &[u64], seed: &Root, preset: &Preset)
    requires preset { IsPreset preset.now }
    requires without_repeats { IsWithoutRepeats active.now }
    ensures { StandOnce active.now (committees_of preset.now seed.now active.now).all }
{}
