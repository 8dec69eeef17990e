//! The proposer of a slot: the first candidate whose effective balance passes a random test.

ghost use Rattle.std.specs.Prelude.{◌≡◌, ℕ, ◌<◌, ◌≤◌, ◌^◌, length, slice_index};
ghost use Rattle.bc_words.specs.Outcome.{GivesExactly, bind};
ghost use Rattle.bc_words.specs.Searches.{first_from};
ghost use Rattle.bc_preset.specs.Presets.{IsPreset};
ghost use Rattle.committees.specs.Proposers.{candidate, random_byte, weighs_enough, candidate_passes, candidate_found, proposer_below};
ghost use Rattle.committees.specs.inside.Passing.{Passing};

use crate::index::shuffled_index;
use crate::lookup::Lookup;
use bc_preset::Preset;
use bc_words::{Limit, Refusal, Stop, checked_mul};
use hash_tree::Root;
use sha2::{Digest, Sha256};

/// The candidate with number `i`: one shuffled index, whatever the length of the list.
#[tactic(auto, unfolding(crate::specs::Proposers::candidate))]
fn candidate(preset: &Preset, active: &[u64], seed: &Root, i: u64) -> u64
    requires preset { IsPreset preset.now }
    requires some { 0 < length active.now }
    requires fits { length active.now ≤ 2 ^ 40 }
    ensures exact { result ≡ candidate preset.now active.now seed.now i }
    ensures active { (k : ℕ) × (k < length active.now) × (result ≡ slice_index active.now k) }
{
    preset.bounds();
    let count = active.len() as u64;
    let place = shuffled_index(i % count, count, seed, preset.shuffle_round_count as u32);
    active[place as usize]
}

/// The random byte of the candidate with number `i`.
#[tactic(auto, unfolding(crate::specs::Proposers::random_byte, hash_tree::specs::Merkle::hash, hash_tree::specs::Merkle::uint_to_bytes))]
fn random_byte(seed: &Root, i: u64) -> u8
    ensures { result ≡ random_byte seed.now i }
{
    let mut hasher = Sha256::new();
    hasher.update(seed);
    hasher.update(&(i / 32).to_le_bytes());
    let digest = hasher.finalize();
    digest[(i % 32) as usize]
}

/// Whether a candidate with this effective balance passes with this byte.
#[tactic(auto, unfolding(crate::specs::Proposers::weighs_enough))]
fn weighs_enough(preset: &Preset, balance: u64, byte: u8) -> Result<bool, Stop>
    ensures { GivesExactly result (weighs_enough preset.now balance byte) }
{
    let weighed = checked_mul(balance, 255)?;
    let least = checked_mul(preset.max_effective_balance, u64::from(byte))?;
    Ok(least <= weighed)
}

/// The index of the candidate with number `i`, where it passes.
#[tactic(auto, unfolding(crate::specs::Proposers::candidate_passes))]
fn passing<S: Lookup>(active: &[u64], state: &S, seed: &Root, i: u64) -> Result<Option<u64>, Stop>
    requires some { 0 < length active.now }
    requires fits { length active.now ≤ 2 ^ 40 }
    requires in_registry { (k : ℕ) → k < length active.now → slice_index active.now k < S.registry_of state.now }
    ensures { Passing result (candidate_passes (S.preset_of state.now) (S.effective_at state.now) active.now seed.now i) (candidate (S.preset_of state.now) active.now seed.now i) }
{
    let preset = state.preset();
    let index = candidate(preset, active, seed, i);
    if weighs_enough(preset, state.effective(index), random_byte(seed, i))? {
        Ok(Some(index))
    } else {
        Ok(None)
    }
}

/// The candidate with the least number below `bound` that passes. The limit comes where none does.
fn first_passing<S: Lookup>(active: &[u64], state: &S, seed: &Root, bound: u64) -> Result<u64, Stop>
    requires some { 0 < length active.now }
    requires fits { length active.now ≤ 2 ^ 40 }
    requires in_registry { (k : ℕ) → k < length active.now → slice_index active.now k < S.registry_of state.now }
    ensures { GivesExactly result (bind (first_from (candidate_passes (S.preset_of state.now) (S.effective_at state.now) active.now seed.now) bound 0) (candidate_found (S.preset_of state.now) active.now seed.now)) }
{
    for i in 0..bound {
        if let Some(index) = passing(active, state, seed, i)? {
            return Ok(index);
        }
    }
    Err(Stop::Limit(Limit::Proposer))
}

/// The proposer by this seed (beacon-chain.md, `compute_proposer_index`), of the first `bound` candidates.
///
/// `active` has at most 2^40 indices, each in the registry. Refused where nobody is active, and where a balance is
/// too great to be weighed; the limit comes where no candidate passes.
#[tactic(auto, unfolding(crate::specs::Proposers::proposer_below))]
pub fn pick_proposer<S: Lookup>(
    active: &[u64],
    state: &S,
    seed: &Root,
    bound: u64,
) -> Result<u64, Stop>
    requires fits { length active.now ≤ 2 ^ 40 }
    requires in_registry { (k : ℕ) → k < length active.now → slice_index active.now k < S.registry_of state.now }
    ensures { GivesExactly result (proposer_below (S.preset_of state.now) (S.effective_at state.now) active.now seed.now bound) }
{
    if active.is_empty() {
        return Err(Stop::Refused(Refusal::NoActive));
    }
    first_passing(active, state, seed, bound)
}
