//! The committees of an epoch, kept with what they were made of: the blocks of an epoch mostly have the same ones.

ghost use Rattle.std.specs.Prelude.{◌≡◌, ◌≤◌, ◌^◌, IsTrue, IfOk};
ghost use Rattle.bc_preset.specs.Presets.{IsPreset};
ghost use Rattle.spec_state.specs.Accessors.{get_current_epoch, get_previous_epoch, get_seed};
ghost use Rattle.spec_state.specs.inside.EpochCommittees.{epoch_committees};
ghost use Rattle.spec_state.specs.Constants.{domain_beacon_attester};

use crate::active_lists::are_active;
use balance_totals::{active, current_epoch, previous_epoch, shared_committees};
use bc_preset::Preset;
use bc_words::NoMemory;
use beacon_state::State;
use committees::{DOMAIN_BEACON_ATTESTER, EpochCommittees, seed_of};
use hash_tree::Root;
use std::alloc::Global;
use std::marker::Model;
use std::rc::Rc;

/// The committees of an epoch, which kept attestations share, and what they were made of. Clauses see the committees.
pub(crate) struct Made {
    preset: Preset,
    seed: Root,
    active: Vec<u64>,
    committees: Rc<EpochCommittees>,
}

// Written by hand, so that a call that lets one go is one call, and not one for each of its parts.
impl Drop for Made {
    fn drop(self) {
        let Made {
            preset: _,
            seed: _,
            active,
            committees,
        } = self;
        drop(active);
        drop(committees);
    }
}

impl Model for Made {
    ghost use Rattle.std.specs.Prelude.{◌≡◌};
    ghost use Rattle.bc_preset.specs.Presets.{IsPreset};
    ghost use Rattle.committees.specs.Committees.{Committees, committees_of};

    ghost Value = { Committees };

    ghost view = { λ made. made.committees.value };

    ghost invariant = { λ made. IsPreset made.preset × (made.committees.value ≡ committees_of made.preset made.seed made.active.items) };
}

/// The seed of the committees of an epoch, which is at most 2^61.
fn attester_seed(state: &State, epoch: u64) -> Root
    requires { epoch ≤ 2 ^ 61 }
    ensures { result ≡ get_seed state.now epoch domain_beacon_attester }
{
    seed_of(state, epoch, DOMAIN_BEACON_ATTESTER)
}

/// Whether two presets are the same.
#[tactic(auto, using(crate::proofs::Presets::same_preset))]
fn is_same_preset(a: &Preset, b: &Preset) -> bool
    requires a { IsPreset a.now }
    requires b { IsPreset b.now }
    ensures { IsTrue result → a.now ≡ b.now }
{
    a.slots_per_epoch == b.slots_per_epoch
}

/// Whether two seeds are the same.
fn is_same_seed(a: &Root, b: &Root) -> bool
    ensures { IsTrue result → a.now ≡ b.now }
{
    *a == *b
}

impl Made {
    /// The committees, to be shared.
    pub(crate) fn committees(&self) -> &Rc<EpochCommittees>
        ensures { result.now.value ≡ self.now }
    {
        &self.committees
    }

    /// Whether they are those of an epoch of the state.
    fn is_of(&self, state: &State, epoch: u64) -> bool
        requires { epoch ≤ 2 ^ 61 }
        ensures { IsTrue result → self.now ≡ epoch_committees state.now epoch }
    {
        is_same_preset(&self.preset, state.preset())
            && is_same_seed(&self.seed, &attester_seed(state, epoch))
            && are_active(state, epoch, &self.active, epoch, &self.active)
    }

    /// Makes those of an epoch of the state.
    fn make(alloc: Global, state: &State, epoch: u64) -> Result<Made, NoMemory>
        requires { epoch ≤ 2 ^ 61 }
        ensures { IfOk result (λ made. made ≡ epoch_committees state.now epoch) }
    {
        let preset = *state.preset();
        let active = active(alloc, state, epoch)?;
        let committees = shared_committees(alloc, state, epoch)?;
        Ok(Made {
            preset,
            seed: attester_seed(state, epoch),
            active,
            committees,
        })
    }
}

/// Whether these are the committees of the previous and the current epoch of the state, which takes one pass over its registry.
pub(crate) fn are_recent(previous: &Made, current: &Made, state: &State) -> bool
    ensures previous { IsTrue result → previous.now ≡ epoch_committees state.now (get_previous_epoch state.now) }
    ensures current { IsTrue result → current.now ≡ epoch_committees state.now (get_current_epoch state.now) }
{
    let before = previous_epoch(state);
    let now = current_epoch(state);
    is_same_preset(&previous.preset, state.preset())
        && is_same_preset(&current.preset, state.preset())
        && is_same_seed(&previous.seed, &attester_seed(state, before))
        && is_same_seed(&current.seed, &attester_seed(state, now))
        && are_active(state, before, &previous.active, now, &current.active)
}

/// The committees of an epoch of the state: the kept ones where these are its own, and else new ones.
pub(crate) fn committees_of(
    alloc: Global,
    state: &State,
    epoch: u64,
    kept: Option<Made>,
) -> Result<Made, NoMemory>
    requires { epoch ≤ 2 ^ 61 }
    ensures { IfOk result (λ made. made ≡ epoch_committees state.now epoch) }
{
    if let Some(made) = kept {
        if made.is_of(state, epoch) {
            return Ok(made);
        }
    }
    Made::make(alloc, state, epoch)
}
