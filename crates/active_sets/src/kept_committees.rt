//! The committees that a state keeps, with the seed and the active list that they were made of.
//!
//! They are lent where both are the same again, so nothing that changes a state has to give them up.

ghost use Rattle.std.specs.Prelude.{◌≡◌, IfOk, IfSome, IsTrue};
ghost use Rattle.bc_preset.specs.Presets.{IsPreset};
ghost use Rattle.committees.specs.Committees.{committees_of};
ghost use Rattle.active_sets.specs.inside.Made.{IsMadeBy};

use bc_preset::Preset;
use bc_words::NoMemory;
use committees::EpochCommittees;
use hash_tree::Root;
use std::alloc::Global;
use std::marker::Model;
use std::mem;
use std::rc::Rc;

/// The committees of an epoch, and what they were made of.
#[derive(Drop)]
pub(crate) struct Made {
    seed: Root,
    active: Rc<Vec<u64>>,
    committees: Rc<EpochCommittees>,
}

/// The committees of two epochs at most. Contracts see the preset by which they were made.
#[derive(Drop)]
pub struct KeptCommittees {
    preset: Preset,
    latest: Option<Made>,
    earlier: Option<Made>,
}

impl Model for KeptCommittees {
    ghost use Rattle.std.specs.Prelude.{IfSome};
    ghost use Rattle.bc_preset.specs.declared.presets.Preset.{Preset};

    ghost Value = { Preset };

    ghost use Rattle.active_sets.specs.inside.Made.{IsMadeBy};

    ghost view = { λ kept. kept.preset };

    ghost invariant = { λ kept. IfSome kept.latest (IsMadeBy kept.preset) × IfSome kept.earlier (IsMadeBy kept.preset) };
}

/// The same committees once more, where there are some.
fn share_made(kept: &Option<Made>) -> Result<Option<Made>, NoMemory>
    ensures { IfOk result (λ made. (preset : Preset) → IfSome kept.now (IsMadeBy preset) → IfSome made (IsMadeBy preset)) }
{
    match kept {
        Some(made) => Ok(Some(Made {
            seed: made.seed,
            active: made.active.clone()?,
            committees: made.committees.clone()?,
        })),
        None => Ok(None),
    }
}

/// Kept committees, where they were made of this seed and this list.
fn made_of<'a>(
    kept: &'a Option<Made>,
    seed: &Root,
    active: &[u64],
) -> Option<&'a Rc<EpochCommittees>>
    ensures { (preset : Preset) → IfSome kept.now (IsMadeBy preset) → IfSome result (λ committees. committees.now.value ≡ committees_of preset seed.now active.now) }
{
    match kept {
        Some(made) if made.seed == *seed && made.active.as_slice() == active => Some(
            &made.committees,
        ),
        _ => None,
    }
}

impl KeptCommittees {
    /// None, of a preset.
    pub fn none(preset: &Preset) -> KeptCommittees
        ensures { result ≡ preset.now }
    {
        KeptCommittees {
            preset: *preset,
            latest: None,
            earlier: None,
        }
    }

    /// The same committees, which are shared.
    pub fn share(&self) -> Result<KeptCommittees, NoMemory>
        ensures { IfOk result (λ kept. kept ≡ self.now) }
    {
        Ok(KeptCommittees {
            preset: self.preset,
            latest: share_made(&self.latest)?,
            earlier: share_made(&self.earlier)?,
        })
    }

    /// The committees that this seed and this active list make, where they are kept.
    pub fn get(&self, seed: &Root, active: &[u64]) -> Option<&Rc<EpochCommittees>>
        ensures { IfSome result (λ committees. committees.now.value ≡ committees_of self.now seed.now active.now) }
    {
        match made_of(&self.latest, seed, active) {
            Some(committees) => Some(committees),
            None => made_of(&self.earlier, seed, active),
        }
    }

    /// Keeps committees, which this seed and this active list make, in the place of those that are kept longest. Where memory is
    /// refused nothing changes.
    pub fn keep(
        &mut self,
        alloc: Global,
        seed: &Root,
        active: Rc<Vec<u64>>,
        committees: EpochCommittees,
    ) -> Result<(), NoMemory>
        requires { committees ≡ committees_of self.old seed.now active.value.items }
        ensures { self.new ≡ self.old }
    {
        let made = Made {
            seed: *seed,
            active,
            committees: Rc::new(alloc, committees)?,
        };
        self.earlier = mem::replace(&mut self.latest, Some(made));
        Ok(())
    }
}
