//! The attestations of a block with who attested in them, by the state behind it.

ghost use Rattle.std.specs.Prelude.{◌≡◌, ◌⊎◌, ◌<◌, All, IfOk, map};
ghost use Rattle.spec_state.specs.Misc.{compute_epoch_at_slot};
ghost use Rattle.spec_state.specs.Accessors.{get_current_epoch, get_previous_epoch};
ghost use Rattle.spec_state.specs.inside.EpochCommittees.{epoch_committees};
ghost use Rattle.spec_forensics.specs.CarriedVotes.{WasProcessed};
ghost use Rattle.forensics.specs.inside.Carriers.{attested_in};

use crate::kept_attestation::KeptAttestation;
use crate::made::Made;
use crate::recent::{Recent, recent_of};
use balance_totals::current_epoch;
use bc_words::NoMemory;
use beacon_state::State;
use beacon_types::Attestation;
use committees::EpochCommittees;
use std::alloc::Global;
use std::rc::Rc;

/// The committees of the epoch of a slot, which is the previous or the current one.
#[tactic(auto, unfolding(spec_state::specs::Misc::compute_epoch_at_slot))]
fn committees_at<'a>(
    state: &State,
    previous: &'a Made,
    current: &'a Made,
    slot: u64,
) -> &'a Rc<EpochCommittees>
    requires previous { previous.now ≡ epoch_committees state.now (get_previous_epoch state.now) }
    requires current { current.now ≡ epoch_committees state.now (get_current_epoch state.now) }
    requires recent { (compute_epoch_at_slot state.now.preset slot ≡ get_previous_epoch state.now) ⊎ (compute_epoch_at_slot state.now.preset slot ≡ get_current_epoch state.now) }
    ensures { result.now.value ≡ epoch_committees state.now (compute_epoch_at_slot state.now.preset slot) }
{
    let preset = state.preset();
    preset.bounds();
    if slot / preset.slots_per_epoch == current_epoch(state) {
        current.committees()
    } else {
        previous.committees()
    }
}

/// An attestation that a state of the epoch processed, to be kept.
fn kept(
    state: &State,
    previous: &Made,
    current: &Made,
    attestation: &Attestation,
) -> Result<KeptAttestation, NoMemory>
    requires previous { previous.now ≡ epoch_committees state.now (get_previous_epoch state.now) }
    requires current { current.now ≡ epoch_committees state.now (get_current_epoch state.now) }
    requires processed { WasProcessed state.now attestation.now }
    ensures { IfOk result (λ kept. kept ≡ attested_in state.now attestation.now) }
{
    let _preset = state.preset();
    let committees = committees_at(state, previous, current, attestation.content.slot);
    KeptAttestation::new(attestation, committees)
}

/// Each of these attestations.
fn keep_each(
    alloc: Global,
    state: &State,
    previous: &Made,
    current: &Made,
    attestations: &[Attestation],
) -> Result<Vec<KeptAttestation>, NoMemory>
    requires previous { previous.now ≡ epoch_committees state.now (get_previous_epoch state.now) }
    requires current { current.now ≡ epoch_committees state.now (get_current_epoch state.now) }
    requires processed { All (WasProcessed state.now) attestations.now }
    ensures { IfOk result (λ all. all.items ≡ map (attested_in state.now) attestations.now) }
{
    let mut all = Vec::new(alloc);
    for attestation in attestations {
        all.push(kept(state, previous, current, attestation)?)?;
    }
    Ok(all)
}

/// The attesters of each.
pub(crate) fn list_attesters(
    alloc: Global,
    attestations: &[KeptAttestation],
) -> Result<Vec<Vec<u64>>, NoMemory>
    ensures { IfOk result (λ lists. map (λ l. l.items) lists.items ≡ map (λ kept. kept.attesters) attestations.now) }
{
    let mut lists = Vec::new(alloc);
    for kept in attestations {
        lists.push(kept.attesters(alloc)?)?;
    }
    Ok(lists)
}

/// Committees of the latest block's previous and current epoch.
#[derive(Drop)]
pub(crate) struct RecentCommittees {
    kept: Option<Recent>,
}

impl RecentCommittees {
    /// None.
    pub(crate) fn new() -> RecentCommittees {
        RecentCommittees { kept: None }
    }

    /// The attestations of a block, to be kept, by the state behind it. The committees of an epoch are mostly made once.
    pub(crate) fn keep(
        &mut self,
        alloc: Global,
        state: &State,
        attestations: &[Attestation],
    ) -> Result<Vec<KeptAttestation>, NoMemory>
        requires { All (WasProcessed state.now) attestations.now }
        ensures { IfOk result (λ all. all.items ≡ map (attested_in state.now) attestations.now) }
    {
        let recent = recent_of(alloc, state, self.kept.take())?;
        let all = keep_each(
            alloc,
            state,
            &recent.previous,
            &recent.current,
            attestations,
        )?;
        self.kept = Some(recent);
        Ok(all)
    }
}
