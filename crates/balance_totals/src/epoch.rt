//! The committees of an epoch of a state.

ghost use Rattle.std.specs.Prelude.{◌≡◌, ◌≤◌, ◌^◌, IfOk};
ghost use Rattle.spec_state.specs.Accessors.{get_committee_count_per_slot, get_seed};
ghost use Rattle.spec_state.specs.inside.EpochCommittees.{epoch_committees};
ghost use Rattle.spec_state.specs.Constants.{domain_beacon_attester};
ghost use Rattle.balance_totals.specs.inside.PerSlot.{ArePublished};

use crate::totals::{active, active_are_indices, keep_active};
use bc_words::NoMemory;
use beacon_state::State;
use committees::{DOMAIN_BEACON_ATTESTER, EpochCommittees, Lookup, seed_of};
use hash_tree::Root;
use std::alloc::Global;
use std::rc::Rc;

/// The seed of the committees of an epoch, which is at most 2^61.
fn attester_seed(state: &State, epoch: u64) -> Root
    requires { epoch ≤ 2 ^ 61 }
    ensures { result ≡ get_seed state.now epoch domain_beacon_attester }
{
    seed_of(state, epoch, DOMAIN_BEACON_ATTESTER)
}

/// The committees of an epoch of the state, which is at most 2^61: for each slot of it and each index below
/// `get_committee_count_per_slot`, the one that `get_beacon_committee` gives (beacon-chain.md).
#[tactic(auto, using(spec_state::proofs::BeaconCommittees::count_is_published, spec_state::proofs::BeaconCommittees::committee_is_published))]
pub fn committees_of_epoch(
    alloc: Global,
    state: &State,
    epoch: u64,
) -> Result<EpochCommittees, NoMemory>
    requires { epoch ≤ 2 ^ 61 }
    ensures exact { IfOk result (λ committees. committees ≡ epoch_committees state.now epoch) }
    ensures per_slot { IfOk result (λ committees. committees.per_slot ≡ get_committee_count_per_slot state.now epoch) }
    ensures published { IfOk result (λ committees. ArePublished state.now epoch committees) }
{
    let preset = Lookup::preset(state);
    let seed = attester_seed(state, epoch);
    let active = active(alloc, state, epoch)?;
    active_are_indices(state, epoch);
    EpochCommittees::new(alloc, active, &seed, preset)
}

/// The same committees, to be shared: those that the state keeps, and else new ones.
#[tactic(auto, using(spec_state::proofs::BeaconCommittees::count_is_published, spec_state::proofs::BeaconCommittees::committee_is_published))]
pub fn shared_committees(
    alloc: Global,
    state: &State,
    epoch: u64,
) -> Result<Rc<EpochCommittees>, NoMemory>
    requires { epoch ≤ 2 ^ 61 }
    ensures { IfOk result (λ committees. committees.value ≡ epoch_committees state.now epoch) }
{
    let seed = attester_seed(state, epoch);
    match state.kept_committees(epoch, &seed) {
        Some(kept) => Ok(kept.clone()?),
        None => Ok(Rc::new(alloc, committees_of_epoch(alloc, state, epoch)?)?),
    }
}

/// The state keeps the committees of an epoch, which is at most 2^61, and the list of the active validators that they are made of,
/// and goes on with those that it has. Where memory is refused it may keep the list alone.
pub fn keep_committees(alloc: Global, state: &mut State, epoch: u64) -> Result<(), NoMemory>
    requires { epoch ≤ 2 ^ 61 }
    ensures { state.new ≡ state.old }
{
    keep_active(alloc, state, epoch)?;
    let seed = attester_seed(state, epoch);
    if state.kept_committees(epoch, &seed).is_some() {
        return Ok(());
    }
    let committees = committees_of_epoch(alloc, state, epoch)?;
    state.keep_committees(alloc, epoch, &seed, committees)
}

/// The committees of an epoch, which is at most 2^61, as the state keeps them from then on. Where memory is refused it may keep the
/// list alone.
pub fn kept_committees(
    alloc: Global,
    state: &mut State,
    epoch: u64,
) -> Result<Rc<EpochCommittees>, NoMemory>
    requires { epoch ≤ 2 ^ 61 }
    ensures same { state.new ≡ state.old }
    ensures committees { IfOk result (λ committees. committees.value ≡ epoch_committees state.old epoch) }
{
    keep_committees(alloc, state, epoch)?;
    shared_committees(alloc, state, epoch)
}
