//! What a state keeps beside its fields: who is active at an epoch, what they weigh together, and their committees.
//!
//! Whoever walks over the registry gives it here, and each who shares the state from there on is lent it. No field of the state
//! says anything of it: it may be there or not.

ghost use Rattle.std.specs.Prelude.{◌≡◌, IfSome};
ghost use Rattle.bc_words.specs.Outcome.{done};
ghost use Rattle.committees.specs.Committees.{committees_of};
ghost use Rattle.spec_state.specs.Accessors.{get_active_validator_indices};
ghost use Rattle.active_sets.specs.inside.Active.{balance_in};

use super::State;
use active_sets::ActiveList;
use bc_words::NoMemory;
use committees::EpochCommittees;
use hash_tree::Root;
use std::alloc::Global;
use std::rc::Rc;

impl State {
    /// The indices of the validators that are active at an epoch (beacon-chain.md, `get_active_validator_indices`), where they
    /// are kept.
    #[tactic(auto, unfolding(spec_state::specs::Accessors::get_active_validator_indices, active_sets::specs::inside::Active::active_in))]
    pub fn active_list(&self, epoch: u64) -> Option<&[u64]>
        ensures { IfSome result (λ indices. indices.now ≡ get_active_validator_indices self.now epoch) }
    {
        self.fields
            .active_lists
            .indices(self.fields.validators.registry(), epoch)
    }

    /// Keeps the indices of the validators that are active at an epoch, in the place of those that are kept longest. Where memory
    /// is refused nothing changes.
    #[tactic(auto, unfolding(spec_state::specs::Accessors::get_active_validator_indices, active_sets::specs::inside::Active::active_in))]
    pub fn keep_active_list(
        &mut self,
        alloc: Global,
        epoch: u64,
        indices: Vec<u64>,
    ) -> Result<(), NoMemory>
        requires { indices.items ≡ get_active_validator_indices self.old epoch }
        ensures { self.new ≡ self.old }
    {
        let list = ActiveList::new(alloc, epoch, indices)?;
        let fields = &mut *self.fields;
        fields.active_lists.keep(fields.validators.registry(), list)
    }

    /// The sum of the effective balances of the validators that are active at an epoch, in Gwei, where it was noted.
    pub fn active_balance(&self, epoch: u64) -> Option<u64>
        ensures { IfSome result (λ balance. balance_in self.now.validators epoch ≡ done balance) }
    {
        self.fields
            .active_lists
            .balance(self.fields.validators.registry(), epoch)
    }

    /// Notes that sum with the list of the epoch, where this is kept.
    pub fn note_active_balance(&mut self, epoch: u64, balance: u64)
        requires { balance_in self.old.validators epoch ≡ done balance }
        ensures { self.new ≡ self.old }
    {
        let fields = &mut *self.fields;
        fields
            .active_lists
            .note_balance(fields.validators.registry(), epoch, balance);
    }

    /// The committees that a seed makes of the validators that are active at an epoch, where they are kept with their list.
    #[tactic(auto, unfolding(spec_state::specs::Accessors::get_active_validator_indices, active_sets::specs::inside::Active::active_in))]
    pub fn kept_committees(&self, epoch: u64, seed: &Root) -> Option<&Rc<EpochCommittees>>
        ensures { IfSome result (λ committees. committees.now.value ≡ committees_of self.now.preset seed.now (get_active_validator_indices self.now epoch)) }
    {
        match self.active_list(epoch) {
            Some(active) => self.fields.kept_committees.get(seed, active),
            None => None,
        }
    }

    /// Keeps the committees that a seed makes of the validators that are active at an epoch, where their list is kept, in the place
    /// of those that are kept longest. Where memory is refused nothing changes.
    #[tactic(auto, unfolding(spec_state::specs::Accessors::get_active_validator_indices, active_sets::specs::inside::Active::active_in))]
    pub fn keep_committees(
        &mut self,
        alloc: Global,
        epoch: u64,
        seed: &Root,
        committees: EpochCommittees,
    ) -> Result<(), NoMemory>
        requires { committees ≡ committees_of self.old.preset seed.now (get_active_validator_indices self.old epoch) }
        ensures { self.new ≡ self.old }
    {
        let fields = &mut *self.fields;
        match fields
            .active_lists
            .shared(fields.validators.registry(), epoch)?
        {
            Some(active) => fields.kept_committees.keep(alloc, seed, active, committees),
            None => Ok(()),
        }
    }
}
