//! The lists that a state keeps.

ghost use Rattle.std.specs.Prelude.{◌≡◌, ◌<◌, ◌++◌, ◌∷◌, [], List, length, slice_set, IfOk, IfSome, Some};
ghost use Rattle.beacon_types.specs.declared.validator.Validator.{Validator};
ghost use Rattle.bc_words.specs.Outcome.{done};
ghost use Rattle.validator_registry.specs.Registries.{with_balances};
ghost use Rattle.active_sets.specs.inside.Active.{active_in, balance_in, IsActiveIn};
ghost use Rattle.active_sets.specs.inside.Kept.{AreActiveIn};

use crate::active_list::{ActiveList, follow_balances, follow_push, follow_set};
use bc_words::NoMemory;
use beacon_types::Validator;
use std::mem;
use std::rc::Rc;
use validator_registry::Registry;

/// The lists of two epochs at most.
#[derive(Drop)]
pub struct ActiveLists {
    latest: Option<ActiveList>,
    earlier: Option<ActiveList>,
}

/// The same list once more, where there is one.
fn share_list(kept: &Option<ActiveList>) -> Result<Option<ActiveList>, NoMemory>
    ensures { IfOk result (λ list. list ≡ kept.now) }
{
    match kept {
        Some(list) => Ok(Some(list.share()?)),
        None => Ok(None),
    }
}

/// A kept list, where it is of the epoch.
fn of_epoch(kept: &Option<ActiveList>, epoch: u64) -> Option<&ActiveList>
    ensures { IfSome result (λ list. kept.now ≡ Some list.now × (list.now.epoch ≡ epoch)) }
{
    match kept {
        Some(list) if list.epoch() == epoch => Some(list),
        _ => None,
    }
}

/// Notes the sum with a kept list, where that is of the epoch.
fn note(kept: &mut Option<ActiveList>, validators: &Registry, epoch: u64, balance: u64)
    requires kept { IfSome kept.old (IsActiveIn validators.now) }
    requires balance { balance_in validators.now epoch ≡ done balance }
    ensures { IfSome kept.new (IsActiveIn validators.now) }
{
    if let Some(list) = kept {
        if list.epoch() == epoch {
            list.note_balance(Some(balance));
        }
    }
}

impl ActiveLists {
    /// No list.
    pub fn none() -> ActiveLists
        ensures { (validators : List Validator) → AreActiveIn validators result }
    {
        ActiveLists {
            latest: None,
            earlier: None,
        }
    }

    /// The same lists, whose indices are shared.
    pub fn share(&self) -> Result<ActiveLists, NoMemory>
        ensures { IfOk result (λ lists. lists ≡ self.now) }
    {
        Ok(ActiveLists {
            latest: share_list(&self.latest)?,
            earlier: share_list(&self.earlier)?,
        })
    }

    /// The list of an epoch, where it is kept.
    fn list<'a>(&'a self, validators: &Registry, epoch: u64) -> Option<&'a ActiveList>
        requires { AreActiveIn validators.now self.now }
        ensures active { IfSome result (λ list. IsActiveIn validators.now list.now) }
        ensures epoch { IfSome result (λ list. list.now.epoch ≡ epoch) }
    {
        match of_epoch(&self.latest, epoch) {
            Some(list) => Some(list),
            None => of_epoch(&self.earlier, epoch),
        }
    }

    /// The indices of those who are active at an epoch in the registry, where they are kept.
    pub fn indices<'a>(&'a self, validators: &Registry, epoch: u64) -> Option<&'a [u64]>
        requires { AreActiveIn validators.now self.now }
        ensures { IfSome result (λ indices. indices.now ≡ active_in validators.now epoch) }
    {
        match self.list(validators, epoch) {
            Some(list) => Some(list.indices()),
            None => None,
        }
    }

    /// The same indices, to be shared.
    pub fn shared(
        &self,
        validators: &Registry,
        epoch: u64,
    ) -> Result<Option<Rc<Vec<u64>>>, NoMemory>
        requires { AreActiveIn validators.now self.now }
        ensures { IfOk result (λ shared. IfSome shared (λ indices. indices.value.items ≡ active_in validators.now epoch)) }
    {
        match self.list(validators, epoch) {
            Some(list) => Ok(Some(list.shared()?)),
            None => Ok(None),
        }
    }

    /// The sum of the effective balances of those who are active at an epoch in the registry, in Gwei, where it was noted.
    pub fn balance(&self, validators: &Registry, epoch: u64) -> Option<u64>
        requires { AreActiveIn validators.now self.now }
        ensures { IfSome result (λ balance. balance_in validators.now epoch ≡ done balance) }
    {
        match self.list(validators, epoch) {
            Some(list) => list.balance(),
            None => None,
        }
    }

    /// Notes that sum with the list of the epoch, where it is kept.
    pub fn note_balance(&mut self, validators: &Registry, epoch: u64, balance: u64)
        requires lists { AreActiveIn validators.now self.old }
        requires balance { balance_in validators.now epoch ≡ done balance }
        ensures { AreActiveIn validators.now self.new }
    {
        note(&mut self.latest, validators, epoch, balance);
        note(&mut self.earlier, validators, epoch, balance);
    }

    /// Keeps a list in the place of the one that is kept longest. Equal indices are kept once. Where memory is refused the lists are as
    /// before.
    pub fn keep(&mut self, validators: &Registry, list: ActiveList) -> Result<(), NoMemory>
        requires lists { AreActiveIn validators.now self.old }
        requires list { IsActiveIn validators.now list }
        ensures { AreActiveIn validators.now self.new }
    {
        let list = match &self.latest {
            Some(latest) => list.beside(latest)?,
            None => list,
        };
        self.earlier = mem::replace(&mut self.latest, Some(list));
        Ok(())
    }

    /// Gives up what isn't true of the registry any longer once a validator takes a place.
    pub fn follow_set(&mut self, validators: &Registry, i: u64, validator: &Validator)
        requires place { i < length validators.now }
        requires active { AreActiveIn validators.now self.old }
        ensures before { AreActiveIn validators.now self.new }
        ensures behind { AreActiveIn (slice_set validators.now i validator.now) self.new }
    {
        follow_set(&mut self.latest, validators, i, validator);
        follow_set(&mut self.earlier, validators, i, validator);
    }

    /// Gives up what isn't true of the registry any longer once effective balances change: the sums, where one does.
    pub fn follow_balances(&mut self, validators: &Registry, changes: &[(u64, u64)])
        requires { AreActiveIn validators.now self.old }
        ensures before { AreActiveIn validators.now self.new }
        ensures behind { AreActiveIn (with_balances validators.now changes.now) self.new }
    {
        follow_balances(&mut self.latest, validators, changes);
        follow_balances(&mut self.earlier, validators, changes);
    }

    /// Gives up what isn't true of the registry any longer once a validator is put behind the others.
    pub fn follow_push(&mut self, validators: &Registry, validator: &Validator)
        requires { AreActiveIn validators.now self.old }
        ensures before { AreActiveIn validators.now self.new }
        ensures behind { AreActiveIn (validators.now ++ validator.now ∷ []) self.new }
    {
        follow_push(&mut self.latest, validators, validator);
        follow_push(&mut self.earlier, validators, validator);
    }
}
