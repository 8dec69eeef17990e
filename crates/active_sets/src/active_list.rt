//! The list of an epoch's active validators, which states share.

ghost use Rattle.std.specs.Prelude.{◌≡◌, ◌<◌, ◌++◌, ◌∷◌, [], List, length, slice_get, slice_set, IfOk, IfSome, IsTrue, None};
ghost use Rattle.beacon_types.specs.declared.validator.Validator.{Validator};
ghost use Rattle.spec_state.specs.Predicates.{is_active_validator};
ghost use Rattle.validator_registry.specs.Registries.{with_balances};
ghost use Rattle.active_sets.specs.inside.Active.{IsActiveIn};

use crate::predicates::{is_active_entry, is_active_validator};
use bc_words::NoMemory;
use beacon_types::Validator;
use std::alloc::Global;
use std::marker::Model;
use std::rc::Rc;
use validator_registry::{Entry, Registry};

/// The indices of the validators that are active at an epoch, in order, and the sum of their effective balances, in Gwei, where it
/// was noted.
#[derive(Drop)]
pub struct ActiveList {
    epoch: u64,
    indices: Rc<Vec<u64>>,
    balance: Option<u64>,
}

impl Model for ActiveList {
    ghost use Rattle.active_sets.specs.inside.Active.{Listed};

    ghost Value = { Listed };

    ghost view = { λ list. record { epoch = list.epoch; indices = list.indices.value.items; balance = list.balance } };
}

impl ActiveList {
    /// These indices, listed for an epoch.
    pub fn new(alloc: Global, epoch: u64, indices: Vec<u64>) -> Result<ActiveList, NoMemory>
        ensures { IfOk result (λ list. list ≡ record { epoch = epoch; indices = indices.items; balance = None }) }
    {
        let indices = Rc::new(alloc, indices)?;
        Ok(ActiveList {
            epoch,
            indices,
            balance: None,
        })
    }

    /// The epoch.
    pub fn epoch(&self) -> u64
        ensures { result ≡ self.now.epoch }
    {
        self.epoch
    }

    /// The indices.
    pub fn indices(&self) -> &[u64]
        ensures { result.now ≡ self.now.indices }
    {
        &self.indices
    }

    /// The indices, to be shared.
    pub fn shared(&self) -> Result<Rc<Vec<u64>>, NoMemory>
        ensures { IfOk result (λ indices. indices.value.items ≡ self.now.indices) }
    {
        Ok(self.indices.clone()?)
    }

    /// The sum, where it was noted.
    pub fn balance(&self) -> Option<u64>
        ensures { result ≡ self.now.balance }
    {
        self.balance
    }

    /// Notes the sum.
    pub fn note_balance(&mut self, balance: Option<u64>)
        ensures { self.new ≡ record self.old { balance = balance } }
    {
        self.balance = balance;
    }

    /// The same list, whose indices are shared.
    pub fn share(&self) -> Result<ActiveList, NoMemory>
        ensures { IfOk result (λ list. list ≡ self.now) }
    {
        let indices = self.indices.clone()?;
        Ok(ActiveList {
            epoch: self.epoch,
            indices,
            balance: self.balance,
        })
    }
}

impl ActiveList {
    /// The same list, which shares the indices of another one where they are equal, as those of one epoch and the next mostly are.
    pub(crate) fn beside(self, other: &ActiveList) -> Result<ActiveList, NoMemory>
        ensures { IfOk result (λ list. list ≡ self) }
    {
        if self.indices() != other.indices() {
            return Ok(self);
        }
        let indices = other.indices.clone()?;
        Ok(ActiveList {
            epoch: self.epoch,
            indices,
            balance: self.balance,
        })
    }
}

/// Whether a validator is active at an epoch exactly where the one is whose place it takes.
fn is_active_alike(before: &Entry, after: &Validator, epoch: u64) -> bool
    ensures { IsTrue result → is_active_validator before.now epoch ≡ is_active_validator after.now epoch }
{
    is_active_entry(before, epoch) == is_active_validator(after, epoch)
}

/// The list, so far as it stays true where a validator takes the place of another one.
#[tactic(auto, using(crate::proofs::Following::list_at, crate::proofs::Following::balance_at))]
fn changed_at(
    list: ActiveList,
    validators: &Registry,
    i: u64,
    validator: &Validator,
) -> Option<ActiveList>
    requires place { i < length validators.now }
    requires active { IsActiveIn validators.now list }
    ensures before { IfSome result (IsActiveIn validators.now) }
    ensures behind { (registry : List Validator) → slice_get registry i ≡ slice_get validators.now i → IsActiveIn registry list → IfSome result (IsActiveIn (slice_set registry i validator.now)) }
{
    let mut list = list;
    let Some(before) = validators.get(i) else {
        return None;
    };
    if !is_active_alike(&before, validator, list.epoch()) {
        return None;
    }
    if before.effective_balance() != validator.effective_balance {
        list.note_balance(None);
        return Some(list);
    }
    Some(list)
}

/// The list, where it stays true once a validator is put behind the others.
#[tactic(auto, using(crate::proofs::Following::list_behind, crate::proofs::Following::balance_behind))]
fn pushed_behind(
    list: ActiveList,
    validators: &Registry,
    validator: &Validator,
) -> Option<ActiveList>
    requires { IsActiveIn validators.now list }
    ensures before { IfSome result (IsActiveIn validators.now) }
    ensures behind { IfSome result (IsActiveIn (validators.now ++ validator.now ∷ [])) }
{
    if is_active_validator(validator, list.epoch()) {
        return None;
    }
    Some(list)
}

/// Gives a kept list up so far as it isn't true any longer once a validator takes a place of the registry, or of one that has the
/// same validator there.
pub(crate) fn follow_set(
    kept: &mut Option<ActiveList>,
    validators: &Registry,
    i: u64,
    validator: &Validator,
)
    requires place { i < length validators.now }
    requires active { IfSome kept.old (IsActiveIn validators.now) }
    ensures before { IfSome kept.new (IsActiveIn validators.now) }
    ensures behind { (registry : List Validator) → slice_get registry i ≡ slice_get validators.now i → IfSome kept.old (IsActiveIn registry) → IfSome kept.new (IsActiveIn (slice_set registry i validator.now)) }
{
    if let Some(list) = kept.take() {
        *kept = changed_at(list, validators, i, validator);
    }
}

/// Gives the sum of a kept list up where an effective balance changes.
#[tactic(auto, using(crate::proofs::Rebalanced::list_still))]
pub(crate) fn follow_balances(
    kept: &mut Option<ActiveList>,
    validators: &Registry,
    changes: &[(u64, u64)],
)
    requires { IfSome kept.old (IsActiveIn validators.now) }
    ensures before { IfSome kept.new (IsActiveIn validators.now) }
    ensures behind { IfSome kept.new (IsActiveIn (with_balances validators.now changes.now)) }
{
    if changes.is_empty() {
        return;
    }
    if let Some(list) = kept {
        list.note_balance(None);
    }
}

/// Gives a kept list up where it isn't true of the registry any longer once a validator is put behind the others.
pub(crate) fn follow_push(
    kept: &mut Option<ActiveList>,
    validators: &Registry,
    validator: &Validator,
)
    requires { IfSome kept.old (IsActiveIn validators.now) }
    ensures before { IfSome kept.new (IsActiveIn validators.now) }
    ensures behind { IfSome kept.new (IsActiveIn (validators.now ++ validator.now ∷ [])) }
{
    if let Some(list) = kept.take() {
        *kept = pushed_behind(list, validators, validator);
    }
}
