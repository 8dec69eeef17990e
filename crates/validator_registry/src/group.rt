//! A group of sixteen validators, the last one of a registry with fewer.
//!
//! Validators come from `registry`, and the group's root goes to the tree over it. The effective balances stand beside the rest,
//! so that groups with other balances share all else. Inner nodes and the roots of validators aren't kept.

ghost use Rattle.std.specs.Prelude.{◌≡◌, ◌<◌, ◌≤◌, [], ◌∷◌, ◌++◌, length, slice_get, slice_set, IfOk};
ghost use Rattle.validator_registry.specs.Registries.{with_balance};
ghost use Rattle.validator_registry.specs.inside.Groups.{validators_of, group_root, IsGroup};

use crate::entries::Entries;
use crate::entry::Entry;
use crate::member::Member;
use crate::owners::write_owner_roots;
use crate::roots::root_of_members;
use bc_words::NoMemory;
use beacon_types::Validator;
use hash_tree::{Leaf, Root};
use std::alloc::Global;
use std::marker::Model;
use std::rc::Rc;

/// The validators of a group, which contracts see as their list.
#[derive(Drop)]
pub struct Group {
    members: Rc<Vec<Member>>,
    balances: [u64; 16],
}

impl Model for Group {
    ghost use Rattle.std.specs.Prelude.{List};
    ghost use Rattle.beacon_types.specs.declared.validator.Validator.{Validator};

    ghost Value = { List Validator };

    ghost use Rattle.validator_registry.specs.inside.Groups.{validators_of, IsGroup};

    ghost view = { λ group. validators_of group.members.value.items group.balances };

    ghost invariant = { λ group. IsGroup group.members.value.items group.balances };
}

/// The members, with another one at a place.
fn members_with(
    members: &[Member],
    at: usize,
    member: Member,
    alloc: Global,
) -> Result<Vec<Member>, NoMemory>
    requires { at < length members.now }
    ensures { IfOk result (λ copy. copy.items ≡ slice_set members.now at member) }
{
    let mut copy = Vec::with_capacity(alloc, members.len())?;
    copy.extend_from_slice(members)?;
    copy[at] = member;
    Ok(copy)
}

/// The members, with one more behind the last.
fn members_and(members: &[Member], member: Member, alloc: Global) -> Result<Vec<Member>, NoMemory>
    ensures { IfOk result (λ copy. copy.items ≡ members.now ++ member ∷ []) }
{
    let mut copy = Vec::with_capacity(alloc, members.len() + 1)?;
    copy.extend_from_slice(members)?;
    copy.push(member)?;
    Ok(copy)
}

/// The validator at a place of the members with their balances. None exactly where there is none.
#[tactic(auto, using(crate::proofs::Members::no_validator))]
fn entry_at<'a>(members: &'a [Member], balances: &[u64; 16], at: usize) -> Option<Entry<'a>>
    requires { IsGroup members.now balances.now }
    ensures { result ≡ slice_get (validators_of members.now balances.now) at }
{
    match members.get(at) {
        Some(member) => Some(Entry {
            member,
            effective_balance: balances[at],
        }),
        None => None,
    }
}

impl Group {
    /// The group of at most sixteen validators.
    pub fn of(validators: &[Validator], alloc: Global) -> Result<Group, NoMemory>
        requires { length validators.now ≤ 16 }
        ensures { IfOk result (λ group. group ≡ validators.now) }
    {
        let count = validators.len();
        let mut owners = [[0; 32]; 16];
        write_owner_roots(validators, &mut owners[..count]);
        let mut members = Vec::with_capacity(alloc, count)?;
        let mut balances = [0; 16];
        'members: for k in 0..count {
            members.push(Member::with(&validators[k], owners[k]))?;
            balances[k] = validators[k].effective_balance;
        }
        let members = Rc::new(alloc, members)?;
        Ok(Group { members, balances })
    }

    /// How many validators there are.
    pub fn len(&self) -> usize
        ensures len { result ≡ length self.now }
        ensures few { result ≤ 16 }
    {
        self.members.len()
    }

    /// The validator at a place. None exactly where there is none.
    pub fn get(&self, at: usize) -> Option<Entry<'_>>
        ensures { result ≡ slice_get self.now at }
    {
        entry_at(&self.members, &self.balances, at)
    }

    /// The validators in order.
    pub fn entries(&self) -> Entries<'_>
        ensures { result ≡ self.now }
    {
        Entries::over(&self.members, &self.balances)
    }

    /// Writes another effective balance at a place, in Gwei.
    pub fn set_effective_balance(&mut self, at: usize, balance: u64)
        requires { at < length self.old }
        ensures { self.new ≡ with_balance self.old at balance }
    {
        let _len = self.len();
        self.balances[at] = balance;
    }

    /// The group with another validator at a place.
    pub fn with(&self, at: usize, validator: &Validator, alloc: Global) -> Result<Group, NoMemory>
        requires { at < length self.now }
        ensures { IfOk result (λ group. group ≡ slice_set self.now at validator.now) }
    {
        let _len = self.len();
        let members = members_with(&self.members, at, Member::of(validator), alloc)?;
        let mut balances = self.balances;
        balances[at] = validator.effective_balance;
        let members = Rc::new(alloc, members)?;
        Ok(Group { members, balances })
    }

    /// The group with one more validator behind the last.
    pub fn with_more(&self, validator: &Validator, alloc: Global) -> Result<Group, NoMemory>
        requires { length self.now < 16 }
        ensures { IfOk result (λ group. group ≡ self.now ++ validator.now ∷ []) }
    {
        let len = self.len();
        let members = members_and(&self.members, Member::of(validator), alloc)?;
        let mut balances = self.balances;
        balances[len] = validator.effective_balance;
        let members = Rc::new(alloc, members)?;
        Ok(Group { members, balances })
    }

    /// An equal group, which shares all but the effective balances.
    pub fn share(&self) -> Result<Group, NoMemory>
        ensures { IfOk result (λ group. group ≡ self.now) }
    {
        Ok(Group {
            members: self.members.clone()?,
            balances: self.balances,
        })
    }
}

impl Leaf for Group {
    ghost root_of = { group_root };

    fn root(&self) -> Root {
        let mut kept = None;
        root_of_members(&self.members, &self.balances, &mut kept)
    }

    /// What is hashed of members that are alike is kept from one group to the next.
    fn write_roots(groups: &[Group], out: &mut [Root]) {
        let mut kept = None;
        'groups: for i in 0..groups.len() {
            let group = &groups[i];
            out[i] = root_of_members(&group.members, &group.balances, &mut kept);
        }
    }
}
