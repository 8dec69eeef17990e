//! The validators of a group in order.

ghost use Rattle.std.specs.Prelude.{◌≡◌};
ghost use Rattle.std.specs.Iterator.{YieldsFirst, item_count};
ghost use Rattle.validator_registry.specs.inside.Groups.{validators_of, FirstOf};

use crate::entry::Entry;
use crate::member::Member;
use std::marker::Model;

/// The validators of a group in order. Contracts see what is left of them.
#[derive(Drop)]
pub struct Entries<'a> {
    members: &'a [Member],
    balances: &'a [u64],
}

impl<'a> Model for Entries<'a> {
    ghost use Rattle.std.specs.Prelude.{List};
    ghost use Rattle.beacon_types.specs.declared.validator.Validator.{Validator};

    ghost Value = { List Validator };

    ghost use Rattle.validator_registry.specs.inside.Groups.{validators_of};

    ghost view = { λ walk. validators_of walk.members.now walk.balances.now };
}

/// The first of the validators that members are with balances, and those behind it.
#[tactic(auto, using(crate::proofs::Members::no_members, crate::proofs::Members::no_balances, crate::proofs::Members::first_member))]
fn first<'a>(members: &'a [Member], balances: &'a [u64]) -> Option<(Entry<'a>, Entries<'a>)>
    ensures { FirstOf (validators_of members.now balances.now) result }
{
    let Some((member, members)) = members.split_first() else {
        return None;
    };
    let Some((balance, balances)) = balances.split_first() else {
        return None;
    };
    let entry = Entry {
        member,
        effective_balance: *balance,
    };
    Some((entry, Entries { members, balances }))
}

impl<'a> Entries<'a> {
    /// The validators of members with their balances.
    pub(crate) fn over(members: &'a [Member], balances: &'a [u64]) -> Entries<'a>
        ensures { result ≡ validators_of members.now balances.now }
    {
        Entries { members, balances }
    }
}

impl<'a> Iterator for Entries<'a> {
    type Item = Entry<'a>;

    ghost next_gives = { YieldsFirst (λ left. left) };

    ghost remaining = { item_count (λ left. left) };

    fn next(&mut self) -> Option<Entry<'a>> {
        let (entry, rest) = first(self.members, self.balances)?;
        *self = rest;
        Some(entry)
    }
}
