//! The validators of a registry in order.
//!
//! A walk over the groups holds what is left of the one in which it stands. It takes no memory.

ghost use Rattle.std.specs.Prelude.{◌≡◌};
ghost use Rattle.std.specs.Iterator.{YieldsFirst, item_count};
ghost use Rattle.validator_registry.specs.inside.Groups.{joined, AreGroups};

use crate::entries::Entries;
use crate::entry::Entry;
use crate::group::Group;
use std::marker::Model;
use tree_nodes::{Iter, Tree};

/// The validators of a registry in order. Contracts see what is left of them.
#[derive(Drop)]
pub struct Validators<'a> {
    groups: Iter<'a, Group>,
    entries: Entries<'a>,
}

impl<'a> Model for Validators<'a> {
    ghost use Rattle.std.specs.Prelude.{List, ◌++◌};
    ghost use Rattle.beacon_types.specs.declared.validator.Validator.{Validator};

    ghost Value = { List Validator };

    ghost use Rattle.validator_registry.specs.inside.Groups.{joined, AreGroups};

    ghost view = { λ walk. walk.entries ++ joined walk.groups };

    ghost invariant = { λ walk. AreGroups walk.groups };
}

impl<'a> Validators<'a> {
    /// The validators in the groups of a tree.
    pub(crate) fn over(tree: &'a Tree<Group>) -> Validators<'a>
        requires { AreGroups tree.now.1 }
        ensures { result ≡ joined tree.now.1 }
    {
        Validators {
            groups: tree.iter(),
            entries: Entries::over(&[], &[]),
        }
    }
}

impl<'a> Iterator for Validators<'a> {
    type Item = Entry<'a>;

    ghost next_gives = { YieldsFirst (λ left. left) };

    ghost remaining = { item_count (λ left. left) };

    fn next(&mut self) -> Option<Entry<'a>> {
        if let Some(entry) = self.entries.next() {
            return Some(entry);
        }
        let group = self.groups.next()?;
        self.entries = group.entries();
        self.entries.next()
    }
}
