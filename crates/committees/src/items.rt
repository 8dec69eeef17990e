//! The items of a list while it is shuffled: in three bytes each where all of them fit and memory isn't refused, else in
//! 64 bits.

ghost use Rattle.std.specs.Prelude.{◌≡◌, ℕ, ◌+◌, ◌<◌, ◌≤◌, ◌^◌, List, length, Option, Some, None, IfSome};
ghost use Rattle.committees.specs.inside.Pass.{by_source, Passed};

use crate::planes::Planes;
use crate::wide::swap_wide;
use std::alloc::Global;
use std::marker::Model;

/// Items of a list, which contracts see as numbers.
#[derive(Drop)]
pub struct Items {
    list: Vec<u64>,
    narrow: Option<Planes>,
}

impl Model for Items {
    ghost Value = { List ℕ };

    ghost view = { λ s. elim s.narrow [ Some narrow ↦ narrow | None ↦ s.list.items ] };

    ghost invariant = { λ s. IfSome s.narrow (λ narrow. length narrow ≡ length s.list.items) };
}

impl Items {
    /// The items of a list.
    pub fn new(alloc: Global, list: Vec<u64>) -> Self
        ensures { result ≡ list.items }
    {
        let narrow = Planes::new(alloc, &list);
        Items { list, narrow }
    }

    /// How many there are.
    pub fn len(&self) -> usize
        ensures { result ≡ length self.now }
    {
        self.list.len()
    }

    /// Swaps the positions from `first` up to but not `last` with their mirror images where their bits are 1.
    pub fn swap_where_set(&mut self, sum: usize, first: usize, last: usize, source: &[u8; 32])
        requires ordered { first ≤ last }
        requires in_list { last ≤ length self.old }
        requires fits { length self.old ≤ 2 ^ 40 }
        requires earlier { sum < first + first }
        requires images { last ≤ sum + 1 }
        ensures passed { Passed (by_source source.now sum) sum first last self.old self.new }
        ensures length { length self.new ≡ length self.old }
    {
        match &mut self.narrow {
            Some(narrow) => narrow.swap_where_set(sum, first, last, source),
            None => swap_wide(&mut self.list, sum, first, last, source),
        }
    }

    /// The list.
    pub fn into_list(self) -> Vec<u64>
        ensures { result.items ≡ self }
    {
        let Items { mut list, narrow } = self;
        if let Some(narrow) = narrow {
            narrow.widen(&mut list);
        }
        list
    }
}
