//! The numbers of a list in order.
//!
//! A walk over the chunks holds what is left of the one in which it stands. It takes no memory.

ghost use Rattle.std.specs.Prelude.{◌≡◌};
ghost use Rattle.std.specs.Iterator.{YieldsFirst, item_count};
ghost use Rattle.shared_tree.specs.inside.Fours.{numbers_in};
ghost use Rattle.shared_tree.specs.inside.Turns.{Turns};

use crate::four::Four;
use std::marker::Model;
use tree_nodes::{Iter, Tree};

/// The numbers of a list in order. Contracts see what is left of them.
#[derive(Drop)]
pub struct Numbers<'a> {
    chunks: Iter<'a, Four>,
    left: u64,
    rest: &'a [u64],
}

impl<'a> Model for Numbers<'a> {
    ghost use Rattle.std.specs.Prelude.{ℕ, List};

    ghost Value = { List ℕ };

    ghost use Rattle.shared_tree.specs.inside.Turns.{numbers_left};

    ghost view = { λ walk. numbers_left walk.left walk.rest.now walk.chunks };
}

/// The next number, and those behind it in its chunk.
fn step<'a>(rest: &'a [u64], chunks: &mut Iter<'a, Four>) -> Option<(u64, &'a [u64])>
    ensures { Turns rest.now chunks.old result chunks.new }
{
    if let Some((number, rest)) = rest.split_first() {
        return Some((*number, rest));
    }
    match chunks.next() {
        Some(four) => Some(four.split()),
        None => None,
    }
}

impl<'a> Numbers<'a> {
    /// The first numbers in the chunks of a tree.
    pub(crate) fn over(tree: &'a Tree<Four>, len: u64) -> Numbers<'a>
        ensures { result ≡ numbers_in len tree.now.1 }
    {
        Numbers {
            chunks: tree.iter(),
            left: len,
            rest: &[],
        }
    }
}

impl<'a> Iterator for Numbers<'a> {
    type Item = u64;

    ghost next_gives = { YieldsFirst (λ left. left) };

    ghost remaining = { item_count (λ left. left) };

    fn next(&mut self) -> Option<u64> {
        if self.left == 0 {
            return None;
        }
        let rest = self.rest;
        let (number, rest) = step(rest, &mut self.chunks)?;
        self.rest = rest;
        self.left -= 1;
        Some(number)
    }
}
