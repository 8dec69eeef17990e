//! What an accepted block leaves beside the store.
//!
//! It comes from the store's handler of blocks, and goes to lines and to whoever follows justification.

ghost use Rattle.std.specs.Prelude.{◌≡◌};

use crate::made_step::Entered;
use hash_tree::Root;
use std::marker::Model;

/// The roots of an accepted block and of the state behind it, and the states on which epoch processing was entered on the way.
#[derive(Drop)]
pub struct BlockIn {
    /// The block's root.
    pub root: Root,
    /// The root of the state behind it.
    pub state_root: Root,
    /// The states on which epoch processing was entered, in order, which only clauses see.
    pub entered: Entered,
}

impl Model for BlockIn {
    ghost use Rattle.spec_fork_choice.specs.OnBlock.{BlockIn as PlainBlockIn};

    ghost Value = { PlainBlockIn };

    ghost view = { λ b. record { root = b.root; state_root = b.state_root; entered = b.entered } };

    ghost invariant = { λ b. Unit {0} };
}

impl BlockIn {
    /// The block's root.
    pub fn root(&self) -> Root
        ensures { result ≡ self.now.root }
    {
        self.root
    }

    /// The root of the state behind it.
    pub fn state_root(&self) -> Root
        ensures { result ≡ self.now.state_root }
    {
        self.state_root
    }
}
