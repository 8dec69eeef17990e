//! A small container of the state beside its root.
//!
//! The root is taken when the container is written, which is seldom, and not each time that the state is rooted.

ghost use Rattle.std.specs.Prelude.{◌≡◌};

use hash_tree::{Leaf, Root};
use std::marker::Model;

/// A value that keeps its root.
#[derive(Drop)]
pub struct Rooted<T: Leaf + Copy> {
    value: T,
    root: Root,
}

impl<T: Leaf + Copy> Model for Rooted<T> {
    ghost use Rattle.std.specs.Prelude.{◌≡◌};

    ghost Value = { T };

    ghost view = { λ r. r.value };

    ghost invariant = { λ r. r.root ≡ T.Leaf.root_of r.value };
}

impl<T: Leaf + Copy> Rooted<T> {
    /// The value with its root, which is taken.
    pub fn new(value: T) -> Rooted<T>
        ensures { result ≡ value }
    {
        let root = value.root();
        Rooted { value, root }
    }

    /// The value with its root, which is known.
    pub fn known(value: T, root: Root) -> Rooted<T>
        requires { root ≡ T.root_of value }
        ensures { result ≡ value }
    {
        Rooted { value, root }
    }

    /// The value.
    pub fn value(&self) -> &T
        ensures { result.now ≡ self.now }
    {
        &self.value
    }

    /// The root of the value, as it is kept.
    pub fn root(&self) -> Root
        ensures { result ≡ T.root_of self.now }
    {
        self.root
    }

    /// The value and its root once more.
    pub fn again(&self) -> Rooted<T>
        ensures { result ≡ self.now }
    {
        Rooted {
            value: self.value,
            root: self.root,
        }
    }
}
