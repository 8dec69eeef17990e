//! Whether a list is full of one value, as the vectors of roots of a genesis are.
//!
//! Values come from reading; where they are all the same, `values` makes a tree of one node a level.

ghost use Rattle.std.specs.Prelude.{◌≡◌, ◌≤◌, ◌^◌, length, replicate, IfSome, IsTrue};
ghost use Rattle.hash_tree.specs.Merkle.{depth_of as depth_for};

use crate::in_range::InRange;
use hash_tree::depth_of;

/// Whether all values are the same as this one.
fn are_same<T: InRange>(first: &T, values: &[T]) -> bool
    ensures { IsTrue result → values.now ≡ replicate (length values.now) first.now }
{
    for i in 0..values.len() {
        if !first.same(&values[i]) {
            return false;
        }
    }
    true
}

/// Whether a tree of some depth has so many leaves, and no more.
fn is_whole(limit: u64) -> bool
    requires { limit ≤ 2 ^ 40 }
    ensures { IsTrue result → 2 ^ depth_for limit ≡ limit }
{
    1u64 << depth_of(limit) == limit
}

/// The value that all are, where there are as many as there may be and a tree of some depth has so many leaves.
pub(crate) fn full_of_one<T: InRange>(values: &[T], limit: u64) -> Option<&T>
    requires { limit ≤ 2 ^ 40 }
    ensures { IfSome result (λ value. (2 ^ depth_for limit ≡ limit) × (values.now ≡ replicate limit value.now)) }
{
    if values.len() as u64 != limit || !is_whole(limit) {
        return None;
    }
    match values.first() {
        Some(first) => {
            if are_same(first, values) {
                Some(first)
            } else {
                None
            }
        }
        None => None,
    }
}
