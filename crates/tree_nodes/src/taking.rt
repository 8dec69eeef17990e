//! The items of a list, which are taken one after another.

ghost use Rattle.std.specs.Prelude.{◌≡◌, ◌<◌, ◌∷◌, length};
ghost use Rattle.std.specs.Vec.Iter.{into_iter_items};

use std::alloc::Global;
use std::vec::IntoIter;

/// The next of the items that are left, of which there is one or more.
pub fn next_of<T: Drop>(rest: &mut IntoIter<T, Global>) -> T
    requires { 0 < length (into_iter_items rest.old) }
    ensures { into_iter_items rest.old ≡ result ∷ into_iter_items rest.new }
{
    match rest.next() {
        Some(item) => item,
        None => unreachable!(),
    }
}
