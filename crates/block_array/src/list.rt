//! Lists that grow: room is made first, and an item takes a place that is there.

ghost use Rattle.std.specs.Prelude.{◌≡◌, ◌<◌, ◌≤◌, ◌∷◌, ◌++◌, [], length, vec_capacity, OnOk};

use bc_words::NoMemory;

/// Makes room for so many items in all.
pub(crate) fn make_room<T: Drop>(items: &mut Vec<T>, places: usize) -> Result<(), NoMemory>
    ensures same { items.new.items ≡ items.old.items }
    ensures more { vec_capacity items.old ≤ vec_capacity items.new }
    ensures room { OnOk result (places ≤ vec_capacity items.new) }
{
    let len = items.len();
    if places <= len {
        return Ok(());
    }
    match items.reserve(places - len) {
        Ok(()) => Ok(()),
        Err(_refused) => Err(NoMemory),
    }
}

/// Puts an item behind the others. There is room for it.
pub(crate) fn push_item<T: Drop>(items: &mut Vec<T>, item: T)
    requires { length items.old.items < vec_capacity items.old }
    ensures pushed { items.new.items ≡ items.old.items ++ item ∷ [] }
    ensures room { vec_capacity items.old ≤ vec_capacity items.new }
{
    let _room = items.push(item);
}
