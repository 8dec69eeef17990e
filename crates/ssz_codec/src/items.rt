//! A list of values, which contracts see as the list alone.

ghost use Rattle.std.specs.Prelude.{◌≡◌, [], ◌∷◌, ◌++◌, length, slice_get, OnOk, OnErr, IfOk};
ghost use Rattle.std.specs.Option.{option_map};

use bc_words::NoMemory;
use std::alloc::Global;
use std::marker::Model;

/// The values of a list or a vector, in order.
#[derive(Drop)]
pub struct Items<T> {
    values: Vec<T>,
}

impl<T> Model for Items<T> {
    ghost use Rattle.std.specs.Prelude.{List};

    ghost Value = { List T };

    ghost view = { λ items. items.values.items };
}

impl<T> Items<T> {
    /// The empty list.
    pub fn new(alloc: Global) -> Items<T>
        ensures { result ≡ [] }
    {
        Items {
            values: Vec::new(alloc),
        }
    }

    /// The list of these values.
    pub fn from_vec(values: Vec<T>) -> Items<T>
        ensures { result ≡ values.items }
    {
        Items { values }
    }

    /// The empty list, with room for so many values.
    pub(crate) fn with_room(alloc: Global, count: usize) -> Result<Items<T>, NoMemory>
        ensures { IfOk result (λ items. items ≡ []) }
    {
        match Vec::with_capacity(alloc, count) {
            Ok(values) => Ok(Items { values }),
            Err(_refused) => Err(NoMemory),
        }
    }

    /// The values of this list.
    pub fn into_vec(self) -> Vec<T>
        ensures { result.items ≡ self }
    {
        self.values
    }

    /// How many there are.
    pub fn len(&self) -> usize
        ensures { result ≡ length self.now }
    {
        self.values.len()
    }

    /// All of them.
    pub fn as_slice(&self) -> &[T]
        ensures { result.now ≡ self.now }
    {
        self.values.as_slice()
    }

    /// The value at this place, None exactly where there is none.
    pub fn get(&self, i: usize) -> Option<&T>
        ensures { option_map (λ x. x.now) result ≡ slice_get self.now i }
    {
        self.values.as_slice().get(i)
    }
}

impl<T: Drop> Items<T> {
    /// One more value at the end. Where memory is refused, the list is as before and the value is dropped.
    pub fn push(&mut self, value: T) -> Result<(), NoMemory>
        ensures ok { OnOk result (self.new ≡ self.old ++ value ∷ []) }
        ensures err { OnErr result (self.new ≡ self.old) }
    {
        match self.values.push(value) {
            Ok(()) => Ok(()),
            Err(_refused) => Err(NoMemory),
        }
    }
}

impl<T: Copy> Items<T> {
    /// The same values once more.
    pub fn copy(&self) -> Result<Items<T>, NoMemory>
        ensures { IfOk result (λ items. items ≡ self.now) }
    {
        match Vec::from_slice(*self.values.allocator(), &self.values) {
            Ok(values) => Ok(Items { values }),
            Err(_refused) => Err(NoMemory),
        }
    }
}
