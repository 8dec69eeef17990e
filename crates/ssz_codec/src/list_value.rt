//! What a list needs of its values to be copied and compared. The lists with a limit in their type use it; values come
//! from blocks and states.

ghost use Rattle.std.specs.Prelude.{◌≡◌, ◌++◌, ◌∷◌, [], OnOk, IfOk, IsTrue, ◌↔◌};

use crate::items::Items;
use bc_words::NoMemory;
use std::alloc::Global;

/// A value that can be copied, where memory may be refused, and compared.
pub trait ListValue: Drop {
    /// The same value once more.
    fn copied(&self) -> Result<Self, NoMemory>
        ensures { IfOk result (λ copy. copy ≡ self.now) };

    /// Whether it is the same value.
    fn same(&self, other: &Self) -> bool
        ensures { IsTrue result ↔ (self.now ≡ other.now) };
}

impl ListValue for [u8; 32] {
    fn copied(&self) -> Result<[u8; 32], NoMemory> {
        Ok(*self)
    }

    fn same(&self, other: &[u8; 32]) -> bool {
        self == other
    }
}

/// One more copy behind the others.
fn push_copy<T: ListValue>(value: &T, copies: &mut Items<T>) -> Result<(), NoMemory>
    ensures { OnOk result (copies.new ≡ copies.old ++ value.now ∷ []) }
{
    match value.copied() {
        Ok(copy) => copies.push(copy),
        Err(refused) => Err(refused),
    }
}

/// Copies of these values behind the others.
fn push_copies<T: ListValue>(values: &[T], copies: &mut Items<T>) -> Result<(), NoMemory>
    ensures { OnOk result (copies.new ≡ copies.old ++ values.now) }
{
    for value in values {
        match push_copy(value, copies) {
            Ok(()) => {}
            Err(refused) => return Err(refused),
        }
    }
    Ok(())
}

/// The same values once more.
pub(crate) fn copy_all<T: ListValue>(alloc: Global, values: &[T]) -> Result<Items<T>, NoMemory>
    ensures { IfOk result (λ copies. copies ≡ values.now) }
{
    let mut copies = Items::new(alloc);
    match push_copies(values, &mut copies) {
        Ok(()) => Ok(copies),
        Err(refused) => Err(refused),
    }
}

/// Whether these are the same values.
pub(crate) fn all_equal<T: ListValue>(a: &[T], b: &[T]) -> bool
    ensures { IsTrue result ↔ (a.now ≡ b.now) }
{
    if a.len() != b.len() {
        return false;
    }
    for i in 0..a.len() {
        if !a[i].same(&b[i]) {
            return false;
        }
    }
    true
}
