//! Names that a shelf was asked for.

ghost use Rattle.std.specs.Prelude.{◌≡◌, ◌++◌, ℕ, List, [], ◌∷◌, IfOk, OnOk, OnErr};

use std::alloc::{AllocError, Global};
use std::marker::Model;
use std::snapshot::Snapshot;

/// The name of a file that was asked for.
#[derive(Drop)]
pub struct AskedName {
    bytes: Vec<u8>,
}

impl Model for AskedName {
    ghost Value = { List ℕ };

    ghost view = { λ name. name.bytes.items };
}

impl AskedName {
    /// A copy of this name.
    pub fn new(alloc: Global, name: &str) -> Result<Self, AllocError>
        ensures { IfOk result (λ asked. asked ≡ name.now) }
    {
        match Vec::from_slice(alloc, name.as_bytes()) {
            Ok(bytes) => Ok(AskedName { bytes }),
            Err(refused) => Err(refused),
        }
    }

    /// The bytes of the name.
    pub fn as_bytes(&self) -> &[u8]
        ensures { result.now ≡ self.now }
    {
        &self.bytes
    }
}

/// Keeps a name behind those that were asked for before, and shows it to contracts.
pub fn ask(
    alloc: Global,
    asked: &mut Vec<AskedName>,
    name: &str,
) -> Result<Snapshot<AskedName>, AllocError>
    ensures given { IfOk result (λ given. given.value ≡ name.now) }
    ensures kept { OnOk result (asked.new.items ≡ asked.old.items ++ (name.now ∷ [])) }
    ensures unless { OnErr result (asked.new.items ≡ asked.old.items) }
{
    match AskedName::new(alloc, name) {
        Ok(copy) => {
            let given = Snapshot::of(&copy);
            match asked.push(copy) {
                Ok(()) => Ok(given),
                Err(_refused) => Err(AllocError),
            }
        }
        Err(refused) => Err(refused),
    }
}
