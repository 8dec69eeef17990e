//! Reading a named file whole.

ghost use Rattle.std.specs.Prelude.{◌≡◌, ◌<◌, ◌^◌, [], ◌∷◌, length};
ghost use Rattle.bc_outside.specs.Calls.{HasCause, ShelfKeeps};
ghost use Rattle.one_chain.specs.inside.Statuses.{unread};
ghost use Rattle.one_chain.specs.inside.Reading.{ReadsNamed};

use crate::status::Status;
use bc_outside::{Shelf, Trouble, read_at_most};
use std::alloc::Global;

/// Opens the file of this name, and reads it up to its end or the limit.
pub fn read_named<F: Shelf>(
    alloc: Global,
    shelf: &mut F,
    name: &str,
    limit: usize,
) -> Result<Vec<u8>, Trouble>
    requires { length (F.told shelf.old).files < 2 ^ 32 }
    ensures reads { ReadsNamed (λ bytes. bytes.items) name.now limit result (F.told shelf.old) (F.told shelf.new) }
    ensures causes { HasCause result (F.told shelf.old).faults (F.told shelf.new).faults }
    ensures keeps { ShelfKeeps (name.now ∷ []) (F.told shelf.old) (F.told shelf.new) }
{
    let file = shelf.open(name)?;
    read_at_most(alloc, shelf, file, limit)
}

/// The status of a file that could not be read.
pub fn unread(trouble: Trouble) -> Status
    ensures { result ≡ unread trouble }
{
    match trouble {
        Trouble::Failed => Status::ReadFault,
        Trouble::NoMemory => Status::NoMemory,
    }
}
