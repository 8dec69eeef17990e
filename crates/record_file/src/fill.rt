//! Taking bytes of a record's file until they show what comes next.

ghost use Rattle.std.specs.Prelude.{◌≡◌, ◌<◌, [], length, true, IfOk};
ghost use Rattle.bc_outside.specs.Calls.{HasCause, ShelfKeeps};
ghost use Rattle.record_file.specs.Record.{most_events};
ghost use Rattle.record_file.specs.inside.Found.{IsWhole, is_frame};
ghost use Rattle.record_file.specs.inside.Fetched.{Fills, Finds};

use crate::Version;
use crate::buffer::Buffer;
use crate::found::{Found, frame_at};
use bc_outside::{Shelf, Trouble};

/// Takes bytes of the file until the buffer has that many, or the file is at its end.
pub fn fill<F: Shelf>(
    buffer: &mut Buffer,
    shelf: &mut F,
    file: u32,
    want: usize,
) -> Result<(), Trouble>
    requires { file < length (F.told shelf.old).files }
    ensures fills { Fills result want file buffer.old buffer.new (F.told shelf.old) (F.told shelf.new) }
    ensures causes { HasCause result (F.told shelf.old).faults (F.told shelf.new).faults }
    ensures keeps { ShelfKeeps [] (F.told shelf.old) (F.told shelf.new) }
{
    while buffer.as_slice().len() < want {
        match buffer.more(shelf, file) {
            Ok(came) => {
                if !came {
                    return Ok(());
                }
            }
            Err(trouble) => return Err(trouble),
        }
    }
    Ok(())
}

/// Takes bytes of the file until the buffer shows what stands behind that many events.
pub fn find_frame<F: Shelf>(
    buffer: &mut Buffer,
    shelf: &mut F,
    file: u32,
    version: Version,
    events: u32,
) -> Result<Found, Trouble>
    requires { file < length (F.told shelf.old).files }
    ensures finds { Finds result version events file buffer.old buffer.new (F.told shelf.old) (F.told shelf.new) }
    ensures whole { IfOk result (λ found. IsWhole version found buffer.new) }
    ensures room { IfOk result (λ found. is_frame found ≡ true → events < most_events) }
    ensures causes { HasCause result (F.told shelf.old).faults (F.told shelf.new).faults }
    ensures keeps { ShelfKeeps [] (F.told shelf.old) (F.told shelf.new) }
{
    loop {
        let found = frame_at(version, events, buffer.as_slice());
        let whole = !found.is_short();
        if whole {
            return Ok(found);
        }
        match buffer.more(shelf, file) {
            Ok(came) => {
                if !came {
                    return Ok(found);
                }
            }
            Err(trouble) => return Err(trouble),
        }
    }
}
