//! Reading a whole file and writing all of a piece, over any shelf and any sink, however they cut it.

ghost use Rattle.std.specs.Prelude.{◌≡◌, ◌<◌, ◌≤◌, ◌++◌, [], length, take, IfOk, OnErr};
ghost use Rattle.bc_outside.specs.Calls.{HasCause, ShelfKeeps, SinkKeeps, Stays, Takes, TakesSome, ReadsUpTo, WritesAll, meets_end};

use crate::{Shelf, Sink, Trouble};
use std::alloc::{AllocError, Global};

/// How many bytes are asked of a shelf at once.
const PIECE: usize = 65_536;

// Reads into the piece once, and puts what came behind the bytes.
fn read_more<F: Shelf>(
    shelf: &mut F,
    file: u32,
    piece: &mut [u8],
    bytes: &mut Vec<u8>,
) -> Result<usize, Trouble>
    requires { file < length (F.told shelf.old).files }
    ensures within { IfOk result (λ n. n ≤ length piece.old) }
    ensures bytes { IfOk result (λ n. bytes.new.items ≡ bytes.old.items ++ take n piece.new) }
    ensures taken { IfOk result (λ n. Takes file (take n piece.new) (meets_end piece.old n) (F.told shelf.old) (F.told shelf.new)) }
    ensures err { OnErr result (TakesSome (length piece.old) file (F.told shelf.old) (F.told shelf.new)) }
    ensures causes { HasCause result (F.told shelf.old).faults (F.told shelf.new).faults }
    ensures keeps { ShelfKeeps [] (F.told shelf.old) (F.told shelf.new) }
{
    match bytes.reserve(piece.len()) {
        Ok(()) => {}
        Err(_refused) => return Err(Trouble::NoMemory),
    }
    match shelf.read(file, piece) {
        Ok(n) => match bytes.extend_from_slice(&piece[..n]) {
            Ok(()) => Ok(n),
            Err(_refused) => Err(Trouble::NoMemory),
        },
        Err(trouble) => Err(trouble),
    }
}

// A buffer of this many bytes.
fn buffer_of(alloc: Global, len: usize) -> Result<Vec<u8>, AllocError>
    ensures { IfOk result (λ buffer. length buffer.items ≡ len) }
{
    vec![in alloc; 0u8; len]
}

// Reads a file piece by piece, up to its end or the limit.
fn read_pieces<F: Shelf>(
    shelf: &mut F,
    file: u32,
    limit: usize,
    piece: &mut [u8],
    bytes: &mut Vec<u8>,
) -> Result<(), Trouble>
    requires file { file < length (F.told shelf.old).files }
    requires some { 0 < length piece.old }
    requires none { bytes.old.items ≡ [] }
    ensures reads { ReadsUpTo (λ _. bytes.new.items) limit file result (F.told shelf.old) (F.told shelf.new) }
    ensures causes { HasCause result (F.told shelf.old).faults (F.told shelf.new).faults }
    ensures keeps { ShelfKeeps [] (F.told shelf.old) (F.told shelf.new) }
{
    while bytes.len() < limit {
        let want = (limit - bytes.len()).min(piece.len());
        match read_more(shelf, file, &mut piece[..want], bytes) {
            Ok(n) => {
                let is_over = n == 0;
                if is_over {
                    return Ok(());
                }
            }
            Err(trouble) => return Err(trouble),
        }
    }
    Ok(())
}

/// Reads a file from the place where it stands, up to its end or the limit. A caller that allows n bytes passes
/// n + 1, to see that there are more.
pub fn read_at_most<F: Shelf>(
    alloc: Global,
    shelf: &mut F,
    file: u32,
    limit: usize,
) -> Result<Vec<u8>, Trouble>
    requires { file < length (F.told shelf.old).files }
    ensures reads { ReadsUpTo (λ bytes. bytes.items) limit file result (F.told shelf.old) (F.told shelf.new) }
    ensures causes { HasCause result (F.told shelf.old).faults (F.told shelf.new).faults }
    ensures keeps { ShelfKeeps [] (F.told shelf.old) (F.told shelf.new) }
{
    match buffer_of(alloc, PIECE) {
        Ok(mut piece) => {
            let mut bytes = Vec::new(alloc);
            match read_pieces(shelf, file, limit, &mut piece, &mut bytes) {
                Ok(()) => Ok(bytes),
                Err(trouble) => Err(trouble),
            }
        }
        Err(_refused) => Err(Trouble::NoMemory),
    }
}

/// Writes all of the bytes.
pub fn write_all<O: Sink>(sink: &mut O, bytes: &[u8]) -> Result<(), Trouble>
    ensures writes { WritesAll bytes.now result (O.told sink.old) (O.told sink.new) }
    ensures causes { HasCause result (O.told sink.old).faults (O.told sink.new).faults }
    ensures keeps { SinkKeeps (O.told sink.old) (O.told sink.new) }
{
    let mut written = 0;
    while written < bytes.len() {
        match sink.write(&bytes[written..]) {
            Ok(n) => written += n,
            Err(trouble) => return Err(trouble),
        }
    }
    Ok(())
}
