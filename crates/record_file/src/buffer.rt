//! The bytes that were taken of a record's file and not read yet.

ghost use Rattle.std.specs.Prelude.{◌≡◌, ◌==◌, ◌<◌, ◌≤◌, ◌+◌, ◌^◌, ◌++◌, ℕ, List, [], length, take, drop, IfOk, OnErr};
ghost use Rattle.bc_outside.specs.Calls.{HasCause, ShelfKeeps, Stays, Takes, meets_end};
ghost use Rattle.record_file.specs.inside.Fetched.{FetchesOnce};

use bc_outside::{Shelf, Trouble};
use std::alloc::Global;
use std::marker::Model;

// Reads once, at most that many bytes, and puts what came behind the bytes. After an error they are as before.
fn read_behind<F: Shelf>(
    shelf: &mut F,
    file: u32,
    bytes: &mut Vec<u8>,
    size: usize,
) -> Result<usize, Trouble>
    requires opened { file < length (F.told shelf.old).files }
    requires some { 0 < size }
    requires small { size < 2 ^ 32 }
    ensures count { IfOk result (λ n. length bytes.new.items ≡ length bytes.old.items + n) }
    ensures front { IfOk result (λ n. take (length bytes.old.items) bytes.new.items ≡ bytes.old.items) }
    ensures taken { IfOk result (λ n. Takes file (drop (length bytes.old.items) bytes.new.items) (n == 0) (F.told shelf.old) (F.told shelf.new)) }
    ensures err { OnErr result (bytes.new.items ≡ bytes.old.items) }
    ensures none { OnErr result (Stays (F.told shelf.old) (F.told shelf.new)) }
    ensures causes { HasCause result (F.told shelf.old).faults (F.told shelf.new).faults }
    ensures keeps { ShelfKeeps [] (F.told shelf.old) (F.told shelf.new) }
{
    let len = bytes.len();
    match bytes.resize(len + size, 0) {
        Ok(()) => {}
        Err(_refused) => return Err(Trouble::NoMemory),
    }
    match shelf.read(file, &mut bytes[len..]) {
        Ok(n) => {
            bytes.truncate(len + n);
            Ok(n)
        }
        Err(trouble) => {
            bytes.truncate(len);
            Err(trouble)
        }
    }
}

/// How many bytes are asked of a shelf at once.
const PIECE: usize = 32_768;

/// Bytes that were taken of a file and not read yet.
#[derive(Drop)]
pub struct Buffer {
    // The bytes from `start` on aren't read yet.
    bytes: Vec<u8>,
    start: usize,
}

impl Model for Buffer {
    ghost Value = { List ℕ };

    ghost view = { λ buffer. drop buffer.start buffer.bytes.items };

    ghost invariant = { λ buffer. buffer.start ≤ length buffer.bytes.items };
}

impl Buffer {
    /// A buffer without bytes.
    pub fn new(alloc: Global) -> Self
        ensures { result ≡ [] }
    {
        Buffer {
            bytes: Vec::new(alloc),
            start: 0,
        }
    }

    /// The bytes that aren't read yet.
    pub fn as_slice(&self) -> &[u8]
        ensures { result.now ≡ self.now }
    {
        &self.bytes[self.start..]
    }

    /// The first n bytes are read.
    pub fn read(&mut self, n: usize)
        requires { n ≤ length self.old }
        ensures { self.new ≡ drop n self.old }
    {
        self.start += n;
    }

    /// Takes more bytes of the file, and answers whether any came. None come at its end. After an error nothing was
    /// taken.
    pub fn more<F: Shelf>(&mut self, shelf: &mut F, file: u32) -> Result<bool, Trouble>
        requires { file < length (F.told shelf.old).files }
        ensures fetches { FetchesOnce result file self.old self.new (F.told shelf.old) (F.told shelf.new) }
        ensures causes { HasCause result (F.told shelf.old).faults (F.told shelf.new).faults }
        ensures keeps { ShelfKeeps [] (F.told shelf.old) (F.told shelf.new) }
    {
        drop_front(&mut self.bytes, self.start);
        self.start = 0;
        match read_behind(shelf, file, &mut self.bytes, PIECE) {
            Ok(n) => Ok(n > 0),
            Err(trouble) => Err(trouble),
        }
    }
}

// Drops the first n bytes.
fn drop_front(bytes: &mut Vec<u8>, n: usize)
    requires { n ≤ length bytes.old.items }
    ensures { bytes.new.items ≡ drop n bytes.old.items }
{
    if n == 0 {
        return;
    }
    let len = bytes.len();
    bytes.copy_within(n..len, 0);
    bytes.truncate(len - n);
}
