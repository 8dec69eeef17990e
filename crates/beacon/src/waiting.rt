//! Lines that wait, so that many are written by one call of the operating system.
//!
//! The writer of a run puts its lines here. They are written where there is no room for one more, before more of a file is read,
//! so that no line waits for what comes later, and at the end.

ghost use Rattle.std.specs.Prelude.{◌≤◌, length, IfOk};

use std::alloc::Global;
use std::cell::Cell;
use std::io;
use std::io::{ErrorKind, Print};

/// How many bytes wait at most.
const ROOM: usize = 32_768;

/// How often the rest is written at the end while that is interrupted.
const PATIENCE: u32 = 1_000;

/// Bytes that wait for what the runtime prints to.
#[derive(Drop)]
pub struct Waiting<'a, R: Print> {
    to: &'a R,
    alloc: Global,
    bytes: Cell<Vec<u8>>,
    // How many of them, from the front, are written.
    written: Cell<usize>,
}

/// How many line feeds there are.
fn line_feeds(bytes: &[u8]) -> u64 {
    let mut count = 0u64;
    for byte in bytes {
        if *byte == b'\n' {
            count = count.saturating_add(1);
        }
    }
    count
}

impl<'a, R: Print> Waiting<'a, R> {
    /// Nothing waits.
    pub fn new(alloc: Global, to: &'a R) -> Self {
        Waiting {
            to,
            alloc,
            bytes: Cell::new(Vec::new(alloc)),
            written: Cell::new(0),
        }
    }

    /// How many lines end in what still waits.
    pub fn lines(&self) -> u64 {
        let bytes = self.bytes.replace(Vec::new(self.alloc));
        let lines = match bytes.get(self.written.get()..) {
            Some(rest) => line_feeds(rest),
            None => 0,
        };
        self.bytes.set(bytes);
        lines
    }

    // Writes the bytes from a place on, which is moved behind all that are written.
    fn write_from(&self, bytes: &[u8]) -> io::Result<()> {
        let mut at = self.written.get();
        while at < bytes.len() {
            let n = self.to.write_some(&bytes[at..])?;
            if n == 0 {
                return Err(ErrorKind::WriteZero.into());
            }
            at += n;
            self.written.set(at);
        }
        Ok(())
    }

    /// Writes all that waits. What a failure leaves unwritten waits on.
    pub fn flush(&self) -> io::Result<()> {
        let mut bytes = self.bytes.replace(Vec::new(self.alloc));
        let result = self.write_from(&bytes);
        if result.is_ok() {
            bytes.clear();
            self.written.set(0);
        }
        self.bytes.set(bytes);
        result
    }

    /// Writes all that waits at the end of a run, and asks again where that is interrupted.
    pub fn finish(&self) -> io::Result<()> {
        for _ in 0..PATIENCE {
            match self.flush() {
                Err(error) if error.kind() == ErrorKind::Interrupted => {}
                result => return result,
            }
        }
        self.flush()
    }

    // Puts the bytes behind those that wait, and answers whether there was room for all.
    fn put(&self, bytes: &[u8]) -> bool {
        let mut waiting = self.bytes.replace(Vec::new(self.alloc));
        let is_room = waiting.len() <= ROOM
            && bytes.len() <= ROOM - waiting.len()
            && waiting.extend_from_slice(bytes).is_ok();
        self.bytes.set(waiting);
        is_room
    }

    /// Takes bytes, from the front of these, and answers how many. Where there is no room, what waits is written first, and where
    /// there is none then, these are written too.
    pub fn take(&self, bytes: &[u8]) -> io::Result<usize>
        ensures { IfOk result (λ n. n ≤ length bytes.now) }
    {
        if self.put(bytes) {
            return Ok(bytes.len());
        }
        self.flush()?;
        if self.put(bytes) {
            return Ok(bytes.len());
        }
        self.to.write_some(bytes)
    }
}
