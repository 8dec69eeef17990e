//! The trusted edge: files of the disk and standard output.
//!
//! What was handed out and taken is kept for contracts alone. Trusted is that an opened file is the one of its name, that
//! its reader gives its bytes in order and 0 only at its end, and that it doesn't change meanwhile.

ghost use Rattle.std.specs.Prelude.{◌≡◌, ◌<◌, ◌≤◌, ◌^◌, [], ◌∷◌, map, take, length, IfOk, OnErr, vec_len, vec_capacity, ◌+◌};
ghost use Rattle.std.specs.Io.KnownBytes.{ReadConsumes, WriteAppends};
ghost use Rattle.bc_outside.specs.Told.{FileHanded, more_of, opened_file};
ghost use Rattle.bc_outside.specs.Calls.{FailsOnlyBy, Opens, Reads, ShelfKeeps, SinkKeeps, Writes, meets_end};
ghost use Rattle.bc_outside.specs.inside.Tries.{Tries, no_faults};
ghost use Rattle.bc_outside.specs.inside.Disk.{DiskFile, DiskFiles, DiskBytes, disk_told, written_told, no_disk_files, left_of};

use crate::faults::FaultCounts;
use crate::names::{AskedName, ask};
use crate::seen::{nothing_seen, see};
use crate::shelf::meets_end;
use crate::{Shelf, Sink, Trouble, patience};
use std::alloc::{AllocError, Global};
use std::io::{Error, Read, Write};
use std::marker::Model;
use std::rt::Files;
use std::snapshot::Snapshot;

// A file that was opened, and what was handed out of it.
#[derive(Drop)]
struct DiskFile<F: Read + Drop> {
    reader: F,
    name: Snapshot<AskedName>,
    bytes: Vec<Snapshot<u8>>,
    ended: bool,
    grew: bool,
    // The place of its name among those that were asked for.
    place: usize,
}

impl<F: Read + Drop> Model for DiskFile<F> {
    ghost Value = { DiskFile };

    ghost view = { λ file. record {
      handed = record { name = file.name.value; bytes = map (λ s. s.value) file.bytes.items; ended = file.ended; grew = file.grew };
      left = F.remaining file.reader;
    } };
}

impl<F: Read + Drop> DiskFile<F> {
    // A file that was just opened.
    fn new(alloc: Global, reader: F, name: Snapshot<AskedName>, place: usize) -> Self
        ensures { result.handed ≡ opened_file name.value }
    {
        DiskFile {
            reader,
            name,
            bytes: nothing_seen(alloc),
            ended: false,
            grew: false,
            place,
        }
    }

    // The place of its name among those that were asked for.
    fn place(&self) -> usize {
        self.place
    }

    // How many bytes were handed out.
    fn handed_out(&self) -> usize {
        self.bytes.len()
    }

    // Reads once, into the front of a piece.
    fn read(
        &mut self,
        into: &mut [u8],
        faults: &mut FaultCounts,
        cause: &mut Option<Error>,
    ) -> Result<usize, Trouble>
        ensures within { IfOk result (λ n. n ≤ length into.old) }
        ensures handed { IfOk result (λ n. self.new.handed ≡ more_of self.old.handed (take n into.new) (meets_end into.old n)) }
        ensures kept { OnErr result (self.new.handed ≡ self.old.handed) }
        ensures left { ReadConsumes self.old.left self.new.left result into.new }
        ensures tries { Tries result faults.old faults.new }
    {
        match self.bytes.reserve(into.len()) {
            Ok(()) => {}
            Err(_refused) => return Err(Trouble::NoMemory),
        }
        let n = match patience::read(&mut self.reader, into, faults, cause) {
            Ok(n) => n,
            Err(trouble) => return Err(trouble),
        };
        see(&mut self.bytes, &into[..n]);
        self.grew |= self.ended & (n > 0);
        self.ended |= meets_end(into, n);
        Ok(n)
    }
}

/// The files of the disk, by their paths.
#[derive(Drop)]
pub struct DiskShelf<'a, R: Files> {
    alloc: Global,
    files: &'a R,
    opened: Vec<DiskFile<R::File>>,
    asked: Vec<AskedName>,
    faults: FaultCounts,
    // The place of the name that the last fault fell on, and its cause.
    last: usize,
    cause: Option<Error>,
}

impl<'a, R: Files> Model for DiskShelf<'a, R> {
    ghost Value = { DiskFiles };

    ghost view = { λ shelf. record { files = shelf.opened.items; asked = shelf.asked.items; faults = shelf.faults } };
}

impl<'a, R: Files> DiskShelf<'a, R> {
    /// A shelf of which no file is opened yet.
    pub fn new(alloc: Global, files: &'a R) -> Self
        ensures { result ≡ no_disk_files }
    {
        DiskShelf {
            alloc,
            files,
            opened: Vec::new(alloc),
            asked: Vec::new(alloc),
            faults: FaultCounts::new(),
            last: 0,
            cause: None,
        }
    }

    /// The last fault: the name of the file that it fell on, and its cause.
    pub fn last_fault(&self) -> Option<(&[u8], &Error)> {
        match (self.asked.get(self.last), &self.cause) {
            (Some(name), Some(error)) => Some((name.as_bytes(), error)),
            _ => None,
        }
    }

    /// How many bytes were handed out of the file with this number, where it was opened.
    pub fn handed_out(&self, file: usize) -> Option<usize> {
        match self.opened.get(file) {
            Some(opened) => Some(opened.handed_out()),
            None => None,
        }
    }

    // Opens a file, for which there is room.
    fn open_file(&mut self, name: &str) -> Result<u32, Trouble>
        requires { length (map (λ f. f.handed) self.old.files) < 2 ^ 32 }
        ensures opens { Opens name.now result (disk_told self.old) (disk_told self.new) }
        ensures tries { Tries result self.old.faults self.new.faults }
    {
        match self.opened.reserve(1) {
            Ok(()) => {}
            Err(_refused) => return Err(Trouble::NoMemory),
        }
        let number = self.opened.len() as u32;
        let place = self.asked.len();
        let asked = match ask(self.alloc, &mut self.asked, name) {
            Ok(asked) => asked,
            Err(_refused) => return Err(Trouble::NoMemory),
        };
        self.last = place;
        match patience::open(self.files, name, &mut self.faults, &mut self.cause) {
            Ok(reader) => {
                self.opened
                    .push_reserved(DiskFile::new(self.alloc, reader, asked, place));
                Ok(number)
            }
            Err(trouble) => Err(trouble),
        }
    }

    // Reads from the place of an opened file.
    fn read_file(&mut self, file: u32, into: &mut [u8]) -> Result<usize, Trouble>
        requires { file < length (map (λ f. f.handed) self.old.files) }
        ensures reads { Reads file into.old into.new result (disk_told self.old) (disk_told self.new) }
        ensures left { ReadConsumes (left_of self.old.files file) (left_of self.new.files file) result into.new }
        ensures tries { Tries result self.old.faults self.new.faults }
    {
        let reader = &mut self.opened[file as usize];
        self.last = reader.place();
        reader.read(into, &mut self.faults, &mut self.cause)
    }
}

impl<'a, R: Files> Shelf for DiskShelf<'a, R> {
    ghost told = { disk_told };

    fn open(&mut self, name: &str) -> Result<u32, Trouble>
        requires { length (map (λ f. f.handed) self.old.files) < 2 ^ 32 }
        ensures opens { Opens name.now result (disk_told self.old) (disk_told self.new) }
        ensures causes { FailsOnlyBy result (disk_told self.old).faults (disk_told self.new).faults }
        ensures keeps { ShelfKeeps (name.now ∷ []) (disk_told self.old) (disk_told self.new) }
        ensures tries { Tries result self.old.faults self.new.faults }
    {
        self.open_file(name)
    }

    fn read(&mut self, file: u32, into: &mut [u8]) -> Result<usize, Trouble>
        requires { file < length (map (λ f. f.handed) self.old.files) }
        ensures reads { Reads file into.old into.new result (disk_told self.old) (disk_told self.new) }
        ensures causes { FailsOnlyBy result (disk_told self.old).faults (disk_told self.new).faults }
        ensures keeps { ShelfKeeps [] (disk_told self.old) (disk_told self.new) }
        ensures left { ReadConsumes (left_of self.old.files file) (left_of self.new.files file) result into.new }
        ensures tries { Tries result self.old.faults self.new.faults }
    {
        self.read_file(file, into)
    }
}

/// Standard output, or another writer of the operating system.
#[derive(Drop)]
pub struct StdSink<W: Write> {
    out: W,
    taken: Vec<Snapshot<u8>>,
    faults: FaultCounts,
    cause: Option<Error>,
}

impl<W: Write> Model for StdSink<W> {
    ghost Value = { DiskBytes };

    ghost view = { λ sink. record { taken = map (λ s. s.value) sink.taken.items; contents = W.contents sink.out; faults = sink.faults } };
}

impl<W: Write> StdSink<W> {
    /// A sink over this writer, which took nothing yet.
    pub fn new(alloc: Global, out: W) -> Self
        ensures taken { result.taken ≡ [] }
        ensures faults { result.faults ≡ no_faults }
    {
        StdSink {
            out,
            taken: nothing_seen(alloc),
            faults: FaultCounts::new(),
            cause: None,
        }
    }

    /// The cause of the last fault, where there was one.
    pub fn last_cause(&self) -> Option<&Error> {
        self.cause.as_ref()
    }

    // Writes from the front of a piece.
    fn write_some(&mut self, piece: &[u8]) -> Result<usize, Trouble>
        ensures writes { Writes piece.now result (written_told self.old) (written_told self.new) }
        ensures appends { WriteAppends self.old.contents self.new.contents result piece.now }
        ensures tries { Tries result self.old.faults self.new.faults }
    {
        match self.taken.reserve(piece.len()) {
            Ok(()) => {}
            Err(_refused) => return Err(Trouble::NoMemory),
        }
        let n = match patience::write(&mut self.out, piece, &mut self.faults, &mut self.cause) {
            Ok(n) => n,
            Err(trouble) => return Err(trouble),
        };
        see(&mut self.taken, &piece[..n]);
        Ok(n)
    }
}

impl<W: Write> Sink for StdSink<W> {
    ghost told = { written_told };

    fn write(&mut self, piece: &[u8]) -> Result<usize, Trouble>
        requires { 0 < length piece.now }
        ensures writes { Writes piece.now result (written_told self.old) (written_told self.new) }
        ensures causes { FailsOnlyBy result (written_told self.old).faults (written_told self.new).faults }
        ensures keeps { SinkKeeps (written_told self.old) (written_told self.new) }
        ensures appends { WriteAppends self.old.contents self.new.contents result piece.now }
        ensures tries { Tries result self.old.faults self.new.faults }
    {
        self.write_some(piece)
    }
}
