//! A shelf whose files lie in memory. It tells everything, and fails where it is told to.

ghost use Rattle.std.specs.Prelude.{◌≡◌, ◌<◌, ◌≤◌, min, ◌+◌, ◌^◌, ◌++◌, ◌||◌, List, [], ◌∷◌, true, false, length, map, take, drop};
ghost use Rattle.std.specs.Prelude.{Some, None, IfSome, ◌⊎◌, option_map, string_bytes};
ghost use Rattle.bc_outside.specs.Told.{with_more};
ghost use Rattle.bc_outside.specs.Calls.{FailsOnlyBy, Opens, Reads, ShelfKeeps, meets_end};
ghost use Rattle.bc_outside.specs.Memory.{NamedFile, OpenedFile, MemoryFiles, counted, is_failing, is_listed, held_in, handed_of};
ghost use Rattle.bc_outside.specs.Memory.{left_in, with_taken, told_by, unopened, OpensIn, ReadsIn};
ghost use Rattle.bc_outside.specs.inside.Held.{AreHeld};
ghost use Rattle.bc_outside.specs.inside.Shelving.{HandsOut};

use crate::names::{AskedName, ask};
use crate::shelf::meets_end;
use crate::{Shelf, Trouble};
use std::alloc::Global;
use std::marker::Model;
use std::snapshot::Snapshot;

/// A file under a name.
#[derive(Drop)]
pub struct MemoryFile {
    name: String,
    bytes: Vec<u8>,
}

impl Model for MemoryFile {
    ghost Value = { NamedFile };

    ghost view = { λ file. record { name = string_bytes file.name; bytes = file.bytes.items } };
}

impl MemoryFile {
    /// A file with these bytes under this name.
    pub fn new(name: String, bytes: Vec<u8>) -> Self
        ensures { result ≡ record { name = string_bytes name; bytes = bytes.items } }
    {
        MemoryFile { name, bytes }
    }

    fn name(&self) -> &str
        ensures { result.now ≡ self.now.name }
    {
        self.name.as_str()
    }

    fn bytes(&self) -> &[u8]
        ensures { result.now ≡ self.now.bytes }
    {
        &self.bytes
    }
}

// A file that was opened, with its place.
#[derive(Drop)]
struct OpenFile {
    name: Snapshot<AskedName>,
    bytes: Vec<u8>,
    taken: usize,
    ended: bool,
}

impl Model for OpenFile {
    ghost Value = { OpenedFile };

    ghost view = { λ file. record { name = file.name.value; bytes = file.bytes.items; taken = file.taken; ended = file.ended } };

    ghost invariant = { λ file. (file.taken ≤ length file.bytes.items) × (file.ended ≡ true → file.taken ≡ length file.bytes.items) };
}

impl OpenFile {
    fn new(name: Snapshot<AskedName>, bytes: Vec<u8>) -> Self
        ensures { result ≡ record { name = name.value; bytes = bytes.items; taken = 0; ended = false } }
    {
        OpenFile {
            name,
            bytes,
            taken: 0,
            ended: false,
        }
    }

    // Takes the next bytes into the front of a piece, at most `greatest`.
    fn take_into(&mut self, into: &mut [u8], greatest: usize) -> usize
        requires { 1 ≤ greatest }
        ensures file { self.new ≡ record self.old { taken = self.old.taken + result; ended = self.old.ended || meets_end into.old result } }
        ensures count { result ≡ min (min greatest (length into.old)) (length (drop self.old.taken self.old.bytes)) }
        ensures bytes { into.new ≡ take result (drop self.old.taken self.old.bytes) ++ drop result into.old }
        ensures at_end { self.old.ended ≡ true → result ≡ 0 }
        ensures all { self.new.ended ≡ true → self.new.taken ≡ length self.new.bytes }
    {
        let left = &self.bytes[self.taken..];
        let n = greatest.min(into.len()).min(left.len());
        self.ended |= meets_end(into, n);
        into[..n].copy_from_slice(&left[..n]);
        self.taken += n;
        n
    }
}

// The bytes under a name.
fn find<'a>(files: &'a [MemoryFile], name: &str) -> Option<&'a [u8]>
    ensures { held_in files.now name.now ≡ option_map (λ bytes. bytes.now) result }
{
    for file in files {
        if file.name() == name {
            return Some(file.bytes());
        }
    }
    None
}

// Whether the number is in the list.
pub(crate) fn is_listed(numbers: &[u64], number: u64) -> bool
    ensures { result ≡ is_listed numbers.now number }
{
    for n in numbers {
        if *n == number {
            return true;
        }
    }
    false
}

/// Files in memory. Of each file that is opened it makes a copy with a place of its own.
#[derive(Drop)]
pub struct MemoryShelf {
    alloc: Global,
    files: Vec<MemoryFile>,
    opened: Vec<OpenFile>,
    asked: Vec<AskedName>,
    // The numbers of the calls that are to fail, where calls count from 1.
    failing: Vec<u64>,
    // How many bytes a call hands out at most.
    greatest: usize,
    calls: u64,
    faults: u64,
}

impl Model for MemoryShelf {
    ghost Value = { MemoryFiles };

    ghost view = { λ shelf. record {
      files = shelf.files.items;
      opened = shelf.opened.items;
      asked = shelf.asked.items;
      failing = shelf.failing.items;
      greatest = shelf.greatest;
      calls = shelf.calls;
      faults = shelf.faults;
    } };

    ghost invariant = { λ shelf. (1 ≤ shelf.greatest) × AreHeld shelf.files.items shelf.opened.items };
}

impl MemoryShelf {
    /// A shelf with these files, of which the first one under a name counts. The calls with these numbers fail, where
    /// `open` and `read` are counted together from 1, and a call hands out at most `greatest` bytes.
    pub fn new(alloc: Global, files: Vec<MemoryFile>, failing: Vec<u64>, greatest: usize) -> Self
        requires { 1 ≤ greatest }
        ensures { result ≡ unopened files.items failing.items greatest }
    {
        MemoryShelf {
            alloc,
            files,
            opened: Vec::new(alloc),
            asked: Vec::new(alloc),
            failing,
            greatest,
            calls: 0,
            faults: 0,
        }
    }

    /// How many faults it has counted.
    pub fn faults(&self) -> u64
        ensures { result ≡ self.now.faults }
    {
        self.faults
    }

    /// How often `open` and `read` were called.
    pub fn calls(&self) -> u64
        ensures { result ≡ self.now.calls }
    {
        self.calls
    }

    /// The names that were asked for, in order, those that could not be opened included.
    pub fn asked(&self) -> &[AskedName]
        ensures { result.now ≡ self.now.asked }
    {
        &self.asked
    }

    // Whether the next call is to fail.
    fn is_failing(&self) -> bool
        ensures { result ≡ is_failing self.now.failing self.now.calls }
    {
        is_listed(&self.failing, self.calls.saturating_add(1))
    }

    // Counts a call that failed.
    fn count_fault(&mut self)
        ensures { self.new ≡ record self.old { calls = counted self.old.calls; faults = counted self.old.faults } }
    {
        self.calls = self.calls.saturating_add(1);
        self.faults = self.faults.saturating_add(1);
    }

    // Asks for a name that can't be opened.
    fn refuse(&mut self, name: &str) -> Result<u32, Trouble>
        requires { (is_failing self.old.failing self.old.calls ≡ true) ⊎ (held_in self.old.files name.now ≡ None) }
        ensures exact { OpensIn name.now result self.old self.new }
    {
        match ask(self.alloc, &mut self.asked, name) {
            Ok(_asked) => {
                self.count_fault();
                Err(Trouble::Failed)
            }
            Err(_refused) => Err(Trouble::NoMemory),
        }
    }

    // Opens a file with these bytes.
    fn admit(&mut self, name: &str, bytes: Vec<u8>) -> Result<u32, Trouble>
        requires room { length self.old.opened < 2 ^ 32 }
        requires works { is_failing self.old.failing self.old.calls ≡ false }
        requires held { held_in self.old.files name.now ≡ Some bytes.items }
        ensures exact { OpensIn name.now result self.old self.new }
    {
        match self.opened.reserve(1) {
            Ok(()) => {}
            Err(_refused) => return Err(Trouble::NoMemory),
        }
        let number = self.opened.len() as u32;
        match ask(self.alloc, &mut self.asked, name) {
            Ok(asked) => {
                self.opened.push_reserved(OpenFile::new(asked, bytes));
                self.calls = self.calls.saturating_add(1);
                Ok(number)
            }
            Err(_refused) => Err(Trouble::NoMemory),
        }
    }

    // Opens the file under a name.
    fn open_file(&mut self, name: &str) -> Result<u32, Trouble>
        requires { length self.old.opened < 2 ^ 32 }
        ensures exact { OpensIn name.now result self.old self.new }
        ensures held { AreHeld self.old.files self.old.opened }
        ensures fits { self.old.faults < 2 ^ 64 }
    {
        let _faults = self.faults;
        if self.is_failing() {
            return self.refuse(name);
        }
        match find(&self.files, name) {
            Some(bytes) => match Vec::from_slice(self.alloc, bytes) {
                Ok(copy) => self.admit(name, copy),
                Err(_refused) => Err(Trouble::NoMemory),
            },
            None => self.refuse(name),
        }
    }

    // Reads from the place of an opened file.
    fn read_file(&mut self, file: u32, into: &mut [u8]) -> Result<usize, Trouble>
        requires { file < length self.old.opened }
        ensures exact { IfSome (left_in self.old.opened file) (λ left. ReadsIn file into.old into.new result left self.old self.new) }
        ensures reads { Reads file into.old into.new result (told_by self.old) (told_by self.new) }
        ensures held { AreHeld self.old.files self.old.opened × AreHeld self.new.files self.new.opened }
        ensures fits { self.old.faults < 2 ^ 64 }
    {
        let _faults = self.faults;
        if self.is_failing() {
            self.count_fault();
            return Err(Trouble::Failed);
        }
        let greatest = self.greatest;
        self.calls = self.calls.saturating_add(1);
        Ok(take_from(&mut self.opened, file as usize, into, greatest))
    }
}

impl Shelf for MemoryShelf {
    ghost told = { told_by };

    fn open(&mut self, name: &str) -> Result<u32, Trouble>
        requires { length (map handed_of self.old.opened) < 2 ^ 32 }
        ensures exact { OpensIn name.now result self.old self.new }
        ensures opens { Opens name.now result (told_by self.old) (told_by self.new) }
        ensures causes { FailsOnlyBy result self.old.faults self.new.faults }
        ensures keeps { ShelfKeeps (name.now ∷ []) (told_by self.old) (told_by self.new) }
    {
        self.open_file(name)
    }

    fn read(&mut self, file: u32, into: &mut [u8]) -> Result<usize, Trouble>
        requires { file < length (map handed_of self.old.opened) }
        ensures exact { IfSome (left_in self.old.opened file) (λ left. ReadsIn file into.old into.new result left self.old self.new) }
        ensures reads { Reads file into.old into.new result (told_by self.old) (told_by self.new) }
        ensures causes { FailsOnlyBy result self.old.faults self.new.faults }
        ensures keeps { ShelfKeeps [] (told_by self.old) (told_by self.new) }
    {
        self.read_file(file, into)
    }
}

// Takes the next bytes of an opened file into the front of a piece, at most `greatest`.
fn take_from(opened: &mut Vec<OpenFile>, file: usize, into: &mut [u8], greatest: usize) -> usize
    requires opened { file < length opened.old.items }
    requires some { 1 ≤ greatest }
    ensures within { result ≤ length into.old }
    ensures files { opened.new.items ≡ with_taken opened.old.items file result (meets_end into.old result) }
    ensures taken { IfSome (left_in opened.old.items file) (HandsOut greatest into.old into.new result) }
    ensures told { map handed_of opened.new.items ≡ with_more (map handed_of opened.old.items) file (take result into.new) (meets_end into.old result) }
    ensures held { (files : List NamedFile) → AreHeld files opened.old.items → AreHeld files opened.new.items }
{
    opened[file].take_into(into, greatest)
}
