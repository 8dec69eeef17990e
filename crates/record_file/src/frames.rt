//! The frames of a record, one after the other.

ghost use Rattle.std.specs.Prelude.{◌≡◌, ◌<◌, [], take, length, true, Err};
ghost use Rattle.bc_outside.specs.Calls.{ShelfKeeps};
ghost use Rattle.record_file.specs.Record.{fault_event, version_of, most_events};
ghost use Rattle.record_file.specs.Stops.{StopsBy};
ghost use Rattle.record_file.specs.declared.fault.FrameStop.TheVariants.{Fault};
ghost use Rattle.record_file.specs.Frames.{unread_file, Nexts, Moves, IsPlace, IfStopped};
ghost use Rattle.record_file.specs.inside.Fetched.{Begins};
ghost use Rattle.record_file.specs.inside.Found.{IsWhole, is_frame};
ghost use Rattle.record_file.specs.inside.Given.{Given};
ghost use Rattle.record_file.specs.declared.place.Place.TheVariants.{AtMagic, AtFrame};

use crate::buffer::Buffer;
use crate::fill::{fill, find_frame};
use crate::found::Found;
use crate::{Event, FrameStop, Payload, Place, RecordFault, Version};
use bc_outside::Shelf;
use std::alloc::Global;
use std::marker::Model;

/// The frames of a record, read from a file of a shelf.
#[derive(Drop)]
pub struct Frames {
    alloc: Global,
    file: u32,
    // How many events were read.
    events: u32,
    place: Place,
    buffer: Buffer,
}

impl Model for Frames {
    ghost use Rattle.record_file.specs.Frames.{Reading, IsPlace};

    ghost Value = { Reading };

    ghost view = { λ frames. record { file = frames.file; events = frames.events; place = frames.place; buffered = frames.buffer } };

    ghost invariant = { λ frames. IsPlace frames.place frames.events };
}

impl Frames {
    /// The frames of the record that a file holds. Nothing of it is read yet, and no memory is taken.
    pub fn new(alloc: Global, file: u32) -> Self
        ensures { result ≡ unread_file file }
    {
        Frames {
            alloc,
            file,
            events: 0,
            place: Place::AtMagic,
            buffer: Buffer::new(alloc),
        }
    }

    /// How many events were read so far.
    pub fn events(&self) -> u32
        ensures count { result ≡ self.now.events }
        ensures place { IsPlace self.now.place self.now.events }
    {
        self.events
    }

    /// The number of the event that could not be read because of a fault, where events count from 1: 0 where the
    /// record's first bytes are wrong.
    pub fn event_of(&self, fault: RecordFault) -> u32
        ensures { result ≡ fault_event self.now.events fault }
    {
        match fault {
            RecordFault::BadMagic => 0,
            _ => self.events + 1,
        }
    }

    // Reads the record's first bytes, which tell its version.
    fn read_magic<F: Shelf>(&mut self, shelf: &mut F) -> Result<Version, FrameStop>
        requires opened { self.old.file < length (F.told shelf.old).files }
        requires at { self.old.place ≡ AtMagic }
        ensures begins { Begins result self.old self.new (F.told shelf.old) (F.told shelf.new) }
        ensures file { self.new.file ≡ self.old.file }
        ensures causes { StopsBy result (F.told shelf.old).faults (F.told shelf.new).faults }
        ensures keeps { ShelfKeeps [] (F.told shelf.old) (F.told shelf.new) }
    {
        match fill(&mut self.buffer, shelf, self.file, 4) {
            Ok(()) => {}
            Err(trouble) => return Err(FrameStop::from(trouble)),
        }
        match version_of(self.buffer.as_slice()) {
            Some(version) => {
                self.buffer.read(4);
                self.place = Place::AtFrame(version);
                Ok(version)
            }
            None => {
                self.place = Place::Stopped(RecordFault::BadMagic);
                Err(FrameStop::Fault(RecordFault::BadMagic))
            }
        }
    }

    // Reads the next frame of a record of this version.
    fn read_frame<F: Shelf>(
        &mut self,
        version: Version,
        shelf: &mut F,
    ) -> Result<Option<Event>, FrameStop>
        requires opened { self.old.file < length (F.told shelf.old).files }
        requires at { self.old.place ≡ AtFrame version }
        ensures nexts { Nexts result self.old self.new (F.told shelf.old) (F.told shelf.new) }
        ensures moves { Moves result self.old self.new }
        ensures file { self.new.file ≡ self.old.file }
        ensures causes { StopsBy result (F.told shelf.old).faults (F.told shelf.new).faults }
        ensures keeps { ShelfKeeps [] (F.told shelf.old) (F.told shelf.new) }
    {
        match find_frame(&mut self.buffer, shelf, self.file, version, self.events) {
            Ok(found) => self.give(version, found),
            Err(trouble) => Err(FrameStop::from(trouble)),
        }
    }

    // Gives what was found at the front of the buffer. A frame is read, unless memory runs out.
    fn give(&mut self, version: Version, found: Found) -> Result<Option<Event>, FrameStop>
        requires at { self.old.place ≡ AtFrame version }
        requires whole { IsWhole version found self.old.buffered }
        requires room { is_frame found ≡ true → self.old.events < most_events }
        ensures given { Given found result self.old self.new }
    {
        match found {
            Found::Ended => Ok(None),
            Found::Fault(fault) => {
                self.place = Place::Stopped(fault);
                Err(FrameStop::Fault(fault))
            }
            Found::Frame(kind, size) => {
                let len = 5 + size as usize;
                match Vec::from_slice(self.alloc, &self.buffer.as_slice()[5..len]) {
                    Ok(payload) => {
                        self.buffer.read(len);
                        self.events += 1;
                        Ok(Some(Event {
                            kind,
                            payload: Payload::new(payload),
                        }))
                    }
                    Err(_refused) => Err(FrameStop::NoMemory),
                }
            }
        }
    }

    /// The next event, or None exactly at the record's end. After a fault each later call answers it again and reads
    /// nothing. Where the shelf fails or memory runs out, the bytes that were taken are kept, and a later call goes on.
    pub fn next<F: Shelf>(&mut self, shelf: &mut F) -> Result<Option<Event>, FrameStop>
        requires { self.old.file < length (F.told shelf.old).files }
        ensures nexts { Nexts result self.old self.new (F.told shelf.old) (F.told shelf.new) }
        ensures moves { Moves result self.old self.new }
        ensures stopped { IfStopped self.old.place (λ reason. (result ≡ Err (Fault reason)) × (self.new ≡ self.old) × (shelf.new ≡ shelf.old)) }
        ensures file { self.new.file ≡ self.old.file }
        ensures causes { StopsBy result (F.told shelf.old).faults (F.told shelf.new).faults }
        ensures keeps { ShelfKeeps [] (F.told shelf.old) (F.told shelf.new) }
    {
        match self.place {
            Place::Stopped(fault) => Err(FrameStop::Fault(fault)),
            Place::AtMagic => match self.read_magic(shelf) {
                Ok(version) => self.read_frame(version, shelf),
                Err(stop) => Err(stop),
            },
            Place::AtFrame(version) => self.read_frame(version, shelf),
        }
    }
}

// The version of a record that begins with these bytes, if they begin as one does.
fn version_of(bytes: &[u8]) -> Option<Version>
    ensures { result ≡ version_of (take 4 bytes.now) }
{
    if bytes.starts_with(b"BCR1") {
        return Some(Version::One);
    }
    if bytes.starts_with(b"BCR2") {
        return Some(Version::Two);
    }
    None
}
