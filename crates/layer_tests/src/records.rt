//! Records over a shelf in memory, in pieces of several sizes.

ghost use Rattle.std.specs.Prelude.{◌≤◌, ◌<◌, ◌≡◌, ◌^◌, [], length, IfOk};

use bc_outside::{MemoryFile, MemoryShelf, Shelf};
use record_file::{FrameStop, Frames, RecordFault};
use std::alloc::{AllocError, Global};
use std::test::Fail;

// Three ticks: of times 999, 1000 and 4126.
const TICKS: &[u8; 43] =
    b"BCR1\x01\x08\0\0\0\xe7\x03\0\0\0\0\0\0\x01\x08\0\0\0\xe8\x03\0\0\0\0\0\0\x01\x08\0\0\0\x1e\x10\0\0\0\0\0\0";

/// A shelf with one file, the record of these bytes.
fn shelf_of(
    alloc: Global,
    bytes: &[u8],
    failing: Vec<u64>,
    greatest: usize,
) -> Result<MemoryShelf, AllocError>
    requires { 1 ≤ greatest }
    ensures { IfOk result (λ shelf. shelf.opened ≡ []) }
{
    let name = String::from_str(alloc, "record")?;
    let file = MemoryFile::new(name, Vec::from_slice(alloc, bytes)?);
    let files = Vec::from_array(alloc, [file])?;
    Ok(MemoryShelf::new(alloc, files, failing, greatest))
}

/// Whether an event comes next.
fn has_event<F: Shelf>(frames: &mut Frames, shelf: &mut F) -> bool
    requires { frames.old.file < length (F.told shelf.old).files }
    ensures { frames.new.file < length (F.told shelf.new).files }
{
    matches!(frames.next(shelf), Ok(Some(_)))
}

/// Whether what comes next is the record's end.
fn is_at_end<F: Shelf>(frames: &mut Frames, shelf: &mut F) -> bool
    requires { frames.old.file < length (F.told shelf.old).files }
    ensures { frames.new.file < length (F.told shelf.new).files }
{
    matches!(frames.next(shelf), Ok(None))
}

/// Whether what comes next is this stop.
fn stops_by<F: Shelf>(frames: &mut Frames, shelf: &mut F, stop: FrameStop) -> bool
    requires { frames.old.file < length (F.told shelf.old).files }
    ensures { frames.new.file < length (F.told shelf.new).files }
{
    match frames.next(shelf) {
        Ok(_event) => false,
        Err(met) => met == stop,
    }
}

/// Whether so many events come next, and then the record's end or the fault at its event, which stays however often it is asked.
fn frames_end<F: Shelf>(
    frames: &mut Frames,
    shelf: &mut F,
    events: u32,
    stop: Option<(RecordFault, u32)>,
) -> bool
    requires { frames.old.file < length (F.told shelf.old).files }
{
    let mut all = true;
    for _ in 0..events {
        all &= has_event(frames, shelf);
    }
    all & match stop {
        None => is_at_end(frames, shelf),
        Some((fault, event)) => {
            stops_by(frames, shelf, FrameStop::Fault(fault))
                & stops_by(frames, shelf, FrameStop::Fault(fault))
                & stops_by(frames, shelf, FrameStop::Fault(fault))
                & stops_by(frames, shelf, FrameStop::Fault(fault))
                & (frames.event_of(fault) == event)
        }
    }
}

/// The same of the record of a shelf.
fn record_ends<F: Shelf>(
    alloc: Global,
    shelf: &mut F,
    events: u32,
    stop: Option<(RecordFault, u32)>,
) -> Result<bool, Fail>
    requires { length (F.told shelf.old).files < 2 ^ 32 }
{
    let file = shelf.open("record")?;
    let mut frames = Frames::new(alloc, file);
    Ok(frames_end(&mut frames, shelf, events, stop))
}

/// The same of these bytes, where the shelf hands out at most so many a call.
fn ends(
    alloc: Global,
    bytes: &[u8],
    greatest: usize,
    events: u32,
    stop: Option<(RecordFault, u32)>,
) -> Result<bool, Fail>
    requires { 1 ≤ greatest }
{
    let mut shelf = shelf_of(alloc, bytes, Vec::new(alloc), greatest)?;
    record_ends(alloc, &mut shelf, events, stop)
}

/// The same over shelves that cut the file in several ways.
fn ends_however_cut(
    alloc: Global,
    bytes: &[u8],
    events: u32,
    stop: Option<(RecordFault, u32)>,
) -> Result<bool, Fail> {
    for greatest in [1, 3, 7, 100_000] {
        if greatest == 0 || !ends(alloc, bytes, greatest, events, stop)? {
            return Ok(false);
        }
    }
    Ok(true)
}

/// Records, how many events they have, and what stops them, if anything does, with the number of its event.
const RECORDS: &[(&[u8], u32, Option<(RecordFault, u32)>)] = &[
    (TICKS, 3, None),
    (b"BCR1", 0, None),
    (b"BCR1\x01\x07\0\0\0\0\0\0\0\0\0\0", 1, None),
    (b"", 0, Some((RecordFault::BadMagic, 0))),
    (b"BC", 0, Some((RecordFault::BadMagic, 0))),
    (b"BCR2", 0, None),
    (b"BCR3", 0, Some((RecordFault::BadMagic, 0))),
    (b"BCR1\0", 0, Some((RecordFault::BadKind(0), 1))),
    (b"BCR1\x05", 0, Some((RecordFault::BadKind(5), 1))),
    (b"BCR1\x09", 0, Some((RecordFault::BadKind(9), 1))),
    (b"BCR2\x05\0\0\0\0\x04\0\0\0\0", 2, None),
    (b"BCR2\x06", 0, Some((RecordFault::BadKind(6), 1))),
    (b"BCR1\x01\0\0\0\0\x02\x10", 1, Some((RecordFault::Torn, 2))),
    (b"BCR1\x02\0\0\0\0\x03\0\0\0\0\x04\0\0\0\0", 3, None),
    (b"BCR1\x01", 0, Some((RecordFault::Torn, 1))),
    (b"BCR1\x01\x10", 0, Some((RecordFault::Torn, 1))),
    (
        b"BCR1\x01\x08\0\0\0\xe7\x03\0\0\0\0\0\0\x01\x08\0\0\0\xe8\x03\0",
        1,
        Some((RecordFault::Torn, 2)),
    ),
    (
        b"BCR1\x01\x01\0\x40\0",
        0,
        Some((RecordFault::TooLong(4_194_305), 1)),
    ),
];

#[test]
fn records(rt: HostRuntime) -> Result<(), Fail> {
    for (bytes, events, stop) in RECORDS.iter() {
        assert!(rt; ends_however_cut(rt.alloc(), bytes, *events, *stop)?);
    }
    Ok(())
}

/// A record of one event that is as long as one may be.
fn longest(alloc: Global) -> Result<Vec<u8>, AllocError> {
    let mut bytes = Vec::from_slice(alloc, b"BCR1\x01\0\0\x40\0".as_slice())?;
    bytes.resize(9 + 4_194_304, 0)?;
    Ok(bytes)
}

#[test]
fn the_longest_event(rt: HostRuntime) -> Result<(), Fail> {
    let bytes = longest(rt.alloc())?;
    assert!(rt; ends(rt.alloc(), &bytes, 65_536, 1, None)?);
    Ok(())
}

/// Whether what comes next is the first tick.
fn is_first_tick<F: Shelf>(frames: &mut Frames, shelf: &mut F) -> bool
    requires { frames.old.file < length (F.told shelf.old).files }
    ensures { frames.new.file < length (F.told shelf.new).files }
{
    match frames.next(shelf) {
        Ok(Some(event)) => {
            event.kind == 1 && event.payload.as_slice() == b"\xe7\x03\0\0\0\0\0\0".as_slice()
        }
        _ => false,
    }
}

/// Whether there are three failures, and then the three ticks.
fn goes_on<F: Shelf>(frames: &mut Frames, shelf: &mut F) -> bool
    requires { frames.old.file < length (F.told shelf.old).files }
{
    let fails = stops_by(frames, shelf, FrameStop::ReadFault)
        & stops_by(frames, shelf, FrameStop::ReadFault)
        & stops_by(frames, shelf, FrameStop::ReadFault);
    let first = is_first_tick(frames, shelf);
    let others = has_event(frames, shelf) & has_event(frames, shelf);
    let end = is_at_end(frames, shelf);
    fails & first & others & end & (frames.events() == 3)
}

/// The same of the record of a shelf.
fn record_goes_on<F: Shelf>(alloc: Global, shelf: &mut F) -> Result<bool, Fail>
    requires { length (F.told shelf.old).files < 2 ^ 32 }
{
    let file = shelf.open("record")?;
    let mut frames = Frames::new(alloc, file);
    Ok(goes_on(&mut frames, shelf))
}

#[test]
fn a_failing_read_loses_nothing(rt: HostRuntime) -> Result<(), Fail> {
    let failing = Vec::from_array(rt.alloc(), [2u64, 5, 8])?;
    let mut shelf = shelf_of(rt.alloc(), TICKS.as_slice(), failing, 3)?;
    assert!(rt; record_goes_on(rt.alloc(), &mut shelf)?);
    Ok(())
}
