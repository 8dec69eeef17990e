//! Runs of the shelves and sinks, in memory and over the operating system.

ghost use Rattle.std.specs.Prelude.{◌≡◌, ◌≤◌, ◌<◌, ◌^◌, [], length, IfOk};

mod made_up;

use bc_outside::{
    DiskShelf, MemoryFile, MemoryShelf, MemorySink, Shelf, StdSink, Trouble, read_at_most,
    write_all,
};
use made_up::{OneFile, TakesNothing, ThreeBytes};
use std::alloc::{AllocError, Global};
use std::path::{Path, PathBuf};
use std::rt::{Env, Files};
use std::test::Fail;
use std::{env, fs, io, process};

const TEXT: &[u8; 43] = b"The quick brown fox jumps over the lazy dog";

/// A shelf with one file, fox, which holds the text. Its fifth call fails.
fn shelf_of_fox(alloc: Global, greatest: usize) -> Result<MemoryShelf, AllocError>
    requires { 1 ≤ greatest }
    ensures { IfOk result (λ shelf. shelf.opened ≡ []) }
{
    let bytes = Vec::from_slice(alloc, TEXT.as_slice())?;
    let file = MemoryFile::new(String::from_str(alloc, "fox")?, bytes);
    let files = Vec::from_array(alloc, [file])?;
    let failing = Vec::from_array(alloc, [5u64])?;
    Ok(MemoryShelf::new(alloc, files, failing, greatest))
}

/// Whether a shelf hands out these bytes of an opened file, up to a limit; where there are none, whether it fails.
fn hands_out<F: Shelf>(
    alloc: Global,
    shelf: &mut F,
    file: u32,
    limit: usize,
    bytes: Option<&[u8]>,
) -> bool
    requires { file < length (F.told shelf.old).files }
    ensures { length (F.told shelf.old).files ≤ length (F.told shelf.new).files }
{
    match (read_at_most(alloc, shelf, file, limit), bytes) {
        (Ok(read), Some(bytes)) => read.as_slice() == bytes,
        (Err(_trouble), None) => true,
        _ => false,
    }
}

/// Whether the shelf was asked for three files, first for this one.
fn asked_first(shelf: &MemoryShelf, name: &str) -> bool {
    match shelf.asked() {
        [first, _, _] => first.as_bytes() == name.as_bytes(),
        _ => false,
    }
}

/// Reads the file whole, and up to a limit, where each is opened: the second read is the shelf's fifth call.
fn fox_is_read(alloc: Global, shelf: &mut MemoryShelf, whole: u32, start: u32) -> bool
    requires whole { whole < length shelf.old.opened }
    requires start { start < length shelf.old.opened }
{
    let text = TEXT.as_slice();
    let first = hands_out(alloc, shelf, start, 1, Some(&text[..1]));
    let fails = hands_out(alloc, shelf, whole, 100, None);
    let counted = (shelf.faults() == 2) & (shelf.calls() == 5) & asked_first(shelf, "dog");
    let next = hands_out(alloc, shelf, start, 4, Some(&text[1..5]));
    let all = hands_out(alloc, shelf, whole, 100, Some(text));
    let end = hands_out(alloc, shelf, whole, 100, Some(&[]));
    first & fails & counted & next & all & end
}

/// Whether the file, opened twice, is read so, and no other is opened.
fn fox_is_opened(alloc: Global, shelf: &mut MemoryShelf) -> Result<bool, Trouble>
    requires { shelf.old.opened ≡ [] }
{
    let no_dog = shelf.open("dog").is_err();
    let whole = shelf.open("fox")?;
    let start = shelf.open("fox")?;
    Ok(no_dog & fox_is_read(alloc, shelf, whole, start))
}

/// The same over a shelf that hands out at most so many bytes a call.
fn reads(alloc: Global, greatest: usize) -> Result<bool, Fail>
    requires { 1 ≤ greatest }
{
    let mut shelf = shelf_of_fox(alloc, greatest)?;
    Ok(fox_is_opened(alloc, &mut shelf)?)
}

/// Whether a sink that takes at most so many bytes a call, and fails at the third one, has so many of the text.
fn writes(alloc: Global, greatest: usize, before: usize) -> Result<bool, AllocError>
    requires some { 1 ≤ greatest }
    requires part { before ≤ 43 }
{
    let mut sink = MemorySink::new(alloc, Vec::from_array(alloc, [3u64])?, greatest);
    let _ = write_all(&mut sink, TEXT.as_slice());
    Ok(sink.written() == &TEXT[..before])
}

#[test]
fn memory(rt: HostRuntime) -> Result<(), Fail> {
    for greatest in [1, 3, 7, 100] {
        assert!(rt; greatest >= 1 && reads(rt.alloc(), greatest)?);
    }
    Ok(())
}

#[test]
fn sink_in_memory(rt: HostRuntime) -> Result<(), Fail> {
    for (greatest, before) in [(1, 2), (7, 14), (43, 43)] {
        assert!(rt; greatest >= 1 && before <= 43 && writes(rt.alloc(), greatest, before)?);
    }
    Ok(())
}

/// What a shelf hands out of the file of this name, up to a limit.
fn read_of<F: Shelf>(
    alloc: Global,
    shelf: &mut F,
    name: &str,
    limit: usize,
) -> Result<Vec<u8>, Trouble>
    requires { length (F.told shelf.old).files < 2 ^ 32 }
{
    let file = shelf.open(name)?;
    read_at_most(alloc, shelf, file, limit)
}

/// Whether a shelf hands out the text as the file of this name.
fn has_text<F: Shelf>(alloc: Global, shelf: &mut F, name: &str) -> bool
    requires { length (F.told shelf.old).files < 2 ^ 32 }
{
    match read_of(alloc, shelf, name, 100) {
        Ok(read) => read.as_slice() == TEXT.as_slice(),
        Err(_trouble) => false,
    }
}

/// Whether a shelf over these files hands out the text as the file of this name.
fn disk_has_text(alloc: Global, files: &impl Files, name: &str) -> bool {
    let mut shelf = DiskShelf::new(alloc, files);
    has_text(alloc, &mut shelf, name)
}

/// Whether a shelf over these files opens one of this name.
fn disk_opens(alloc: Global, files: &impl Files, name: &str) -> bool {
    let mut shelf = DiskShelf::new(alloc, files);
    shelf.open(name).is_ok()
}

/// A path for this test alone, where the process has this number.
fn path_of_test<R: Env + AllocGlobal>(rt: &R, process: u32) -> io::Result<PathBuf> {
    let mut path = env::temp_dir(rt)?;
    let name = format!(in rt.alloc(); "bc_outside_test_{process}")?;
    path.push(name.as_str())?;
    Ok(path)
}

/// Whether a shelf reads what is written at this path.
fn is_read_again<R: Files + AllocGlobal>(rt: &R, path: Path) -> io::Result<bool> {
    fs::write(rt, path, TEXT.as_slice())?;
    let is_read = match path.to_str() {
        Some(name) => disk_has_text(rt.alloc(), rt, name),
        None => false,
    };
    fs::remove_file(rt, path)?;
    Ok(is_read)
}

#[test]
fn disk(rt: HostRuntime) -> Result<(), Fail> {
    assert!(rt; !disk_opens(rt.alloc(), &rt, "no such file"));
    let path = path_of_test(&rt, process::id(rt.process()))?;
    assert!(rt; is_read_again(&rt, path.as_path())?);
    Ok(())
}

#[test]
fn standard_output(rt: HostRuntime) {
    let mut sink = StdSink::new(rt.alloc(), io::writer(&rt));
    assert!(rt; write_all(&mut sink, TEXT.as_slice()).is_ok());
}

/// 150,000 bytes that come again after 251.
fn long_text(alloc: Global) -> Result<Vec<u8>, AllocError> {
    let mut text = Vec::new(alloc);
    for i in 0..150_000u32 {
        text.push((i % 251) as u8)?;
    }
    Ok(text)
}

/// Whether so much was handed out of each of two opened files.
fn handed_out_is(shelf: &DiskShelf<'_, OneFile>) -> bool {
    (shelf.handed_out(0) == Some(150_000))
        & (shelf.handed_out(1) == Some(70_001))
        & shelf.handed_out(2).is_none()
}

/// Whether the file, where it is opened twice, is read whole and up to a limit.
fn long_file_is_read(
    alloc: Global,
    shelf: &mut DiskShelf<'_, OneFile>,
    whole: u32,
    front: u32,
    text: &[u8],
) -> bool
    requires whole { whole < length shelf.old.files }
    requires front { front < length shelf.old.files }
{
    if text.len() < 70_001 {
        return false;
    }
    let all = hands_out(alloc, shelf, whole, 1_000_000, Some(text));
    let part = hands_out(alloc, shelf, front, 70_001, Some(&text[..70_001]));
    all & part & handed_out_is(shelf)
}

/// Whether the file, opened twice, is read so, and no other is opened.
fn long_file_is_opened(
    alloc: Global,
    shelf: &mut DiskShelf<'_, OneFile>,
    text: &[u8],
) -> Result<bool, Trouble>
    requires { shelf.old.files ≡ [] }
{
    let no_other = shelf.open("a name").is_err();
    let whole = shelf.open(" a name ")?;
    let front = shelf.open(" a name ")?;
    Ok(no_other & long_file_is_read(alloc, shelf, whole, front, text))
}

/// The same of a file system that has the file alone.
fn long_file_holds(alloc: Global, files: &OneFile) -> Result<bool, Trouble> {
    let mut shelf = DiskShelf::new(alloc, files);
    long_file_is_opened(alloc, &mut shelf, &files.bytes)
}

#[test]
fn made_up_files(rt: HostRuntime) -> Result<(), Fail> {
    let files = OneFile {
        alloc: rt.alloc(),
        name: " a name ",
        bytes: long_text(rt.alloc())?,
    };
    let holds = long_file_holds(rt.alloc(), &files);
    assert!(rt; matches!(holds, Ok(true)));
    Ok(())
}

#[test]
fn a_writer_that_fails(rt: HostRuntime) {
    let mut sink = StdSink::new(rt.alloc(), ThreeBytes { calls: 0 });
    assert!(rt; write_all(&mut sink, b"one\ntwo\n".as_slice()).is_ok());
    assert!(rt; sink.last_cause().is_none());
    assert!(rt; write_all(&mut sink, b"three\n".as_slice()).is_err());
    assert!(rt; sink.last_cause().is_some());
}

#[test]
fn nothing_is_taken(rt: HostRuntime) {
    let mut sink = StdSink::new(rt.alloc(), TakesNothing);
    assert!(rt; write_all(&mut sink, b"line\n".as_slice()).is_err());
    let kind = match sink.last_cause() {
        Some(cause) => cause.kind(),
        None => io::ErrorKind::Other,
    };
    assert!(rt; kind == io::ErrorKind::WriteZero);
}
