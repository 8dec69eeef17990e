//! One case: its words, the files that they name, and what is expected of them.

use crate::runs::expected::status_text;
use anyhow::{Context, Result};
use bc_outside::{MemoryFile, MemoryShelf, MemorySink};
use beacon_node::{Status, beacon_main};
use std::alloc::{AllocError, Global};
use std::rt::Files;
use std::{fs, io};

/// A case, with its files in memory.
#[derive(Drop)]
pub struct Case {
    words: Vec<String>,
    files: Vec<(String, Vec<u8>)>,
    failing_calls: Vec<u64>,
    failing_writes: Vec<u64>,
    pieces: Vec<u64>,
    lines: Vec<u8>,
    status: String,
    /// How many bytes of the last file there are at most.
    last_len: usize,
}

/// What the program answered.
#[derive(Drop)]
pub struct Answer {
    lines: Vec<u8>,
    status: String,
}

/// The bytes of a file, None where there is no such file.
fn bytes_at<R: Files + AllocGlobal>(rt: &R, path: &str) -> Result<Option<Vec<u8>>> {
    match fs::read(rt, path) {
        Ok(bytes) => Ok(Some(bytes)),
        Err(error) if error.kind() == io::ErrorKind::NotFound => Ok(None),
        Err(error) => Err(error.into()),
    }
}

/// The text of a file.
fn text_at<R: Files + AllocGlobal>(rt: &R, path: &str) -> Result<Option<String>> {
    match fs::read_to_string(rt, path) {
        Ok(text) => Ok(Some(text)),
        Err(error) if error.kind() == io::ErrorKind::NotFound => Ok(None),
        Err(error) => Err(error.into()),
    }
}

/// Adds the byte that a note names, as often as it says.
fn fill(bytes: &mut Vec<u8>, note: &str) -> Result<()> {
    let (byte, count) = note.trim().split_once(' ').context("a byte and a count")?;
    let byte: u8 = byte.parse()?;
    let count: u32 = count.parse()?;
    for _ in 0..count {
        bytes.push(byte)?;
    }
    Ok(())
}

/// A file of the case, or the common one of that name, if there is either.
fn load_file<R: Files + AllocGlobal>(rt: &R, case: &str, name: &str) -> Result<Option<Vec<u8>>> {
    let alloc = rt.alloc();
    let own = format!(in alloc; "{case}/{name}")?;
    let common = format!(in alloc; "common/{name}")?;
    let mut bytes = match bytes_at(rt, own.as_str())? {
        Some(bytes) => bytes,
        None => return bytes_at(rt, common.as_str()),
    };
    let note = format!(in alloc; "{own}.filled")?;
    if let Some(note) = text_at(rt, note.as_str())? {
        fill(&mut bytes, note.as_str())?;
    }
    Ok(Some(bytes))
}

/// A text of the case, or the common one of that name; empty where there is neither.
fn load_text<R: Files + AllocGlobal>(rt: &R, case: &str, name: &str) -> Result<String> {
    match load_file(rt, case, name)? {
        Some(bytes) => Ok(String::from_utf8(bytes).ok().context("a text")?),
        None => Ok(String::new(rt.alloc())),
    }
}

/// The numbers of a text, one a line.
fn load_numbers<R: Files + AllocGlobal>(rt: &R, case: &str, name: &str) -> Result<Vec<u64>> {
    let text = load_text(rt, case, name)?;
    let mut numbers = Vec::new(rt.alloc());
    for line in text.lines() {
        let number: u64 = line.parse()?;
        numbers.push(number)?;
    }
    Ok(numbers)
}

/// Adds a word, and the file of that name, if there is one. The empty word names none.
fn load_word<R: Files + AllocGlobal>(
    rt: &R,
    name: &str,
    word: &str,
    case: &mut Case,
) -> Result<()> {
    case.words.push(word.to_string(rt.alloc())?)?;
    if word.is_empty() {
        return Ok(());
    }
    match load_file(rt, name, word)? {
        Some(bytes) => Ok(case.files.push((word.to_string(rt.alloc())?, bytes))?),
        None => Ok(()),
    }
}

/// Adds the words of the case, and the files that they name.
fn load_words<R: Files + AllocGlobal>(
    rt: &R,
    name: &str,
    words: &str,
    case: &mut Case,
) -> Result<()> {
    for word in words.lines() {
        load_word(rt, name, word, case)?;
    }
    Ok(())
}

/// Fills in what is expected of the case, and how it is run.
fn load_expected<R: Files + AllocGlobal>(rt: &R, name: &str, case: &mut Case) -> Result<()> {
    case.lines = load_file(rt, name, "stdout")?.unwrap_or(Vec::new(rt.alloc()));
    case.status = load_text(rt, name, "status")?;
    case.failing_calls = load_numbers(rt, name, "failing_calls")?;
    case.failing_writes = load_numbers(rt, name, "failing_writes")?;
    case.pieces = load_numbers(rt, name, "pieces")?;
    Ok(())
}

/// Fills in a case of this name.
fn load_into<R: Files + AllocGlobal>(rt: &R, name: &str, case: &mut Case) -> Result<()> {
    load_expected(rt, name, case)?;
    match load_text(rt, name, "words") {
        Ok(words) => load_words(rt, name, words.as_str(), case),
        Err(error) => Err(error),
    }
}

/// A file in memory, of so many bytes at most.
fn memory_file(
    alloc: Global,
    name: &String,
    bytes: &[u8],
    len: usize,
) -> Result<MemoryFile, AllocError> {
    let kept = Vec::from_slice(alloc, &bytes[..len.min(bytes.len())])?;
    Ok(MemoryFile::new(name.clone()?, kept))
}

/// What the program wrote, and its status.
fn answer_of(alloc: Global, status: &Status, lines: &[u8]) -> Result<Answer> {
    Ok(Answer {
        lines: Vec::from_slice(alloc, lines)?,
        status: status_text(alloc, status)?,
    })
}

impl Answer {
    /// The status, as the cases write it.
    pub fn status(&self) -> &str {
        self.status.as_str()
    }

    /// What was written.
    pub fn lines(&self) -> &[u8] {
        self.lines.as_slice()
    }
}

impl Case {
    /// A case without anything.
    fn empty(alloc: Global) -> Case {
        Case {
            words: Vec::new(alloc),
            files: Vec::new(alloc),
            failing_calls: Vec::new(alloc),
            failing_writes: Vec::new(alloc),
            pieces: Vec::new(alloc),
            lines: Vec::new(alloc),
            status: String::new(alloc),
            last_len: usize::MAX,
        }
    }

    /// Reads the case of this name.
    pub fn load<R: Files + AllocGlobal>(rt: &R, name: &str) -> Result<Case> {
        let mut case = Case::empty(rt.alloc());
        match load_into(rt, name, &mut case) {
            Ok(()) => Ok(case),
            Err(error) => Err(error),
        }
    }

    /// The expected status.
    pub fn status(&self) -> &str {
        self.status.as_str().trim()
    }

    /// How many bytes a call hands out at most, for each run of the case.
    pub fn pieces(&self) -> &[u64] {
        self.pieces.as_slice()
    }

    /// The expected lines.
    pub fn lines(&self) -> &[u8] {
        self.lines.as_slice()
    }

    /// How many bytes the last file has.
    pub fn last_len(&self) -> usize {
        match self.files.last() {
            Some((_name, bytes)) => bytes.len(),
            None => 0,
        }
    }

    /// Leaves so many bytes of the last file.
    pub fn cut_last(&mut self, len: usize) {
        self.last_len = len;
    }

    /// Lets the shelf's call of this number fail, and no other one.
    pub fn fail_call(&mut self, call: u64) -> Result<(), AllocError> {
        self.failing_calls.clear();
        self.failing_calls.push(call)?;
        Ok(())
    }

    /// Lets the sink's call of this number fail, and no other one.
    pub fn fail_write(&mut self, call: u64) -> Result<(), AllocError> {
        self.failing_writes.clear();
        self.failing_writes.push(call)?;
        Ok(())
    }

    /// The files in memory.
    fn memory_files(&self, alloc: Global) -> Result<Vec<MemoryFile>, AllocError> {
        let mut files = Vec::new(alloc);
        let mut left = self.files.len();
        for (name, bytes) in &self.files {
            let len = if left == 1 {
                self.last_len
            } else {
                bytes.len()
            };
            files.push(memory_file(alloc, name, bytes, len)?)?;
            left = left.saturating_sub(1);
        }
        Ok(files)
    }

    /// Runs the program over files that are handed out in pieces of at most so many bytes.
    pub fn run(&self, alloc: Global, piece: u64) -> Result<Answer> {
        let piece = (piece as usize).max(1);
        let mut sink = MemorySink::new(alloc, self.failing_writes.clone()?, piece);
        let calls = self.failing_calls.clone()?;
        let files = self.memory_files(alloc)?;
        let mut shelf = MemoryShelf::new(alloc, files, calls, piece);
        let status = beacon_main(alloc, &self.words, &mut shelf, &mut sink);
        answer_of(alloc, &status, sink.written())
    }

    /// What is not as expected, if anything is.
    pub fn difference(&self, alloc: Global, answer: &Answer) -> Result<Option<String>> {
        if answer.status.as_str() != self.status() {
            let expected = self.status();
            let found = answer.status.as_str();
            return Ok(Some(format!(in alloc; "expected {expected}, found {found}")?));
        }
        if answer.lines.as_slice() != self.lines.as_slice() {
            let expected = self.lines.len();
            let found = answer.lines.len();
            return Ok(Some(format!(in alloc;
                "expected other lines ({expected} bytes, found {found})"
            )?));
        }
        Ok(None)
    }
}
