//! Each proper prefix of a record: the lines of the events that are whole in it are written, and the status says where it ends.

use crate::runs::case::{Answer, Case};
use anyhow::Result;
use std::alloc::{AllocError, Global};

/// The front of some bytes: as many lines as that.
fn lines_at_front(bytes: &[u8], lines: usize) -> &[u8] {
    let mut left = lines;
    let mut len = 0usize;
    for byte in bytes {
        if left == 0 {
            break;
        }
        len = len.saturating_add(1);
        if *byte == b'\n' {
            left = left.saturating_sub(1);
        }
    }
    &bytes[..len.min(bytes.len())]
}

/// How many of the places come before or at one.
fn count_up_to(ends: &[u64], place: usize) -> usize {
    let mut count = 0usize;
    for end in ends {
        if *end <= place as u64 {
            count = count.saturating_add(1);
        }
    }
    count
}

/// The status of a record that was cut after so many bytes, where so many of these ends are whole.
fn status_of(alloc: Global, ends: &[u64], len: usize, whole: usize) -> Result<String, AllocError> {
    if whole == 0 {
        String::from_str(alloc, "4 Record which=0 event=0 fault=BadMagic")
    } else if ends.contains(&(len as u64)) {
        String::from_str(alloc, "0 Done")
    } else {
        format!(in alloc; "4 Record which=0 event={whole} fault=Torn")
    }
}

/// What isn't as expected of the run of a record that was cut after so many bytes, if anything isn't.
fn wrong_with(
    alloc: Global,
    answer: &Answer,
    case: &Case,
    ends: &[u64],
    len: usize,
) -> Result<Option<&'static str>> {
    let whole = count_up_to(ends, len);
    let status = status_of(alloc, ends, len, whole)?;
    if answer.status() != status.as_str() {
        return Ok(Some("another status than that of the cut"));
    }
    if answer.lines() != lines_at_front(case.lines(), whole.saturating_sub(1)) {
        return Ok(Some("other lines than those of the whole events"));
    }
    Ok(None)
}

/// The same of the run of the case's record, cut so.
fn run_cut(
    alloc: Global,
    case: &mut Case,
    ends: &[u64],
    len: usize,
) -> Result<Option<&'static str>> {
    case.cut_last(len);
    let answer = case.run(alloc, u64::MAX)?;
    wrong_with(alloc, &answer, case, ends, len)
}

/// What isn't as expected of the proper prefixes of a case's record, whose first four bytes and frames end at these places, if anything
/// isn't.
pub fn difference(alloc: Global, case: &mut Case, ends: &[u64]) -> Result<Option<String>> {
    for len in 0..case.last_len() {
        if let Some(wrong) = run_cut(alloc, case, ends, len)? {
            return Ok(Some(format!(in alloc; "cut after {len} bytes: {wrong}")?));
        }
    }
    Ok(None)
}
