//! What is wrong with words that are no command.

use crate::line::line;
use clap::Error;
use std::alloc::{AllocError, Global};

/// What clap says of the words, on one line, without its usage.
fn one_line(alloc: Global, error: &Error) -> Result<String, AllocError> {
    let text = format!(in alloc; "{error}")?;
    let mut line = String::new(alloc);
    for part in text.lines() {
        let part = part.trim();
        if part.is_empty() {
            break;
        }
        if !line.is_empty() {
            line.push_str(" ")?;
        }
        line.push_str(part.strip_prefix("error: ").unwrap_or(part))?;
    }
    Ok(line)
}

/// What is wrong with the words, on one line. None where they are a command, name none at all, or memory ran out.
pub fn what_is_wrong(alloc: Global, words: &[String]) -> Option<String> {
    let line = line(alloc).ok()?;
    match line.try_get_matches_from(words) {
        Ok(_) => None,
        Err(error) => one_line(alloc, &error).ok(),
    }
}
