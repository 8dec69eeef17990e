//! The first difference between what the calls give and what a case expects, in the order of the fields.

mod lists;
mod parts;
mod states;

use crate::published::verdict::Verdict;
use anyhow::Result;
pub use states::compare_states;
use std::alloc::Global;

/// The first difference that was noted.
#[derive(Drop)]
pub struct Difference {
    alloc: Global,
    first: Option<String>,
}

impl Difference {
    /// None is noted yet.
    pub fn new(alloc: Global) -> Difference {
        Difference { alloc, first: None }
    }

    /// What becomes of the case.
    pub fn verdict(self) -> Verdict {
        match self.first {
            Some(first) => Verdict::Failed(first),
            None => Verdict::Passed,
        }
    }

    /// Notes a difference, where none is noted yet.
    fn note(&mut self, text: String) {
        if self.first.is_none() {
            self.first = Some(text);
        }
    }

    /// Notes where two numbers of a field at a place differ.
    pub fn number(&mut self, place: &str, field: &str, ours: u64, theirs: u64) -> Result<()> {
        if ours != theirs {
            self.note(format!(in self.alloc; "{place}{field}: {ours}, and not {theirs}")?);
        }
        Ok(())
    }

    /// Notes where two strings of bytes differ.
    pub fn bytes(&mut self, place: &str, field: &str, ours: &[u8], theirs: &[u8]) -> Result<()> {
        if ours != theirs {
            let ours = hex::encode(self.alloc, ours)?;
            let theirs = hex::encode(self.alloc, theirs)?;
            self.note(format!(in self.alloc; "{place}{field}: 0x{ours}, and not 0x{theirs}")?);
        }
        Ok(())
    }

    /// Notes where two truths differ.
    pub fn truth(&mut self, place: &str, field: &str, ours: bool, theirs: bool) -> Result<()> {
        if ours != theirs {
            self.note(format!(in self.alloc; "{place}{field}: {ours}, and not {theirs}")?);
        }
        Ok(())
    }

    /// Notes where two items of a list of numbers differ.
    fn item(
        &mut self,
        place: &str,
        field: &str,
        index: usize,
        ours: u64,
        theirs: u64,
    ) -> Result<()> {
        let item = format!(in self.alloc; "{field}[{index}]")?;
        self.number(place, item.as_str(), ours, theirs)
    }

    /// Notes where two lists of numbers differ: in length, or at the first place where they do.
    pub fn numbers(
        &mut self,
        place: &str,
        field: &str,
        ours: &[u64],
        theirs: &[u64],
    ) -> Result<()> {
        if ours.len() != theirs.len() {
            return self.lengths(place, field, ours.len() as u64, theirs.len() as u64);
        }
        for (index, (one, other)) in ours.iter().zip(theirs.iter()).enumerate() {
            if one != other {
                return self.item(place, field, index, *one, *other);
            }
        }
        Ok(())
    }

    /// Notes where the lengths of two lists differ.
    pub fn lengths(&mut self, place: &str, field: &str, ours: u64, theirs: u64) -> Result<()> {
        if ours != theirs {
            self.note(format!(in self.alloc;
                "length of {place}{field}: {ours}, and not {theirs}"
            )?);
        }
        Ok(())
    }
}
