//! What a case holds.

use anyhow::{Context, Result};
use bc_preset::Config;
use std::alloc::Global;
use std::rt::Files;
use std::{fs, io};

/// A recorded call and what it takes.
#[derive(Drop)]
pub struct Given {
    /// The call's name.
    pub name: String,
    /// The word behind it, or none.
    pub word: String,
    state: Option<Vec<u8>>,
    input: Option<Vec<u8>>,
    record: Option<Vec<u8>>,
    config: Option<Vec<u8>>,
}

/// A file of a case. None where there is no such file.
fn read_file<R: Files + AllocGlobal>(rt: &R, case: &str, name: &str) -> Result<Option<Vec<u8>>> {
    match fs::read(rt, format!(in rt.alloc(); "{case}/{name}")?.as_str()) {
        Ok(bytes) => Ok(Some(bytes)),
        Err(error) if error.kind() == io::ErrorKind::NotFound => Ok(None),
        Err(error) => Err(error.into()),
    }
}

/// The line that names the call of a case.
fn load_call<R: Files + AllocGlobal>(rt: &R, case: &str) -> Result<String> {
    let path = format!(in rt.alloc(); "{case}/call")?;
    Ok(fs::read_to_string(rt, path.as_str())?)
}

impl Given {
    /// The call that a line names, with the word behind it; no file is read yet.
    fn named(alloc: Global, line: &str) -> Result<Given> {
        let (name, word) = line.split_once(' ').unwrap_or((line, ""));
        let mut given = Given {
            name: String::new(alloc),
            word: String::new(alloc),
            state: None,
            input: None,
            record: None,
            config: None,
        };
        given.name.push_str(name)?;
        given.word.push_str(word)?;
        Ok(given)
    }

    /// Reads the files of the case in this folder.
    fn load_files<R: Files + AllocGlobal>(&mut self, rt: &R, case: &str) -> Result<()> {
        self.state = read_file(rt, case, "pre.ssz")?;
        self.input = read_file(rt, case, "input.ssz")?;
        self.record = read_file(rt, case, "record")?;
        self.config = read_file(rt, case, "config.yaml")?;
        Ok(())
    }

    /// Reads the case in this folder.
    pub fn load<R: Files + AllocGlobal>(rt: &R, case: &str) -> Result<Given> {
        let alloc = rt.alloc();
        let mut given = Given::named(alloc, load_call(rt, case)?.trim())?;
        given.load_files(rt, case)?;
        Ok(given)
    }

    /// The number behind the call's name.
    pub fn number(&self) -> Result<u64> {
        Ok(self.word.as_str().parse::<u64>()?)
    }

    /// The bytes of the state before the call.
    pub fn state(&self) -> Result<&Vec<u8>> {
        self.state.as_ref().context("no state")
    }

    /// The bytes of what the call takes beside the state.
    pub fn input(&self) -> Result<&Vec<u8>> {
        self.input.as_ref().context("no input")
    }

    /// The bytes of a record of events.
    pub fn record(&self) -> Result<&Vec<u8>> {
        self.record.as_ref().context("no record")
    }

    /// The configuration.
    pub fn config(&self) -> Result<Config> {
        Ok(Config::read(self.config.as_ref().context("no configuration")?)?)
    }
}
