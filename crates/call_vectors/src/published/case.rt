//! What a case holds.

use anyhow::{Context, Result, bail};
use bc_preset::Config;
use beacon_state::State;
use hash_tree::Root;
use ssz_codec::Ssz;
use std::rt::Files;
use std::{fs, io};

/// A case: its folder, and what its YAML files say.
#[derive(Drop)]
pub struct Case {
    folder: String,
    config: Config,
    given: String,
}

/// The value of the first line that has the key.
fn value_in<'a>(given: &'a str, key: &str) -> Option<&'a str> {
    for line in given.lines() {
        if let Some((name, value)) = line.split_once(' ') {
            if name == key {
                return Some(value);
            }
        }
    }
    None
}

/// The bytes of a file, None where there is no such file.
fn bytes_at<R: Files + AllocGlobal>(rt: &R, path: &str) -> Result<Option<Vec<u8>>> {
    match fs::read(rt, path) {
        Ok(bytes) => Ok(Some(bytes)),
        Err(error) if error.kind() == io::ErrorKind::NotFound => Ok(None),
        Err(error) => Err(error.into()),
    }
}

/// The bytes that hexadecimal digits are, behind `0x`.
pub fn bytes_of<const N: usize>(text: &str) -> Result<[u8; N]> {
    let digits = text.strip_prefix("0x").context("0x is wanted")?;
    let mut bytes = [0; N];
    hex::decode_to_slice(digits, &mut bytes)?;
    Ok(bytes)
}

impl Case {
    /// Reads the configuration, and what is given beside containers.
    pub fn load<R: Files + AllocGlobal>(rt: &R, config: &str, folder: &str) -> Result<Case> {
        let alloc = rt.alloc();
        let given = format!(in alloc; "{folder}/given")?;
        Ok(Case {
            folder: folder.to_string(alloc)?,
            config: Config::read(fs::read(rt, config)?.as_slice())?,
            given: fs::read_to_string(rt, given.as_str())?,
        })
    }

    /// The configuration.
    pub fn config(&self) -> &Config {
        &self.config
    }

    /// The bytes of a container, None where the case has none of this name.
    pub fn bytes_if_there<R: Files + AllocGlobal>(
        &self,
        rt: &R,
        name: &str,
    ) -> Result<Option<Vec<u8>>> {
        let folder = self.folder.as_str();
        let path = format!(in rt.alloc(); "{folder}/{name}.ssz")?;
        bytes_at(rt, path.as_str())
    }

    /// Whether the case has a container of this name.
    pub fn has<R: Files + AllocGlobal>(&self, rt: &R, name: &str) -> Result<bool> {
        Ok(self.bytes_if_there(rt, name)?.is_some())
    }

    /// The bytes of a container.
    pub fn bytes<R: Files + AllocGlobal>(&self, rt: &R, name: &str) -> Result<Vec<u8>> {
        match self.bytes_if_there(rt, name)? {
            Some(bytes) => Ok(bytes),
            None => bail!("{name}.ssz isn't there"),
        }
    }

    /// A container.
    pub fn value<T: Ssz>(&self, rt: &(impl Files + AllocGlobal), name: &str) -> Result<T> {
        let bytes = self.bytes(rt, name)?;
        match T::read(rt.alloc(), bytes.as_slice()) {
            Ok(value) => Ok(value),
            Err(fault) => bail!("{name}.ssz: {fault}"),
        }
    }

    /// A state of the configuration's preset.
    pub fn state<R: Files + AllocGlobal>(&self, rt: &R, name: &str) -> Result<State> {
        let bytes = self.bytes(rt, name)?;
        match State::read(rt.alloc(), self.config.preset(), bytes.as_slice()) {
            Ok(state) => Ok(state),
            Err(fault) => bail!("{name}.ssz: {fault}"),
        }
    }

    /// What is given under a key.
    pub fn word(&self, key: &str) -> Result<&str> {
        match value_in(self.given.as_str(), key) {
            Some(value) => Ok(value),
            None => bail!("{key} isn't given"),
        }
    }

    /// The number that is given under a key.
    pub fn number(&self, key: &str) -> Result<u64> {
        match self.word(key)?.parse::<u64>() {
            Ok(number) => Ok(number),
            Err(fault) => bail!("{key}: {fault}"),
        }
    }

    /// The root that is given under a key.
    pub fn root(&self, key: &str) -> Result<Root> {
        bytes_of::<32>(self.word(key)?)
    }
}
