//! A file system that is made up, with one file: each second read is interrupted, and the others hand out short pieces.

ghost use Rattle.std.specs.Prelude.{IsErr};

use std::alloc::{Allocator, Global};
use std::fs::{Metadata, OpenFile, OpenOptions};
use std::io::{self, Cursor, Error, ErrorKind, Read, Seek, SeekFrom, Write};
use std::rt::Files;

// How many bytes a call moves at most.
const STEP: usize = 777;

// What a call answers that nobody makes.
fn no_call<T>() -> io::Result<T>
    ensures { IsErr result }
{
    Err(Error::from(ErrorKind::Unsupported))
}

/// A file with these bytes under this name, and no other file.
#[derive(Drop)]
pub struct OneFile {
    pub alloc: Global,
    pub name: &'static str,
    pub bytes: Vec<u8>,
}

/// The file once it is opened.
#[derive(Drop)]
pub struct Opened {
    inner: Cursor<Vec<u8>>,
    interrupted: bool,
}

impl Read for Opened {
    fn read(&mut self, buf: &mut [u8]) -> io::Result<usize> {
        self.interrupted = !self.interrupted;
        if self.interrupted {
            return Err(Error::from(ErrorKind::Interrupted));
        }
        let len = buf.len().min(STEP);
        self.inner.read(&mut buf[..len])
    }
}

impl Write for Opened {
    fn write(&mut self, _buf: &[u8]) -> io::Result<usize> {
        no_call()
    }

    fn flush(&mut self) -> io::Result<()> {
        no_call()
    }
}

impl Seek for Opened {
    fn seek(&mut self, _to: SeekFrom) -> io::Result<u64> {
        no_call()
    }
}

impl OpenFile for Opened {
    fn metadata(&self) -> io::Result<Metadata> {
        no_call()
    }

    fn set_len(&self, _size: u64) -> io::Result<()> {
        no_call()
    }

    fn sync_all(&self) -> io::Result<()> {
        no_call()
    }

    fn sync_data(&self) -> io::Result<()> {
        no_call()
    }
}

impl Files for OneFile {
    type File = Opened;

    type Dir = Opened;

    fn open_file(&self, _how: &OpenOptions, path: &str) -> io::Result<Opened> {
        if path == self.name {
            Ok(Opened {
                inner: Cursor::new(Vec::from_slice(self.alloc, &self.bytes)?),
                interrupted: false,
            })
        } else {
            Err(Error::from(ErrorKind::NotFound))
        }
    }

    fn open_dir(&self, _path: &str) -> io::Result<Opened> {
        no_call()
    }

    fn metadata(&self, _path: &str) -> io::Result<Metadata> {
        no_call()
    }

    fn symlink_metadata(&self, _path: &str) -> io::Result<Metadata> {
        no_call()
    }

    fn copy(&self, _from: &str, _to: &str) -> io::Result<u64> {
        no_call()
    }

    fn rename(&self, _from: &str, _to: &str) -> io::Result<()> {
        no_call()
    }

    fn remove_file(&self, _path: &str) -> io::Result<()> {
        no_call()
    }

    fn create_dir(&self, _path: &str) -> io::Result<()> {
        no_call()
    }

    fn remove_dir(&self, _path: &str) -> io::Result<()> {
        no_call()
    }

    fn remove_dir_all<B: Allocator>(&self, _alloc: B, _path: &str) -> io::Result<()> {
        no_call()
    }
}

/// A writer that takes three bytes a call, and fails at the fifth.
#[derive(Drop)]
pub struct ThreeBytes {
    pub calls: u8,
}

impl Write for ThreeBytes {
    fn write(&mut self, buf: &[u8]) -> io::Result<usize> {
        self.calls = self.calls.saturating_add(1);
        if self.calls == 5 {
            return Err(Error::from(ErrorKind::StorageFull));
        }
        Ok(buf.len().min(3))
    }

    fn flush(&mut self) -> io::Result<()> {
        Ok(())
    }
}

/// A writer that takes nothing.
#[derive(Drop)]
pub struct TakesNothing;

impl Write for TakesNothing {
    fn write(&mut self, _buf: &[u8]) -> io::Result<usize> {
        Ok(0)
    }

    fn flush(&mut self) -> io::Result<()> {
        Ok(())
    }
}
