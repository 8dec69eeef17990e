//! Calls to the operating system, made again where they were interrupted.

ghost use Rattle.std.specs.Prelude.{◌≡◌, ◌≤◌, true, false, length, IfOk, IfErr};
ghost use Rattle.std.specs.Io.KnownBytes.{ReadConsumes, WriteAppends};
ghost use Rattle.bc_outside.specs.declared.trouble.Trouble.TheVariants.{Failed};
ghost use Rattle.bc_outside.specs.inside.Tries.{Tries, failed_otherwise, interrupted_by};

use crate::Trouble;
use crate::faults::FaultCounts;
use std::fs;
use std::io::{Error, ErrorKind, Read, Write};
use std::rt::Files;

/// How often a call is made while it is interrupted.
const PATIENCE: u32 = 1_000;

// Counts a call that failed, keeps its cause, and says whether it was interrupted, so that it is made again.
fn is_again(error: Error, faults: &mut FaultCounts, cause: &mut Option<Error>) -> bool
    ensures interrupted { result ≡ true → faults.new ≡ interrupted_by 1 faults.old }
    ensures otherwise { result ≡ false → faults.new ≡ failed_otherwise faults.old }
{
    let again = faults.count(&error);
    *cause = Some(error);
    again
}

/// Opens a file to be read, and keeps the last cause why it didn't.
pub fn open<R: Files>(
    files: &R,
    name: &str,
    faults: &mut FaultCounts,
    cause: &mut Option<Error>,
) -> Result<R::File, Trouble>
    ensures failed { IfErr result (λ trouble. trouble ≡ Failed) }
    ensures tries { Tries result faults.old faults.new }
{
    let _ = faults.interrupted();
    for _ in 0..PATIENCE {
        match fs::open(files, name) {
            Ok(file) => return Ok(file),
            Err(error) => {
                if !is_again(error, faults, cause) {
                    return Err(Trouble::Failed);
                }
            }
        }
    }
    Err(Trouble::Failed)
}

/// Reads once, into the front of a piece, and keeps the last cause why it didn't.
pub fn read<R: Read>(
    reader: &mut R,
    into: &mut [u8],
    faults: &mut FaultCounts,
    cause: &mut Option<Error>,
) -> Result<usize, Trouble>
    ensures within { IfOk result (λ n. n ≤ length into.old) }
    ensures bytes { ReadConsumes (R.remaining reader.old) (R.remaining reader.new) result into.new }
    ensures tries { Tries result faults.old faults.new }
{
    let _ = faults.interrupted();
    for _ in 0..PATIENCE {
        match reader.read(into) {
            Ok(n) => return Ok(n),
            Err(error) => {
                if !is_again(error, faults, cause) {
                    return Err(Trouble::Failed);
                }
            }
        }
    }
    Err(Trouble::Failed)
}

// Writes once. A writer that takes nothing has failed, with that as its cause.
fn write_some<W: Write>(writer: &mut W, piece: &[u8]) -> Result<usize, Error>
    ensures some { IfOk result (λ n. 1 ≤ n) }
    ensures within { IfOk result (λ n. n ≤ length piece.now) }
    ensures bytes { WriteAppends (W.contents writer.old) (W.contents writer.new) result piece.now }
{
    match writer.write(piece) {
        Ok(0) => Err(Error::from(ErrorKind::WriteZero)),
        written => written,
    }
}

/// Writes once, from the front of a piece, and keeps the last cause why it didn't. A writer that takes nothing has
/// failed, with that as its cause.
pub fn write<W: Write>(
    writer: &mut W,
    piece: &[u8],
    faults: &mut FaultCounts,
    cause: &mut Option<Error>,
) -> Result<usize, Trouble>
    ensures some { IfOk result (λ n. 1 ≤ n) }
    ensures within { IfOk result (λ n. n ≤ length piece.now) }
    ensures bytes { WriteAppends (W.contents writer.old) (W.contents writer.new) result piece.now }
    ensures tries { Tries result faults.old faults.new }
{
    let _ = faults.interrupted();
    for _ in 0..PATIENCE {
        match write_some(writer, piece) {
            Ok(taken) => return Ok(taken),
            Err(error) => {
                if !is_again(error, faults, cause) {
                    return Err(Trouble::Failed);
                }
            }
        }
    }
    Err(Trouble::Failed)
}
