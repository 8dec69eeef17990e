//! Counts of calls to the operating system that failed.

ghost use Rattle.std.specs.Prelude.{◌≡◌, ◌≢◌, true, false};
ghost use Rattle.std.specs.IoError.{error_kind};
ghost use Rattle.bc_outside.specs.inside.Tries.{no_faults, interrupted_by, failed_otherwise};

use std::io::{Error, ErrorKind};

/// How many calls were interrupted, and how many failed otherwise. Each count stays at its last number.
#[derive(Clone, Copy)]
pub struct FaultCounts {
    interrupted: u64,
    others: u64,
}

impl FaultCounts {
    /// No call failed yet.
    pub fn new() -> Self
        ensures { result ≡ no_faults }
    {
        FaultCounts {
            interrupted: 0,
            others: 0,
        }
    }

    /// How many calls were interrupted.
    pub fn interrupted(&self) -> u64
        ensures { result ≡ self.now.interrupted }
    {
        self.interrupted
    }

    /// Counts a call that failed with this error, and says whether it was interrupted.
    pub fn count(&mut self, error: &Error) -> bool
        ensures interrupted { result ≡ true → (error_kind error.now ≡ ErrorKind.Interrupted) × (self.new ≡ interrupted_by 1 self.old) }
        ensures otherwise { result ≡ false → (error_kind error.now ≢ ErrorKind.Interrupted) × (self.new ≡ failed_otherwise self.old) }
    {
        let interrupted = error.kind() == ErrorKind::Interrupted;
        if interrupted {
            self.interrupted = self.interrupted.saturating_add(1);
        } else {
            self.others = self.others.saturating_add(1);
        }
        interrupted
    }
}
