//! The statuses of what was to be written.

ghost use Rattle.std.specs.Prelude.{◌≡◌};
ghost use Rattle.one_chain.specs.inside.Statuses.{unwritten, written};

use crate::status::Status;
use bc_outside::Trouble;

/// The status of a line that could not be written.
pub fn unwritten(trouble: Trouble) -> Status
    ensures { result ≡ unwritten trouble }
{
    match trouble {
        Trouble::Failed => Status::WriteFault,
        Trouble::NoMemory => Status::NoMemory,
    }
}

/// The status of a run whose lines were all to be written.
pub fn written(lines: Result<(), Trouble>) -> Status
    ensures { result ≡ written lines }
{
    match lines {
        Ok(()) => Status::Done,
        Err(trouble) => unwritten(trouble),
    }
}
