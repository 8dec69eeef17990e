//! Why a record could not be read on.

ghost use Rattle.std.specs.Prelude.{◌≡◌};
ghost use Rattle.record_file.specs.declared.fault.FrameStop.TheVariants.{NoMemory};

use bc_outside::Trouble;
use std::alloc::AllocError;
use thiserror::Error;

/// What is wrong with the bytes of a record, at the first event that can't be read.
#[derive(Clone, Copy, Debug, PartialEq, Eq, Error)]
pub enum RecordFault {
    /// The first four bytes are neither `BCR1` nor `BCR2`.
    #[error("a record begins with BCR1 or BCR2")]
    BadMagic,
    /// A frame begins after 2^22 events.
    #[error("more than 4194304 events")]
    TooMany,
    /// There is no such kind of frame in a record of this version.
    #[error("a frame of kind {0}, and kinds are 1 to 4, or with BCR2 1 to 5")]
    BadKind(u8),
    /// The file ends inside a frame.
    #[error("the record ends inside the event")]
    Torn,
    /// The payload's length is above 2^22.
    #[error("a payload of {0} bytes, where at most 4194304 are allowed")]
    TooLong(u32),
}

/// Why [`Frames::next`](crate::Frames::next) gave no event.
#[derive(Clone, Copy, Debug, PartialEq, Eq, Error)]
pub enum FrameStop {
    /// The record is faulty.
    #[error(transparent)]
    Fault(RecordFault),
    /// The shelf failed, and counted a fault.
    #[error("the record could not be read")]
    ReadFault,
    /// Memory ran out.
    #[error("out of memory")]
    NoMemory,
}

impl From<AllocError> for FrameStop {
    ghost from_gives = { λ _ stop. stop ≡ NoMemory };

    fn from(_: AllocError) -> Self {
        FrameStop::NoMemory
    }
}

impl From<Trouble> for FrameStop {
    ghost use Rattle.record_file.specs.Stops.{stop_of};

    ghost from_gives = { λ trouble stop. stop ≡ stop_of trouble };

    fn from(trouble: Trouble) -> Self {
        match trouble {
            Trouble::Failed => FrameStop::ReadFault,
            Trouble::NoMemory => FrameStop::NoMemory,
        }
    }
}
