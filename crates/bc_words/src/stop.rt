//! Why a call stopped before its end.
//!
//! Each crate of the state transition answers these. Want of memory is a variant of its own everywhere.

ghost use Rattle.std.specs.Prelude.{◌≡◌};

use crate::refusal::Refusal;
use std::alloc::{AllocError, AllocFailed};
use std::fmt::{self, Formatter, Write};
use thiserror::Error;

/// A bound of this program that an event reached.
#[derive(Clone, Copy, Debug, PartialEq, Eq)]
pub enum Limit {
    /// The event is this many slots ahead of the state, more than one event may advance.
    Slots(u64),
    /// None of the candidates that may be tried for proposer passes.
    Proposer,
}

/// Memory was refused. What was lent to the call is as before it.
#[derive(Clone, Copy, Debug, PartialEq, Eq, Error)]
#[error(fmt = out_of_memory)]
pub struct NoMemory;

/// Why a step of the state transition gives no value.
#[derive(Clone, Copy, Debug, PartialEq, Eq, Error)]
pub enum Stop {
    /// The first check that failed.
    #[error(fmt = refused)]
    Refused(Refusal),
    /// A bound of this program.
    #[error(fmt = limited)]
    Limit(Limit),
    /// Memory was refused.
    #[error(fmt = out_of_memory)]
    NoMemory,
}

/// Why a list did not take one more item.
#[derive(Clone, Copy, Debug, PartialEq, Eq, Error)]
pub enum PushStop {
    /// The list has as many items as its limit.
    #[error("the list is full")]
    Full,
    /// Memory was refused.
    #[error(fmt = out_of_memory)]
    NoMemory,
}

/// Writes that a check failed.
pub(crate) fn refused<W: Write>(why: &Refusal, f: &mut Formatter<W>) -> fmt::Result {
    write!(f, "refused: {why:?}")
}

/// Writes that a bound of this program was reached.
pub(crate) fn limited<W: Write>(bound: &Limit, f: &mut Formatter<W>) -> fmt::Result {
    write!(f, "limit: {bound:?}")
}

/// Writes that memory was refused.
pub(crate) fn out_of_memory<W: Write>(f: &mut Formatter<W>) -> fmt::Result {
    f.write_str("out of memory")
}

impl From<AllocError> for NoMemory {
    ghost from_gives = { λ _ e. e ≡ record {} };

    fn from(_refused: AllocError) -> NoMemory {
        NoMemory
    }
}

impl<T: Drop> From<AllocFailed<T>> for NoMemory {
    ghost from_gives = { λ _ e. e ≡ record {} };

    fn from(_refused: AllocFailed<T>) -> NoMemory {
        NoMemory
    }
}

impl From<AllocError> for Stop {
    ghost use Rattle.bc_words.specs.declared.stop.Stop.TheVariants as stops;
    ghost use Rattle.std.specs.Prelude.{◌≡◌};

    ghost from_gives = { λ _ e. e ≡ stops.NoMemory };

    fn from(_refused: AllocError) -> Stop {
        Stop::NoMemory
    }
}

impl<T: Drop> From<AllocFailed<T>> for Stop {
    ghost use Rattle.bc_words.specs.declared.stop.Stop.TheVariants as stops;
    ghost use Rattle.std.specs.Prelude.{◌≡◌};

    ghost from_gives = { λ _ e. e ≡ stops.NoMemory };

    fn from(_refused: AllocFailed<T>) -> Stop {
        Stop::NoMemory
    }
}

impl From<NoMemory> for Stop {
    ghost use Rattle.bc_words.specs.declared.stop.Stop.TheVariants as stops;
    ghost use Rattle.std.specs.Prelude.{◌≡◌};

    ghost from_gives = { λ _ e. e ≡ stops.NoMemory };

    fn from(_refused: NoMemory) -> Stop {
        Stop::NoMemory
    }
}

impl From<AllocError> for PushStop {
    ghost use Rattle.bc_words.specs.declared.stop.PushStop.TheVariants as stops;
    ghost use Rattle.std.specs.Prelude.{◌≡◌};

    ghost from_gives = { λ _ e. e ≡ stops.NoMemory };

    fn from(_refused: AllocError) -> PushStop {
        PushStop::NoMemory
    }
}

impl<T: Drop> From<AllocFailed<T>> for PushStop {
    ghost use Rattle.bc_words.specs.declared.stop.PushStop.TheVariants as stops;
    ghost use Rattle.std.specs.Prelude.{◌≡◌};

    ghost from_gives = { λ _ e. e ≡ stops.NoMemory };

    fn from(_refused: AllocFailed<T>) -> PushStop {
        PushStop::NoMemory
    }
}

impl From<NoMemory> for PushStop {
    ghost use Rattle.bc_words.specs.declared.stop.PushStop.TheVariants as stops;
    ghost use Rattle.std.specs.Prelude.{◌≡◌};

    ghost from_gives = { λ _ e. e ≡ stops.NoMemory };

    fn from(_refused: NoMemory) -> PushStop {
        PushStop::NoMemory
    }
}

impl From<Refusal> for Stop {
    ghost use Rattle.bc_words.specs.declared.stop.Stop.TheVariants as stops;
    ghost use Rattle.std.specs.Prelude.{◌≡◌};

    ghost from_gives = { λ refusal e. e ≡ stops.Refused refusal };

    fn from(refusal: Refusal) -> Stop {
        Stop::Refused(refusal)
    }
}

impl From<PushStop> for Stop {
    ghost use Rattle.bc_words.specs.Outcome.{push_stop};
    ghost use Rattle.std.specs.Prelude.{◌≡◌};

    ghost from_gives = { λ stop e. e ≡ push_stop stop };

    fn from(stop: PushStop) -> Stop {
        match stop {
            PushStop::Full => Stop::Refused(Refusal::ListFull),
            PushStop::NoMemory => Stop::NoMemory,
        }
    }
}
