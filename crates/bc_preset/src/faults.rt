//! What can be wrong with a configuration.

use crate::keys::Key;
use thiserror::Error;

/// The first thing that is wrong with a configuration, in this order: its length, then line by line, then the keys
/// that are missing, then the values out of their range, each in the table's order. Lines count from 1.
#[derive(Clone, Copy, Debug, PartialEq, Eq, Error)]
pub enum ConfigFault {
    /// The file is longer than 65,536 bytes.
    #[error("the file is longer than 65536 bytes")]
    TooLong,
    /// The line is no key line, or its quotes are not closed, or something stands behind them.
    #[error("line {0}: expected a key at its start, a colon and a space, and nothing but a comment behind a closing quote")]
    BadLine(u64),
    /// The line sets a key of the table again.
    #[error("line {0}: expected a key that no earlier line has")]
    Twice(u64),
    /// The line's value is no number.
    #[error("line {0}: expected a decimal number without sign or leading zero, at most 18446744073709551615")]
    BadNumber(u64),
    /// The line's value is not the name of a preset.
    #[error("line {0}: expected the name of a preset, mainnet or minimal")]
    BadPreset(u64),
    /// No line sets this key.
    #[error("{} is missing: expected {}", .0.name(), .0.expected())]
    Missing(Key),
    /// The value of this key is outside its range.
    #[error("{} is out of range: expected {}", .0.name(), .0.expected())]
    OutOfRange(Key),
}
