//! The versions of records.

/// The version of a record, by its first four bytes.
#[derive(Clone, Copy, PartialEq, Eq)]
pub enum Version {
    /// `BCR1`.
    One,
    /// `BCR2`, which has attester slashings too.
    Two,
}
