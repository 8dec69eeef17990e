//! Where the reading of a record stands.

use crate::{RecordFault, Version};

/// What the next call of [`Frames::next`](crate::Frames::next) meets.
#[derive(Clone, Copy)]
pub enum Place {
    /// The record's first four bytes.
    AtMagic,
    /// A frame, or the end of a record of this version.
    AtFrame(Version),
    /// The fault at which reading stopped for good.
    Stopped(RecordFault),
}
