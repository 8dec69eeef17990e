//! A record that was written is read again, and the two versions are read alike.

ghost use Rattle.record_file.specs.laws.Written.{ReadsAgain, ReadsAlike};

/// The record of some events reads as these events, to its end.
pub fn written_is_read_again()
    ensures { ReadsAgain }
{}

/// A record of version 1 reads as the record of version 2 with the same frames, unless it ends at a frame of kind 5.
pub fn versions_read_alike()
    ensures { ReadsAlike }
{}
