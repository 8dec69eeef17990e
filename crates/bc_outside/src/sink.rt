//! A place that takes bytes, in order.

ghost use Rattle.std.specs.Prelude.{◌<◌, length};
ghost use Rattle.bc_outside.specs.Told.{SinkTold};
ghost use Rattle.bc_outside.specs.Calls.{FailsOnlyBy, SinkKeeps, Writes};

use crate::Trouble;

/// Takes bytes, which stay behind one another in the order in which they were written.
pub trait Sink {
    /// What was taken, and how many faults were counted.
    ghost told: { Self → SinkTold };

    /// Writes from the front of a piece, at least one byte, and answers how many.
    fn write(&mut self, piece: &[u8]) -> Result<usize, Trouble>
        requires { 0 < length piece.now }
        ensures writes { Writes piece.now result (told self.old) (told self.new) }
        ensures causes { FailsOnlyBy result (told self.old).faults (told self.new).faults }
        ensures keeps { SinkKeeps (told self.old) (told self.new) };

    /// Whether it would hear now of the slot of the head. It changes nothing, and what is written doesn't depend on it.
    fn asks(&self) -> bool {
        false
    }

    /// Hears of the slot of the head, to show how far a run is. It changes nothing.
    fn hear(&self, _slot: u64) {}
}
